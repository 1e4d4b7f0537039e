//! Entries of a table world's text.
ghost use Rattle.std.specs.Prelude.{◌≡◌, ◌≤◌, ◌++◌, ◌∷◌, [], ℕ, List, IfOk, IfSome, IfNone, IsTrue, Option, true, false, length, take, codes};
ghost use Rattle.isle_syntax.specs.Tokens.Names.{is_ident};
ghost use Rattle.isle_syntax.specs.declared.lexer.Token.{Token as EntryToken};
ghost use Rattle.isle_syntax.specs.declared.lexer.Token.TheVariants.{LParen, RParen, Symbol};
ghost use Rattle.isle_rules.specs.Values.{ValueTrees, value_list};
ghost use Rattle.isle_values.specs.Values.Tokens.{tokens_all, AreSpellable};
ghost use Rattle.isle_values.specs.Worlds.Entries.{values_tokens, AreSpeltAs, part_tokens, IsSpeltPart, part_shown, side_word, lists_calls, lists_answers};
ghost use Rattle.isle_values.specs.Worlds.Entries.{entry_shown, entry_tokens, IsSpellableEntry, HaveNoEntry};

use crate::values::{Value, read_front};
use isle_syntax::lexer::Token;
use isle_syntax::{Text, is_ident};
use std::alloc::{AllocError, Global};

/// How an external term is called.
#[derive(Debug, Clone, Copy, PartialEq, Eq, PartialOrd, Ord)]
pub enum Side {
    /// It makes a value.
    Constructor,
    /// It takes a value apart.
    Extractor,
}

/// An entry: what a call of a term is answered.
#[derive(Drop)]
pub struct Entry {
    pub side: Side,
    pub term: Text,
    /// The values of the call; `None` stands for all calls that have no entry of their own.
    pub call: Option<Vec<Value>>,
    /// The values of the answer, if it answers.
    pub answer: Option<Vec<Value>>,
}

impl Side {
    /// Whether the values of a call stand in parentheses.
    pub fn lists_calls(self) -> bool
        ensures { result ≡ lists_calls self }
    {
        match self {
            Side::Constructor => true,
            Side::Extractor => false,
        }
    }

    /// Whether the values of an answer stand in parentheses.
    pub fn lists_answers(self) -> bool
        ensures { result ≡ lists_answers self }
    {
        match self {
            Side::Constructor => false,
            Side::Extractor => true,
        }
    }
}

/// Whether a token is a closing parenthesis.
fn is_closing(token: &Token) -> bool
    ensures yes { result ≡ true → token.now ≡ RParen }
    ensures no { token.now ≡ RParen → result ≡ true }
{
    match token {
        Token::RParen => true,
        Token::LParen | Token::At | Token::Symbol(_) | Token::Int(_) | Token::Big(_) => false,
    }
}

/// The values up to a closing parenthesis, and how many tokens they have with it.
fn read_list(alloc: Global, tokens: &[Token]) -> Result<Option<(Vec<Value>, usize)>, AllocError>
    ensures some { IfOk result (λ r. IfSome r (λ p. (p.1 ≤ length tokens.now) × AreSpellable (value_list p.0.items)
        × (take p.1 tokens.now ≡ tokens_all (value_list p.0.items) ++ RParen ∷ []))) }
    ensures none { IfOk result (λ r. IfNone r ((vs : ValueTrees) (rest : List EntryToken) → AreSpellable vs
        → tokens.now ≡ tokens_all vs ++ (RParen ∷ rest) → ⊥)) }
{
    let mut values = Vec::new(alloc);
    let mut at = 0;
    while at < tokens.len() {
        if is_closing(&tokens[at]) {
            return Ok(Some((values, at + 1)));
        }
        let Some((value, count)) = read_front(alloc, &tokens[at..])? else {
            return Ok(None);
        };
        values.push(value)?;
        at += count;
    }
    Ok(None)
}

/// Values in parentheses, and how many tokens they have with these.
fn read_listed(alloc: Global, tokens: &[Token]) -> Result<Option<(Vec<Value>, usize)>, AllocError>
    ensures some { IfOk result (λ r. IfSome r (λ p. (p.1 ≤ length tokens.now) × AreSpeltAs true (value_list p.0.items)
        × (take p.1 tokens.now ≡ values_tokens true (value_list p.0.items)))) }
    ensures none { IfOk result (λ r. IfNone r ((vs : ValueTrees) (rest : List EntryToken) → AreSpeltAs true vs
        → tokens.now ≡ values_tokens true vs ++ rest → ⊥)) }
{
    let [Token::LParen, rest @ ..] = tokens else {
        return Ok(None);
    };
    match read_list(alloc, rest)? {
        Some((values, count)) => Ok(Some((values, count + 1))),
        None => Ok(None),
    }
}

/// One value, and how many tokens it has.
fn read_single(alloc: Global, tokens: &[Token]) -> Result<Option<(Vec<Value>, usize)>, AllocError>
    ensures some { IfOk result (λ r. IfSome r (λ p. (p.1 ≤ length tokens.now) × AreSpeltAs false (value_list p.0.items)
        × (take p.1 tokens.now ≡ values_tokens false (value_list p.0.items)))) }
    ensures none { IfOk result (λ r. IfNone r ((vs : ValueTrees) (rest : List EntryToken) → AreSpeltAs false vs
        → tokens.now ≡ values_tokens false vs ++ rest → ⊥)) }
{
    match read_front(alloc, tokens)? {
        Some((value, count)) => {
            let mut values = Vec::with_capacity(alloc, 1)?;
            values.push(value)?;
            Ok(Some((values, count)))
        }
        None => Ok(None),
    }
}

/// Values, in parentheses or one alone, and how many tokens they have.
fn read_values_as(
    alloc: Global,
    tokens: &[Token],
    listed: bool,
) -> Result<Option<(Vec<Value>, usize)>, AllocError>
    ensures some { IfOk result (λ r. IfSome r (λ p. (p.1 ≤ length tokens.now) × AreSpeltAs listed (value_list p.0.items)
        × (take p.1 tokens.now ≡ values_tokens listed (value_list p.0.items)))) }
    ensures none { IfOk result (λ r. IfNone r ((vs : ValueTrees) (rest : List EntryToken) → AreSpeltAs listed vs
        → tokens.now ≡ values_tokens listed vs ++ rest → ⊥)) }
{
    if listed {
        let read = read_listed(alloc, tokens)?;
        Ok(read)
    } else {
        let read = read_single(alloc, tokens)?;
        Ok(read)
    }
}

/// Whether tokens begin with a word.
fn begins_with(tokens: &[Token], word: &str) -> bool
    ensures yes { result ≡ true → (rest : List EntryToken) × (tokens.now ≡ Symbol word.now ∷ rest) }
    ensures no { (rest : List EntryToken) → tokens.now ≡ Symbol word.now ∷ rest → result ≡ true }
{
    match tokens {
        [Token::Symbol(symbol), _rest @ ..] => symbol.as_str() == word,
        _ => false,
    }
}

/// A call or an answer, and how many tokens it has; a word stands for none.
fn read_part(
    alloc: Global,
    tokens: &[Token],
    listed: bool,
    word: &str,
) -> Result<Option<(Option<Vec<Value>>, usize)>, AllocError>
    ensures some { IfOk result (λ r. IfSome r (λ p. (p.1 ≤ length tokens.now) × IsSpeltPart listed (part_shown p.0)
        × (take p.1 tokens.now ≡ part_tokens listed word.now (part_shown p.0)))) }
    ensures none { IfOk result (λ r. IfNone r ((vs : Option ValueTrees) (rest : List EntryToken) → IsSpeltPart listed vs
        → tokens.now ≡ part_tokens listed word.now vs ++ rest → ⊥)) }
{
    if begins_with(tokens, word) {
        return Ok(Some((None, 1)));
    }
    match read_values_as(alloc, tokens, listed)? {
        Some((values, count)) => Ok(Some((Some(values), count))),
        None => Ok(None),
    }
}

/// The side that a word names.
fn side_named(word: &str) -> Option<Side>
    ensures some { IfSome result (λ side. word.now ≡ side_word side) }
    ensures none { IfNone result ((side : Side) → word.now ≡ side_word side → ⊥) }
{
    if word == "constructor" {
        Some(Side::Constructor)
    } else if word == "extractor" {
        Some(Side::Extractor)
    } else {
        None
    }
}

/// The side and the term of an entry, and the tokens behind them.
fn entry_head(tokens: &[Token]) -> Option<(Side, &Text, &[Token])>
    ensures some { IfSome result (λ p. (tokens.now ≡ LParen ∷ Symbol (side_word p.0) ∷ Symbol p.1.now ∷ p.2.now) × IsTrue (is_ident p.1.now)) }
    ensures none { IfNone result ((side : Side) (name : List ℕ) (rest : List EntryToken) → IsTrue (is_ident name)
        → tokens.now ≡ LParen ∷ Symbol (side_word side) ∷ Symbol name ∷ rest → ⊥) }
{
    match tokens {
        [
            Token::LParen,
            Token::Symbol(word),
            Token::Symbol(name),
            rest @ ..,
        ] => {
            if !is_ident(name.as_str()) {
                return None;
            }
            match side_named(word.as_str()) {
                Some(side) => Some((side, name, rest)),
                None => None,
            }
        }
        _ => None,
    }
}

/// Whether tokens begin with a closing parenthesis.
fn begins_closing(tokens: &[Token]) -> bool
    ensures yes { result ≡ true → (rest : List EntryToken) × (tokens.now ≡ RParen ∷ rest) }
    ensures no { (rest : List EntryToken) → tokens.now ≡ RParen ∷ rest → result ≡ true }
{
    match tokens {
        [Token::RParen, _rest @ ..] => true,
        _ => false,
    }
}

/// The answer of an entry of a side up to its closing parenthesis, and how many tokens they have with it.
fn read_answer(
    alloc: Global,
    tokens: &[Token],
    side: Side,
) -> Result<Option<(Option<Vec<Value>>, usize)>, AllocError>
    ensures some { IfOk result (λ r. IfSome r (λ p. (p.1 ≤ length tokens.now) × IsSpeltPart (lists_answers side) (part_shown p.0)
        × (take p.1 tokens.now ≡ part_tokens (lists_answers side) (codes "none") (part_shown p.0) ++ RParen ∷ []))) }
    ensures none { IfOk result (λ r. IfNone r ((answer : Option ValueTrees) (rest : List EntryToken) → IsSpeltPart (lists_answers side) answer
        → tokens.now ≡ part_tokens (lists_answers side) (codes "none") answer ++ (RParen ∷ rest) → ⊥)) }
{
    let Some((answer, count)) = read_part(alloc, tokens, side.lists_answers(), "none")? else {
        return Ok(None);
    };
    if begins_closing(&tokens[count..]) {
        Ok(Some((answer, count + 1)))
    } else {
        Ok(None)
    }
}

/// The call and the answer of an entry of a side up to its closing parenthesis, and how many tokens they have with it.
fn read_parts(
    alloc: Global,
    tokens: &[Token],
    side: Side,
) -> Result<Option<(Option<Vec<Value>>, Option<Vec<Value>>, usize)>, AllocError>
    ensures some { IfOk result (λ r. IfSome r (λ p. (p.2 ≤ length tokens.now) × IsSpeltPart (lists_calls side) (part_shown p.0)
        × IsSpeltPart (lists_answers side) (part_shown p.1)
        × (take p.2 tokens.now ≡ part_tokens (lists_calls side) (codes "else") (part_shown p.0)
        ++ (part_tokens (lists_answers side) (codes "none") (part_shown p.1) ++ RParen ∷ [])))) }
    ensures none { IfOk result (λ r. IfNone r ((call answer : Option ValueTrees) (rest : List EntryToken)
        → IsSpeltPart (lists_calls side) call → IsSpeltPart (lists_answers side) answer
        → tokens.now ≡ part_tokens (lists_calls side) (codes "else") call
        ++ (part_tokens (lists_answers side) (codes "none") answer ++ (RParen ∷ rest)) → ⊥)) }
{
    let Some((call, of_call)) = read_part(alloc, tokens, side.lists_calls(), "else")? else {
        return Ok(None);
    };
    match read_answer(alloc, &tokens[of_call..], side)? {
        Some((answer, count)) => Ok(Some((call, answer, of_call + count))),
        None => Ok(None),
    }
}

/// The entry at the front of tokens, and how many tokens it has.
pub fn read_entry(alloc: Global, tokens: &[Token]) -> Result<Option<(Entry, usize)>, AllocError>
    ensures some { IfOk result (λ r. IfSome r (λ p. (p.1 ≤ length tokens.now) × IsSpellableEntry (entry_shown p.0)
        × (take p.1 tokens.now ≡ entry_tokens (entry_shown p.0)))) }
    ensures none { IfOk result (λ r. IfNone r (HaveNoEntry tokens.now)) }
{
    let Some((side, name, rest)) = entry_head(tokens) else {
        return Ok(None);
    };
    match read_parts(alloc, rest, side)? {
        Some((call, answer, count)) => {
            let term = name.clone()?;
            let entry = Entry {
                side,
                term,
                call,
                answer,
            };
            Ok(Some((entry, count + 3)))
        }
        None => Ok(None),
    }
}
