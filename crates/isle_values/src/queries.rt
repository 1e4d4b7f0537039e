//! Queries: the call of a term that a text spells, its arguments read at their types, or why the text is no call.
ghost use Rattle.std.specs.Prelude.{◌≡◌, ◌↔◌, ◌<◌, ℕ, List, [], IfOk, IfErr, IfSome, IfNone, IsTrue, map, Some};
ghost use Rattle.isle_rules.specs.Values.{ValueTrees, value_list};
ghost use Rattle.isle_meaning.specs.ValueTypes.{AreOfTypes};
ghost use Rattle.isle_program.specs.Programs.{value_facts, number_of, types_taken, types_of, terms_of, program_term};
ghost use Rattle.isle_values.specs.Values.Settled.{settled_all};
ghost use Rattle.isle_values.specs.Queries.{NoneAreTyped, AreSettled, RefusesName, RefusesText, IsCallIn};
ghost use Rattle.isle_values.specs.Values.Tokens.{SpellArguments};
ghost use Rattle.isle_values.specs.Values.TextTokens.{AreTokensOf};
ghost use Rattle.isle_values.specs.Values.Lists.{Closes, IsListOf, opened_after};
ghost use Rattle.isle_syntax.specs.declared.lexer.Token.{Token as ListToken};
ghost use Rattle.isle_program.specs.Facts.Reach.{IsRunnable};

use crate::values::tokens::tokens_of;
use crate::values::{Value, read_front};
use isle_program::Program;
use isle_syntax::Refusal;
use isle_syntax::lexer::{Lexer, Token};
use isle_types::{TermId, TypeId};
use std::alloc::{AllocError, Global};

/// Why a query isn't a call, in the order of checking after `Q4`.
#[derive(Debug, Drop)]
pub enum QueryFault {
    /// No term has this name.
    Q1,
    /// The term can't be called.
    Q2,
    /// The number of arguments is another one, or one isn't a value of its type.
    Q3,
    /// The text has a token fault, or isn't one balanced list that begins with a symbol.
    Q4,
    Memory(AllocError),
}

impl From<AllocError> for QueryFault {
    ghost use Rattle.std.specs.Prelude.{◌≡◌, alloc_error};
    ghost use Rattle.isle_values.specs.declared.queries.QueryFault.TheVariants.{Memory};

    ghost from_gives = { λ _ fault. fault ≡ Memory alloc_error };

    fn from(e: AllocError) -> QueryFault {
        QueryFault::Memory(e)
    }
}

/// Whether a text has no token and no token fault: it is white space and comments alone.
pub fn is_blank(alloc: Global, text: &str) -> Result<bool, AllocError>
    ensures { IfOk result (λ blank. IsTrue blank ↔ AreTokensOf text.now []) }
{
    let mut lexer = Lexer::new(alloc, 0, text);
    match lexer.next() {
        Ok(None) => Ok(true),
        Err(Refusal::Memory(_)) => Err(AllocError),
        _ => Ok(false),
    }
}

/// How many lists are open behind a token.
fn opened_after(token: &Token, opened: usize) -> usize
    requires { (0 < opened) × (opened < usize.MAX) }
    ensures { result ≡ opened_after token.now opened }
{
    match token {
        Token::LParen => opened + 1,
        Token::RParen => opened - 1,
        Token::Symbol(_) | Token::Int(_) | Token::Big(_) | Token::At => opened,
    }
}

/// Whether the parenthesis that is open before these tokens closes at the last one.
fn closes_at_end(tokens: &[Token]) -> bool
    ensures { IsTrue result ↔ Closes 1 tokens.now }
{
    let mut opened: usize = 1;
    for i in 0..tokens.len() {
        opened = opened_after(&tokens[i], opened);
        if opened == 0 {
            return i + 1 == tokens.len();
        }
    }
    false
}

/// The name at the head of one balanced list, and the tokens behind it.
pub fn head_of(tokens: &[Token]) -> Option<(&str, &[Token])>
    ensures some { IfSome result (λ p. IsListOf tokens.now p.0.now p.1.now) }
    ensures none { IfNone result ((name : List ℕ) (rest : List ListToken) → IsListOf tokens.now name rest → ⊥) }
{
    match tokens {
        [Token::LParen, Token::Symbol(name), rest @ ..] => {
            if closes_at_end(rest) {
                Some((name.as_str(), rest))
            } else {
                None
            }
        }
        _ => None,
    }
}

/// The term of a name, where it can be called.
fn callable(program: &Program, name: &str) -> Result<TermId, QueryFault>
    ensures named { IfOk result (λ term. program_term program.now name.now ≡ Some term) }
    ensures callable { IfOk result (λ term. IsRunnable (types_of program.now) (terms_of program.now) term.0) }
    ensures refused { IfErr result (RefusesName program.now name.now) }
{
    let Some(term) = program.term(name) else {
        return Err(QueryFault::Q1);
    };
    if program.runnable(term) {
        Ok(term)
    } else {
        Err(QueryFault::Q2)
    }
}

/// The call that a text spells.
pub fn query(
    alloc: Global,
    program: &Program,
    text: &str,
) -> Result<(TermId, Vec<Value>), QueryFault>
    ensures callable { IfOk result (λ call. IsRunnable (types_of program.now) (terms_of program.now) call.0.0) }
    ensures spelt { IfOk result (λ call. IsCallIn program.now text.now call.0 (value_list call.1.items)) }
    ensures typed { IfOk result (λ call. AreOfTypes (value_facts program.now) (value_list call.1.items) (types_taken program.now call.0)) }
    ensures refused { IfErr result (RefusesText program.now text.now) }
{
    let tokens = match tokens_of(alloc, text) {
        Ok(tokens) => tokens,
        Err(Refusal::Fault(_)) => return Err(QueryFault::Q4),
        Err(Refusal::Memory(e)) => return Err(QueryFault::Memory(e)),
    };
    let Some((name, rest)) = head_of(tokens.as_slice()) else {
        return Err(QueryFault::Q4);
    };
    let term = callable(program, name)?;
    match read_args(alloc, program, term, rest)? {
        Some(args) => Ok((term, args)),
        None => Err(QueryFault::Q3),
    }
}

/// The arguments of a term's call up to its closing parenthesis, or `None` where their number is another one or one
/// isn't a value of its type.
fn read_args(
    alloc: Global,
    program: &Program,
    term: TermId,
    tokens: &[Token],
) -> Result<Option<Vec<Value>>, AllocError>
    ensures spelt { IfOk result (λ r. IfSome r (λ args. (spelt : ValueTrees) × SpellArguments tokens.now spelt
        × (settled_all (value_facts program.now) spelt (types_taken program.now term) ≡ value_list args.items))) }
    ensures typed { IfOk result (λ r. IfSome r (λ args. AreOfTypes (value_facts program.now) (value_list args.items)
        (types_taken program.now term))) }
    ensures none { IfOk result (λ r. IfNone r (NoneAreTyped program.now term tokens.now)) }
{
    match read_values(alloc, tokens)? {
        Some(values) => settle_values(alloc, program, values, program.arg_types(term)),
        None => Ok(None),
    }
}

/// Values, read at these types, one each, where they are then of these.
pub(crate) fn settle_values(
    alloc: Global,
    program: &Program,
    values: Vec<Value>,
    types: &[TypeId],
) -> Result<Option<Vec<Value>>, AllocError>
    ensures some { IfOk result (λ r. IfSome r (λ settled. AreSettled program.now (value_list values.items)
        (map number_of types.now) (value_list settled.items))) }
    ensures none { IfOk result (λ r. IfNone r ((settled : ValueTrees) → AreSettled program.now (value_list values.items)
        (map number_of types.now) settled → ⊥)) }
{
    if values.len() != types.len() {
        return Ok(None);
    }
    let mut settled = Vec::with_capacity(alloc, types.len())?;
    for value in values {
        let Some(value) = value.settle(alloc, program, types[settled.len()])? else {
            return Ok(None);
        };
        settled.push(value)?;
    }
    Ok(Some(settled))
}

/// The values that tokens spell one behind the other, up to a closing parenthesis at the end.
fn read_values(alloc: Global, tokens: &[Token]) -> Result<Option<Vec<Value>>, AllocError>
    ensures some { IfOk result (λ r. IfSome r (λ values. SpellArguments tokens.now (value_list values.items))) }
    ensures none { IfOk result (λ r. IfNone r ((values : ValueTrees) → SpellArguments tokens.now values → ⊥)) }
{
    let mut values = Vec::new(alloc);
    let mut at = 0;
    while at + 1 < tokens.len() {
        let Some((value, count)) = read_front(alloc, &tokens[at..])? else {
            return Ok(None);
        };
        values.push(value)?;
        at += count;
    }
    match tokens.get(at) {
        Some(Token::RParen) => Ok(Some(values)),
        _ => Ok(None),
    }
}
