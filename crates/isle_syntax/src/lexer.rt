//! The lexer, which gives the tokens of a text one after another with their positions.
ghost use Rattle.std.specs.Prelude.{◌≡◌, ◌≤◌, ◌↔◌, ◌∷◌, IsTrue, IsSome, IfSome, IfOk, IfErr, MatchOption, option_map, drop, length, List, ℕ, Bool};
ghost use Rattle.isle_syntax.specs.Tokens.PlacedTokens.{Placed, placed, IsInt, IsSymbol};
ghost use Rattle.isle_syntax.specs.Tokens.RemainingTokens.{failed, starved, remaining_pos, IsIn};
ghost use Rattle.isle_ast.specs.Errors.{RefusalAt, IfFault};
ghost use Rattle.isle_syntax.specs.Tokens.LexerCalls.{IsRemaining, GivesToken, AnswersEnd, ReportsFault, FailsForMemory, IfMemory, HasEnded, ahead};
ghost use Rattle.isle_syntax.specs.Tokens.TokensOf.{TokensOf};
ghost use Rattle.isle_syntax.specs.Tokens.Gaps.{lead_of};
ghost use Rattle.isle_syntax.specs.Tokens.Finding.{reading, next_of, nothing, fault, found};
ghost use Rattle.isle_syntax.specs.Tokens.Lookahead.{reading_of, state_of, IsAhead};

use crate::gap::{Lead, after_char, after_gap, lead_of};
use crate::number::number;
use crate::parser::unclosed::Source;
use crate::symbol::symbol;
pub use crate::symbol::{is_const_name, is_ident, is_name, is_pname, is_symbol};
use isle_ast::error::{Error, Span};
pub use isle_ast::pos::Pos;
use isle_ast::{Refusal, Text};
use std::alloc::{AllocError, Global};
use std::marker::Model;
use std::mem;

/// A token of the language.
#[derive(Debug, Clone, PartialEq, Eq, Drop)]
pub enum Token {
    /// An opening parenthesis.
    LParen,
    /// A closing parenthesis.
    RParen,
    /// A symbol.
    Symbol(Text),
    /// An integer from -2^127 to 2^127 - 1.
    Int(i128),
    /// An integer from 2^127 to 2^128 - 1.
    Big(u128),
    /// The sign `@`.
    At,
}

impl Token {
    /// Whether this is an integer.
    pub fn is_int(&self) -> bool
        ensures { IsTrue result ↔ IsInt self.now }
    {
        matches!(self, Token::Int(_) | Token::Big(_))
    }

    /// Whether this is a symbol.
    pub fn is_sym(&self) -> bool
        ensures { IsTrue result ↔ IsSymbol self.now }
    {
        matches!(self, Token::Symbol(_))
    }
}

/// What stands next in a text.
#[derive(Drop)]
enum Lookahead {
    Token((Pos, Token)),
    End,
    /// No token begins here, for this reason.
    Fault(&'static str),
    /// There was no memory for the next token.
    Memory(AllocError),
    /// The fault was reported.
    Failed,
}

/// The tokens of a text, one after another.
#[derive(Drop)]
pub struct Lexer<'src> {
    alloc: Global,
    file: usize,
    size: usize,
    text: &'src str,
    rest: &'src str,
    start: usize,
    lookahead: Lookahead,
}

impl<'src> Model for Lexer<'src> {
    ghost use Rattle.isle_syntax.specs.Tokens.RemainingTokens.{RemainingTokens};

    ghost Value = { RemainingTokens };

    ghost use Rattle.isle_syntax.specs.Tokens.Lookahead.{remaining_of, IsAhead};

    ghost view = { λ l. remaining_of (record { file = l.file; size = l.size }) l.lookahead l.start l.rest.now };

    ghost invariant = { λ l. IsAhead (record { file = l.file; size = l.size }) l.lookahead l.start l.rest.now };
}

impl<'src> Lexer<'src> {
    /// The tokens of the text of file number `file`. A fault of the first token, and that there was no memory for it,
    /// are reported by the first `next`.
    pub fn new(alloc: Global, file: usize, src: &'src str) -> Lexer<'src>
        ensures source { result.source ≡ record { file = file; size = length src.now } }
        ensures tokens { TokensOf result.source src.now result.left result.end result.clean }
        ensures only { (left : List Placed) (end : ℕ) (clean : Bool) → TokensOf result.source src.now left end clean
            → (result.left ≡ left) × (result.end ≡ end) × (result.clean ≡ clean) }
        ensures not_failed { ¬ (result.state ≡ failed) }
        ensures remaining { IsRemaining result }
    {
        let size = src.len();
        let (lookahead, start, rest) = look(alloc, file, size, src);
        Lexer {
            alloc,
            file,
            size,
            text: src,
            rest,
            start,
            lookahead,
        }
    }

    /// The next token and its position, or `None` at the text's end. After a refusal, also for memory, the lexer has
    /// failed for good: `next` answers a parse error with an empty message at `pos()`.
    ///
    /// A lexer is ready, starved or failed. A ready one gives the first token that is left (`GivesToken`), and is then
    /// ready, or starved where there was no memory for the token behind it. Where none is left, it answers the end of the
    /// text and stays as it is (`AnswersEnd`), or reports that no token begins there (`ReportsFault`) and has failed. A
    /// starved one refuses for memory and has failed (`FailsForMemory`), and so may a ready one that has no memory for its
    /// message. A failed one reports the fault again, without a message.
    pub fn next(&mut self) -> Result<Option<(Pos, Token)>, Refusal<Error>>
        ensures gives { IfOk result (λ t. MatchOption t (AnswersEnd self.old self.new) (GivesToken self.old self.new)) }
        ensures fault { IfErr result (λ refusal. IfFault refusal (ReportsFault self.old self.new)) }
        ensures memory { IfErr result (λ refusal. IfMemory refusal (FailsForMemory self.old self.new)) }
        ensures remaining { IsRemaining self.new }
        ensures placed { IfOk result (λ t. IfSome t (λ token. IsIn self.old.source token.0)) }
        ensures refused { IfErr result (RefusalAt (IsIn self.old.source)) }
    {
        match mem::replace(&mut self.lookahead, Lookahead::Failed) {
            Lookahead::Token(token) => {
                let (lookahead, start, rest) = look(self.alloc, self.file, self.size, self.rest);
                self.lookahead = lookahead;
                self.start = start;
                self.rest = rest;
                Ok(Some(token))
            }
            Lookahead::End => {
                self.lookahead = Lookahead::End;
                Ok(None)
            }
            Lookahead::Fault(reason) => {
                let msg = Text::from_str(self.alloc, reason)?;
                Err(Refusal::Fault(Error::ParseError {
                    msg,
                    span: Span::at(Pos::new(self.file, self.start)),
                }))
            }
            Lookahead::Memory(e) => Err(Refusal::Memory(e)),
            Lookahead::Failed => Err(Refusal::Fault(Error::ParseError {
                msg: Text::empty(self.alloc),
                span: Span::at(Pos::new(self.file, self.start)),
            })),
        }
    }

    /// The next token and its position; `None` at the end, from a fault on, and where there was no memory for it.
    pub fn peek(&self) -> Option<&(Pos, Token)>
        ensures next { option_map (λ token. placed token.now) result ≡ ahead self.now }
        ensures token { IfSome result (λ token. self.now.left ≡ placed token.now ∷ drop 1 self.now.left) }
        ensures placed { IfSome result (λ token. IsIn self.now.source token.now.0) }
        ensures remaining { IsRemaining self.now }
    {
        match &self.lookahead {
            Lookahead::Token(token) => Some(token),
            _ => None,
        }
    }

    /// Where the next token begins, or the end; from a fault on, where what wasn't read begins.
    pub fn pos(&self) -> Pos
        ensures place { result ≡ remaining_pos self.now }
        ensures within { IsIn self.now.source result }
        ensures remaining { IsRemaining self.now }
    {
        Pos::new(self.file, self.start)
    }

    /// Whether all tokens were given.
    pub fn eof(&self) -> bool
        ensures ended { IsTrue result ↔ HasEnded self.now }
        ensures remaining { IsRemaining self.now }
    {
        matches!(&self.lookahead, Lookahead::End)
    }

    /// The whole text, for messages.
    pub(crate) fn source(&self) -> Source<'src> {
        Source {
            alloc: self.alloc,
            file: self.file,
            text: self.text,
        }
    }

    /// The allocator that the tokens are made on.
    pub(crate) fn allocator(&self) -> Global
        ensures { IsRemaining self.now }
    {
        self.alloc
    }
}

/// What stands next in `rest`, the offset where it begins, and what follows it.
fn look(alloc: Global, file: usize, size: usize, rest: &str) -> (Lookahead, usize, &str)
    requires { length rest.now ≤ size }
    ensures same { reading_of (record { file = file; size = size }) result.0 result.1 result.2.now
        ≡ reading (record { file = file; size = size }) rest.now }
    ensures ahead { IsAhead (record { file = file; size = size }) result.0 result.1 result.2.now }
    ensures not_failed { ¬ (state_of result.0 ≡ failed) }
{
    let text = after_gap(rest);
    let start = size.saturating_sub(text.len());
    match read_token(alloc, text) {
        Ok(Some((token, more))) => (
            Lookahead::Token((Pos::new(file, start), token)),
            start,
            more,
        ),
        Ok(None) => (Lookahead::End, start, text),
        Err(Refusal::Fault(reason)) => (Lookahead::Fault(reason), start, text),
        Err(Refusal::Memory(e)) => (Lookahead::Memory(e), start, text),
    }
}

/// The token at the front of a text that begins with no gap, and what follows it; `None` at the end.
fn read_token(alloc: Global, text: &str) -> Result<Option<(Token, &str)>, Refusal<&'static str>>
    ensures read { IfOk result (λ o. MatchOption o (next_of text.now ≡ nothing) (λ r. next_of text.now ≡ found r.0 r.1.now)) }
    ensures no_token { IfErr result (λ refusal. IfFault refusal (λ _. next_of text.now ≡ fault)) }
    ensures no_memory { IfErr result (λ refusal. IfMemory refusal (lead_of text.now ≡ Lead.Word)) }
{
    match lead_of(text.as_bytes()) {
        Lead::Opening => Ok(Some((Token::LParen, after_char(text)))),
        Lead::Closing => Ok(Some((Token::RParen, after_char(text)))),
        Lead::AtSign => Ok(Some((Token::At, after_char(text)))),
        Lead::Number => match number(text) {
            Some(read) => Ok(Some(read)),
            None => Err(Refusal::Fault("this isn't an integer")),
        },
        Lead::Word => {
            let (word, rest) = symbol(text);
            Ok(Some((Token::Symbol(Text::from_str(alloc, word)?), rest)))
        }
        Lead::Comment => Err(Refusal::Fault("this comment isn't closed")),
        Lead::Space => Err(Refusal::Fault("no token begins here")),
        Lead::Line => Err(Refusal::Fault("no token begins here")),
        Lead::End => Ok(None),
    }
}
