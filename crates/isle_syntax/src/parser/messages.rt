//! What parse errors say: what was expected, and what stands there.
ghost use Rattle.isle_syntax.specs.Inside.Told.{TellsSame};

use crate::lexer::Token;
use isle_ast::ast::Ident;
use isle_ast::error::Error;
use isle_ast::pos::Pos;
use isle_ast::{Refusal, Text};
use std::alloc::{AllocError, Global};

/// `expected a type's name, found '('`.
pub(crate) fn expected(
    alloc: Global,
    wanted: &str,
    next: Option<&(Pos, Token)>,
) -> Result<String, AllocError> {
    match next {
        Some((_, token)) => found(alloc, wanted, token),
        None => format!(in alloc; "expected {wanted}, found the end of the text"),
    }
}

/// The same of a token.
fn found(alloc: Global, wanted: &str, token: &Token) -> Result<String, AllocError> {
    match token {
        Token::LParen => format!(in alloc; "expected {wanted}, found '('"),
        Token::RParen => format!(in alloc; "expected {wanted}, found ')'"),
        Token::At => format!(in alloc; "expected {wanted}, found '@'"),
        Token::Symbol(text) => found_symbol(alloc, wanted, text.as_str()),
        Token::Int(number) => format!(in alloc; "expected {wanted}, found '{number}'"),
        Token::Big(number) => format!(in alloc; "expected {wanted}, found '{number}'"),
    }
}

/// The same of a symbol. A byte order mark, which isn't seen, is named.
fn found_symbol(alloc: Global, wanted: &str, text: &str) -> Result<String, AllocError> {
    if text.starts_with('\u{feff}') {
        format!(in alloc; "expected {wanted}, found a byte order mark")
    } else {
        format!(in alloc; "expected {wanted}, found '{text}'")
    }
}

/// A text with a line more.
fn with_line(msg: Text, line: &str) -> Result<Text, AllocError> {
    let mut text = msg.into_string();
    text.push_str("\n")?;
    text.push_str(line)?;
    Ok(Text::new(text))
}

/// A refusal whose parse error says a line more.
pub(crate) fn below(refusal: Refusal<Error>, line: &str) -> Refusal<Error>
    ensures { TellsSame refusal result }
{
    match refusal {
        Refusal::Fault(Error::ParseError { msg, span }) => match with_line(msg, line) {
            Ok(msg) => Refusal::Fault(Error::ParseError { msg, span }),
            Err(e) => Refusal::Memory(e),
        },
        other => other,
    }
}

/// Whether a declaration's flag stands where its term is named.
fn is_flag(text: &str) -> bool {
    text == "pure" || text == "multi" || text == "partial" || text == "rec"
}

/// A refusal behind the name of a declared term, which says the order of the flags where that is a flag.
pub(crate) fn in_order(refusal: Refusal<Error>, term: &Ident) -> Refusal<Error>
    ensures { TellsSame refusal result }
{
    if is_flag(term.0.as_str()) {
        below(
            refusal,
            "flags stand in the order pure, multi, partial, rec",
        )
    } else {
        unchanged(refusal)
    }
}

/// A refusal as it is.
pub(crate) fn unchanged(refusal: Refusal<Error>) -> Refusal<Error>
    ensures { TellsSame refusal result }
{
    refusal
}
