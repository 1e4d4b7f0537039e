//! Why tokens spell no value.

use crate::reasons::words::written;
use isle_program::Program;
use isle_syntax::is_ident;
use isle_syntax::lexer::Token;
use isle_values::values::read_front;
use isle_values::values::typing::data_term;
use std::alloc::{AllocError, Global};

/// Why no value stands at the front of tokens, by the first of them that none has in its place.
pub(super) fn unread(
    alloc: Global,
    program: &Program,
    tokens: &[Token],
) -> Result<String, AllocError> {
    let mut is_head = false;
    for i in 0..tokens.len() {
        if let Some(reason) = token_reason(alloc, program, &tokens[i..], is_head)? {
            return Ok(reason);
        }
        is_head = matches!(&tokens[i], Token::LParen);
    }
    String::from_str(alloc, "no value stands here")
}

/// Why the first of tokens stands in no value; nothing where it may. At the head of a list stands its name.
fn token_reason(
    alloc: Global,
    program: &Program,
    tokens: &[Token],
    is_head: bool,
) -> Result<Option<String>, AllocError> {
    let Some(token) = tokens.first() else {
        return Ok(None);
    };
    if is_head {
        return head_reason(alloc, token);
    }
    match token {
        Token::Symbol(name) => match read_front(alloc, tokens)? {
            Some(_) => Ok(None),
            None => Ok(Some(no_value(alloc, program, name.as_str())?)),
        },
        Token::At => Ok(Some(String::from_str(alloc, "@ is no value")?)),
        Token::LParen | Token::RParen | Token::Int(_) | Token::Big(_) => Ok(None),
    }
}

/// Why a token isn't the name at the head of a list; nothing where it is.
fn head_reason(alloc: Global, token: &Token) -> Result<Option<String>, AllocError> {
    match token {
        Token::Symbol(name) if is_ident(name.as_str()) => Ok(None),
        _ => {
            let told = String::from_str(
                alloc,
                "a list begins with the name of a variant or struct",
            )?;
            Ok(Some(told))
        }
    }
}

/// `x is no value`, and `T.A: write (T.A)` of the name of a variant or struct.
fn no_value(alloc: Global, program: &Program, name: &str) -> Result<String, AllocError> {
    match data_term(program, name) {
        Some(term) => written(alloc, name, term.arg_tys.as_slice().is_empty()),
        None => format!(in alloc; "{name} is no value"),
    }
}
