//! Why a text isn't a call of a program.

use crate::reasons::arguments::{args_reason, opened_behind};
use crate::reasons::terms::term_reason;
use crate::reasons::words::{no_term, written};
use isle_program::Program;
use isle_syntax::Refusal;
use isle_syntax::error::Error;
use isle_syntax::lexer::Token;
use isle_values::queries::head_of;
use isle_values::values::tokens::tokens_of;
use std::alloc::{AllocError, Global};

/// What a query is.
const QUERY_FORM: &str = "a query is a list: (TERM ARGUMENT ..)";

/// Why a text isn't a call of the program, in words, on one line; nothing where it is one, or where no more is known than the fault's number.
pub fn query_reason(
    alloc: Global,
    program: &Program,
    text: &str,
) -> Result<Option<String>, AllocError> {
    let tokens = match tokens_of(alloc, text) {
        Ok(tokens) => tokens,
        Err(Refusal::Fault(error)) => return Ok(Some(token_fault(alloc, &error)?)),
        Err(Refusal::Memory(e)) => return Err(e),
    };
    match head_of(tokens.as_slice()) {
        Some((name, rest)) => call_reason(alloc, program, name, rest),
        None => Ok(Some(no_list(alloc, program, tokens.as_slice())?)),
    }
}

/// `this isn't an integer`.
fn token_fault(alloc: Global, error: &Error) -> Result<String, AllocError> {
    match error {
        Error::ParseError { msg, .. } if !msg.as_str().is_empty() => {
            String::from_str(alloc, msg.as_str())
        }
        _ => String::from_str(alloc, "a token is no token of the language"),
    }
}

/// Why a name and what stands behind it in its list are no call; nothing where they are.
fn call_reason(
    alloc: Global,
    program: &Program,
    name: &str,
    rest: &[Token],
) -> Result<Option<String>, AllocError> {
    let Some(term) = program.term(name) else {
        return Ok(Some(no_term(alloc, program, name)?));
    };
    match term_reason(alloc, program, term)? {
        Some(reason) => Ok(Some(reason)),
        None => args_reason(alloc, program, term, rest),
    }
}

/// Why tokens aren't one balanced list that begins with a symbol.
fn no_list(alloc: Global, program: &Program, tokens: &[Token]) -> Result<String, AllocError> {
    match tokens {
        [Token::Symbol(name)] => bare(alloc, program, name.as_str()),
        [Token::LParen, rest @ ..] => String::from_str(alloc, ill_list(rest)),
        _ => String::from_str(alloc, QUERY_FORM),
    }
}

/// `f: write (f ..)` where a name is that of a term.
fn bare(alloc: Global, program: &Program, name: &str) -> Result<String, AllocError> {
    match program.term(name) {
        Some(term) => written(alloc, name, program.arg_types(term).is_empty()),
        None => String::from_str(alloc, QUERY_FORM),
    }
}

/// Why tokens behind an opening parenthesis aren't the rest of one list that begins with a symbol.
fn ill_list(tokens: &[Token]) -> &'static str {
    match behind_list(tokens) {
        Some([]) => QUERY_FORM,
        Some(_) => "something stands behind the list",
        None => "a parenthesis is not closed",
    }
}

/// What stands behind the list that is open before these tokens, where it is closed.
fn behind_list(tokens: &[Token]) -> Option<&[Token]> {
    let mut opened = 1;
    for i in 0..tokens.len() {
        opened = opened_behind(&tokens[i], opened);
        if opened == 0 {
            return Some(&tokens[i + 1..]);
        }
    }
    None
}
