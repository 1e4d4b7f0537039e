//! Why the arguments of a query aren't those of its term.

use crate::reasons::misfits::value_reason;
use crate::reasons::unread::unread;
use crate::reasons::words::{Counted, ill_count, numbered};
use isle_program::Program;
use isle_syntax::lexer::Token;
use isle_types::{TermId, TypeId};
use isle_values::values::read_front;
use std::alloc::{AllocError, Global};

/// Why what stands behind a term's name in its list isn't the arguments of a call; nothing where it is.
pub(super) fn args_reason(
    alloc: Global,
    program: &Program,
    term: TermId,
    tokens: &[Token],
) -> Result<Option<String>, AllocError> {
    let items = items_in(alloc, tokens)?;
    let types = program.arg_types(term);
    if items.len() != types.len() {
        let name = program.name(term);
        let told = ill_count(alloc, name, Counted::Arguments, types.len(), items.len())?;
        return Ok(Some(told));
    }
    first_reason(alloc, program, items.as_slice(), types)
}

/// Why the first of these items that isn't a value of its type isn't.
fn first_reason(
    alloc: Global,
    program: &Program,
    items: &[&[Token]],
    types: &[TypeId],
) -> Result<Option<String>, AllocError> {
    for i in 0..items.len().min(types.len()) {
        if let Some(reason) = item_reason(alloc, program, items[i], types[i])? {
            return Ok(Some(numbered(alloc, "argument", i, reason.as_str())?));
        }
    }
    Ok(None)
}

/// The tokens from each item on that stands in a list before its closing parenthesis.
fn items_in(alloc: Global, tokens: &[Token]) -> Result<Vec<&[Token]>, AllocError> {
    let mut items = Vec::new(alloc);
    let mut opened = 0;
    for i in 0..tokens.len() {
        let closes = matches!(&tokens[i], Token::RParen);
        if opened == 0 && !closes {
            items.push(&tokens[i..])?;
        }
        opened = opened_behind(&tokens[i], opened);
    }
    Ok(items)
}

/// How many lists are open behind a token.
pub(super) fn opened_behind(token: &Token, opened: usize) -> usize {
    match token {
        Token::LParen => opened.saturating_add(1),
        Token::RParen => opened.saturating_sub(1),
        Token::Symbol(_) | Token::Int(_) | Token::Big(_) | Token::At => opened,
    }
}

/// Why no value of a type stands at the front of tokens; nothing where one does.
fn item_reason(
    alloc: Global,
    program: &Program,
    tokens: &[Token],
    ty: TypeId,
) -> Result<Option<String>, AllocError> {
    match read_front(alloc, tokens)? {
        Some((value, _count)) => value_reason(alloc, program, &value, ty),
        None => Ok(Some(unread(alloc, program, tokens)?)),
    }
}
