//! Calls of lexers and of templates.
use crate::refused::environments::parsed;
use crate::refused::tried::{Tried, compared};
use isle_syntax::Refusal;
use isle_syntax::ast::{Def, Extractor, Pattern};
use isle_syntax::lexer::Lexer;
use std::alloc::{AllocError, Global};

/// What a lexer answers once, in a word.
fn word(lexer: &mut Lexer<'_>) -> &'static str {
    match lexer.next() {
        Ok(Some(_)) => "a token",
        Ok(None) => "the end",
        Err(Refusal::Fault(_)) => "a fault",
        Err(Refusal::Memory(_)) => "no memory",
    }
}

/// A text of so many symbols.
fn symbols(alloc: Global, size: u64) -> Result<String, AllocError> {
    let mut text = String::new(alloc);
    for _ in 0..size {
        text.push_str("symbol ")?;
    }
    Ok(text)
}

/// The tokens of a text of so many symbols, until one is refused or the text ends, and what is answered twice behind that.
pub fn next(alloc: Global, size: u64) -> Result<Tried, AllocError> {
    let text = symbols(alloc, size)?;
    let mut lexer = Lexer::new(alloc, 0, text.as_str());
    let mut last = word(&mut lexer);
    for _ in 0..size {
        if last == "a token" {
            last = word(&mut lexer);
        }
    }
    let (first, second) = (word(&mut lexer), word(&mut lexer));
    Ok(Tried {
        is_answered: last == "the end",
        state: format!(in alloc; "{last}, then {first}, then {second}")?,
    })
}

const EXTRACTOR: &str = "(extractor (e x y) (and (T.A x (T.B _ y)) z @ (T.A $C 5)))";

/// The extractor of a text. Its pattern is no template yet.
fn extractor(alloc: Global) -> Result<Extractor, AllocError> {
    match parsed(alloc, EXTRACTOR)?.pop() {
        Some(Def::Extractor(extractor)) => Ok(extractor),
        _ => Err(AllocError),
    }
}

/// The template of a pattern.
fn template(alloc: Global, extractor: &Extractor) -> Result<Pattern, AllocError> {
    if extractor.template.has_macro_arg() {
        return Err(AllocError);
    }
    extractor
        .template
        .make_macro_template(alloc, extractor.args.as_slice())
}

/// Makes a template a first time, which may be refused, and a second time.
pub fn make_template(alloc: Global) -> Result<Tried, AllocError> {
    let extractor = extractor(alloc)?;
    let first = template(alloc, &extractor);
    let second = template(alloc, &extractor)?;
    compared(alloc, first, &second)
}

/// Fills a template a first time, which may be refused, and a second time.
pub fn fill(alloc: Global) -> Result<Tried, AllocError> {
    let extractor = extractor(alloc)?;
    let template = template(alloc, &extractor)?;
    let patterns = vec![in alloc; extractor.template.clone()?, template.clone()?]?;
    let first = template.subst_macro_args(alloc, patterns.as_slice());
    let second = template.subst_macro_args(alloc, patterns.as_slice())?;
    compared(alloc, first, &second)
}
