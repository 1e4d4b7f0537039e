//! What the writer of accepted files is warned of.
use isle_run::warnings::{Warning, warnings};
use isle_run::{Program, place_text};
use isle_syntax::Refusal;
use isle_syntax::ast::Def;
use isle_syntax::files::Files;
use isle_syntax::lexer::Lexer;
use isle_syntax::parser::parse;
use std::alloc::{AllocError, Global};

/// Two lines for each warning, `FILE:LINE:COLUMN: warning` and the message behind two spaces, by place.
pub fn warnings_text(
    alloc: Global,
    program: &Program,
    files: &Files,
) -> Result<String, AllocError> {
    let defs = definitions(alloc, files)?;
    let mut text = String::new(alloc);
    for warning in &warnings(alloc, program, defs.as_slice())? {
        push_warning(alloc, &mut text, files, warning)?;
    }
    Ok(text)
}

/// Writes the lines of a warning behind others.
fn push_warning(
    alloc: Global,
    lines: &mut String,
    files: &Files,
    warning: &Warning,
) -> Result<(), AllocError> {
    let place = place_text(alloc, files, warning.pos)?;
    lines.push_str(place.as_str())?;
    lines.push_str(": warning\n  ")?;
    lines.push_str(warning.text.as_str())?;
    lines.push_str("\n")
}

/// The definitions of all files, in their order; of a text that isn't spelt none.
fn definitions(alloc: Global, files: &Files) -> Result<Vec<Def>, AllocError> {
    let mut defs = Vec::new(alloc);
    for file in 0..files.len() {
        let text = files.file_text(file).unwrap_or("");
        match parse(Lexer::new(alloc, file, text)) {
            Ok(parsed) => append(&mut defs, parsed)?,
            Err(Refusal::Fault(_fault)) => {}
            Err(Refusal::Memory(e)) => return Err(e),
        }
    }
    Ok(defs)
}

/// Moves definitions behind others.
fn append(defs: &mut Vec<Def>, parsed: Vec<Def>) -> Result<(), AllocError> {
    for def in parsed {
        defs.push(def)?;
    }
    Ok(())
}
