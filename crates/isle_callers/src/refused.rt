//! Calls of the library, for `make refusals`, which refuses each request for memory in turn: what each call came to, and how what it
//! worked on stands behind it. The words are a call's name and of how many things it is; without words each call is made.
mod calls;
mod containers;
mod copies;
mod environments;
mod texts;
mod tried;

use std::alloc::{AllocError, Global};
use std::env::Args;
use std::io::{self, Write};
use std::process::ExitCode;
use tried::Tried;

/// Each call, and of how many things it is.
const CALLS: &str = "set 9
map 9
sorted 4
numbered 4
merge 4
remove 2
intern 4
report 4
terms 0
lexer 2
template 0
fill 0
tree 0
environment 0
value 0
read 0
call-plain 0
call 0";

/// What a call of a name came to; none where it is no call's name.
fn outcome(alloc: Global, name: &str, size: u64) -> Result<Option<Tried>, AllocError> {
    match name {
        "set" => Ok(Some(containers::insert_in_set(alloc, size)?)),
        "map" => Ok(Some(containers::insert_in_map(alloc, size)?)),
        "sorted" => Ok(Some(containers::insert_in_sorted(alloc, size)?)),
        "numbered" => Ok(Some(containers::insert_in_numbered(alloc, size)?)),
        "merge" => Ok(Some(containers::merge(alloc, size)?)),
        "remove" => Ok(Some(containers::remove(alloc, size)?)),
        "intern" => Ok(Some(environments::intern(alloc, size)?)),
        "report" => Ok(Some(environments::report(alloc, size)?)),
        "terms" => Ok(Some(environments::read_terms(alloc)?)),
        "lexer" => Ok(Some(texts::next(alloc, size)?)),
        _ => outcome_of_trees(alloc, name),
    }
}

/// The same of the calls that work on trees and values.
fn outcome_of_trees(alloc: Global, name: &str) -> Result<Option<Tried>, AllocError> {
    match name {
        "template" => Ok(Some(texts::make_template(alloc)?)),
        "fill" => Ok(Some(texts::fill(alloc)?)),
        "tree" => Ok(Some(copies::of_rule(alloc)?)),
        "environment" => Ok(Some(environments::copy_terms(alloc)?)),
        "value" => Ok(Some(copies::of_value(alloc)?)),
        "read" => Ok(Some(calls::read(alloc)?)),
        "call-plain" => Ok(Some(calls::call(alloc, true)?)),
        "call" => Ok(Some(calls::call(alloc, false)?)),
        _ => Ok(None),
    }
}

/// Writes what a call came to. Whether it was answered.
fn tell<W: Write>(alloc: Global, words: &str, output: &mut W) -> io::Result<bool> {
    let Some((name, size)) = words.split_once(' ') else {
        return Ok(false);
    };
    let Some(tried) = outcome(alloc, name, size.parse().unwrap_or(0))? else {
        return Ok(false);
    };
    let line = tried.line(alloc, words)?;
    writeln!(output, "{line}")?;
    Ok(tried.is_answered)
}

/// Writes what each call came to. Whether all were answered.
fn tell_all<W: Write>(alloc: Global, output: &mut W) -> io::Result<bool> {
    let mut is_answered = true;
    for words in CALLS.lines() {
        is_answered &= tell(alloc, words, output)?;
    }
    Ok(is_answered)
}

/// Words with spaces between.
fn joined(alloc: Global, words: Args) -> Result<String, AllocError> {
    let mut text = String::new(alloc);
    for word in words {
        if !text.is_empty() {
            text.push(' ')?;
        }
        text.push_str(word.as_str())?;
    }
    Ok(text)
}

/// The status that tells whether all calls were answered.
fn status(is_answered: bool) -> ExitCode {
    if is_answered {
        ExitCode::SUCCESS
    } else {
        ExitCode::from(5)
    }
}

/// Writes what each call came to.
pub fn run_all<R: Print + AllocGlobal>(rt: &R) -> io::Result<ExitCode> {
    Ok(status(tell_all(rt.alloc(), &mut io::writer(rt))?))
}

/// Writes what the call of the words came to, or what each came to.
pub fn run<R: Print + AllocGlobal>(rt: &R, words: Args) -> io::Result<ExitCode> {
    let words = joined(rt.alloc(), words)?;
    if words.is_empty() {
        return run_all(rt);
    }
    Ok(status(tell(rt.alloc(), words.as_str(), &mut io::writer(rt))?))
}
