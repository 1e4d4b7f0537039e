//! Words that several reasons have.

use isle_program::Program;
use std::alloc::{AllocError, Global};

/// How many characters of a printed value are told.
const LONGEST: usize = 60;

/// What is counted behind a name.
#[derive(Clone, Copy)]
pub(super) enum Counted {
    /// What a term is called with.
    Arguments,
    /// What an extractor gives.
    Outputs,
    /// What a variant or a struct has.
    Fields,
}

impl Counted {
    /// The verb that stands before the count, and the noun behind it.
    fn words(self) -> (&'static str, &'static str) {
        match self {
            Counted::Arguments => ("takes", "argument"),
            Counted::Outputs => ("gives", "value"),
            Counted::Fields => ("takes", "field"),
        }
    }
}

/// `f takes 1 argument, 2 are given`.
pub(super) fn ill_count(
    alloc: Global,
    name: &str,
    counted: Counted,
    wanted: usize,
    given: usize,
) -> Result<String, AllocError> {
    let (verb, noun) = counted.words();
    let plural = if wanted == 1 { "" } else { "s" };
    let are = if given == 1 { "is" } else { "are" };
    format!(in alloc; "{name} {verb} {wanted} {noun}{plural}, {given} {are} given")
}

/// `argument 2: REASON`, of the part at a place from 0.
pub(super) fn numbered(
    alloc: Global,
    part: &str,
    place: usize,
    reason: &str,
) -> Result<String, AllocError> {
    let number = place as u128 + 1;
    format!(in alloc; "{part} {number}: {reason}")
}

/// `(f)`, or `(f ..)` of a list that has something behind its name.
pub(super) fn listed(alloc: Global, name: &str, is_alone: bool) -> Result<String, AllocError> {
    let below = if is_alone { "" } else { " .." };
    format!(in alloc; "({name}{below})")
}

/// `f: write (f ..)`, of the name of a list.
pub(super) fn written(alloc: Global, name: &str, is_alone: bool) -> Result<String, AllocError> {
    let list = listed(alloc, name, is_alone)?;
    format!(in alloc; "{name}: write {list}")
}

/// `f is the name of no term`.
pub(super) fn no_term(alloc: Global, program: &Program, name: &str) -> Result<String, AllocError> {
    if program.type_named(name).is_some() {
        format!(in alloc; "{name} is a type, and no term")
    } else {
        format!(in alloc; "{name} is the name of no term")
    }
}

/// A text, which ends with ` ..` where it is longer than is told.
pub(super) fn shortened(alloc: Global, text: &str) -> Result<String, AllocError> {
    let mut head: String = text.chars().take(LONGEST).collect(alloc)?;
    if head.len() < text.len() {
        head.push_str(" ..")?;
    }
    Ok(head)
}
