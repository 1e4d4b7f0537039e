//! Why a term can't be run.

use crate::reasons::hindered::{Hindrance, hindrance_of};
use isle_program::Program;
use isle_program::facts::hindrances::gives_many;
use isle_program::facts::made::push_made;
use isle_rules::{Term, TermKind};
use isle_types::TermId;
use std::alloc::{AllocError, Global};

/// How a term comes to one that is hindered.
#[derive(Clone, Copy)]
enum Link {
    Itself,
    Calls,
    Reaches,
}

/// Why a term can't be run, in words; nothing where it can.
pub fn term_reason(
    alloc: Global,
    program: &Program,
    term: TermId,
) -> Result<Option<String>, AllocError> {
    if program.runnable(term) {
        return Ok(None);
    }
    if program.has_rules(term) {
        return hindered(alloc, program, term);
    }
    match program.terms().get_term(term) {
        Some(known) => Ok(Some(ruleless(alloc, program.name(term), known)?)),
        None => Ok(None),
    }
}

/// `f has no rules`.
fn ruleless(alloc: Global, name: &str, term: &Term) -> Result<String, AllocError> {
    match &term.kind {
        TermKind::EnumVariant { .. } | TermKind::Struct => {
            format!(in alloc; "{name} makes a value, and has no rules")
        }
        TermKind::Decl { .. } => {
            let answered = if is_answered(term) {
                ": the world answers it"
            } else {
                ""
            };
            format!(in alloc; "{name} has no rules{answered}")
        }
    }
}

/// Whether a world is asked for a term.
fn is_answered(term: &Term) -> bool {
    !gives_many(term) && (term.has_external_constructor() || term.has_external_extractor())
}

/// What hinders a term with rules, or the nearest term that it reaches.
fn hindered(alloc: Global, program: &Program, term: TermId) -> Result<Option<String>, AllocError> {
    let count = program.terms().terms().len();
    let mut marks = vec![in alloc; false; count]?;
    let mut reached = Vec::new(alloc);
    mark_each(&[term.index()], &mut marks, &mut reached)?;
    let mut called = 0;
    for place in 0..count {
        let Some(number) = reached.get(place) else {
            return Ok(None);
        };
        let at = TermId(*number);
        if let Some(found) = hindrance_of(program, at) {
            let told = told(alloc, program, term, link_at(place, called), at, found)?;
            return Ok(Some(told));
        }
        reach_made(alloc, program, at, &mut marks, &mut reached)?;
        if place == 0 {
            called = reached.len();
        }
    }
    Ok(None)
}

/// Marks the numbers of a list, and lists those that weren't marked.
fn mark_each(
    numbers: &[usize],
    marks: &mut Vec<bool>,
    reached: &mut Vec<usize>,
) -> Result<(), AllocError> {
    for number in numbers {
        if *number < marks.len() && !marks[*number] {
            reached.push(*number)?;
            marks[*number] = true;
        }
    }
    Ok(())
}

/// Adds the terms by which the rules of a term make values, where they aren't marked.
fn reach_made(
    alloc: Global,
    program: &Program,
    term: TermId,
    marks: &mut Vec<bool>,
    reached: &mut Vec<usize>,
) -> Result<(), AllocError> {
    let made = made_by(alloc, program, term)?;
    mark_each(made.as_slice(), marks, reached)
}

/// The terms by which the rules of a term make values.
fn made_by(alloc: Global, program: &Program, term: TermId) -> Result<Vec<usize>, AllocError> {
    let mut made = Vec::new(alloc);
    for place in program.rules_of(term) {
        if let Some(rule) = program.rules().get(*place) {
            push_made(rule, &mut made)?;
        }
    }
    Ok(made)
}

/// How a term comes to the one at a place of those that it reaches, of which so many are itself and called by its own rules.
fn link_at(place: usize, called: usize) -> Link {
    if place == 0 {
        Link::Itself
    } else if place < called {
        Link::Calls
    } else {
        Link::Reaches
    }
}

/// `f reaches g, which is multi`.
fn told(
    alloc: Global,
    program: &Program,
    term: TermId,
    link: Link,
    at: TermId,
    found: Hindrance,
) -> Result<String, AllocError> {
    let name = program.name(term);
    let other = program.name(at);
    let why = hindrance_text(alloc, program, found)?;
    match link {
        Link::Itself => format!(in alloc; "{name} {why}"),
        Link::Calls => format!(in alloc; "{name} calls {other}, which {why}"),
        Link::Reaches => format!(in alloc; "{name} reaches {other}, which {why}"),
    }
}

/// `is multi`, behind the name of a term.
fn hindrance_text(
    alloc: Global,
    program: &Program,
    found: Hindrance,
) -> Result<String, AllocError> {
    match found {
        Hindrance::Multi => String::from_str(alloc, "is multi"),
        Hindrance::TakesApart(term) => {
            let name = program.name(term);
            format!(in alloc; "has a rule that takes values apart by {name}, which is multi")
        }
        Hindrance::NamesConstant => {
            String::from_str(
                alloc,
                "has a rule that names a constant of an enum or struct",
            )
        }
    }
}
