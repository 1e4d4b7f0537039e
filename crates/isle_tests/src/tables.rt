//! Tables of texts, with what is wanted of each.
use crate::layout::changes::{CHANGES, changed};
use crate::layout::{KEPT, PARTS, kept, part};
use crate::syntax::lexer::{CLASSES, classes};
use crate::syntax::trees::{OFFSETS, offsets};
use crate::terms::{FUNCTIONS, IDENTIFIERS, functions, identifiers};
use std::alloc::Global;
use std::test::Fail;

/// What is asked of a text.
#[derive(Clone, Copy)]
enum Asked {
    /// What it is as a symbol.
    Classes,
    /// Where its nodes stand.
    Offsets,
    /// What is printed of a part of that name.
    Parts,
    /// What it is laid out as with its comments.
    Kept,
    /// What changes between its two texts.
    Changed,
    /// The functions of the host that stand for its term.
    Functions,
    /// What its rules are called.
    Identifiers,
}

fn answer(alloc: Global, asked: Asked, text: &str) -> Result<String, Fail> {
    match asked {
        Asked::Classes => classes(alloc, text),
        Asked::Offsets => offsets(alloc, text),
        Asked::Parts => part(alloc, text),
        Asked::Kept => kept(alloc, text),
        Asked::Changed => changed(alloc, text),
        Asked::Functions => functions(alloc, text),
        Asked::Identifiers => identifiers(alloc, text),
    }
}

/// The first row of a table that is answered otherwise, with the answer, or nothing. Each row begins a line with `| `, and an arrow stands
/// between its text and what is wanted of it, but for spaces and newlines at its ends.
fn first_mistake(alloc: Global, asked: Asked, table: &str) -> Result<String, Fail> {
    for row in table.split("\n| ").skip(1) {
        let (text, wanted) = row.split_once(" → ").ok_or("an arrow")?;
        let found = answer(alloc, asked, text)?;
        if found.as_str().trim() != wanted {
            return Ok(format!(in alloc; "{row}, not {found}")?);
        }
    }
    Ok(String::new(alloc))
}

#[test]
fn texts_are_answered(rt: HostRuntime) -> Result<(), Fail> {
    for (asked, table) in [
        (Asked::Classes, CLASSES),
        (Asked::Offsets, OFFSETS),
        (Asked::Parts, PARTS),
        (Asked::Kept, KEPT),
        (Asked::Changed, CHANGES),
        (Asked::Functions, FUNCTIONS),
        (Asked::Identifiers, IDENTIFIERS),
    ] {
        assert_eq!(rt; first_mistake(rt.alloc(), asked, table)?.as_str(), "");
    }
    Ok(())
}
