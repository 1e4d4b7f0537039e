//! The names of what the lines below a pattern speak of.
use super::case::{Case, is_marked, mark, mark_all, no_texts, put_text};
use super::kinds::{Kind, kind_at};
use crate::verdict::Told;
use isle_blocks::{Binding, BindingId, Constraint};
use std::alloc::{AllocError, Global};

/// The names, in the order in which they are given.
const LETTERS: [&str; 26] = [
    "x", "y", "z", "a", "b", "c", "d", "e", "f", "g", "h", "i", "j", "k", "l", "m", "n", "o", "p",
    "q", "r", "s", "t", "u", "v", "w",
];

/// The sites of which lines speak.
#[derive(Drop)]
struct Spoken {
    /// Those that differ, or that fail tests.
    itself: Vec<bool>,
    /// Those with what is in the calls' texts.
    within: Vec<bool>,
}

/// The name of each used site of which the lines speak, if it has no other text.
pub(super) fn names_of(
    alloc: Global,
    case: &Case<'_>,
    kinds: &[Option<Kind>],
) -> Result<Vec<Option<String>>, AllocError> {
    let spoken = spoken_sites(alloc, case, kinds)?;
    let mut names = no_texts(alloc, case.set.bindings().len())?;
    let mut count = 0usize;
    for site in case.used {
        if takes_name(case, &spoken, *site) {
            put_text(&mut names, *site, name_text(alloc, count)?);
            count = count.saturating_add(1);
        }
    }
    Ok(names)
}

/// Whether a site is told by a name.
fn takes_name(case: &Case<'_>, spoken: &Spoken, site: BindingId) -> bool {
    match case.binding(site) {
        Some(
            Binding::Argument { .. }
            | Binding::MatchVariant { .. }
            | Binding::ExtractStruct { .. }
            | Binding::MatchTuple { .. },
        ) => is_marked(spoken.within.as_slice(), site),
        Some(Binding::MatchSome { .. } | Binding::Iterator { .. }) => is_marked(
            spoken.itself.as_slice(),
            site,
        ),
        _ => false,
    }
}

/// The name of a number: a letter, and behind the last one `x1`, `x2`, and so on.
fn name_text(alloc: Global, count: usize) -> Result<String, AllocError> {
    match LETTERS.get(count) {
        Some(letter) => String::from_str(alloc, letter),
        None => {
            let number = count.saturating_sub(25);
            format!(in alloc; "x{number}")
        }
    }
}

/// The sites of which the lines speak.
fn spoken_sites(
    alloc: Global,
    case: &Case<'_>,
    kinds: &[Option<Kind>],
) -> Result<Spoken, AllocError> {
    let itself = compared_sites(alloc, case, kinds)?;
    let mut within = itself.clone()?;
    for site in case.used.iter().rev() {
        if let Some(binding) = case.binding(*site) {
            if is_call(binding) || is_marked(within.as_slice(), *site) && is_made(binding) {
                mark_all(&mut within, binding.sources());
            }
        }
    }
    Ok(Spoken { itself, within })
}

/// Whether a site is a call.
pub(super) fn is_call(binding: &Binding) -> bool {
    match binding {
        Binding::Extractor { .. } | Binding::Constructor { .. } => true,
        _ => false,
    }
}

/// Whether the text of a site, which is no call, is made of those of its parts.
fn is_made(binding: &Binding) -> bool {
    match binding {
        Binding::MakeVariant { .. } | Binding::MakeStruct { .. } | Binding::MakeSome { .. } => true,
        Binding::MatchSome { .. } | Binding::Iterator { .. } => true,
        _ => false,
    }
}

/// The sites that differ from others, and those without a kind that fail tests.
fn compared_sites(
    alloc: Global,
    case: &Case<'_>,
    kinds: &[Option<Kind>],
) -> Result<Vec<bool>, AllocError> {
    let mut marks = vec![in alloc; false; case.set.bindings().len()]?;
    for known in case.told {
        match known {
            Told::Passes { .. } => {}
            Told::Fails { site, test } => {
                if is_said_to_fail(kinds, *site, *test) {
                    mark(&mut marks, *site);
                }
            }
            Told::Differ { first, second } => {
                mark(&mut marks, *first);
                mark(&mut marks, *second);
            }
        }
    }
    Ok(marks)
}

/// Whether a line says that a site fails a test, which is none of a call's success.
pub(super) fn is_said_to_fail(kinds: &[Option<Kind>], site: BindingId, test: Constraint) -> bool {
    kind_at(kinds, site).is_none() && test != Constraint::Some
}
