//! The lines below a pattern, which say what it doesn't.
use super::case::{Case, text_at};
use super::kinds::Kind;
use super::named::{is_call, is_said_to_fail};
use super::words::test_text;
use crate::verdict::Told;
use isle_blocks::{Binding, BindingId, Constraint};
use std::alloc::{AllocError, Global};

/// How many tests are listed that a value fails.
const LISTED: usize = 3;

/// What is told, and the texts of its sites.
#[derive(Clone, Copy)]
pub(super) struct Shown<'a> {
    pub case: &'a Case<'a>,
    pub kinds: &'a [Option<Kind>],
    pub patterns: &'a [Option<String>],
    pub expressions: &'a [Option<String>],
}

/// The lines: what calls give, what fails tests, and what differs.
pub(super) fn where_lines(alloc: Global, shown: &Shown<'_>) -> Result<Vec<String>, AllocError> {
    let mut lines = Vec::new(alloc);
    push_calls(alloc, shown, &mut lines)?;
    push_failures(alloc, shown, &mut lines)?;
    push_differences(alloc, shown, &mut lines)?;
    Ok(lines)
}

/// Adds what the used calls give.
fn push_calls(alloc: Global, shown: &Shown<'_>, lines: &mut Vec<String>) -> Result<(), AllocError> {
    for site in shown.case.used {
        if shown.case.binding(*site).is_some_and(is_call) {
            if let Some(line) = call_line(alloc, shown, *site)? {
                lines.push(line)?;
            }
        }
    }
    Ok(())
}

/// `(f x) fails`, `(f x) gives PATTERN`; nothing where only what is made of it is told.
fn call_line(
    alloc: Global,
    shown: &Shown<'_>,
    site: BindingId,
) -> Result<Option<String>, AllocError> {
    let call = text_at(shown.expressions, site);
    let failed = shown.case.failed_tests(alloc, site)?;
    if failed.contains(&Constraint::Some) {
        return Ok(Some(format!(in alloc; "{call} fails")?));
    }
    let pattern = given_pattern(shown, site);
    if pattern == "_" && shown.case.passed_test(site).is_none() {
        return Ok(None);
    }
    Ok(Some(format!(in alloc; "{call} gives {pattern}")?))
}

/// The pattern of what a call gives.
fn given_pattern<'a>(shown: &Shown<'a>, source: BindingId) -> &'a str {
    let set = shown.case.set;
    match set.find_binding(&Binding::MatchSome { source }) {
        Some(content) => text_at(shown.patterns, content),
        None => match set.find_binding(&Binding::Iterator { source }) {
            Some(item) => text_at(shown.patterns, item),
            None => text_at(shown.patterns, source),
        },
    }
}

/// Adds what the sites without a kind are not.
fn push_failures(
    alloc: Global,
    shown: &Shown<'_>,
    lines: &mut Vec<String>,
) -> Result<(), AllocError> {
    for site in shown.case.used {
        let failed = shown.case.failed_tests(alloc, *site)?;
        if let Some(first) = failed.first() {
            if is_said_to_fail(shown.kinds, *site, *first) {
                lines.push(failure_line(alloc, shown, *site, failed.as_slice())?)?;
            }
        }
    }
    Ok(())
}

/// `x isn't 0`, `x is none of 0, 1, 2 and 1 more`.
fn failure_line(
    alloc: Global,
    shown: &Shown<'_>,
    site: BindingId,
    failed: &[Constraint],
) -> Result<String, AllocError> {
    let value = text_at(shown.expressions, site);
    let tests = listed_tests(alloc, shown.case, site, failed)?;
    let tests = tests.as_str();
    if failed.len() == 1 {
        return format!(in alloc; "{value} isn't {tests}");
    }
    if failed.len() > LISTED {
        let more = failed.len().saturating_sub(LISTED);
        return format!(in alloc; "{value} is none of {tests} and {more} more");
    }
    format!(in alloc; "{value} is none of {tests}")
}

/// The first tests, with commas.
fn listed_tests(
    alloc: Global,
    case: &Case<'_>,
    site: BindingId,
    failed: &[Constraint],
) -> Result<String, AllocError> {
    let mut text = String::new(alloc);
    for test in failed.iter().take(LISTED) {
        if !text.is_empty() {
            text.push_str(", ")?;
        }
        let one = test_text(alloc, case.program, case.typed(site, *test))?;
        text.push_str(one.as_str())?;
    }
    Ok(text)
}

/// Adds which sites differ.
fn push_differences(
    alloc: Global,
    shown: &Shown<'_>,
    lines: &mut Vec<String>,
) -> Result<(), AllocError> {
    for known in shown.case.told {
        if let Told::Differ { first, second } = known {
            let one = text_at(shown.expressions, *first);
            let other = text_at(shown.expressions, *second);
            lines.push(format!(in alloc; "{one} is not {other}")?)?;
        }
    }
    Ok(())
}
