//! Why rules have faults, as far as two tests or a query show it.
mod classes;
mod conflicts;
mod examples;
mod samples;
mod sites;

use crate::reasons::faults::conflicts::conflict_reason;
use crate::reasons::faults::examples::example;
use isle_blocks::{Rule, RuleSet, demands_of};
use isle_program::faulty::Faulty;
use isle_syntax::error::{Error, Errors};
use isle_syntax::lexer::Pos;
use std::alloc::{AllocError, Global};

/// For each fault of a report why it is one, in words: of a rule that never matches the tests that can't both pass, of rules that
/// overlap or are shadowed a query that two of them match. Nothing where the fault is of another kind, or that can't be told.
pub fn fault_reasons(alloc: Global, errors: &Errors) -> Result<Vec<Option<String>>, AllocError> {
    let faulty = Faulty::of_errors(alloc, errors)?;
    let reasons = reasons_by(alloc, &faulty, errors.errors());
    Faulty::release(faulty);
    reasons
}

/// The reasons of faults, by the definitions that they are of.
fn reasons_by(
    alloc: Global,
    faulty: &Option<Faulty>,
    errors: &[Error],
) -> Result<Vec<Option<String>>, AllocError> {
    let mut reasons = Vec::new(alloc);
    for error in errors {
        reasons.push(fault_reason(alloc, faulty, error)?)?;
    }
    Ok(reasons)
}

/// Why a fault is one.
fn fault_reason(
    alloc: Global,
    faulty: &Option<Faulty>,
    error: &Error,
) -> Result<Option<String>, AllocError> {
    let Some(faulty) = faulty else {
        return Ok(None);
    };
    match error {
        Error::UnreachableError { span, .. } => unreachable_reason(alloc, faulty, span.from),
        Error::OverlapError { rules, .. } => match (
            rules.as_slice().get(0),
            rules.as_slice().get(1),
        ) {
            (Some(head), Some(partner)) => between(alloc, faulty, head.from, partner.from),
            _ => Ok(None),
        },
        Error::ShadowedError { shadowed, mask } => match shadowed.as_slice().first() {
            Some(first) => between(alloc, faulty, mask.from, first.from),
            None => Ok(None),
        },
        Error::ParseError { .. } | Error::TypeError { .. } | Error::SizeError { .. } => Ok(None),
    }
}

/// Why the rule at a place never matches.
fn unreachable_reason(
    alloc: Global,
    faulty: &Faulty,
    pos: Pos,
) -> Result<Option<String>, AllocError> {
    let Some(rule) = faulty.terms.rules().iter().find(|rule| rule.pos == pos) else {
        return Ok(None);
    };
    match demands_of(alloc, &faulty.terms, rule)? {
        Some(demands) => conflict_reason(alloc, faulty, &demands),
        None => Ok(None),
    }
}

/// A query that the rules at two places match.
fn between(
    alloc: Global,
    faulty: &Faulty,
    one: Pos,
    other: Pos,
) -> Result<Option<String>, AllocError> {
    for (term, set) in faulty.sets.as_slice() {
        if let (Some(first), Some(second)) = (rule_at(set, one), rule_at(set, other)) {
            return example(alloc, faulty, *term, set, first, second);
        }
    }
    Ok(None)
}

/// The rule of a rule set that stands at a place.
fn rule_at(set: &RuleSet, pos: Pos) -> Option<&Rule> {
    set.rules().iter().find(|rule| rule.pos == pos)
}
