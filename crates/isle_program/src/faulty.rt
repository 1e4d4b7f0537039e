//! Definitions that are refused for faults of their rules, of which a reason tells more than the fault.
use crate::compiler::{Definitions, definitions_of};
use isle_blocks::{RuleSet, TermSets, build};
use isle_syntax::Refusal;
use isle_syntax::error::{Error, Errors};
use isle_syntax::files::Files;
use isle_terms::TermEnv;
use isle_types::{TermId, TypeEnv};
use std::alloc::{AllocError, Global};
use std::rc::Rc;

/// Definitions whose rules have faults, and the rule sets of those that can match.
#[derive(Drop)]
pub struct Faulty {
    pub types: TypeEnv,
    pub terms: TermEnv,
    pub sets: Vec<(TermId, RuleSet)>,
}

impl Faulty {
    /// The definitions of a report's files; nothing where no fault is one of rules.
    pub fn of_errors(alloc: Global, errors: &Errors) -> Result<Option<Faulty>, AllocError> {
        if !errors.errors().iter().any(|error| is_of_rules(error)) {
            return Ok(None);
        }
        match read_again(alloc, errors.files(), errors.files().clone()?) {
            Ok(faulty) => Ok(Some(faulty)),
            Err(Refusal::Fault(_)) => Ok(None),
            Err(Refusal::Memory(error)) => Err(error),
        }
    }

    /// Lets definitions go, here, so that a crate above has to prove none of what that does to their parts.
    pub fn release(_faulty: Option<Faulty>) {}
}

/// Whether a fault is one of rules.
fn is_of_rules(error: &Error) -> bool {
    match error {
        Error::UnreachableError { .. } | Error::OverlapError { .. } | Error::ShadowedError { .. } =>
            true,
        Error::ParseError { .. } | Error::TypeError { .. } | Error::SizeError { .. } => false,
    }
}

/// The definitions of files, and the rule sets of their rules.
fn read_again(
    alloc: Global,
    files: &Files,
    named: Rc<Files>,
) -> Result<Faulty, Refusal<Vec<Error>>> {
    let Definitions { types, terms } = definitions_of(alloc, files, named)?;
    let TermSets {
        sets,
        unreachable: _unreachable,
    } = build(alloc, &terms)?;
    Ok(Faulty { types, terms, sets })
}
