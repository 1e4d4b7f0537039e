//! What is asked of a program at any time and without memory, made as it is compiled.
ghost use Rattle.std.specs.Prelude.{◌≡◌, ◌<◌, All, IfOk, length, map};
ghost use Rattle.isle_types.specs.declared.ids.TermId.{TermId as TermNumber};
ghost use Rattle.isle_blocks.specs.RuleSets.{RulesOverSites};
ghost use Rattle.isle_blocks.specs.Inside.Building.Contents.{Marked};
ghost use Rattle.isle_blocks.specs.DefinedSets.{ListsNumbers};
ghost use Rattle.isle_program.specs.Facts.Asked.{term_number, AreRoots, AreNumbersOf};

mod barred;
mod callers;
pub mod hindrances;
mod inhabited;
pub mod made;
mod places;
mod spreading;
mod steps;

use crate::facts::barred::{barred_terms, roots};
use crate::facts::inhabited::are_inhabited;
use crate::facts::places::places_by_term;
use crate::facts::steps::steps_by_term;
use isle_blocks::RuleSet;
use isle_rules::TermEnv;
use isle_types::{TermId, TypeEnv};
use std::alloc::{AllocError, Global};

/// What is asked of a program at any time.
#[derive(Drop)]
pub(crate) struct Numbers {
    /// The terms with rules, ascending.
    pub(crate) with_rules: Vec<TermId>,
    /// For each term how many steps its rules take at most.
    pub(crate) steps: Vec<u128>,
    /// For each term the place of its rule set among all.
    pub(crate) places: Vec<usize>,
    /// Whether each type has a value.
    pub(crate) inhabited: bool,
    /// For each term whether it can't be run, by itself or for a term that it reaches.
    pub(crate) barred: Vec<bool>,
}

impl Numbers {
    /// The numbers of tables and of the rule sets of their rules.
    pub(crate) fn new(
        alloc: Global,
        tyenv: &TypeEnv,
        termenv: &TermEnv,
        sets: &[(TermId, RuleSet)],
    ) -> Result<Numbers, AllocError>
        requires rooted { All (λ rule. rule.root_term.0 < length termenv.now.terms) termenv.now.rules }
        requires within { All (λ (set : TermNumber × RulesOverSites). set.0.0 < length termenv.now.terms) sets.now }
        ensures { IfOk result (AreNumbersOf tyenv.now termenv.now sets.now) }
    {
        Ok(Numbers {
            with_rules: terms_with_rules(alloc, termenv)?,
            steps: steps_by_term(alloc, termenv.terms().len(), sets)?,
            places: places_by_term(alloc, termenv.terms().len(), sets)?,
            inhabited: are_inhabited(alloc, tyenv.types())?,
            barred: barred_terms(alloc, tyenv, termenv)?,
        })
    }
}

/// The terms with rules, ascending.
fn terms_with_rules(alloc: Global, termenv: &TermEnv) -> Result<Vec<TermId>, AllocError>
    requires { All (λ rule. rule.root_term.0 < length termenv.now.terms) termenv.now.rules }
    ensures { IfOk result (λ terms. AreRoots termenv.now terms.items) }
{
    let marks = roots(alloc, termenv)?;
    marked_terms(alloc, marks.as_slice())
}

/// The terms that are marked, ascending.
fn marked_terms(alloc: Global, marks: &[bool]) -> Result<Vec<TermId>, AllocError>
    ensures { IfOk result (λ terms. ListsNumbers (Marked marks.now) (map term_number terms.items)) }
{
    let mut terms = Vec::new(alloc);
    for n in 0..marks.len() {
        if marks[n] {
            terms.push(TermId(n))?;
        }
    }
    Ok(terms)
}
