//! What is wrong with rules: those that can't match, those that overlap, and those that others shadow.
ghost use Rattle.std.specs.Prelude.{◌≡◌, ◌++◌, IfOk, IfErr, OnOk, map};
ghost use Rattle.isle_ast.specs.Errors.{IfFault};
ghost use Rattle.isle_blocks.specs.DefinedSets.{AreDefined, facts_by, rules_by, AreSetsOf};
ghost use Rattle.isle_blocks.specs.FaultsBetween.{ListsPairs};
ghost use Rattle.isle_blocks.specs.Inside.RivalLists.{AddsPairs, ListsFaults, number_at, numbered, place_of};
ghost use Rattle.isle_rules.specs.Shown.TermTables.{is_multi_in};
ghost use Rattle.isle_blocks.specs.RuleFaults.{AreFaultless, AreRuleErrors, TellRivals};
ghost use Rattle.isle_blocks.specs.declared.faults.Fault.TheVariants.{Overlap, Shadow};

use crate::faults::{FaultsBetween, faults_between};
use crate::report::{RulePlace, report_faults};
use crate::rule::Rule;
use crate::rule_set::RuleSet;
use crate::term_sets::{TermSets, build};
use isle_ast::Refusal;
use isle_ast::error::Error;
use isle_rules::{TermEnv, TermKind};
use isle_types::TermId;
use std::alloc::{AllocError, Global};

/// The rule sets of an environment of terms, if no rule has a fault. Else the rules that can't match, then the rules that
/// overlap or are shadowed, ascending by the position of the rule that heads an error; or one size error alone.
pub fn check(
    alloc: Global,
    termenv: &TermEnv,
) -> Result<Vec<(TermId, RuleSet)>, Refusal<Vec<Error>>>
    requires defined { AreDefined termenv.now }
    ensures faultless { OnOk result ((d : AreDefined termenv.now) → AreFaultless (facts_by termenv.now d) (rules_by termenv.now d)) }
    ensures sets { IfOk result (λ sets. (d : AreDefined termenv.now) → AreSetsOf termenv.now d sets.items) }
    ensures faults { IfErr result (λ r. IfFault r (λ errors. (d : AreDefined termenv.now)
        → AreRuleErrors (facts_by termenv.now d) (rules_by termenv.now d) errors.items)) }
{
    let TermSets { sets, unreachable } = build(alloc, termenv)?;
    let between = rival_errors(alloc, termenv, sets.as_slice())?;
    let errors = joined(unreachable, between)?;
    if errors.is_empty() {
        return Ok(sets);
    }
    Err(Refusal::Fault(errors))
}

/// Errors, then others.
fn joined(first: Vec<Error>, others: Vec<Error>) -> Result<Vec<Error>, AllocError>
    ensures { IfOk result (λ errors. errors.items ≡ first.items ++ others.items) }
{
    let mut errors = first;
    for error in others {
        errors.push(error)?;
    }
    Ok(errors)
}

/// The errors of rules that overlap or are shadowed.
fn rival_errors(
    alloc: Global,
    termenv: &TermEnv,
    sets: &[(TermId, RuleSet)],
) -> Result<Vec<Error>, AllocError>
    requires defined { AreDefined termenv.now }
    requires sets { (d : AreDefined termenv.now) → AreSetsOf termenv.now d sets.now }
    ensures { IfOk result (λ errors. (d : AreDefined termenv.now)
        → TellRivals (facts_by termenv.now d) (rules_by termenv.now d) errors.items) }
{
    let found = faults_in(alloc, termenv, sets)?;
    let places = rule_places(alloc, termenv.rules())?;
    report_faults(
        alloc,
        places.as_slice(),
        found.overlaps.as_slice(),
        found.shadows.as_slice(),
    )
}

/// How faults name the rules.
fn rule_places(alloc: Global, rules: &[isle_rules::Rule]) -> Result<Vec<RulePlace>, AllocError>
    ensures { IfOk result (λ places. places.items ≡ map place_of rules.now) }
{
    let mut places = Vec::new(alloc);
    for rule in rules {
        places.push(RulePlace {
            pos: rule.pos,
            id: rule.id,
        })?;
    }
    Ok(places)
}

/// The faults between the rules of each term that gives one answer, as pairs of the rules' numbers.
fn faults_in(
    alloc: Global,
    termenv: &TermEnv,
    sets: &[(TermId, RuleSet)],
) -> Result<FaultsBetween, AllocError>
    ensures overlaps { IfOk result (λ found. ListsFaults (is_multi_in termenv.now) Overlap sets.now found.overlaps.items) }
    ensures shadows { IfOk result (λ found. ListsFaults (is_multi_in termenv.now) Shadow sets.now found.shadows.items) }
{
    let mut found = FaultsBetween {
        overlaps: Vec::new(alloc),
        shadows: Vec::new(alloc),
    };
    for set in sets {
        if !is_multi(termenv, set.0) {
            push_faults(alloc, set.1.rules(), &mut found)?;
        }
    }
    Ok(found)
}

/// Whether a term gives any number of answers.
fn is_multi(termenv: &TermEnv, term: TermId) -> bool
    ensures { result ≡ is_multi_in termenv.now term.0 }
{
    let Some(term) = termenv.get_term(term) else {
        return false;
    };
    match &term.kind {
        TermKind::EnumVariant { .. } | TermKind::Struct => false,
        TermKind::Decl { flags, .. } => flags.multi,
    }
}

/// Adds the faults between the rules of a term.
fn push_faults(alloc: Global, rules: &[Rule], found: &mut FaultsBetween) -> Result<(), AllocError>
    ensures overlaps { OnOk result (AddsPairs rules.now Overlap found.old.overlaps.items found.new.overlaps.items) }
    ensures shadows { OnOk result (AddsPairs rules.now Shadow found.old.shadows.items found.new.shadows.items) }
{
    let between = faults_between(alloc, rules)?;
    push_numbered(rules, between.overlaps.as_slice(), &mut found.overlaps)?;
    push_numbered(rules, between.shadows.as_slice(), &mut found.shadows)
}

/// Adds pairs of places as those of the rules' numbers.
fn push_numbered(
    rules: &[Rule],
    pairs: &[(usize, usize)],
    found: &mut Vec<(usize, usize)>,
) -> Result<(), AllocError>
    ensures { OnOk result (found.new.items ≡ found.old.items ++ map (numbered rules.now) pairs.now) }
{
    for pair in pairs {
        found.push((number_of(rules, pair.0), number_of(rules, pair.1)))?;
    }
    Ok(())
}

/// The number of the rule at a place; 0 where there is none.
fn number_of(rules: &[Rule], place: usize) -> usize
    ensures { result ≡ number_at rules.now place }
{
    match rules.get(place) {
        Some(rule) => rule.id.index(),
        None => 0,
    }
}
