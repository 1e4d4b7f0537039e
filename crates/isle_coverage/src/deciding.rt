//! Whether each call of a term has a rule.
ghost use Rattle.std.specs.Prelude.{◌≡◌, List, Contains, IfOk, IfSome};
ghost use Rattle.isle_ast.specs.Positions.Files.{SourceFile};
ghost use Rattle.isle_types.specs.declared.ids.TermId.{TermId as TermNumber};
ghost use Rattle.isle_missing.specs.Search.{MissesUnder};
ghost use Rattle.isle_blocks.specs.RuleSets.{RulesOverSites};
ghost use Rattle.isle_program.specs.Compiled.{IsProgramOf};
ghost use Rattle.isle_program.specs.Meanings.{may_run};
ghost use Rattle.isle_program.specs.Programs.{rule_sets_of};
ghost use Rattle.isle_coverage.specs.declared.numbered.Numbered.{Numbered as KnownNumbers};
ghost use Rattle.isle_coverage.specs.Verdicts.{IsVerdict};
ghost use Rattle.isle_coverage.specs.Inside.Judging.{IsJudgement, IsToldOf, AreToldOf};

use crate::calls::without_calls;
use crate::numbered::{Numbered, number_rules};
use crate::verdict::{Told, Verdict};
use isle_blocks::{BindingId, Constraint, RuleSet};
use isle_missing::{Coverage, Demand, Fact, SiteId, decide};
use isle_program::Program;
use isle_types::TermId;
use std::alloc::{AllocError, Global};

/// The rule set of a term.
fn rule_set_of(program: &Program, term: TermId) -> Option<&RuleSet>
    ensures { IfSome result (λ set. (own : TermNumber × RulesOverSites) × Contains (rule_sets_of program.now) own
        × (own.0.0 ≡ term.0) × (own.1 ≡ set.now)) }
{
    let own = program.rule_sets().iter().find(|own| own.0 == term)?;
    Some(&own.1)
}

/// The number of a site in its rule set.
fn binding_of(site: SiteId) -> Option<BindingId>
    ensures { IfSome result (λ id. id.0 ≡ site.0) }
{
    BindingId::try_from(site.0).ok()
}

/// What a fact of numbers says, but that two sites are equal.
fn told_of(tests: &[Constraint], fact: &Fact) -> Option<Told>
    ensures { IfSome result (IsToldOf tests.now fact.now) }
{
    match fact.demand {
        Demand::Passes { site, test } => {
            let test = *tests.get(test.0)?;
            let site = binding_of(site)?;
            if fact.holds {
                Some(Told::Passes { site, test })
            } else {
                Some(Told::Fails { site, test })
            }
        }
        Demand::Same { first, second } => {
            if fact.holds {
                return None;
            }
            let first = binding_of(first)?;
            let second = binding_of(second)?;
            Some(Told::Differ { first, second })
        }
    }
}

/// What facts say, where each says something.
fn all_told(
    alloc: Global,
    tests: &[Constraint],
    facts: &[Fact],
) -> Result<Option<Vec<Told>>, AllocError>
    ensures { IfOk result (λ found. IfSome found (λ told. AreToldOf tests.now facts.now told.items)) }
{
    let mut told = Vec::with_capacity(alloc, facts.len())?;
    for fact in facts {
        let Some(one) = told_of(tests, fact) else {
            return Ok(None);
        };
        told.push(one)?;
    }
    Ok(Some(told))
}

/// That no rule matches where facts are so.
fn missing(alloc: Global, tests: &[Constraint], facts: &[Fact]) -> Result<Verdict, AllocError>
    ensures { (numbered : KnownNumbers) → numbered.table ≡ tests.now → MissesUnder facts.now numbered.rows.items
        → IfOk result (IsJudgement numbered) }
{
    match all_told(alloc, tests, facts)? {
        Some(told) => Ok(Verdict::Missing(told)),
        None => Ok(Verdict::Undecided),
    }
}

/// What is told of numbered rules: first of these without calls, then of all that they demand.
fn judge(
    alloc: Global,
    set: &RuleSet,
    numbered: &Numbered,
    steps: usize,
) -> Result<Verdict, AllocError>
    ensures { IfOk result (IsJudgement numbered.now) }
{
    let tests = numbered.table.as_slice();
    let sites = numbered.sites.as_slice();
    let rows = numbered.rows.as_slice();
    let less = without_calls(alloc, set.bindings(), rows)?;
    if let Coverage::Missing(facts) = decide(alloc, sites, less.as_slice(), steps)? {
        return missing(alloc, tests, facts.as_slice());
    }
    match decide(alloc, sites, rows, steps)? {
        Coverage::Covered => Ok(Verdict::Covered),
        Coverage::Missing(facts) => missing(alloc, tests, facts.as_slice()),
        Coverage::Undecided => Ok(Verdict::Undecided),
    }
}

/// Whether each call of a term has a rule, whatever the calls answer that its rules make, or of which calls none has. A look at a rule is a step;
/// two searches have so many each. Terms that can't be run are judged too; no clause speaks of them.
pub fn coverage(
    alloc: Global,
    program: &Program,
    term: TermId,
    steps: usize,
) -> Result<Verdict, AllocError>
    ensures { IfOk result (λ verdict. (files : List SourceFile) → IsProgramOf files program.now → may_run program.now term.0
        → IsVerdict program.now term.0 verdict) }
{
    let Some(set) = rule_set_of(program, term) else {
        return Ok(Verdict::Undecided);
    };
    let numbered = number_rules(alloc, program, set)?;
    let verdict = judge(alloc, set, &numbered, steps)?;
    Ok(verdict)
}
