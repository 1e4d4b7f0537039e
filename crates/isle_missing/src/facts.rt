//! What is known of a call: demands that hold, and demands that fail.
ghost use Rattle.std.specs.Prelude.{◌≡◌};
ghost use Rattle.std.specs.List.{list_all};
ghost use Rattle.isle_missing.specs.Inside.Facts.{are_refuted, has_failed, has_other_open, is_refuted, refutes, says_failed, IsOpenTest, IsRest};

use crate::demand::Demand;
use crate::ids::{SiteId, TestId};
use crate::rows::{Row, add_apart, has_demand, is_denied};
use crate::sites::{SiteTests, all_tests};
use std::alloc::{AllocError, Global};

/// That a demand holds, or that it fails.
#[derive(Clone, Copy)]
pub struct Fact {
    pub demand: Demand,
    pub holds: bool,
}

impl Fact {
    /// Whether it says that the demand fails.
    fn says_failed(&self, demand: Demand) -> bool
        ensures { result ≡ says_failed demand self.now }
    {
        !self.holds && demand.is(self.demand)
    }

    /// Whether a rule with these demands doesn't match where it is so.
    fn refutes(&self, demands: &[Demand]) -> bool
        ensures { result ≡ refutes demands.now self.now }
    {
        if self.holds {
            is_denied(demands, self.demand)
        } else {
            has_demand(demands, self.demand)
        }
    }
}

/// Whether one of the facts says that the rule doesn't match.
fn is_refuted(facts: &[Fact], row: &Row) -> bool
    ensures { result ≡ is_refuted facts.now row.now }
{
    facts.iter().any(|fact| fact.refutes(row.demands()))
}

/// Whether the facts say so of each rule.
pub(crate) fn are_refuted(facts: &[Fact], rules: &[Row]) -> bool
    ensures { result ≡ are_refuted facts.now rules.now }
{
    rules.iter().all(|row| is_refuted(facts, row))
}

/// Keeps for each rule in turn that no kept fact refutes the first that does.
fn keep_needed(kept: &mut Vec<Fact>, facts: &[Fact], rules: &[Row]) -> Result<(), AllocError> {
    for row in rules {
        if !is_refuted(kept.as_slice(), row) {
            if let Some(fact) = facts.iter().find(|fact| fact.refutes(row.demands())) {
                kept.push(*fact)?;
            }
        }
    }
    Ok(())
}

/// That the sites of each equality that fails pass no test together that only one value passes.
fn told_apart(alloc: Global, sites: &[SiteTests], facts: &[Fact]) -> Result<Vec<Row>, AllocError> {
    let mut rows = Vec::new(alloc);
    for fact in facts {
        if let Demand::Same { first, second } = fact.demand {
            if !fact.holds {
                add_apart(alloc, &mut rows, sites, first, second)?;
            }
        }
    }
    Ok(rows)
}

/// Few facts that refute each rule, and by which sites that aren't equal differ.
pub(crate) fn needed(
    alloc: Global,
    sites: &[SiteTests],
    facts: &[Fact],
    rules: &[Row],
) -> Result<Vec<Fact>, AllocError> {
    let mut kept = Vec::new(alloc);
    keep_needed(&mut kept, facts, rules)?;
    let apart = told_apart(alloc, sites, kept.as_slice())?;
    keep_needed(&mut kept, facts, apart.as_slice())?;
    Ok(kept)
}

/// The facts without the equalities that hold: these refute no rule.
pub(crate) fn without_equalities(alloc: Global, facts: &[Fact]) -> Result<Vec<Fact>, AllocError> {
    facts
        .iter()
        .filter(|fact| !fact.holds || matches!(fact.demand, Demand::Passes { .. }))
        .copied()
        .collect(alloc)
}

/// Whether the facts say that the demand fails.
pub(crate) fn has_failed(facts: &[Fact], demand: Demand) -> bool
    ensures { result ≡ has_failed demand facts.now }
{
    facts.iter().any(|fact| fact.says_failed(demand))
}

/// One of these tests of a site that hasn't failed.
pub(crate) fn open_test(facts: &[Fact], site: SiteId, tests: &[TestId]) -> Option<TestId>
    ensures { IsOpenTest facts.now site.0 tests.now result }
{
    for test in tests {
        if !has_failed(facts, Demand::Passes { site, test: *test }) {
            return Some(*test);
        }
    }
    None
}

/// Whether another of them hasn't.
fn has_other_open(facts: &[Fact], site: SiteId, tests: &[TestId], known: TestId) -> bool
    ensures { result ≡ has_other_open facts.now site.0 tests.now known }
{
    tests.iter().any(|test| {
        test.0 != known.0 && !has_failed(facts, Demand::Passes { site, test: *test })
    })
}

/// What is left of the tests of a site.
pub(crate) enum Rest {
    /// Several, or it isn't known of which tests each value passes one.
    Open,
    /// None: no value of the site passes none of its tests.
    Nothing,
    /// One alone, so it passes.
    Only(TestId),
}

/// The tests of a site that haven't failed, of those of which each value passes one.
pub(crate) fn rest_of(sites: &[SiteTests], facts: &[Fact], site: SiteId) -> Rest
    ensures { IsRest sites.now facts.now site.0 result }
{
    let Some(tests) = all_tests(sites, site) else {
        return Rest::Open;
    };
    match open_test(facts, site, tests) {
        None => Rest::Nothing,
        Some(known) if has_other_open(facts, site, tests, known) => Rest::Open,
        Some(known) => Rest::Only(known),
    }
}
