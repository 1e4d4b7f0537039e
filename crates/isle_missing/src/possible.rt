//! Whether some call can meet facts.
ghost use Rattle.std.specs.Prelude.{◌≡◌, IfOk, IsTrue};
ghost use Rattle.isle_missing.specs.Sites.{all_tests};
ghost use Rattle.isle_missing.specs.Inside.Tables.{are_so, is_among, is_held, is_same, is_so, is_test, test_at, ArePossible, HaveTests};

use crate::demand::Demand;
use crate::facts::{Fact, open_test};
use crate::ids::{SiteId, TestId};
use crate::sites::{SiteTests, all_tests, is_listed, is_single};
use std::alloc::{AllocError, Global};

/// The test of a site that a fact says to pass.
fn held_test(facts: &[Fact], site: SiteId) -> Option<TestId> {
    for fact in facts {
        if let Demand::Passes { site: tested, test } = fact.demand {
            if fact.holds && tested.0 == site.0 {
                return Some(test);
            }
        }
    }
    None
}

/// A test that a site can pass where the facts are so.
fn some_test(sites: &[SiteTests], facts: &[Fact], site: SiteId) -> Option<TestId> {
    match (held_test(facts, site), all_tests(sites, site)) {
        (Some(test), _) => Some(test),
        (None, Some(tests)) => open_test(facts, site, tests),
        (None, None) => None,
    }
}

/// One for each site.
fn some_tests(
    alloc: Global,
    sites: &[SiteTests],
    facts: &[Fact],
) -> Result<Vec<Option<TestId>>, AllocError> {
    let mut table = Vec::new(alloc);
    for number in 0..sites.len() {
        table.push(some_test(sites, facts, SiteId(number)))?;
    }
    Ok(table)
}

/// The test that a site passes by a table.
fn test_at(table: &[Option<TestId>], site: SiteId) -> Option<TestId>
    ensures { result ≡ test_at table.now site.0 }
{
    match table.get(site.0) {
        Some(test) => *test,
        None => None,
    }
}

/// Whether a site passes a test by a table.
fn is_test(table: &[Option<TestId>], site: SiteId, test: TestId) -> bool
    ensures { result ≡ is_test (test_at table.now site.0) test.0 }
{
    match test_at(table, site) {
        Some(own) => own.0 == test.0,
        None => false,
    }
}

/// Whether two sites pass one test that only one value passes.
fn is_same(sites: &[SiteTests], table: &[Option<TestId>], first: SiteId, second: SiteId) -> bool
    ensures { result ≡ is_same sites.now first.0 (test_at table.now first.0) (test_at table.now second.0) }
{
    match test_at(table, first) {
        Some(test) => is_single(sites, first, test) && is_test(table, second, test),
        None => false,
    }
}

/// Whether a demand holds by a table.
fn is_held(sites: &[SiteTests], table: &[Option<TestId>], demand: Demand) -> bool
    ensures { result ≡ is_held sites.now table.now demand }
{
    match demand {
        Demand::Passes { site, test } => is_test(table, site, test),
        Demand::Same { first, second } => is_same(sites, table, first, second),
    }
}

/// Whether a fact is so by a table.
fn is_so(sites: &[SiteTests], table: &[Option<TestId>], fact: &Fact) -> bool
    ensures { result ≡ is_so sites.now table.now fact.now }
{
    if fact.holds {
        is_held(sites, table, fact.demand)
    } else {
        !is_held(sites, table, fact.demand)
    }
}

/// Whether all facts are.
fn are_so(sites: &[SiteTests], table: &[Option<TestId>], facts: &[Fact]) -> bool
    ensures { result ≡ are_so sites.now table.now facts.now }
{
    facts.iter().all(|fact| is_so(sites, table, fact))
}

/// Whether a site passes one of the tests of which each of its values does.
fn has_test(sites: &[SiteTests], table: &[Option<TestId>], site: SiteId) -> bool
    ensures { result ≡ is_among (test_at table.now site.0) (all_tests sites.now site.0) }
{
    match (test_at(table, site), all_tests(sites, site)) {
        (Some(test), Some(tests)) => is_listed(tests, test),
        (None, Some(_)) => false,
        (_, None) => true,
    }
}

/// Whether each site does.
fn have_tests(sites: &[SiteTests], table: &[Option<TestId>]) -> bool
    ensures { IsTrue result → HaveTests sites.now table.now }
{
    for number in 0..sites.len() {
        if !has_test(sites, table, SiteId(number)) {
            return false;
        }
    }
    true
}

/// Whether the facts are so by a table that is made of them.
pub(crate) fn are_possible(
    alloc: Global,
    sites: &[SiteTests],
    facts: &[Fact],
) -> Result<bool, AllocError>
    ensures { IfOk result (λ possible. IsTrue possible → ArePossible sites.now facts.now) }
{
    let table = some_tests(alloc, sites, facts)?;
    Ok(are_so(sites, table.as_slice(), facts) && have_tests(sites, table.as_slice()))
}
