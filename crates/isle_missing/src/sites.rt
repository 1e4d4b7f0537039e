//! What is known of the tests of sites.
ghost use Rattle.std.specs.Prelude.{◌≡◌, option_map};
ghost use Rattle.isle_missing.specs.Sites.{numbers, is_listed, all_tests, single_tests, is_single};

use crate::ids::{SiteId, TestId};
use std::marker::Model;

/// What is known of the tests of a site.
#[derive(Drop)]
pub struct SiteTests {
    all: Option<Vec<TestId>>,
    single: Vec<TestId>,
}

impl Model for SiteTests {
    ghost use Rattle.std.specs.Prelude.{option_map};
    ghost use Rattle.isle_missing.specs.Sites.{KnownTests, numbers};

    ghost Value = { KnownTests };

    ghost view = { λ tests. record { all = option_map (λ all. numbers all.items) tests.all; single = numbers tests.single.items } };
}

impl SiteTests {
    /// `all` are tests of which each value of the site passes one, where they are known. `single` are tests that only one value passes, of
    /// those that are asked here. Other tests are taken to be passed by many.
    pub fn new(all: Option<Vec<TestId>>, single: Vec<TestId>) -> SiteTests
        ensures { result ≡ record { all = option_map (λ tests. numbers tests.items) all; single = numbers single.items } }
    {
        SiteTests { all, single }
    }

    /// Tests of which each value passes one.
    pub fn all(&self) -> Option<&[TestId]>
        ensures { option_map (λ tests. numbers tests.now) result ≡ self.now.all }
    {
        match &self.all {
            Some(tests) => Some(tests.as_slice()),
            None => None,
        }
    }

    /// Tests that only one value passes.
    pub fn single(&self) -> &[TestId]
        ensures { numbers result.now ≡ self.now.single }
    {
        self.single.as_slice()
    }
}

/// Tests of which each value of a site passes one.
pub(crate) fn all_tests(sites: &[SiteTests], site: SiteId) -> Option<&[TestId]>
    ensures { option_map (λ tests. numbers tests.now) result ≡ all_tests sites.now site.0 }
{
    match sites.get(site.0) {
        Some(tests) => tests.all(),
        None => None,
    }
}

/// Tests of a site that only one value passes.
pub(crate) fn single_tests(sites: &[SiteTests], site: SiteId) -> &[TestId]
    ensures { numbers result.now ≡ single_tests sites.now site.0 }
{
    match sites.get(site.0) {
        Some(tests) => tests.single(),
        None => &[],
    }
}

/// Whether a test is listed.
pub(crate) fn is_listed(tests: &[TestId], test: TestId) -> bool
    ensures { result ≡ is_listed (numbers tests.now) test.0 }
{
    tests.iter().any(|listed| listed.0 == test.0)
}

/// Whether only one value passes a test of a site.
pub(crate) fn is_single(sites: &[SiteTests], site: SiteId, test: TestId) -> bool
    ensures { result ≡ is_single sites.now site.0 test.0 }
{
    is_listed(single_tests(sites, site), test)
}
