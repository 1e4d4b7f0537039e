//! The tests and the sets of equal sites of a closed rule.
ghost use Rattle.std.specs.Prelude.{◌≡◌, IfOk, length};
ghost use Rattle.std.specs.List.Sorted.{IsStrictlySortedBy};
ghost use Rattle.std.specs.Map.{keys_of};
ghost use Rattle.isle_containers.specs.JoinedSets.{AreDisjoint};
ghost use Rattle.isle_types.specs.Names.{AreDistinct};
ghost use Rattle.isle_blocks.specs.ClosedRules.{same_site};
ghost use Rattle.isle_blocks.specs.Rules.{site_cmp};
ghost use Rattle.isle_blocks.specs.Inside.NormalRules.{AreTestsOf, AreEqualitiesOf};
ghost use Rattle.isle_blocks.specs.Inside.Placing.{AreSettled};

use crate::constraint::Constraint;
use crate::ids::BindingId;
use isle_types::{DisjointSets, SortedMap, sets_are_disjoint, sorted_keys_ascend};
use std::alloc::{AllocError, Global};

/// The tests of the sites, by the numbers that the sites have got.
pub(crate) fn tests_of(
    alloc: Global,
    numbers: &[BindingId],
    each: &[Option<Constraint>],
) -> Result<SortedMap<BindingId, Constraint>, AllocError>
    requires once { AreDistinct numbers.now }
    requires fits { length each.now ≡ length numbers.now }
    ensures tests { IfOk result (λ tests. AreTestsOf numbers.now each.now tests) }
    ensures ascending { IfOk result (λ tests. IsStrictlySortedBy site_cmp (keys_of tests)) }
{
    let count = each.iter().filter(|test| test.is_some()).count();
    let mut tests = SortedMap::with_capacity(alloc, count)?;
    for k in 0..each.len() {
        if let Some(test) = each[k] {
            tests.insert(numbers[k], test)?;
        }
    }
    sorted_keys_ascend(&tests);
    Ok(tests)
}

/// The sets of the sites without a test that must be equal, by the numbers that the sites have got.
pub(crate) fn equalities_of(
    alloc: Global,
    numbers: &[BindingId],
    each: &[Option<Constraint>],
    class: &[usize],
) -> Result<DisjointSets<BindingId>, AllocError>
    requires settled { AreSettled numbers.now each.now class.now }
    ensures equalities { IfOk result (λ sets. AreEqualitiesOf numbers.now each.now class.now sets) }
    ensures disjoint { IfOk result (λ sets. AreDisjoint same_site sets) }
{
    let mut equals = DisjointSets::new(alloc);
    for k in 0..class.len() {
        let root = class[k];
        if each[k].is_none() && root != k {
            equals.merge(numbers[k], numbers[root])?;
        }
    }
    sets_are_disjoint(&equals);
    Ok(equals)
}
