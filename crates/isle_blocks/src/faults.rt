//! Faults between the rules of a term: the pairs that overlap, and those in which one rule shadows the other.
ghost use Rattle.std.specs.Prelude.{◌≡◌, ◌≤◌, ◌<◌, ◌+◌, ◌↔◌, ℕ, All, IsTrue, IfOk, OnOk, Some, length, slice_get};
ghost use Rattle.isle_blocks.specs.FaultsBetween.{FaultAt, ListsPairs, OverlapAt, ShadowAt};
ghost use Rattle.isle_blocks.specs.Inside.FaultKeys.{AddsFault, AreKeys, FindsFaults, IsEarlier, Key, MayMeet, test_at};

use crate::constraint::Constraint;
use crate::ids::BindingId;
use crate::parting::parting_site;
use crate::rule::Rule;
use std::alloc::{AllocError, Global};

/// The faults between a term's rules, as pairs of the rules' places. Pairs ascend by the first place, then by the second.
#[derive(Debug, Drop)]
pub struct FaultsBetween {
    /// Rules of one priority that may match together; the first is the earlier.
    pub overlaps: Vec<(usize, usize)>,
    /// A rule, and one of lower priority that it leaves nothing to match.
    pub shadows: Vec<(usize, usize)>,
}

/// What can be wrong between two rules.
#[derive(Clone, Copy)]
pub(crate) enum Fault {
    /// They have one priority and may match together.
    Overlap,
    /// The first, of higher priority, matches whatever the second does.
    Shadow,
}

/// All faults between the rules. Only rules are compared that don't differ at the site that tells most of them apart.
pub fn faults_between(alloc: Global, rules: &[Rule]) -> Result<FaultsBetween, AllocError>
    ensures overlaps { IfOk result (λ found. ListsPairs (OverlapAt rules.now) found.overlaps.items) }
    ensures shadows { IfOk result (λ found. ListsPairs (ShadowAt rules.now) found.shadows.items) }
{
    let site = parting_site(alloc, rules)?;
    let keys = sorted_keys(alloc, rules, site)?;
    Ok(FaultsBetween {
        overlaps: pairs_with(alloc, rules, keys.as_slice(), Fault::Overlap)?,
        shadows: pairs_with(alloc, rules, keys.as_slice(), Fault::Shadow)?,
    })
}

/// The tests of a site in the rules, each with the rule's place; rules without one first, equal tests side by side.
fn sorted_keys(
    alloc: Global,
    rules: &[Rule],
    site: BindingId,
) -> Result<Vec<(Option<Constraint>, usize)>, AllocError>
    ensures { IfOk result (λ keys. AreKeys site rules.now keys.items) }
{
    let mut keys = keys_at(alloc, rules, site)?;
    keys.sort_unstable();
    Ok(keys)
}

/// The tests of a site in the rules, each with the rule's place.
fn keys_at(
    alloc: Global,
    rules: &[Rule],
    site: BindingId,
) -> Result<Vec<(Option<Constraint>, usize)>, AllocError>
    ensures fits { IfOk result (λ keys. length keys.items ≡ length rules.now) }
    ensures keys { IfOk result (λ keys. (i : ℕ) (rule : Rule) → slice_get rules.now i ≡ Some rule
        → slice_get keys.items i ≡ Some (test_at site rule, i)) }
{
    let mut keys = Vec::new(alloc);
    for place in 0..rules.len() {
        keys.push((rules[place].get_constraint(site).copied(), place))?;
    }
    Ok(keys)
}

/// The pairs of places that have a fault, in order.
fn pairs_with(
    alloc: Global,
    rules: &[Rule],
    keys: &[(Option<Constraint>, usize)],
    fault: Fault,
) -> Result<Vec<(usize, usize)>, AllocError>
    requires { All (λ key. key.1 < length rules.now) keys.now }
    ensures { (site : BindingId) → AreKeys site rules.now keys.now → IfOk result (λ found. ListsPairs (FaultAt rules.now fault) found.items) }
{
    let mut found = Vec::new(alloc);
    for first in 0..keys.len() {
        push_pairs_of(rules, keys, fault, first, &mut found)?;
    }
    found.sort_unstable();

    // Each pair was made once; this is where it is told.
    found.dedup();
    Ok(found)
}

/// Adds the pairs of a key's rule and those of later keys.
fn push_pairs_of(
    rules: &[Rule],
    keys: &[(Option<Constraint>, usize)],
    fault: Fault,
    first: usize,
    found: &mut Vec<(usize, usize)>,
) -> Result<(), AllocError>
    requires first_in { first < length keys.now }
    requires places { All (λ key. key.1 < length rules.now) keys.now }
    ensures { (site : BindingId) → AreKeys site rules.now keys.now
        → FindsFaults rules.now fault keys.now (IsEarlier first) found.old.items
        → OnOk result (FindsFaults rules.now fault keys.now (IsEarlier (first + 1)) found.new.items) }
{
    for second in first + 1..meeting_end(keys, first) {
        push_pair(rules, fault, keys[first].1, keys[second].1, found)?;
        push_pair(rules, fault, keys[second].1, keys[first].1, found)?;
    }
    Ok(())
}

/// Where the keys end whose rules may meet that of a key: one behind the last.
fn meeting_end(keys: &[(Option<Constraint>, usize)], first: usize) -> usize
    requires { first < length keys.now }
    ensures within { result ≤ length keys.now }
    ensures behind { first < result }
    ensures stops { (a b : Key) → slice_get keys.now first ≡ Some a → slice_get keys.now result ≡ Some b → MayMeet a.0 b.0 → ⊥ }
{
    let mut end = first + 1;
    while end < keys.len() && may_meet(keys[first].0, keys[end].0) {
        end += 1;
    }
    end
}

/// Whether two tests of one site are one, or one of them is lacking.
fn may_meet(one: Option<Constraint>, other: Option<Constraint>) -> bool
    ensures { IsTrue result ↔ MayMeet one other }
{
    one.is_none() || other.is_none() || one == other
}

/// Adds a pair of places, if it has the fault.
fn push_pair(
    rules: &[Rule],
    fault: Fault,
    first: usize,
    second: usize,
    found: &mut Vec<(usize, usize)>,
) -> Result<(), AllocError>
    requires first_in { first < length rules.now }
    requires second_in { second < length rules.now }
    ensures { OnOk result (AddsFault rules.now fault first second found.old.items found.new.items) }
{
    if has_fault(rules, fault, first, second) {
        found.push((first, second))?;
    }
    Ok(())
}

/// Whether a pair of places has a fault.
fn has_fault(rules: &[Rule], fault: Fault, first: usize, second: usize) -> bool
    requires first_in { first < length rules.now }
    requires second_in { second < length rules.now }
    ensures { IsTrue result ↔ FaultAt rules.now fault first second }
{
    match fault {
        Fault::Overlap => first < second && rules[first].overlaps(&rules[second]),
        Fault::Shadow => rules[first].shadows(&rules[second]),
    }
}
