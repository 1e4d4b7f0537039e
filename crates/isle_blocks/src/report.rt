//! Errors of rules that overlap or shadow others, each for the pairs of rules that one rule heads.
ghost use Rattle.std.specs.Prelude.{◌≡◌, ◌≢◌, ◌<◌, ◌+◌, ◌↔◌, ◌∷◌, [], ℕ, IfOk, IsTrue, OnOk, count_by, is_some, length, not, map, slice_index, IsPermutation, IsSorted};
ghost use Rattle.std.specs.List.Sorted.{IsSortedByKey, IsStableByKey};
ghost use Rattle.isle_ast.specs.Errors.{span_at};
ghost use Rattle.isle_blocks.specs.Reports.{AddsGroups, ArePairs, IsBelow, IsGreatest, IsGroup, IsReport, error_of, overlap_message, partner, partner_count};
ghost use Rattle.isle_blocks.specs.Reports.{pairs_without, partners, pos_order, positions};

use crate::faults::Fault;
use isle_ast::error::{Error, Span};
use isle_ast::pos::Pos;
use isle_ast::{Seq, Text};
use isle_types::RuleId;
use std::alloc::{AllocError, Global};

/// How a fault names a rule: by its position, then by its number.
#[derive(Debug, Clone, Copy, PartialEq, Eq, PartialOrd, Ord)]
pub struct RulePlace {
    pub pos: Pos,
    pub id: RuleId,
}

/// An error in the making: the rule that heads it, and the positions of the others, ascending.
#[derive(Drop)]
pub(crate) struct Group {
    pub(crate) fault: Fault,
    pub(crate) head: RulePlace,
    pub(crate) others: Seq<Pos>,
}

/// The errors of all rules that overlap or shadow others, ascending by the position of the rule that heads them; of one
/// rule's the overlaps first. The pairs are of places in the list of rules.
pub fn report_faults(
    alloc: Global,
    rules: &[RulePlace],
    overlaps: &[(usize, usize)],
    shadows: &[(usize, usize)],
) -> Result<Vec<Error>, AllocError>
    requires overlaps_in { ArePairs (length rules.now) overlaps.now }
    requires shadows_in { ArePairs (length rules.now) shadows.now }
    ensures { IfOk result (λ errors. IsReport rules.now overlaps.now shadows.now errors.items) }
{
    let mut groups = Vec::new(alloc);
    push_groups(alloc, Fault::Overlap, rules, overlaps, &mut groups)?;
    push_groups(alloc, Fault::Shadow, rules, shadows, &mut groups)?;
    sort_groups(&mut groups)?;
    errors_from(alloc, groups.as_slice())
}

/// Sorts groups by the positions of their heads; at one position they stay in the order in which they stood.
fn sort_groups(groups: &mut Vec<Group>) -> Result<(), AllocError>
    ensures moved { IsPermutation groups.old.items groups.new.items }
    ensures stable { IsStableByKey (λ group. group.head.pos) pos_order groups.old.items groups.new.items }
    ensures ascending { OnOk result (IsSortedByKey (λ group. group.head.pos) pos_order groups.new.items) }
{
    groups.sort_by_key(|group: &Group| group.head.pos)
}

/// While pairs are left, one rule heads a group of its partners left, and its pairs are taken out.
fn push_groups(
    alloc: Global,
    fault: Fault,
    rules: &[RulePlace],
    pairs: &[(usize, usize)],
    groups: &mut Vec<Group>,
) -> Result<(), AllocError>
    requires { ArePairs (length rules.now) pairs.now }
    ensures { OnOk result (AddsGroups fault rules.now pairs.now groups.old.items groups.new.items) }
{
    let mut left = pairs.to_vec(alloc)?;
    'groups: while !left.is_empty() {
        let head = head_of(alloc, fault, rules, left.as_slice())?;
        groups.push(group_of(alloc, fault, rules, left.as_slice(), head)?)?;
        take_out(fault, head, &mut left);
    }
    Ok(())
}

/// The place with most partners, among these the one whose rule stands last.
fn head_of(
    alloc: Global,
    fault: Fault,
    rules: &[RulePlace],
    pairs: &[(usize, usize)],
) -> Result<usize, AllocError>
    requires some { 0 < length pairs.now }
    requires pairs_in { ArePairs (length rules.now) pairs.now }
    ensures greatest { IfOk result (IsGreatest rules.now (λ place. partner_count fault place pairs.now)) }
    ensures heads { IfOk result (λ place. 0 < partner_count fault place pairs.now) }
{
    let counts = partner_counts(alloc, fault, rules.len(), pairs)?;
    Ok(greatest(rules, counts.as_slice()))
}

/// The group of a place.
fn group_of(
    alloc: Global,
    fault: Fault,
    rules: &[RulePlace],
    pairs: &[(usize, usize)],
    head: usize,
) -> Result<Group, AllocError>
    requires head_in { head < length rules.now }
    requires pairs_in { ArePairs (length rules.now) pairs.now }
    ensures { IfOk result (IsGroup fault rules.now head pairs.now) }
{
    let others = others_of(alloc, fault, rules, pairs, head)?;
    Ok(Group {
        fault,
        head: rules[head],
        others: Seq::new(others),
    })
}

/// Leaves the pairs that a place doesn't head.
fn take_out(fault: Fault, place: usize, pairs: &mut Vec<(usize, usize)>)
    ensures { pairs.new.items ≡ pairs_without fault place pairs.old.items }
{
    pairs.retain(
        |pair: &(usize, usize)| -> bool
            ensures { result ≡ not (is_some (partner fault place pair.now)) }
        { partner_in(fault, place, *pair).is_none() },
    );
}

/// The other place of a pair, where the place heads it: of an overlap either may, of a shadow only the first.
fn partner_in(fault: Fault, place: usize, pair: (usize, usize)) -> Option<usize>
    ensures { result ≡ partner fault place pair }
{
    match fault {
        Fault::Overlap if pair.1 == place => Some(pair.0),
        _ if pair.0 == place => Some(pair.1),
        _ => None,
    }
}

/// How many partners each place has.
fn partner_counts(
    alloc: Global,
    fault: Fault,
    places: usize,
    pairs: &[(usize, usize)],
) -> Result<Vec<usize>, AllocError>
    requires { ArePairs places pairs.now }
    ensures length { IfOk result (λ counts. length counts.items ≡ places) }
    ensures counts { IfOk result (λ counts. (i : ℕ) → i < places
        → slice_index counts.items i ≡ partner_count fault i pairs.now) }
{
    let mut counts = vec![in alloc; 0usize; places]?;
    for pair in pairs {
        count_pair(fault, *pair, counts.as_mut_slice());
    }
    Ok(counts)
}

/// Adds a pair to the counts of the places that may head it.
fn count_pair(fault: Fault, pair: (usize, usize), counts: &mut [usize])
    requires first_in { pair.0 < length counts.old }
    requires second_in { pair.1 < length counts.old }
    requires apart { pair.0 ≢ pair.1 }
    requires room { (i : ℕ) → i < length counts.old → slice_index counts.old i < usize.MAX }
    ensures { (i : ℕ) → i < length counts.old
        → slice_index counts.new i ≡ slice_index counts.old i + count_by (λ p. is_some (partner fault i p)) (pair ∷ []) }
{
    counts[pair.0] += 1;
    match fault {
        Fault::Overlap => counts[pair.1] += 1,
        Fault::Shadow => {}
    }
}

/// The place with the greatest count, among these the one whose rule stands last.
fn greatest(rules: &[RulePlace], counts: &[usize]) -> usize
    requires some { 0 < length rules.now }
    requires same { length counts.now ≡ length rules.now }
    ensures { IsGreatest rules.now (slice_index counts.now) result }
{
    let mut best = 0;
    for place in 1..rules.len() {
        if is_below(rules, counts, best, place) {
            best = place;
        }
    }
    best
}

/// Whether the second place has a greater count, or the same one and a later rule.
fn is_below(rules: &[RulePlace], counts: &[usize], first: usize, second: usize) -> bool
    requires same { length counts.now ≡ length rules.now }
    requires first_in { first < length rules.now }
    requires second_in { second < length rules.now }
    ensures { IsTrue result ↔ IsBelow rules.now counts.now first second }
{
    if counts[first] == counts[second] {
        rules[first] < rules[second]
    } else {
        counts[first] < counts[second]
    }
}

/// The positions of a place's partners, ascending.
fn others_of(
    alloc: Global,
    fault: Fault,
    rules: &[RulePlace],
    pairs: &[(usize, usize)],
    head: usize,
) -> Result<Vec<Pos>, AllocError>
    requires { ArePairs (length rules.now) pairs.now }
    ensures moved { IfOk result (λ others. IsPermutation (positions rules.now (partners fault head pairs.now)) others.items) }
    ensures ascending { IfOk result (λ others. IsSorted pos_order others.items) }
{
    let mut others = Vec::new(alloc);
    for pair in pairs {
        if let Some(other) = partner_in(fault, head, *pair) {
            others.push(rules[other].pos)?;
        }
    }
    others.sort_unstable();
    Ok(others)
}

/// The error of each group.
fn errors_from(alloc: Global, groups: &[Group]) -> Result<Vec<Error>, AllocError>
    ensures { IfOk result (λ errors. errors.items ≡ map error_of groups.now) }
{
    let mut errors = Vec::new(alloc);
    for group in groups {
        errors.push(error_from(alloc, group)?)?;
    }
    Ok(errors)
}

/// The error of a group.
fn error_from(alloc: Global, group: &Group) -> Result<Error, AllocError>
    ensures { IfOk result (λ error. error ≡ error_of group.now) }
{
    let mask = Span::at(group.head.pos);
    let spans = spans_at(alloc, group.others.as_slice())?;
    match group.fault {
        Fault::Overlap => overlap_error(alloc, mask, spans),
        Fault::Shadow => Ok(Error::ShadowedError {
            shadowed: Seq::new(spans),
            mask,
        }),
    }
}

/// The error of overlapping rules.
fn overlap_error(alloc: Global, head: Span, partners: Vec<Span>) -> Result<Error, AllocError>
    ensures { IfOk result (λ error. error ≡ Error.OverlapError overlap_message (head ∷ partners.items)) }
{
    let mut rules = partners;
    rules.insert(0, head)?;
    Ok(Error::OverlapError {
        msg: Text::from_str(alloc, "rules are overlapping")?,
        rules: Seq::new(rules),
    })
}

/// The span of each position.
fn spans_at(alloc: Global, positions: &[Pos]) -> Result<Vec<Span>, AllocError>
    ensures { IfOk result (λ spans. spans.items ≡ map span_at positions.now) }
{
    positions.iter().map(|pos| Span::at(*pos)).collect(alloc)
}
