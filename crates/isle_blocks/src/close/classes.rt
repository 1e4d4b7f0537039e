//! The classes of sites that a rule's demands make equal.
ghost use Rattle.std.specs.Prelude.{◌≡◌, ◌≢◌, ◌<◌, ◌≤◌, ◌⊎◌, ℕ, List, [], IfOk, IfSome, IfNone, MatchOption, Contains, length, slice_get, slice_index, slice_index_or, vec_len, Option};
ghost use Rattle.isle_meaning.specs.Faults.{Conflict};
ghost use Rattle.isle_blocks.specs.Rows.{pairs_of};
ghost use Rattle.isle_blocks.specs.Inside.ClosureFields.{AreFields, kind_of};
ghost use Rattle.isle_blocks.specs.Tables.{IsTable};
ghost use Rattle.isle_blocks.specs.Inside.ClosureStates.{HasOwn, AreOwn, HasTwo, IsJoined, LackLikeFields, HaveLikeFields, AreLikeFields, IsChoice, IsClash, AllPairs, WasPushed};
ghost use Rattle.isle_blocks.specs.Inside.ClosureStates.{LikesAreIn, ArePairsBelow, AreClasses, AreMembers, IsLikeAmong, IsSound, IsClosed, ForDemands, ListMembers};
ghost use Rattle.isle_blocks.specs.declared.ids.BindingId.{BindingId as Number};
ghost use Rattle.isle_blocks.specs.declared.constraint.Constraint.{Constraint as Test};

use super::fields::{Opening, find_field, opens, same};
use super::lists::SiteLists;
use crate::constraint::Constraint;
use crate::ids::BindingId;
use crate::sites::Sites;
use isle_types::VariantId;
use std::alloc::{AllocError, Global};

/// The one test of each site, or nothing where a site has two.
pub(super) fn gather(
    alloc: Global,
    count: usize,
    has: &[(BindingId, Constraint)],
) -> Result<Option<Vec<Option<Constraint>>>, AllocError>
    requires { (a : Number) (c : Test) → Contains has.now (a, c) → a.0 < count }
    ensures { IfOk result (λ r. MatchOption r (HasTwo has.now) (λ own. AreOwn count has.now own.items)) }
{
    let mut own: Vec<Option<Constraint>> = vec![in alloc; None; count]?;
    for (a, c) in has {
        match own[a.0 as usize] {
            Some(d) => {
                if !same(*c, d) {
                    return Ok(None);
                }
            }
            None => own[a.0 as usize] = Some(*c),
        }
    }
    Ok(Some(own))
}

/// Each site alone.
pub(super) fn alone(alloc: Global, count: usize) -> Result<Vec<usize>, AllocError>
    ensures { IfOk result (λ class. (vec_len class ≡ count) × ((a : ℕ) → a < count → slice_index class.items a ≡ a)) }
{
    let mut class = Vec::with_capacity(alloc, count)?;
    for a in 0..count {
        class.push(a)?;
    }
    Ok(class)
}

/// The pairs by number.
pub(super) fn number_pairs(
    alloc: Global,
    same: &[(BindingId, BindingId)],
) -> Result<Vec<(usize, usize)>, AllocError>
    ensures { IfOk result (λ pairs. pairs.items ≡ pairs_of same.now) }
{
    let mut pairs = Vec::with_capacity(alloc, same.len())?;
    for (a, b) in same {
        pairs.push((a.index(), b.index()))?;
    }
    Ok(pairs)
}

/// Takes pairs of one class off the list, until one of two classes comes.
pub(super) fn next_apart(
    pending: &mut Vec<(usize, usize)>,
    class: &[usize],
) -> Option<(usize, usize)>
    requires { AllPairs pending.old.items (λ a b. (a < length class.now) × (b < length class.now)) }
    ensures fewer { AllPairs pending.new.items (λ a b. Contains pending.old.items (a, b)) }
    ensures none { IfNone result (pending.new.items ≡ []) }
    ensures some { IfSome result (λ p. Contains pending.old.items p × (slice_index class.now p.0 ≢ slice_index class.now p.1)) }
    ensures taken { AllPairs pending.old.items (λ a b. Contains pending.new.items (a, b) ⊎ (slice_index class.now a ≡ slice_index class.now b) ⊎
        (result ≡ Some (a, b))) }
{
    while let Some((a, b)) = pending.pop() {
        if class[a] != class[b] {
            return Some((a, b));
        }
    }
    None
}

/// Gives the members of one class to another.
pub(super) fn relabel(class: &mut [usize], members: &[usize], drop: usize, keep: usize)
    requires { AreMembers class.old drop members.now }
    ensures { IsJoined class.old class.new drop keep }
{
    for member in members {
        class[*member] = keep;
    }
}

/// A field of a site, and the like field of another.
pub(super) fn like_fields(
    sites: &Sites,
    variant: Option<VariantId>,
    member: usize,
    keep: usize,
    index: u8,
) -> Option<(usize, usize)>
    requires member_in { member < 65536 }
    requires keep_in { keep < 65536 }
    ensures { MatchOption result (LackLikeFields sites.now (kind_of variant) member keep index)
        (λ p. HaveLikeFields sites.now (kind_of variant) member keep index p.0 p.1) }
{
    let f = find_field(sites, variant, member, index)?;
    let g = find_field(sites, variant, keep, index)?;
    Some((f, g))
}

/// Lists the like fields of two sites.
pub(super) fn push_fields(
    sites: &Sites,
    member: usize,
    keep: usize,
    test: Constraint,
    opening: Opening,
    pending: &mut Vec<(usize, usize)>,
) -> Result<(), AllocError>
    requires table { IsTable sites.now }
    requires member_in { member < 65536 }
    requires keep_in { keep < 65536 }
    requires opened { AreFields test opening }
    ensures pushed { AllPairs pending.new.items (λ a b. Contains pending.old.items (a, b) ⊎ AreLikeFields sites.now member keep test a b) }
    ensures kept { IfOk result (λ _. AllPairs pending.old.items (λ a b. Contains pending.new.items (a, b))) }
    ensures all { IfOk result (λ _. (f g : ℕ) → AreLikeFields sites.now member keep test f g → Contains pending.new.items (f, g)) }
{
    for index in 0..opening.fields.0 {
        if let Some((f, g)) = like_fields(sites, opening.variant, member, keep, index) {
            pending.push((f, g))?;
        }
    }
    Ok(())
}

/// Lists the fields of a class's members beside the like fields of another class's representative.
pub(super) fn push_like(
    sites: &Sites,
    members: &[usize],
    keep: usize,
    test: Constraint,
    pending: &mut Vec<(usize, usize)>,
) -> Result<(), AllocError>
    requires within { (a : ℕ) → Contains members.now a → a < length sites.now }
    requires bound { length sites.now ≤ 65536 }
    requires keep_in { keep < length sites.now }
    requires table { IsTable sites.now }
    ensures pushed { AllPairs pending.new.items (λ a b. Contains pending.old.items (a, b) ⊎ IsLikeAmong sites.now members.now keep test a b) }
    ensures kept { IfOk result (λ _. AllPairs pending.old.items (λ a b. Contains pending.new.items (a, b))) }
    ensures all { IfOk result (λ _. (f g : ℕ) → IsLikeAmong sites.now members.now keep test f g → Contains pending.new.items (f, g)) }
{
    let Some(opening) = opens(test) else {
        return Ok(());
    };
    for member in members {
        push_fields(sites, *member, keep, test, opening, pending)?;
    }
    Ok(())
}

/// Which of two representatives to keep: one with a test, if there is one, else that of more sites; nothing where they clash.
pub(super) fn choose(
    own: &[Option<Constraint>],
    members: &SiteLists,
    a: usize,
    b: usize,
) -> Option<(usize, usize)>
    requires a_in { a < length own.now }
    requires b_in { b < length own.now }
    requires fits { length members.now ≡ length own.now }
    ensures { MatchOption result (IsClash own.now a b) (λ p. IsChoice own.now a b p.0 p.1) }
{
    match (own[a], own[b]) {
        (None, Some(_)) => return Some((a, b)),
        (Some(_), None) => return Some((b, a)),
        (Some(c), Some(d)) if !same(c, d) => return None,
        _ => {}
    }
    if members.get(a).len() <= members.get(b).len() {
        Some((a, b))
    } else {
        Some((b, a))
    }
}

/// A site's own test.
pub(super) fn own_test(own: &[Option<Constraint>], a: usize) -> Option<Constraint>
    requires { a < length own.now }
    ensures { MatchOption result ((c : Test) → HasOwn own.now a c → ⊥) (λ c. HasOwn own.now a c) }
{
    own[a]
}

/// Joins two classes, and lists the like fields that are to be equal for it.
pub(super) fn join(
    sites: &Sites,
    own: &[Option<Constraint>],
    class: &mut [usize],
    members: &mut SiteLists,
    drop: usize,
    keep: usize,
    pending: &mut Vec<(usize, usize)>,
) -> Result<(), AllocError>
    requires fits { length class.old ≡ length sites.now }
    requires own_fits { length own.now ≡ length sites.now }
    requires bound { length sites.now ≤ 65536 }
    requires drop_in { drop < length sites.now }
    requires keep_in { keep < length sites.now }
    requires apart { drop ≢ keep }
    requires table { IsTable sites.now }
    requires members { ListMembers class.old members.old }
    ensures joined { IfOk result (λ _. IsJoined class.old class.new drop keep) }
    ensures members { IfOk result (λ _. ListMembers class.new members.new) }
    ensures pushed { AllPairs pending.new.items (λ a b. WasPushed sites.now own.now class.old drop keep pending.old.items a b) }
    ensures kept { IfOk result (λ _. AllPairs pending.old.items (λ a b. Contains pending.new.items (a, b))) }
    ensures likes { IfOk result (λ _. LikesAreIn sites.now own.now class.old drop keep pending.new.items) }
{
    let dropped = members.get(drop);
    if let Some(test) = own_test(own, keep) {
        push_like(sites, dropped, keep, test, pending)?;
    }
    relabel(class, dropped, drop, keep);
    members.join(drop, keep)?;
    Ok(())
}

/// The classes into which the demands put the sites, like fields of equal sites with them; nothing where two tests
/// clash.
pub(super) fn unify(
    alloc: Global,
    sites: &Sites,
    own: &[Option<Constraint>],
    equals: &[(usize, usize)],
) -> Result<Option<Vec<usize>>, AllocError>
    requires table { IsTable sites.now }
    requires bound { length sites.now ≤ 65536 }
    requires fits { length own.now ≡ length sites.now }
    requires within { ArePairsBelow equals.now (length sites.now) }
    ensures classes { IfOk result (λ r. IfSome r (λ class. AreClasses (length sites.now) class.items)) }
    ensures sound { IfOk result (λ r. IfSome r (λ class. ForDemands sites.now equals.now own.now (λ name D. IsSound name sites.now D class.items))) }
    ensures closed { IfOk result (λ r. IfSome r (λ class. IsClosed sites.now equals.now own.now class.items)) }
    ensures clash { IfOk result (λ r. IfNone r (ForDemands sites.now equals.now own.now (λ name D. Conflict D))) }
{
    let mut class = alone(alloc, sites.len())?;
    let mut members = SiteLists::alone(alloc, sites.len())?;
    let mut pending = Vec::from_slice(alloc, equals)?;
    while let Some((x, y)) = next_apart(&mut pending, &class) {
        match choose(own, &members, class[x], class[y]) {
            None => return Ok(None),
            Some((drop, keep)) => {
                join(
                    sites,
                    own,
                    &mut class,
                    &mut members,
                    drop,
                    keep,
                    &mut pending,
                )?;
            }
        }
    }
    Ok(Some(class))
}
