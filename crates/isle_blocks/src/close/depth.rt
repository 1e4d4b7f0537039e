//! Whether a class is a field of itself, at some depth.
ghost use Rattle.std.specs.Prelude.{◌≡◌, ◌<◌, ◌≤◌, ℕ, Bool, true, false, IfOk, IfSome, IfNone, MatchOption, length, slice_get, slice_index, Some};
ghost use Rattle.isle_types.specs.Names.{AreDistinct};
ghost use Rattle.isle_blocks.specs.Tables.{IsAbsent};
ghost use Rattle.isle_blocks.specs.Inside.ClosureFields.{field_binding, kind_of};
ghost use Rattle.isle_blocks.specs.Inside.ClosureStates.{AreClasses, IsRootOf, IsUnmarkedField, FieldsAreMarked, IsUnmarkedChild, ChildrenAreMarked};
ghost use Rattle.isle_blocks.specs.Inside.ClosureStates.{is_marked, IsRanked, HasLoop};

use super::classes::{alone, own_test};
use super::fields::{Opening, find_field, opens};
use super::lists::SiteLists;
use crate::constraint::Constraint;
use crate::sites::Sites;
use isle_types::VariantId;
use std::alloc::{AllocError, Global};

/// The class of a field of a site, if the field is there.
fn field_root(
    sites: &Sites,
    class: &[usize],
    variant: Option<VariantId>,
    source: usize,
    index: u8,
) -> Option<usize>
    requires source_in { source < 65536 }
    requires fits { length class.now ≡ length sites.now }
    ensures { MatchOption result (IsAbsent sites.now (field_binding (kind_of variant) source index))
        (λ k. IsRootOf sites.now class.now (field_binding (kind_of variant) source index) k) }
{
    let field = find_field(sites, variant, source, index)?;
    Some(class[field])
}

/// The class of the first field of a site that isn't in a marked class.
fn unmarked_field(
    sites: &Sites,
    class: &[usize],
    marks: &[bool],
    source: usize,
    opening: Opening,
) -> Option<usize>
    requires bound { length sites.now ≤ 65536 }
    requires once { AreDistinct sites.now }
    requires classes { AreClasses (length sites.now) class.now }
    requires marks { length marks.now ≡ length sites.now }
    requires source_in { source < length sites.now }
    ensures some { IfSome result (λ k. IsUnmarkedField sites.now class.now marks.now source (kind_of opening.variant) opening.fields.0 k) }
    ensures none { IfNone result (FieldsAreMarked sites.now class.now marks.now source (kind_of opening.variant) opening.fields.0) }
{
    for index in 0..opening.fields.0 {
        if let Some(k) = field_root(sites, class, opening.variant, source, index) {
            if !marks[k] {
                return Some(k);
            }
        }
    }
    None
}

/// A child of a site that isn't marked.
fn unmarked_child(
    sites: &Sites,
    own: &[Option<Constraint>],
    class: &[usize],
    marks: &[bool],
    r: usize,
) -> Option<usize>
    requires bound { length sites.now ≤ 65536 }
    requires once { AreDistinct sites.now }
    requires own { length own.now ≡ length sites.now }
    requires classes { AreClasses (length sites.now) class.now }
    requires marks { length marks.now ≡ length sites.now }
    requires r_in { r < length sites.now }
    ensures some { IfSome result (λ k. IsUnmarkedChild sites.now own.now class.now marks.now r k) }
    ensures none { IfNone result (ChildrenAreMarked sites.now own.now class.now marks.now r) }
{
    let Some(test) = own_test(own, r) else {
        return None;
    };
    let Some(opening) = opens(test) else {
        return None;
    };
    unmarked_field(sites, class, marks, r, opening)
}

/// Whether all sites are marked.
fn are_marked(marks: &[bool]) -> bool
    ensures all { result ≡ true → (k : ℕ) → k < length marks.now → is_marked marks.now k ≡ true }
    ensures some { result ≡ false → (k : ℕ) × (k < length marks.now) × (is_marked marks.now k ≡ false) }
{
    for mark in marks {
        if !*mark {
            return false;
        }
    }
    true
}

/// Whether no site reaches itself. Sites are marked whose children all are, the last ones first; one with a child that isn't marked
/// waits for it.
pub(super) fn is_finite(
    alloc: Global,
    sites: &Sites,
    own: &[Option<Constraint>],
    class: &[usize],
) -> Result<bool, AllocError>
    requires bound { length sites.now ≤ 65536 }
    requires once { AreDistinct sites.now }
    requires own { length own.now ≡ length sites.now }
    requires classes { AreClasses (length sites.now) class.now }
    ensures ranked { IfOk result (λ yes. yes ≡ true → IsRanked sites.now own.now class.now) }
    ensures looped { IfOk result (λ yes. yes ≡ false → HasLoop sites.now own.now class.now) }
{
    let mut marks: Vec<bool> = vec![in alloc; false; sites.len()]?;
    let mut waiting = SiteLists::new(alloc, sites.len())?;
    let mut pending = alone(alloc, sites.len())?;
    while let Some(r) = pending.pop() {
        match unmarked_child(sites, own, class, &marks, r) {
            Some(child) => waiting.add(child, r)?,
            None => {
                marks[r] = true;
                waiting.take(r, &mut pending)?;
            }
        }
    }
    Ok(are_marked(&marks))
}
