//! Which sites of a rule must be equal.

use isle_blocks::{Binding, BindingId, Demands};
use isle_types::{DisjointSets, SortedMap};
use std::alloc::{AllocError, Global};

/// The sites that must be equal: those that the rule says, and the same fields of equal values.
pub(super) fn classes_of(
    alloc: Global,
    demands: &Demands,
) -> Result<DisjointSets<BindingId>, AllocError> {
    let mut classes = stated(alloc, demands.equals.as_slice())?;
    for _ in 0..demands.sites.len() {
        if !join_fields(alloc, demands.sites.as_slice(), &mut classes)? {
            break;
        }
    }
    Ok(classes)
}

/// The sites that a rule says to be equal.
fn stated(
    alloc: Global,
    equals: &[(BindingId, BindingId)],
) -> Result<DisjointSets<BindingId>, AllocError> {
    let mut classes = DisjointSets::new(alloc);
    for (one, other) in equals {
        if one != other {
            classes.merge(*one, *other)?;
        }
    }
    Ok(classes)
}

/// The site that stands for those that must equal this one.
pub(super) fn root_of(classes: &DisjointSets<BindingId>, site: BindingId) -> BindingId {
    classes.find(site).unwrap_or(site)
}

/// Joins the same fields of equal values, and says whether any were apart.
fn join_fields(
    alloc: Global,
    sites: &[Binding],
    classes: &mut DisjointSets<BindingId>,
) -> Result<bool, AllocError> {
    let mut firsts = SortedMap::new(alloc);
    let mut changed = false;
    for place in 0..sites.len() {
        if join_field(place, &sites[place], &mut firsts, classes)? {
            changed = true;
        }
    }
    Ok(changed)
}

/// Joins a field with the same one of an equal value before it, and says whether they were apart.
fn join_field(
    place: usize,
    site: &Binding,
    firsts: &mut SortedMap<Binding, BindingId>,
    classes: &mut DisjointSets<BindingId>,
) -> Result<bool, AllocError> {
    let (Ok(id), Some(field)) = (BindingId::try_from(place), field_of_root(classes, site)) else {
        return Ok(false);
    };
    let Some(first) = firsts.get(&field).copied() else {
        firsts.insert(field, id)?;
        return Ok(false);
    };
    if first == id || root_of(classes, first) == root_of(classes, id) {
        return Ok(false);
    }
    classes.merge(first, id)?;
    Ok(true)
}

/// A field as that of the value that stands for its own; nothing of other sites.
fn field_of_root(classes: &DisjointSets<BindingId>, site: &Binding) -> Option<Binding> {
    match site {
        Binding::MatchVariant {
            source,
            variant,
            field,
        } => Some(Binding::MatchVariant {
            source: root_of(classes, *source),
            variant: *variant,
            field: *field,
        }),
        Binding::ExtractStruct { source, field } => Some(Binding::ExtractStruct {
            source: root_of(classes, *source),
            field: *field,
        }),
        _ => None,
    }
}
