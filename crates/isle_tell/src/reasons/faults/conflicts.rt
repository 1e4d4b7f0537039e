//! Why no values meet what a rule demands.

use crate::reasons::faults::classes::{classes_of, root_of};
use crate::reasons::faults::sites::{site_words, test_words};
use isle_blocks::{Binding, BindingId, Constraint, Demands, TupleIndex};
use isle_program::faulty::Faulty;
use isle_types::{DisjointSets, SortedMap};
use std::alloc::{AllocError, Global};

/// A site with what its value must be.
#[derive(Clone, Copy)]
struct Demanded {
    site: BindingId,
    test: Constraint,
    /// It is this, as a literal or as what is made.
    is_made: bool,
}

/// Two demands that no value meets, in words; else that a value would be a part of itself.
pub(super) fn conflict_reason(
    alloc: Global,
    faulty: &Faulty,
    demands: &Demands,
) -> Result<Option<String>, AllocError> {
    let classes = classes_of(alloc, demands)?;
    let all = all_demanded(alloc, demands)?;
    match clash(alloc, &classes, all.as_slice())? {
        Some((one, other)) => Ok(Some(clash_words(alloc, faulty, demands, one, other)?)),
        None => Ok(Some(String::from_str(alloc, "a value would be a part of itself")?)),
    }
}

/// What a rule tests, and behind that what its literals and the variants that it makes are.
fn all_demanded(alloc: Global, demands: &Demands) -> Result<Vec<Demanded>, AllocError> {
    let mut all = tested(alloc, demands.tests.as_slice())?;
    for place in 0..demands.sites.len() {
        push_made(place, &demands.sites[place], &mut all)?;
    }
    Ok(all)
}

/// What a rule tests.
fn tested(alloc: Global, tests: &[(BindingId, Constraint)]) -> Result<Vec<Demanded>, AllocError> {
    let mut all = Vec::new(alloc);
    for (site, test) in tests {
        all.push(Demanded {
            site: *site,
            test: *test,
            is_made: false,
        })?;
    }
    Ok(all)
}

/// Adds what the site at a place is, if it is a literal or a variant that is made.
fn push_made(place: usize, site: &Binding, all: &mut Vec<Demanded>) -> Result<(), AllocError> {
    if let (Ok(id), Some(test)) = (BindingId::try_from(place), made_test(site)) {
        all.push(Demanded {
            site: id,
            test,
            is_made: true,
        })?;
    }
    Ok(())
}

/// The test that a literal integer or a variant that is made passes.
fn made_test(site: &Binding) -> Option<Constraint> {
    match site {
        Binding::ConstInt { val, ty } => Some(Constraint::ConstInt { val: *val, ty: *ty }),
        Binding::MakeVariant {
            ty,
            variant,
            fields,
        } => match TupleIndex::try_from(fields.as_slice().len()) {
            Ok(count) => Some(Constraint::Variant {
                ty: *ty,
                variant: *variant,
                fields: count,
            }),
            Err(_) => None,
        },
        _ => None,
    }
}

/// The first demand that another one of an equal value before it excludes, and that one.
fn clash(
    alloc: Global,
    classes: &DisjointSets<BindingId>,
    all: &[Demanded],
) -> Result<Option<(Demanded, Demanded)>, AllocError> {
    let mut firsts: SortedMap<BindingId, Demanded> = SortedMap::new(alloc);
    for demanded in all {
        let root = root_of(classes, demanded.site);
        match firsts.get(&root).copied() {
            Some(first) => {
                if first.test != demanded.test {
                    return Ok(Some((first, *demanded)));
                }
            }
            None => {
                firsts.insert(root, *demanded)?;
            }
        }
    }
    Ok(None)
}

/// `argument 1 is 1 and 2`.
fn clash_words(
    alloc: Global,
    faulty: &Faulty,
    demands: &Demands,
    one: Demanded,
    other: Demanded,
) -> Result<String, AllocError> {
    let sites = demands.sites.as_slice();
    let place = site_words(alloc, faulty, sites, one.site)?;
    let partner = site_words(alloc, faulty, sites, other.site)?;
    let first = test_words(alloc, faulty, &one.test)?;
    let second = test_words(alloc, faulty, &other.test)?;
    if one.is_made {
        format!(in alloc; "{place} must equal {partner}")
    } else if other.is_made && one.site == other.site {
        format!(in alloc; "{place} is never {first}")
    } else if other.is_made {
        format!(in alloc; "{place} is {first} and equals {partner}")
    } else if one.site == other.site {
        format!(in alloc; "{place} is {first} and {second}")
    } else {
        format!(in alloc; "{place} is {first}, and {partner}, which equals it, is {second}")
    }
}
