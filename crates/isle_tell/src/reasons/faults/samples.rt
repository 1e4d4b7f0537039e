//! Which variant makes a value of an enum that ends.

use isle_types::{Type, TypeId, Variant};
use std::alloc::{AllocError, Global};

/// How many levels a sample has at most.
const DEEPEST: usize = 16;

/// For each type the place of the variant that its sample is made of, 0 where it has no variants; nothing where no sample is found.
pub(super) fn sample_variants(
    alloc: Global,
    types: &[Type],
) -> Result<Vec<Option<usize>>, AllocError> {
    let mut found = Vec::new(alloc);
    for _ in 0..DEEPEST {
        found = next_samples(alloc, types, found.as_slice())?;
    }
    Ok(found)
}

/// The samples that are made of those that are found.
fn next_samples(
    alloc: Global,
    types: &[Type],
    found: &[Option<usize>],
) -> Result<Vec<Option<usize>>, AllocError> {
    let mut next = Vec::new(alloc);
    for place in 0..types.len() {
        let sample = match known(found, place) {
            Some(variant) => Some(variant),
            None => sample_of(alloc, &types[place], found)?,
        };
        next.push(sample)?;
    }
    Ok(next)
}

/// The variant of a type's sample, if it is found.
fn known(found: &[Option<usize>], place: usize) -> Option<usize> {
    match found.get(place) {
        Some(variant) => *variant,
        None => None,
    }
}

/// The first variant of a type all of whose fields have samples; 0 of types without variants.
fn sample_of(
    alloc: Global,
    ty: &Type,
    found: &[Option<usize>],
) -> Result<Option<usize>, AllocError> {
    match ty {
        Type::Builtin(_) | Type::Primitive(_, _, _) => Ok(Some(0)),
        Type::Enum { variants, .. } => first_variant(alloc, variants.as_slice(), found),
        Type::Struct { fields, .. } => {
            let types = fields.types(alloc)?;
            Ok(if have_samples(types.as_slice(), found) {
                Some(0)
            } else {
                None
            })
        }
    }
}

/// The first variant all of whose fields have samples.
fn first_variant(
    alloc: Global,
    variants: &[Variant],
    found: &[Option<usize>],
) -> Result<Option<usize>, AllocError> {
    for place in 0..variants.len() {
        let types = variants[place].fields.types(alloc)?;
        if have_samples(types.as_slice(), found) {
            return Ok(Some(place));
        }
    }
    Ok(None)
}

/// Whether samples of all these types are found.
fn have_samples(types: &[TypeId], found: &[Option<usize>]) -> bool {
    types.iter().all(|ty| known(found, ty.index()).is_some())
}
