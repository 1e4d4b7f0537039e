//! What the values of sites are shown to be.
use super::case::Case;
use crate::complete::complete_tests;
use crate::table::plain_test;
use isle_blocks::{Binding, BindingId, Constraint, TupleIndex};
use isle_types::VariantId;
use std::alloc::{AllocError, Global};

/// What a value is shown to be.
#[derive(Clone, Copy)]
pub(super) enum Kind {
    /// It passes this test.
    Test(Constraint),
    /// It is so many outputs of an extractor.
    Tuple(TupleIndex),
}

/// The kind of a site, if it has one.
pub(super) fn kind_at(kinds: &[Option<Kind>], site: BindingId) -> Option<Kind> {
    match kinds.get(site.index()) {
        Some(kind) => *kind,
        None => None,
    }
}

/// Gives a site a kind.
fn put_kind(kinds: &mut Vec<Option<Kind>>, site: BindingId, kind: Kind) {
    if let Some(slot) = kinds.get_mut(site.index()) {
        *slot = Some(kind);
    }
}

/// No kind, so many times.
fn no_kinds(alloc: Global, count: usize) -> Result<Vec<Option<Kind>>, AllocError> {
    let mut kinds = Vec::with_capacity(alloc, count)?;
    for _ in 0..count {
        kinds.push(None)?;
    }
    Ok(kinds)
}

/// The kind of each used site: the test that it is told to pass, or what has the fields of which something is told, or the first of all tests of its
/// type that it isn't told to fail.
pub(super) fn kinds_of(alloc: Global, case: &Case<'_>) -> Result<Vec<Option<Kind>>, AllocError> {
    let mut kinds = kinds_by_fields(alloc, case)?;
    for site in case.used {
        if let Some(test) = case.passed_test(*site) {
            put_kind(&mut kinds, *site, Kind::Test(case.typed(*site, test)));
        } else if kind_at(kinds.as_slice(), *site).is_none() {
            if let Some(test) = test_left(alloc, case, *site)? {
                put_kind(&mut kinds, *site, Kind::Test(test));
            }
        }
    }
    Ok(kinds)
}

/// What has the fields that are used. Of two variants that of the first field.
fn kinds_by_fields(alloc: Global, case: &Case<'_>) -> Result<Vec<Option<Kind>>, AllocError> {
    let mut kinds = no_kinds(alloc, case.set.bindings().len())?;
    for site in case.used.iter().rev() {
        if let Some((source, kind)) = kind_by_field(case, *site) {
            put_kind(&mut kinds, source, kind);
        }
    }
    Ok(kinds)
}

/// What a site is a field of, and what that is to have such a field.
fn kind_by_field(case: &Case<'_>, site: BindingId) -> Option<(BindingId, Kind)> {
    match case.binding(site)? {
        Binding::MatchVariant {
            source,
            variant,
            ..
        } => {
            let test = variant_test(case, *source, *variant)?;
            Some((*source, Kind::Test(test)))
        }
        Binding::ExtractStruct { source, .. } => {
            let test = struct_test(case, *source)?;
            Some((*source, Kind::Test(test)))
        }
        Binding::MatchSome { source } => Some((*source, Kind::Test(Constraint::Some))),
        Binding::MatchTuple { source, .. } => {
            Some((*source, Kind::Tuple(outputs_of(case, *source)?)))
        }
        _ => None,
    }
}

/// The test of a variant that a rule has of a site.
fn variant_test(case: &Case<'_>, site: BindingId, wanted: VariantId) -> Option<Constraint> {
    for rule in case.set.rules() {
        if let Some(test) = rule.get_constraint(site) {
            if let Constraint::Variant { variant, .. } = test {
                if *variant == wanted {
                    return Some(*test);
                }
            }
        }
    }
    None
}

/// The test of a struct that a rule has of a site.
fn struct_test(case: &Case<'_>, site: BindingId) -> Option<Constraint> {
    for rule in case.set.rules() {
        if let Some(test) = rule.get_constraint(site) {
            if let Constraint::Struct { .. } = test {
                return Some(*test);
            }
        }
    }
    None
}

/// The number of outputs of an extractor's call, or of what it gives.
fn outputs_of(case: &Case<'_>, site: BindingId) -> Option<TupleIndex> {
    let call = match case.binding(site)? {
        Binding::MatchSome { source } | Binding::Iterator { source } => case.binding(*source)?,
        other => other,
    };
    let Binding::Extractor { term, .. } = call else {
        return None;
    };
    TupleIndex::try_from(case.program.arg_types(*term).len()).ok()
}

/// The first of all tests of a site's type that it isn't told to fail, where it is told to fail some; constants of the host come last.
fn test_left(
    alloc: Global,
    case: &Case<'_>,
    site: BindingId,
) -> Result<Option<Constraint>, AllocError> {
    let failed = case.failed_tests(alloc, site)?;
    if failed.is_empty() {
        return Ok(None);
    }
    let Some(ty) = case.type_of(site) else {
        return Ok(None);
    };
    let Some(tests) = complete_tests(alloc, case.program, ty)? else {
        return Ok(None);
    };
    match first_left(tests.as_slice(), failed.as_slice(), false) {
        Some(test) => Ok(Some(test)),
        None => Ok(first_left(tests.as_slice(), failed.as_slice(), true)),
    }
}

/// The first test that isn't among those that failed, of a constant of the host or of none.
fn first_left(tests: &[Constraint], failed: &[Constraint], constant: bool) -> Option<Constraint> {
    for test in tests {
        if is_constant(*test) == constant && !failed.contains(&plain_test(*test)) {
            return Some(*test);
        }
    }
    None
}

/// Whether a test is that of a constant of the host.
fn is_constant(test: Constraint) -> bool {
    match test {
        Constraint::ConstPrim { .. } => true,
        _ => false,
    }
}
