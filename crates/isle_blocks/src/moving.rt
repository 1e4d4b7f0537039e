//! Sites that are put into another table, and their tests and pairs by the numbers that they get there.
ghost use Rattle.std.specs.Prelude.{◌≡◌, map, IfOk, IfErr};
ghost use Rattle.isle_blocks.specs.Inside.MovedSites.{new_number, renumbered, MovesSites, EndsFull, moved_test, moved_pair};

use crate::binding::Binding;
use crate::constraint::Constraint;
use crate::ids::BindingId;
use crate::sites::{SiteFault, Sites};
use isle_ast::Seq;
use std::alloc::{AllocError, Global};

/// The number that a site has got; its own where it has got none.
pub(crate) fn moved(numbers: &[BindingId], id: BindingId) -> BindingId
    ensures { result ≡ new_number numbers.now id }
{
    match numbers.get(id.index()) {
        Some(number) => *number,
        None => id,
    }
}

/// The numbers that sites have got, in order.
pub(crate) fn all_moved(
    alloc: Global,
    numbers: &[BindingId],
    ids: &[BindingId],
) -> Result<Seq<BindingId>, AllocError>
    ensures { IfOk result (λ made. made ≡ map (new_number numbers.now) ids.now) }
{
    let mut made = Vec::with_capacity(alloc, ids.len())?;
    for id in ids {
        made.push(moved(numbers, *id))?;
    }
    Ok(Seq::new(made))
}

/// A site whose parts have got these numbers.
pub(crate) fn renumber(
    alloc: Global,
    numbers: &[BindingId],
    binding: &Binding,
) -> Result<Binding, AllocError>
    ensures { IfOk result (λ made. made ≡ renumbered (new_number numbers.now) binding.now) }
{
    Ok(match binding {
        Binding::ConstBool { val, ty } => Binding::ConstBool { val: *val, ty: *ty },
        Binding::ConstInt { val, ty } => Binding::ConstInt { val: *val, ty: *ty },
        Binding::ConstPrim { val } => Binding::ConstPrim { val: *val },
        Binding::Argument { index } => Binding::Argument { index: *index },
        Binding::Extractor { term, parameter } => Binding::Extractor {
            term: *term,
            parameter: moved(numbers, *parameter),
        },
        Binding::Constructor {
            term,
            parameters,
            instance,
        } => Binding::Constructor {
            term: *term,
            parameters: all_moved(alloc, numbers, parameters.as_slice())?,
            instance: *instance,
        },
        Binding::Iterator { source } => Binding::Iterator {
            source: moved(numbers, *source),
        },
        Binding::MakeVariant {
            ty,
            variant,
            fields,
        } => Binding::MakeVariant {
            ty: *ty,
            variant: *variant,
            fields: all_moved(alloc, numbers, fields.as_slice())?,
        },
        Binding::MatchVariant {
            source,
            variant,
            field,
        } => Binding::MatchVariant {
            source: moved(numbers, *source),
            variant: *variant,
            field: *field,
        },
        Binding::MakeStruct { ty, fields } => Binding::MakeStruct {
            ty: *ty,
            fields: all_moved(alloc, numbers, fields.as_slice())?,
        },
        Binding::ExtractStruct { source, field } => Binding::ExtractStruct {
            source: moved(numbers, *source),
            field: *field,
        },
        Binding::MakeSome { inner } => Binding::MakeSome {
            inner: moved(numbers, *inner),
        },
        Binding::MatchSome { source } => Binding::MatchSome {
            source: moved(numbers, *source),
        },
        Binding::MatchTuple { source, field } => Binding::MatchTuple {
            source: moved(numbers, *source),
            field: *field,
        },
    })
}

/// Puts sites into a table in turn, and returns the number that each has there. The parts of a site stand before it.
pub(crate) fn move_sites(
    alloc: Global,
    own: &[Binding],
    table: &mut Sites,
) -> Result<Vec<BindingId>, SiteFault>
    ensures moved { IfOk result (λ numbers. MovesSites table.old own.now numbers.items table.new) }
    ensures full { IfErr result (λ fault. fault ≡ SiteFault.Size → EndsFull table.old own.now table.new) }
{
    let mut numbers = Vec::with_capacity(alloc, own.len())?;
    for binding in own {
        let moved = renumber(alloc, numbers.as_slice(), binding)?;
        match table.intern(moved) {
            Ok(id) => numbers.push(id)?,
            Err(fault) => return Err(fault),
        }
    }
    Ok(numbers)
}

/// Tests of sites by the numbers that these have got.
pub(crate) fn move_constraints(
    alloc: Global,
    numbers: &[BindingId],
    has: &[(BindingId, Constraint)],
) -> Result<Vec<(BindingId, Constraint)>, AllocError>
    ensures { IfOk result (λ made. made.items ≡ map (moved_test (new_number numbers.now)) has.now) }
{
    let mut made = Vec::with_capacity(alloc, has.len())?;
    for test in has {
        made.push((moved(numbers, test.0), test.1))?;
    }
    Ok(made)
}

/// Pairs of sites by the numbers that these have got.
pub(crate) fn move_pairs(
    alloc: Global,
    numbers: &[BindingId],
    same: &[(BindingId, BindingId)],
) -> Result<Vec<(BindingId, BindingId)>, AllocError>
    ensures { IfOk result (λ made. made.items ≡ map (moved_pair (new_number numbers.now)) same.now) }
{
    let mut made = Vec::with_capacity(alloc, same.len())?;
    for pair in same {
        made.push((moved(numbers, pair.0), moved(numbers, pair.1)))?;
    }
    Ok(made)
}
