//! Whether each type has a value.
ghost use Rattle.std.specs.Prelude.{◌≡◌, ◌↔◌, ◌<◌, ◌+◌, IsTrue, Bool, length, IfOk, slice_index_or, false};
ghost use Rattle.std.specs.List.{list_all, list_any};
ghost use Rattle.isle_types.specs.declared.types.Variant.{Variant as VariantRecord};
ghost use Rattle.isle_types.specs.declared.types.StructField.{StructField as NamedField};
ghost use Rattle.isle_types.specs.declared.types.TupleField.{TupleField as UnnamedField};
ghost use Rattle.isle_types.specs.Types.{field_types};
ghost use Rattle.isle_program.specs.Facts.Inhabited.{AreAllInhabited, mark_of, can_be_made, MarksBelow, MarksOne};

use isle_types::{Fields, StructField, TupleField, Type, TypeId, Variant};
use std::alloc::{AllocError, Global};

/// Whether each type has a value.
pub(crate) fn are_inhabited(alloc: Global, types: &[Type]) -> Result<bool, AllocError>
    ensures { IfOk result (λ all. IsTrue all ↔ AreAllInhabited types.now) }
{
    let mut marks = vec![in alloc; false; types.len()]?;
    'rounds: while mark_types(types, &mut marks) {}
    Ok(are_set(marks.as_slice()))
}

/// Whether all marks are set.
fn are_set(marks: &[bool]) -> bool
    ensures { result ≡ list_all (λ mark. mark) marks.now }
{
    marks.iter().all(|mark| *mark)
}

/// Marks types whose values can be made of those of marked types, and says whether there are any.
fn mark_types(types: &[Type], marks: &mut Vec<bool>) -> bool
    requires { length marks.old.items ≡ length types.now }
    ensures { MarksBelow (length types.now) types.now marks.old.items marks.new.items result }
{
    let mut changed = false;
    for place in 0..types.len() {
        if mark_type(types, place, marks) {
            changed = true;
        }
    }
    changed
}

/// Marks a type whose values can be made of those of marked types, if it isn't marked, and says whether it did.
fn mark_type(types: &[Type], place: usize, marks: &mut Vec<bool>) -> bool
    requires within { place < length types.now }
    requires fits { length marks.old.items ≡ length types.now }
    ensures { MarksOne place types.now marks.old.items marks.new.items result }
{
    if marks[place] || !has_value(marks.as_slice(), &types[place]) {
        return false;
    }
    marks[place] = true;
    true
}

/// Whether a value of a type can be made of values of marked types.
fn has_value(marks: &[bool], ty: &Type) -> bool
    ensures { result ≡ can_be_made marks.now ty.now }
{
    match ty {
        Type::Builtin(_) | Type::Primitive(_, _, _) => true,
        Type::Enum { variants, .. } => some_has_values(marks, variants.as_slice()),
        Type::Struct { fields, .. } => have_values(marks, fields),
    }
}

/// Whether the types of some variant's fields are marked.
fn some_has_values(marks: &[bool], variants: &[Variant]) -> bool
    ensures { result ≡ list_any (λ (variant : VariantRecord). list_all (mark_of marks.now) (field_types variant.fields)) variants.now }
{
    variants
        .iter()
        .any(|variant| have_values(marks, &variant.fields))
}

/// Whether the types of fields are marked.
fn have_values(marks: &[bool], fields: &Fields) -> bool
    ensures { result ≡ list_all (mark_of marks.now) (field_types fields.now) }
{
    match fields {
        Fields::Unit => true,
        Fields::Struct(fields) => named_have_values(marks, fields.fields.as_slice()),
        Fields::Tuple(fields) => unnamed_have_values(marks, fields.fields.as_slice()),
    }
}

/// Whether the types of named fields are marked.
fn named_have_values(marks: &[bool], fields: &[StructField]) -> bool
    ensures { result ≡ list_all (λ (field : NamedField). mark_of marks.now field.ty) fields.now }
{
    fields.iter().all(|field| is_marked(marks, field.ty))
}

/// Whether the types of fields without names are marked.
fn unnamed_have_values(marks: &[bool], fields: &[TupleField]) -> bool
    ensures { result ≡ list_all (λ (field : UnnamedField). mark_of marks.now field.ty) fields.now }
{
    fields.iter().all(|field| is_marked(marks, field.ty))
}

/// Whether a type is marked.
fn is_marked(marks: &[bool], ty: TypeId) -> bool
    ensures { result ≡ mark_of marks.now ty }
{
    match marks.get(ty.index()) {
        Some(mark) => *mark,
        None => false,
    }
}
