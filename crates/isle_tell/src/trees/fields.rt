//! The names of fields.
ghost use Rattle.std.specs.Prelude.{◌≡◌, IfOk, string_bytes};
ghost use Rattle.std.specs.Option.{option_copied};
ghost use Rattle.isle_types.specs.TypeEnvs.{variant_of};
ghost use Rattle.isle_program.specs.Programs.{types_of};
ghost use Rattle.isle_tell.specs.TreeTexts.DotFields.{field_name, named_field, struct_field, struct_fields, variant_field, variant_fields};

use crate::trees::names::{symbol_name, type_name, variant_name};
use isle_program::Program;
use isle_types::{Fields, StructField, Type, TypeId, Variant, VariantId};
use std::alloc::{AllocError, Global};

/// A variant of a type.
fn variant_of(program: &Program, ty: TypeId, variant: VariantId) -> Option<&Variant>
    ensures { option_copied result ≡ variant_of (types_of program.now) ty variant }
{
    match program.types().get_type(ty) {
        Some(Type::Enum { variants, .. }) => variants.as_slice().get(variant.index()),
        _ => None,
    }
}

/// The fields of a variant.
fn variant_fields(program: &Program, ty: TypeId, variant: VariantId) -> Option<&Fields>
    ensures { option_copied result ≡ variant_fields program.now ty variant }
{
    match variant_of(program, ty, variant) {
        Some(found) => Some(&found.fields),
        None => None,
    }
}

/// The fields of a struct.
fn struct_fields(program: &Program, ty: TypeId) -> Option<&Fields>
    ensures { option_copied result ≡ struct_fields program.now ty }
{
    match program.types().get_type(ty) {
        Some(Type::Struct { fields, .. }) => Some(fields),
        _ => None,
    }
}

/// A named field.
fn named_field(fields: Option<&Fields>, field: usize) -> Option<&StructField>
    ensures { option_copied result ≡ named_field (option_copied fields.entry) field }
{
    match fields {
        Some(Fields::Struct(named)) => named.fields.as_slice().get(field),
        _ => None,
    }
}

/// The name of a field; its number where it has none.
fn field_name(
    alloc: Global,
    program: &Program,
    fields: Option<&Fields>,
    field: usize,
) -> Result<String, AllocError>
    ensures { IfOk result (λ text. string_bytes text ≡ field_name program.now (option_copied fields.entry) field) }
{
    match named_field(fields, field) {
        Some(named) => String::from_str(alloc, symbol_name(program, named.name)),
        None => format!(in alloc; "{field}"),
    }
}

/// `TYPE.VARIANT.FIELD`; without the type `field NUMBER`.
pub(crate) fn variant_field(
    alloc: Global,
    program: &Program,
    ty: Option<TypeId>,
    variant: VariantId,
    field: usize,
) -> Result<String, AllocError>
    ensures { IfOk result (λ text. string_bytes text ≡ variant_field program.now ty variant field) }
{
    let Some(ty) = ty else {
        return format!(in alloc; "field {field}");
    };
    let field = field_name(alloc, program, variant_fields(program, ty, variant), field)?;
    let name = variant_name(program, ty, variant);
    format!(in alloc; "{name}.{field}")
}

/// `TYPE.FIELD`; without the type `field NUMBER`.
pub(crate) fn struct_field(
    alloc: Global,
    program: &Program,
    ty: Option<TypeId>,
    field: usize,
) -> Result<String, AllocError>
    ensures { IfOk result (λ text. string_bytes text ≡ struct_field program.now ty field) }
{
    let Some(ty) = ty else {
        return format!(in alloc; "field {field}");
    };
    let field = field_name(alloc, program, struct_fields(program, ty), field)?;
    let name = type_name(program, ty);
    format!(in alloc; "{name}.{field}")
}
