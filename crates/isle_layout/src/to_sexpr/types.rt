//! S-expressions of the definitions of types, and of variants and fields.
ghost use Rattle.std.specs.Prelude.{◌≡◌, ◌++◌, false, map, IfOk};
ghost use Rattle.isle_layout.specs.SExprShape.{sexpr_of};
ghost use Rattle.isle_layout.specs.DefSpellings.{struct_field_sexpr, tuple_field_sexpr, fields_sexprs, fields_sexpr, struct_fields_sexpr};
ghost use Rattle.isle_layout.specs.DefSpellings.{tuple_fields_sexpr, variant_sexpr, type_value_sexpr, type_sexpr};

use crate::sexpr::SExpr;
use crate::to_sexpr::list::{ListBuilder, name};
use crate::to_sexpr::{HasMacroArg, ToSExpr};
use isle_syntax::Refusal;
use isle_syntax::ast::{
    Fields, StructField, StructFields, TupleField, TupleFields, Type, TypeValue, Variant,
};
use std::alloc::{AllocError, Global};

/// A type's definition.
impl ToSExpr for Type {
    ghost sexpr = { type_sexpr };

    ghost macro_arg = { λ _. false };

    fn to_sexpr(&self, alloc: Global) -> Result<SExpr, Refusal<HasMacroArg>> {
        let list = ListBuilder::new(alloc).word("type")?.name(&self.name)?;
        let list = list
            .flag("extern", self.is_extern)?
            .flag("nodebug", self.is_nodebug)?;
        Ok(list.item(spell_type_value(alloc, &self.ty)?)?.build())
    }
}

/// What a type is made of.
pub(crate) fn spell_type_value(alloc: Global, ty: &TypeValue) -> Result<SExpr, AllocError>
    ensures { IfOk result (λ sexpr. sexpr_of sexpr ≡ type_value_sexpr ty.now) }
{
    let list = ListBuilder::new(alloc);
    let list = match ty {
        TypeValue::Primitive(primitive, _) => list.word("primitive")?.name(primitive)?,
        TypeValue::Enum(variants, _) => add_variants(
            alloc,
            list.word("enum")?,
            variants.as_slice(),
        )?,
        TypeValue::Struct(fields, _) => add_fields(alloc, list.word("struct")?, fields)?,
    };
    Ok(list.build())
}

/// A list with variants more.
fn add_variants(
    alloc: Global,
    list: ListBuilder,
    variants: &[Variant],
) -> Result<ListBuilder, AllocError>
    ensures { IfOk result (λ longer. longer ≡ list ++ map variant_sexpr variants.now) }
{
    let mut longer = list;
    for variant in variants {
        longer = longer.item(spell_variant(alloc, variant)?)?;
    }
    Ok(longer)
}

/// A variant.
pub(crate) fn spell_variant(alloc: Global, variant: &Variant) -> Result<SExpr, AllocError>
    ensures { IfOk result (λ sexpr. sexpr_of sexpr ≡ variant_sexpr variant.now) }
{
    match &variant.fields {
        Fields::Unit => name(alloc, &variant.name),
        fields => {
            let list = ListBuilder::new(alloc).name(&variant.name)?;
            Ok(add_fields(alloc, list, fields)?.build())
        }
    }
}

/// The list of the fields of a variant or struct.
pub(crate) fn spell_fields(alloc: Global, fields: &Fields) -> Result<SExpr, AllocError>
    ensures { IfOk result (λ sexpr. sexpr_of sexpr ≡ fields_sexpr fields.now) }
{
    Ok(add_fields(alloc, ListBuilder::new(alloc), fields)?.build())
}

/// The list of fields with names.
pub(crate) fn spell_struct_fields(alloc: Global, fields: &StructFields) -> Result<SExpr, AllocError>
    ensures { IfOk result (λ sexpr. sexpr_of sexpr ≡ struct_fields_sexpr fields.now) }
{
    let list = add_struct_fields(alloc, ListBuilder::new(alloc), fields.fields.as_slice())?;
    Ok(list.build())
}

/// The list of fields without names.
pub(crate) fn spell_tuple_fields(alloc: Global, fields: &TupleFields) -> Result<SExpr, AllocError>
    ensures { IfOk result (λ sexpr. sexpr_of sexpr ≡ tuple_fields_sexpr fields.now) }
{
    Ok(add_tuple_fields(ListBuilder::new(alloc), fields.fields.as_slice())?.build())
}

/// A list with the fields of a variant or struct more.
fn add_fields(alloc: Global, list: ListBuilder, fields: &Fields) -> Result<ListBuilder, AllocError>
    ensures { IfOk result (λ longer. longer ≡ list ++ fields_sexprs fields.now) }
{
    match fields {
        Fields::Unit => Ok(list),
        Fields::Struct(fields) => add_struct_fields(alloc, list, fields.fields.as_slice()),
        Fields::Tuple(fields) => add_tuple_fields(list, fields.fields.as_slice()),
    }
}

/// A list with fields more that have names.
fn add_struct_fields(
    alloc: Global,
    list: ListBuilder,
    fields: &[StructField],
) -> Result<ListBuilder, AllocError>
    ensures { IfOk result (λ longer. longer ≡ list ++ map struct_field_sexpr fields.now) }
{
    let mut longer = list;
    for field in fields {
        longer = longer.item(spell_struct_field(alloc, field)?)?;
    }
    Ok(longer)
}

/// A list with fields more that have no names.
fn add_tuple_fields(list: ListBuilder, fields: &[TupleField]) -> Result<ListBuilder, AllocError>
    ensures { IfOk result (λ longer. longer ≡ list ++ map tuple_field_sexpr fields.now) }
{
    let mut longer = list;
    for field in fields {
        longer = longer.name(&field.ty)?;
    }
    Ok(longer)
}

/// A field with its name.
pub(crate) fn spell_struct_field(alloc: Global, field: &StructField) -> Result<SExpr, AllocError>
    ensures { IfOk result (λ sexpr. sexpr_of sexpr ≡ struct_field_sexpr field.now) }
{
    Ok(
        ListBuilder::new(alloc)
            .name(&field.name)?
            .name(&field.ty)?
            .build(),
    )
}
