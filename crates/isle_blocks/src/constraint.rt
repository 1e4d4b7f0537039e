//! Tests of a site's value: their kinds, the sites that passing one makes, and whether one can pass at a site.
ghost use Rattle.std.specs.Prelude.{◌≡◌, IfOk};
ghost use Rattle.isle_blocks.specs.Constraints.{bindings_made, fields_below, variant_field, struct_field, is_compatible};

use crate::binding::Binding;
use crate::ids::{BindingId, TupleIndex};
use isle_ast::Seq;
use isle_types::{Sym, TypeId, VariantId};
use std::alloc::{AllocError, Global};

/// A test of a site's value. Tests are ordered by kind, then by their fields.
#[derive(Debug, Clone, Copy, PartialEq, Eq, PartialOrd, Ord, Hash)]
pub enum Constraint {
    /// The value is this variant; `fields` is the number of its fields.
    Variant {
        ty: TypeId,
        variant: VariantId,
        fields: TupleIndex,
    },
    /// The value is a struct; `fields` is the number of its fields.
    Struct {
        ty: TypeId,
        fields: TupleIndex,
    },
    /// The value is this truth value.
    ConstBool {
        val: bool,
        ty: TypeId,
    },
    /// The value is this integer.
    ConstInt {
        val: i128,
        ty: TypeId,
    },
    /// The value is this constant of the host.
    ConstPrim {
        val: Sym,
    },
    /// The option has something in it.
    Some,
}

/// Each field of a value that is such a variant.
fn variant_fields(
    alloc: Global,
    source: BindingId,
    variant: VariantId,
    fields: TupleIndex,
) -> Result<Seq<Binding>, AllocError>
    ensures { IfOk result (λ made. made ≡ fields_below (variant_field source variant) fields.0) }
{
    let mut made = Vec::new(alloc);
    for field in 0..fields.0 {
        made.push(Binding::MatchVariant {
            source,
            variant,
            field: TupleIndex(field),
        })?;
    }
    Ok(Seq::new(made))
}

/// Each field of a struct.
fn struct_fields(
    alloc: Global,
    source: BindingId,
    fields: TupleIndex,
) -> Result<Seq<Binding>, AllocError>
    ensures { IfOk result (λ made. made ≡ fields_below (struct_field source) fields.0) }
{
    let mut made = Vec::new(alloc);
    for field in 0..fields.0 {
        made.push(Binding::ExtractStruct {
            source,
            field: TupleIndex(field),
        })?;
    }
    Ok(Seq::new(made))
}

/// The content of an option.
fn content(alloc: Global, source: BindingId) -> Result<Seq<Binding>, AllocError>
    ensures { IfOk result (λ made. made ≡ bindings_made Constraint.Some source) }
{
    let mut made = Vec::new(alloc);
    made.push(Binding::MatchSome { source })?;
    Ok(Seq::new(made))
}

impl Constraint {
    /// The sites that passing the test makes, in order: the fields of a variant or struct, or the content of an option.
    pub fn bindings_for(self, alloc: Global, source: BindingId) -> Result<Seq<Binding>, AllocError>
        ensures { IfOk result (λ made. made ≡ bindings_made self source) }
    {
        match self {
            Constraint::Variant {
                variant,
                fields,
                ..
            } => variant_fields(alloc, source, variant, fields),
            Constraint::Struct { fields, .. } => struct_fields(alloc, source, fields),
            Constraint::ConstBool { .. } => Ok(Seq::new(Vec::new(alloc))),
            Constraint::ConstInt { .. } => Ok(Seq::new(Vec::new(alloc))),
            Constraint::ConstPrim { .. } => Ok(Seq::new(Vec::new(alloc))),
            Constraint::Some => content(alloc, source),
        }
    }

    /// Whether the test can pass at this site: false only of a variant against another one that is made, and of an
    /// integer against another literal.
    pub fn compatible(&self, binding: &Binding) -> bool
        ensures { result ≡ is_compatible self.now binding.now }
    {
        match (self, binding) {
            (
                Constraint::Variant { ty, variant, .. },
                Binding::MakeVariant {
                    ty: made_ty,
                    variant: made,
                    ..
                },
            ) => ty == made_ty && variant == made,
            (
                Constraint::ConstInt { val, ty },
                Binding::ConstInt {
                    val: made,
                    ty: made_ty,
                },
            ) => val == made && ty == made_ty,
            _ => true,
        }
    }
}
