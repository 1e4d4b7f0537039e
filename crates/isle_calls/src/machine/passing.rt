//! What values are, by their nodes.
ghost use Rattle.std.specs.Prelude.{◌≡◌, ◌↔◌, ℕ, List, IsTrue, length};
ghost use Rattle.isle_blocks.specs.Building.Naming.{name_by};
ghost use Rattle.isle_calls.specs.declared.store.Stored.TheVariants.{Bool, Int, Const, Variant, Struct};

use super::naming::is_name;
use crate::store::Stored;
use isle_blocks::TupleIndex;
use isle_types::{Sym, TypeEnv, TypeId, VariantId};

/// Whether a node is a variant with so many fields.
pub fn is_variant(node: &Stored, ty: TypeId, variant: VariantId, fields: TupleIndex) -> bool
    ensures { IsTrue result ↔ ((numbers : List ℕ) × (node.now ≡ Variant ty variant numbers) × (length numbers ≡ fields.0)) }
{
    match node {
        Stored::Variant(of, is, numbers) if *of == ty && *is == variant => {
            numbers.as_slice().len() == fields.index()
        }
        _ => false,
    }
}

/// Whether a node is a struct with so many fields.
pub fn is_struct(node: &Stored, ty: TypeId, fields: TupleIndex) -> bool
    ensures { IsTrue result ↔ ((numbers : List ℕ) × (node.now ≡ Struct ty numbers) × (length numbers ≡ fields.0)) }
{
    match node {
        Stored::Struct(of, numbers) if *of == ty => numbers.as_slice().len() == fields.index(),
        _ => false,
    }
}

/// Whether a node is this truth value.
pub fn is_bool(node: &Stored, val: bool) -> bool
    ensures { IsTrue result ↔ (node.now ≡ Bool val) }
{
    match node {
        Stored::Bool(is) => *is == val,
        _ => false,
    }
}

/// Whether a node is this integer.
pub fn is_int(node: &Stored, val: i128) -> bool
    ensures { IsTrue result ↔ (node.now ≡ Int val) }
{
    match node {
        Stored::Int(is) => *is == val,
        _ => false,
    }
}

/// Whether a node is the constant of a symbol's name.
pub fn is_constant(types: &TypeEnv, node: &Stored, name: Sym) -> bool
    ensures { IsTrue result ↔ (node.now ≡ Const (name_by types.now.names name)) }
{
    match node {
        Stored::Const(is) => is_name(types, name, is.as_str()),
        _ => false,
    }
}
