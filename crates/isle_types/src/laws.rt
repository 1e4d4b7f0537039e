//! Laws of the ids, each as a function whose contract states it.
ghost use Rattle.std.specs.Prelude.{◌≡◌, Some, slice_get};
ghost use Rattle.isle_types.specs.Ids.{AreNumbers};
ghost use Rattle.isle_types.specs.IntTypes.{builtin_place, builtin_types};

use crate::ids::{FieldId, RuleId, Sym, TermId, TypeId, VarId, VariantId};
use crate::types::{BuiltinType, IntType};
use std::hash::Hash;

/// `Sym`s are compared and hashed as their numbers.
pub fn syms_are_numbers()
    ensures { AreNumbers (λ id. id.0) ⟦<Sym as PartialEq>⟧.eq ⟦<Sym as Ord>⟧.cmp ⟦<Sym as Hash>⟧.hash_input }
{}

/// `TypeId`s are compared and hashed as their numbers.
pub fn type_ids_are_numbers()
    ensures { AreNumbers (λ id. id.0) ⟦<TypeId as PartialEq>⟧.eq ⟦<TypeId as Ord>⟧.cmp ⟦<TypeId as Hash>⟧.hash_input }
{}

/// `VariantId`s are compared and hashed as their numbers.
pub fn variant_ids_are_numbers()
    ensures { AreNumbers (λ id. id.0) ⟦<VariantId as PartialEq>⟧.eq ⟦<VariantId as Ord>⟧.cmp ⟦<VariantId as Hash>⟧.hash_input }
{}

/// `FieldId`s are compared and hashed as their numbers.
pub fn field_ids_are_numbers()
    ensures { AreNumbers (λ id. id.0) ⟦<FieldId as PartialEq>⟧.eq ⟦<FieldId as Ord>⟧.cmp ⟦<FieldId as Hash>⟧.hash_input }
{}

/// `TermId`s are compared and hashed as their numbers.
pub fn term_ids_are_numbers()
    ensures { AreNumbers (λ id. id.0) ⟦<TermId as PartialEq>⟧.eq ⟦<TermId as Ord>⟧.cmp ⟦<TermId as Hash>⟧.hash_input }
{}

/// `RuleId`s are compared and hashed as their numbers.
pub fn rule_ids_are_numbers()
    ensures { AreNumbers (λ id. id.0) ⟦<RuleId as PartialEq>⟧.eq ⟦<RuleId as Ord>⟧.cmp ⟦<RuleId as Hash>⟧.hash_input }
{}

/// `VarId`s are compared and hashed as their numbers.
pub fn var_ids_are_numbers()
    ensures { AreNumbers (λ id. id.0) ⟦<VarId as PartialEq>⟧.eq ⟦<VarId as Ord>⟧.cmp ⟦<VarId as Hash>⟧.hash_input }
{}

/// Each constant is the id that `TypeId::builtin` gives its type.
pub fn constants_are_builtin_ids()
    ensures bool_id { TypeId.BOOL.0 ≡ builtin_place BuiltinType.Bool }
    ensures u8_id { TypeId.U8.0 ≡ builtin_place (BuiltinType.Int IntType.U8) }
    ensures u16_id { TypeId.U16.0 ≡ builtin_place (BuiltinType.Int IntType.U16) }
    ensures u32_id { TypeId.U32.0 ≡ builtin_place (BuiltinType.Int IntType.U32) }
    ensures u64_id { TypeId.U64.0 ≡ builtin_place (BuiltinType.Int IntType.U64) }
    ensures u128_id { TypeId.U128.0 ≡ builtin_place (BuiltinType.Int IntType.U128) }
    ensures usize_id { TypeId.USIZE.0 ≡ builtin_place (BuiltinType.Int IntType.USize) }
    ensures i8_id { TypeId.I8.0 ≡ builtin_place (BuiltinType.Int IntType.I8) }
    ensures i16_id { TypeId.I16.0 ≡ builtin_place (BuiltinType.Int IntType.I16) }
    ensures i32_id { TypeId.I32.0 ≡ builtin_place (BuiltinType.Int IntType.I32) }
    ensures i64_id { TypeId.I64.0 ≡ builtin_place (BuiltinType.Int IntType.I64) }
    ensures i128_id { TypeId.I128.0 ≡ builtin_place (BuiltinType.Int IntType.I128) }
    ensures isize_id { TypeId.ISIZE.0 ≡ builtin_place (BuiltinType.Int IntType.ISize) }
{}

/// Each builtin type stands at the place of its id in the list of the builtin types.
pub fn builtin_ids_are_places()
    ensures { (builtin : BuiltinType) → slice_get builtin_types (builtin_place builtin) ≡ Some builtin }
{}
