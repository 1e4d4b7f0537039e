//! Builtin and defined types, the numbers that integer types have, and variants and fields.
ghost use Rattle.std.specs.Prelude.{◌≡◌, ◌↔◌, ◌-◌, ◌^◌, ◌≤ℤ◌, ℤ, pos, IsTrue, IfOk, map};
ghost use Rattle.isle_types.specs.declared.types.StructField.{StructField};
ghost use Rattle.isle_types.specs.declared.types.TupleField.{TupleField};
ghost use Rattle.isle_types.specs.IntTypes.{int_name, bounds_text, has_sign, HasNumber, least_of, greatest_of, spelt_number, builtin_name, builtin_place};

mod parts;

use crate::ids::{FieldId, Sym, TypeId, VariantId};
use isle_ast::Seq;
use isle_ast::pos::Pos;
use std::alloc::{AllocError, Global};
use std::fmt;

/// An integer type. `usize` and `isize` have 64 bits.
#[derive(Debug, Clone, Copy, PartialEq, Eq)]
pub enum IntType {
    U8,
    U16,
    U32,
    U64,
    U128,
    USize,
    I8,
    I16,
    I32,
    I64,
    I128,
    ISize,
}

impl IntType {
    /// The type's name.
    pub fn name(self) -> &'static str
        ensures { result.now ≡ int_name self }
    {
        match self {
            IntType::U8 => "u8",
            IntType::U16 => "u16",
            IntType::U32 => "u32",
            IntType::U64 => "u64",
            IntType::U128 => "u128",
            IntType::USize => "usize",
            IntType::I8 => "i8",
            IntType::I16 => "i16",
            IntType::I32 => "i32",
            IntType::I64 => "i64",
            IntType::I128 => "i128",
            IntType::ISize => "isize",
        }
    }

    /// Whether the type has negative numbers.
    pub fn is_signed(self) -> bool
        ensures { result ≡ has_sign self }
    {
        match self {
            IntType::I8
            | IntType::I16
            | IntType::I32
            | IntType::I64
            | IntType::I128
            | IntType::ISize => true,
            _ => false,
        }
    }

    /// The least and the greatest number of a type, as far as they are an `i128`.
    fn range(self) -> (i128, i128)
        ensures least { result.0 ≡ least_of self }
        ensures below { result.1 ≤ℤ greatest_of self }
        ensures above { (n : ℤ) → n ≤ℤ pos (2 ^ 127 - 1) → n ≤ℤ greatest_of self → n ≤ℤ result.1 }
    {
        match self {
            IntType::U8 => (0, 0xff),
            IntType::U16 => (0, 0xffff),
            IntType::U32 => (0, 0xffff_ffff),
            IntType::U64 => (0, 0xffff_ffff_ffff_ffff),
            IntType::U128 => (0, i128::MAX),
            IntType::USize => (0, 0xffff_ffff_ffff_ffff),
            IntType::I8 => (-0x80, 0x7f),
            IntType::I16 => (-0x8000, 0x7fff),
            IntType::I32 => (-0x8000_0000, 0x7fff_ffff),
            IntType::I64 => (-0x8000_0000_0000_0000, 0x7fff_ffff_ffff_ffff),
            IntType::I128 => (i128::MIN, i128::MAX),
            IntType::ISize => (-0x8000_0000_0000_0000, 0x7fff_ffff_ffff_ffff),
        }
    }

    /// The least and the greatest number of the type, as a message tells them.
    pub fn bounds(self) -> &'static str
        ensures { result.now ≡ bounds_text self }
    {
        match self {
            IntType::U8 => "0 to 255",
            IntType::U16 => "0 to 65535",
            IntType::U32 => "0 to 4294967295",
            IntType::U64 | IntType::USize => "0 to 18446744073709551615",
            IntType::U128 => "0 to 340282366920938463463374607431768211455",
            IntType::I8 => "-128 to 127",
            IntType::I16 => "-32768 to 32767",
            IntType::I32 => "-2147483648 to 2147483647",
            IntType::I64 | IntType::ISize => "-9223372036854775808 to 9223372036854775807",
            IntType::I128 => {
                "-170141183460469231731687303715884105728 to 170141183460469231731687303715884105727"
            }
        }
    }

    /// Whether the type has a literal's number: `val` itself, or where `big` is set the number from 2^127 on of which
    /// `val` keeps the 128 bits.
    pub fn holds(self, val: i128, big: bool) -> bool
        ensures { IsTrue result ↔ HasNumber self (spelt_number val big) }
    {
        if big {
            return self == IntType::U128 && val < 0;
        }
        let (least, greatest) = self.range();
        least <= val && val <= greatest
    }
}

/// The type's name.
impl fmt::Display for IntType {
    ghost use Rattle.std.specs.Prelude.{Some};
    ghost use Rattle.isle_types.specs.IntTypes.{int_name};

    ghost output = { λ ty. Some (int_name ty) };

    fn fmt<W: fmt::Write>(&self, f: &mut fmt::Formatter<W>) -> fmt::Result {
        f.write_str(self.name())
    }
}

/// A type that needs no definition.
#[derive(Debug, Clone, Copy, PartialEq, Eq)]
pub enum BuiltinType {
    Bool,
    Int(IntType),
}

impl BuiltinType {
    /// The builtin types in the order of their ids.
    pub const ALL: [BuiltinType; 13] = [
        BuiltinType::Bool,
        BuiltinType::Int(IntType::U8),
        BuiltinType::Int(IntType::U16),
        BuiltinType::Int(IntType::U32),
        BuiltinType::Int(IntType::U64),
        BuiltinType::Int(IntType::U128),
        BuiltinType::Int(IntType::USize),
        BuiltinType::Int(IntType::I8),
        BuiltinType::Int(IntType::I16),
        BuiltinType::Int(IntType::I32),
        BuiltinType::Int(IntType::I64),
        BuiltinType::Int(IntType::I128),
        BuiltinType::Int(IntType::ISize),
    ];

    /// The type's name.
    pub fn name(self) -> &'static str
        ensures { result.now ≡ builtin_name self }
    {
        match self {
            BuiltinType::Bool => "bool",
            BuiltinType::Int(int) => int.name(),
        }
    }

    /// The number of the type's id.
    pub fn to_usize(self) -> usize
        ensures { result ≡ builtin_place self }
    {
        match self {
            BuiltinType::Bool => 0,
            BuiltinType::Int(IntType::U8) => 1,
            BuiltinType::Int(IntType::U16) => 2,
            BuiltinType::Int(IntType::U32) => 3,
            BuiltinType::Int(IntType::U64) => 4,
            BuiltinType::Int(IntType::U128) => 5,
            BuiltinType::Int(IntType::USize) => 6,
            BuiltinType::Int(IntType::I8) => 7,
            BuiltinType::Int(IntType::I16) => 8,
            BuiltinType::Int(IntType::I32) => 9,
            BuiltinType::Int(IntType::I64) => 10,
            BuiltinType::Int(IntType::I128) => 11,
            BuiltinType::Int(IntType::ISize) => 12,
        }
    }
}

impl TypeId {
    /// The id of a builtin type.
    pub fn builtin(builtin: BuiltinType) -> TypeId
        ensures { result.0 ≡ builtin_place builtin }
    {
        TypeId(builtin.to_usize())
    }
}

/// A type of the environment.
#[derive(Debug, PartialEq, Eq, Drop)]
pub enum Type {
    /// A type that needs no definition.
    Builtin(BuiltinType),
    /// A type of the host: its id, the name that the host has for it, and where it is defined.
    Primitive(TypeId, Sym, Pos),
    /// A type of variants.
    Enum {
        name: Sym,
        id: TypeId,
        is_extern: bool,
        is_nodebug: bool,
        variants: Seq<Variant>,
        pos: Pos,
    },
    /// A type of one list of fields.
    Struct {
        name: Sym,
        id: TypeId,
        is_extern: bool,
        is_nodebug: bool,
        fields: Fields,
        pos: Pos,
    },
}

impl Type {
    ghost use Rattle.std.specs.Prelude.{◌≡◌};
    ghost use Rattle.isle_types.specs.Types.{id_of, position_of, is_int_type, is_primitive_type};

    /// The type's id.
    pub fn id(&self) -> TypeId
        ensures { result ≡ id_of self.now }
    {
        match self {
            Type::Builtin(builtin) => TypeId::builtin(*builtin),
            Type::Primitive(id, ..) | Type::Enum { id, .. } | Type::Struct { id, .. } => *id,
        }
    }

    /// Where the type is defined; `None` for a builtin one.
    pub fn pos(&self) -> Option<Pos>
        ensures { result ≡ position_of self.now }
    {
        match self {
            Type::Builtin(_) => None,
            Type::Primitive(_, _, pos) | Type::Enum { pos, .. } | Type::Struct { pos, .. } => {
                Some(*pos)
            }
        }
    }

    /// Whether the type is a type of the host.
    pub fn is_prim(&self) -> bool
        ensures { result ≡ is_primitive_type self.now }
    {
        matches!(self, Type::Primitive(..))
    }

    /// Whether the type is an integer type.
    pub fn is_int(&self) -> bool
        ensures { result ≡ is_int_type self.now }
    {
        matches!(self, Type::Builtin(BuiltinType::Int(_)))
    }
}

/// A variant of an enum; `fullname` is `enum.variant`.
#[derive(Debug, PartialEq, Eq, Drop)]
pub struct Variant {
    pub name: Sym,
    pub fullname: Sym,
    pub id: VariantId,
    pub fields: Fields,
    pub pos: Pos,
}

/// The fields of a variant or struct.
#[derive(Debug, PartialEq, Eq, Drop)]
pub enum Fields {
    Unit,
    Struct(StructFields),
    Tuple(TupleFields),
}

impl Fields {
    ghost use Rattle.std.specs.Prelude.{◌≡◌, IfOk};
    ghost use Rattle.isle_types.specs.Types.{field_types};

    /// The types of the fields, in order.
    pub fn types(&self, alloc: Global) -> Result<Vec<TypeId>, AllocError>
        ensures { IfOk result (λ types. types.items ≡ field_types self.now) }
    {
        match self {
            Fields::Unit => Ok(Vec::new(alloc)),
            Fields::Struct(fields) => named_types(alloc, fields.fields.as_slice()),
            Fields::Tuple(fields) => unnamed_types(alloc, fields.fields.as_slice()),
        }
    }
}

/// The types of named fields, in order.
fn named_types(alloc: Global, fields: &[StructField]) -> Result<Vec<TypeId>, AllocError>
    ensures { IfOk result (λ types. types.items ≡ map (λ (field : StructField). field.ty) fields.now) }
{
    let types = fields.iter().map(|field| field.ty).collect(alloc)?;
    Ok(types)
}

/// The types of fields without names, in order.
fn unnamed_types(alloc: Global, fields: &[TupleField]) -> Result<Vec<TypeId>, AllocError>
    ensures { IfOk result (λ types. types.items ≡ map (λ (field : TupleField). field.ty) fields.now) }
{
    let types = fields.iter().map(|field| field.ty).collect(alloc)?;
    Ok(types)
}

/// Named fields, in order.
#[derive(Debug, PartialEq, Eq, Drop)]
pub struct StructFields {
    pub fields: Seq<StructField>,
}

/// A named field.
#[derive(Debug, Clone, Copy, PartialEq, Eq)]
pub struct StructField {
    pub name: Sym,
    pub id: FieldId,
    pub ty: TypeId,
}

/// Fields without names, in order.
#[derive(Debug, PartialEq, Eq, Drop)]
pub struct TupleFields {
    pub fields: Seq<TupleField>,
}

/// A field without a name.
#[derive(Debug, Clone, Copy, PartialEq, Eq)]
pub struct TupleField {
    pub id: FieldId,
    pub ty: TypeId,
}
