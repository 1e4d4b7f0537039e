//! Copies of types, and of their variants and fields.
use crate::types::{Fields, StructFields, TupleFields, Type, Variant};
use std::alloc::AllocError;

impl Clone for Type {
    ghost use Rattle.std.specs.Prelude.{◌≡◌};

    ghost is_clone = { λ x y. y ≡ x };

    fn clone(&self) -> Result<Type, AllocError> {
        match self {
            Type::Builtin(builtin) => Ok(Type::Builtin(*builtin)),
            Type::Primitive(id, name, pos) => Ok(Type::Primitive(*id, *name, *pos)),
            Type::Enum {
                name,
                id,
                is_extern,
                is_nodebug,
                variants,
                pos,
            } => Ok(Type::Enum {
                name: *name,
                id: *id,
                is_extern: *is_extern,
                is_nodebug: *is_nodebug,
                variants: variants.clone()?,
                pos: *pos,
            }),
            Type::Struct {
                name,
                id,
                is_extern,
                is_nodebug,
                fields,
                pos,
            } => Ok(Type::Struct {
                name: *name,
                id: *id,
                is_extern: *is_extern,
                is_nodebug: *is_nodebug,
                fields: fields.clone()?,
                pos: *pos,
            }),
        }
    }
}

impl Clone for Variant {
    ghost use Rattle.std.specs.Prelude.{◌≡◌};

    ghost is_clone = { λ x y. y ≡ x };

    fn clone(&self) -> Result<Variant, AllocError> {
        Ok(Variant {
            name: self.name,
            fullname: self.fullname,
            id: self.id,
            fields: self.fields.clone()?,
            pos: self.pos,
        })
    }
}

impl Clone for Fields {
    ghost use Rattle.std.specs.Prelude.{◌≡◌};

    ghost is_clone = { λ x y. y ≡ x };

    fn clone(&self) -> Result<Fields, AllocError> {
        match self {
            Fields::Unit => Ok(Fields::Unit),
            Fields::Struct(fields) => Ok(Fields::Struct(fields.clone()?)),
            Fields::Tuple(fields) => Ok(Fields::Tuple(fields.clone()?)),
        }
    }
}

impl Clone for StructFields {
    ghost use Rattle.std.specs.Prelude.{◌≡◌};

    ghost is_clone = { λ x y. y ≡ x };

    fn clone(&self) -> Result<StructFields, AllocError> {
        Ok(StructFields {
            fields: self.fields.clone()?,
        })
    }
}

impl Clone for TupleFields {
    ghost use Rattle.std.specs.Prelude.{◌≡◌};

    ghost is_clone = { λ x y. y ≡ x };

    fn clone(&self) -> Result<TupleFields, AllocError> {
        Ok(TupleFields {
            fields: self.fields.clone()?,
        })
    }
}
