//! Types read from tokens: their marks, variants and fields.
ghost use Rattle.std.specs.Prelude.{◌≡◌};
ghost use Rattle.isle_syntax.specs.Inside.Reading.Parsing.{Gives};
ghost use Rattle.isle_syntax.specs.Inside.Reading.Readers.{read_map, seq, rest_of};
ghost use Rattle.isle_syntax.specs.Inside.Reading.DefReading.{identifier, field, fields, fields_named, fields_numbered, variant, value, value_at};
ghost use Rattle.isle_syntax.specs.Inside.Reading.DefReading.{type_value, marks, marked_of, type_def};

use crate::kind::Keyword;
use crate::parser::Parser;
use isle_ast::ast::{
    Fields, Ident, StructField, StructFields, TupleField, TupleFields, Type, TypeValue, Variant,
};
use isle_ast::error::Error;
use isle_ast::pos::Pos;
use isle_ast::{Refusal, Seq};

impl<'src> Parser<'src> {
    /// What follows the word `type`.
    pub(crate) fn parse_type(&mut self, depth_left: usize) -> Result<Type, Refusal<Error>>
        ensures { Gives (λ x. x) self.old self.new result (type_def depth_left self.old.left) }
    {
        let name = self.ident("a type's name")?;
        let pos = name.1;
        let (is_extern, is_nodebug, ty) = self.parse_marked(depth_left)?;
        self.close()?;
        Ok(Type {
            name,
            is_extern,
            is_nodebug,
            ty,
            pos,
        })
    }

    /// The marks of a type and its value: whether `extern` and whether `nodebug` is among the marks.
    fn parse_marked(&mut self, depth_left: usize) -> Result<(bool, bool, TypeValue), Refusal<Error>>
        ensures { Gives (λ x. x) self.old self.new result (read_map marked_of (seq marks (type_value depth_left) self.old.left)) }
    {
        let mut is_extern = false;
        let mut is_nodebug = false;
        'marks: loop {
            match self.keyword()? {
                Keyword::Extern => {
                    self.says("extern")?;
                    is_extern = true;
                }
                Keyword::NoDebug => {
                    self.says("nodebug")?;
                    is_nodebug = true;
                }
                _ => return Ok((is_extern, is_nodebug, self.parse_typevalue(depth_left)?)),
            }
        }
    }

    fn parse_typevalue(&mut self, depth_left: usize) -> Result<TypeValue, Refusal<Error>>
        ensures { Gives (λ x. x) self.old self.new result (type_value depth_left self.old.left) }
    {
        let pos = self.open(depth_left)?;
        self.parse_typevalue_inner(pos, depth_left - 1)
    }

    /// What follows the opening parenthesis of a type's value at `pos`.
    fn parse_typevalue_inner(
        &mut self,
        pos: Pos,
        depth_left: usize,
    ) -> Result<TypeValue, Refusal<Error>>
        ensures { Gives (λ x. x) self.old self.new result (read_map (value_at pos) (value depth_left self.old.left)) }
    {
        match self.keyword()? {
            Keyword::Primitive => {
                self.says("primitive")?;
                let name = self.last_ident("the host's name")?;
                Ok(TypeValue::Primitive(name, pos))
            }
            Keyword::Enum => {
                self.says("enum")?;
                let variants = self.parse_type_variants(depth_left)?;
                Ok(TypeValue::Enum(Seq::new(variants), pos))
            }
            Keyword::Struct => {
                self.says("struct")?;
                let fields = self.parse_type_fields(depth_left)?;
                Ok(TypeValue::Struct(fields, pos))
            }
            _ => Err(self.unexpected("primitive, enum or struct")),
        }
    }

    /// The variants up to the closing parenthesis.
    fn parse_type_variants(&mut self, depth_left: usize) -> Result<Vec<Variant>, Refusal<Error>>
        ensures { Gives (λ v. v.items) self.old self.new result (rest_of (variant depth_left) self.old.left) }
    {
        let mut variants = Vec::new(self.allocator());
        'variants: while !self.take_close()? {
            variants.push(self.parse_type_variant(depth_left)?)?;
        }
        Ok(variants)
    }

    fn parse_type_variant(&mut self, depth_left: usize) -> Result<Variant, Refusal<Error>>
        ensures { Gives (λ x. x) self.old self.new result (variant depth_left self.old.left) }
    {
        if self.is_symbol()? {
            let name = self.ident("a variant's name")?;
            let pos = name.1;
            return Ok(Variant {
                name,
                fields: Fields::Unit,
                pos,
            });
        }
        let pos = self.open(depth_left)?;
        let name = self.ident("a variant's name")?;
        let fields = self.parse_type_fields(depth_left - 1)?;
        Ok(Variant { name, fields, pos })
    }

    /// The fields up to the closing parenthesis.
    fn parse_type_fields(&mut self, depth_left: usize) -> Result<Fields, Refusal<Error>>
        ensures { Gives (λ x. x) self.old self.new result (fields depth_left self.old.left) }
    {
        if self.is_symbol()? {
            return self.parse_tuple_fields();
        }
        let fields = self.parse_struct_fields(depth_left)?;
        if fields.is_empty() {
            return Ok(Fields::Unit);
        }
        Ok(Fields::Struct(StructFields {
            fields: Seq::new(fields),
        }))
    }

    /// Fields with names, up to the closing parenthesis.
    fn parse_struct_fields(&mut self, depth_left: usize) -> Result<Vec<StructField>, Refusal<Error>>
        ensures { Gives (λ v. v.items) self.old self.new result (rest_of (field depth_left) self.old.left) }
    {
        let mut fields = Vec::new(self.allocator());
        'fields: while !self.take_close()? {
            fields.push(self.parse_struct_field(depth_left)?)?;
        }
        Ok(fields)
    }

    fn parse_struct_field(&mut self, depth_left: usize) -> Result<StructField, Refusal<Error>>
        ensures { Gives (λ x. x) self.old self.new result (field depth_left self.old.left) }
    {
        let pos = self.open(depth_left)?;
        let (name, ty) = self.last_idents("a field's name", "a type's name")?;
        Ok(StructField { name, ty, pos })
    }

    /// Fields without names, up to the closing parenthesis.
    fn parse_tuple_fields(&mut self) -> Result<Fields, Refusal<Error>>
        ensures { Gives (λ x. x) self.old self.new result (read_map fields_numbered (rest_of identifier self.old.left)) }
    {
        let mut fields = Vec::new(self.allocator());
        'types: while !self.take_close()? {
            let ty = self.ident("a type's name or ')'")?;
            let index = fields.len();
            let pos = ty.1;
            fields.push(TupleField { index, ty, pos })?;
        }
        if fields.is_empty() {
            return Ok(Fields::Unit);
        }
        Ok(Fields::Tuple(TupleFields {
            fields: Seq::new(fields),
        }))
    }

    /// The identifiers up to the closing parenthesis.
    pub(crate) fn parse_idents(&mut self, wanted: &str) -> Result<Vec<Ident>, Refusal<Error>>
        ensures { Gives (λ v. v.items) self.old self.new result (rest_of identifier self.old.left) }
    {
        let mut idents = Vec::new(self.allocator());
        'idents: while !self.take_close()? {
            idents.push(self.ident(wanted)?)?;
        }
        Ok(idents)
    }
}
