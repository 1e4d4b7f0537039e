//! The type that a definition makes, with its variants and fields, or the first fault of the definition.
ghost use Rattle.std.specs.Prelude.{◌≡◌, ◌<◌, ◌≤◌, ℕ, List, Some, None, map, slice_get, IfOk, IfErr, OnOk, MatchOption};
ghost use Rattle.std.specs.List.{AllZip};
ghost use Rattle.isle_ast.specs.declared.ast.StructField.{StructField as StructFieldTree};
ghost use Rattle.isle_ast.specs.declared.ast.Variant.{Variant as VariantTree};
ghost use Rattle.isle_ast.specs.Errors.{IfFault};
ghost use Rattle.isle_types.specs.declared.types.StructField.{StructField};
ghost use Rattle.isle_types.specs.declared.types.Variant.{Variant};
ghost use Rattle.isle_types.specs.Types.{id_of};
ghost use Rattle.isle_types.specs.Names.{AreDistinct, IsDuplicate};
ghost use Rattle.isle_types.specs.Environment.{MayBeMarked, HasAllowedSize, HaveAllowedSizes, field_count};
ghost use Rattle.isle_types.specs.TypeEnvs.{type_of_name, HasMoreNames};
ghost use Rattle.isle_types.specs.Inside.Readings.{HasTypeNames, ReadsType, ReadsFields, ReadsTupleFields, ReadsFieldList, ReadsVariant, ReadsVariants};
ghost use Rattle.isle_types.specs.Inside.Readings.{IsDefinitionFault, IsVariantsFault, IsFieldsFault, IsStructFieldsFault, IsTupleFieldsFault};
ghost use Rattle.isle_types.specs.Inside.Readings.{IsTypeErrorAt, IsSizeErrorAt};

use super::TypeEnv;
use crate::ids::{FieldId, Sym, TypeId, VariantId};
use crate::types::{Fields, StructField, StructFields, TupleField, TupleFields, Type, Variant};
use isle_ast::ast::{self, Ident, TypeValue};
use isle_ast::error::Error;
use isle_ast::pos::Pos;
use isle_ast::{Refusal, Seq};
use isle_containers::StableSet;
use std::alloc::{AllocError, Global};

/// How many fields a variant or struct may have.
pub const MAX_FIELDS: usize = 255;

impl TypeEnv {
    /// The type of a definition.
    pub(super) fn type_from_ast(
        &mut self,
        id: TypeId,
        ty: &ast::Type,
    ) -> Result<Type, Refusal<Error>>
        ensures same { HasMoreNames self.old self.new }
        ensures id { IfOk result (λ made. id_of made ≡ id) }
        ensures read { (known : List (List ℕ)) → HasTypeNames self.old known
            → IfOk result (ReadsType known self.new.names ty.now) }
        ensures sizes { OnOk result (HasAllowedSize ty.now.ty) }
        ensures fault { (known : List (List ℕ)) → HasTypeNames self.old known
            → IfErr result (λ r. IfFault r (IsDefinitionFault known ty.now)) }
    {
        self.check_marks(ty)?;
        let name = self.intern_mut(&ty.name)?;
        match &ty.ty {
            TypeValue::Primitive(host, _) => {
                let host = self.intern_mut(host)?;
                Ok(Type::Primitive(id, host, ty.pos))
            }
            TypeValue::Enum(variants, _) => {
                let variants = self.variants_from_ast(ty, variants.as_slice())?;
                Ok(Type::Enum {
                    name,
                    id,
                    is_extern: ty.is_extern,
                    is_nodebug: ty.is_nodebug,
                    variants: Seq::new(variants),
                    pos: ty.pos,
                })
            }
            TypeValue::Struct(fields, _) => {
                let fields = self.fields_from_ast(ty.pos, fields)?;
                Ok(Type::Struct {
                    name,
                    id,
                    is_extern: ty.is_extern,
                    is_nodebug: ty.is_nodebug,
                    fields,
                    pos: ty.pos,
                })
            }
        }
    }

    /// Refuses a mark on a primitive, and both marks on another type.
    fn check_marks(&self, ty: &ast::Type) -> Result<(), Refusal<Error>>
        ensures ok { OnOk result (MayBeMarked ty.now.ty ty.now.is_extern ty.now.is_nodebug) }
        ensures fault { IfErr result (λ r. IfFault r (λ error. IsTypeErrorAt ty.now.pos error
            × (MayBeMarked ty.now.ty ty.now.is_extern ty.now.is_nodebug → ⊥))) }
    {
        let allowed = match &ty.ty {
            TypeValue::Primitive(..) => !ty.is_extern && !ty.is_nodebug,
            TypeValue::Enum(..) | TypeValue::Struct(..) => !ty.is_extern || !ty.is_nodebug,
        };
        if allowed {
            Ok(())
        } else {
            Err(self.ill_marked(ty))
        }
    }

    /// The variants of the enum `ty`.
    fn variants_from_ast(
        &mut self,
        ty: &ast::Type,
        variants: &[ast::Variant],
    ) -> Result<Vec<Variant>, Refusal<Error>>
        ensures same { HasMoreNames self.old self.new }
        ensures read { (known : List (List ℕ)) → HasTypeNames self.old known
            → IfOk result (λ made. ReadsVariants known self.new.names ty.now.name.0 variants.now made.items) }
        ensures once { OnOk result (AreDistinct (map (λ (variant : VariantTree). variant.name.0) variants.now)) }
        ensures sizes { OnOk result (HaveAllowedSizes variants.now) }
        ensures fault { (known : List (List ℕ)) → HasTypeNames self.old known
            → IfErr result (λ r. IfFault r (IsVariantsFault known ty.now.pos variants.now)) }
    {
        let mut made = Vec::new(self.alloc);
        for variant in variants {
            let id = VariantId(made.len());
            made.push(self.variant_from_ast(ty, id, variant)?)?;
        }
        self.check_variants(variants, made.as_slice())?;
        Ok(made)
    }

    /// A variant of the enum `ty`.
    fn variant_from_ast(
        &mut self,
        ty: &ast::Type,
        id: VariantId,
        variant: &ast::Variant,
    ) -> Result<Variant, Refusal<Error>>
        ensures same { HasMoreNames self.old self.new }
        ensures id { IfOk result (λ made. made.id ≡ id) }
        ensures name { IfOk result (λ made. slice_get self.new.names made.name.0 ≡ Some variant.now.name.0) }
        ensures read { (known : List (List ℕ)) → HasTypeNames self.old known
            → IfOk result (ReadsVariant known self.new.names ty.now.name.0 variant.now) }
        ensures size { OnOk result (field_count variant.now.fields ≤ 255) }
        ensures fault { (known : List (List ℕ)) → HasTypeNames self.old known
            → IfErr result (λ r. IfFault r (IsFieldsFault known ty.now.pos variant.now.fields)) }
    {
        let name = self.intern_mut(&variant.name)?;
        let full_name = ast::Variant::full_name(self.alloc, &ty.name, &variant.name)?;
        let fullname = self.intern_mut(&full_name)?;
        let fields = self.fields_from_ast(ty.pos, &variant.fields)?;
        Ok(Variant {
            name,
            fullname,
            id,
            fields,
            pos: variant.pos,
        })
    }

    /// The fields of a variant or struct of the type at `pos`.
    fn fields_from_ast(&mut self, pos: Pos, fields: &ast::Fields) -> Result<Fields, Refusal<Error>>
        ensures same { HasMoreNames self.old self.new }
        ensures read { (known : List (List ℕ)) → HasTypeNames self.old known
            → IfOk result (ReadsFieldList known self.new.names fields.now) }
        ensures size { OnOk result (field_count fields.now ≤ 255) }
        ensures fault { (known : List (List ℕ)) → HasTypeNames self.old known
            → IfErr result (λ r. IfFault r (IsFieldsFault known pos fields.now)) }
    {
        match fields {
            ast::Fields::Unit => Ok(Fields::Unit),
            ast::Fields::Struct(fields) => {
                let trees = fields.fields.as_slice();
                self.check_count(pos, trees.len())?;
                let fields = self.struct_fields_from_ast(trees)?;
                Ok(Fields::Struct(StructFields {
                    fields: Seq::new(fields),
                }))
            }
            ast::Fields::Tuple(fields) => {
                let trees = fields.fields.as_slice();
                self.check_count(pos, trees.len())?;
                let fields = self.tuple_fields_from_ast(trees)?;
                Ok(Fields::Tuple(TupleFields {
                    fields: Seq::new(fields),
                }))
            }
        }
    }

    /// Refuses more fields than a variant or struct of the type at `pos` may have.
    fn check_count(&self, pos: Pos, count: usize) -> Result<(), Refusal<Error>>
        ensures ok { OnOk result (count ≤ 255) }
        ensures fault { IfErr result (λ r. IfFault r (λ error. IsSizeErrorAt pos error × (255 < count))) }
    {
        if count > MAX_FIELDS {
            return Err(self.size_error(pos, "this type has a list of more than 255 fields"));
        }
        Ok(())
    }

    /// Named fields.
    fn struct_fields_from_ast(
        &mut self,
        fields: &[ast::StructField],
    ) -> Result<Vec<StructField>, Refusal<Error>>
        ensures same { HasMoreNames self.old self.new }
        ensures read { (known : List (List ℕ)) → HasTypeNames self.old known
            → IfOk result (λ made. ReadsFields known self.new.names fields.now made.items) }
        ensures once { OnOk result (AreDistinct (map (λ (field : StructFieldTree). field.name.0) fields.now)) }
        ensures fault { (known : List (List ℕ)) → HasTypeNames self.old known
            → IfErr result (λ r. IfFault r (IsStructFieldsFault known fields.now)) }
    {
        let mut made = Vec::new(self.alloc);
        for field in fields {
            let name = self.intern_mut(&field.name)?;
            let ty = self.known_type(&field.ty)?;
            let id = FieldId(made.len());
            made.push(StructField { name, id, ty })?;
        }
        self.check_fields(fields, made.as_slice())?;
        Ok(made)
    }

    /// Fields without names.
    fn tuple_fields_from_ast(
        &self,
        fields: &[ast::TupleField],
    ) -> Result<Vec<TupleField>, Refusal<Error>>
        ensures read { (known : List (List ℕ)) → HasTypeNames self.now known
            → IfOk result (λ made. ReadsTupleFields known fields.now made.items) }
        ensures fault { (known : List (List ℕ)) → HasTypeNames self.now known
            → IfErr result (λ r. IfFault r (IsTupleFieldsFault known fields.now)) }
    {
        let mut made = Vec::new(self.alloc);
        for field in fields {
            let ty = self.known_type(&field.ty)?;
            let id = FieldId(made.len());
            made.push(TupleField { id, ty })?;
        }
        Ok(made)
    }

    /// The type of a name, which must be known.
    fn known_type(&self, name: &Ident) -> Result<TypeId, Refusal<Error>>
        ensures ok { IfOk result (λ ty. type_of_name self.now name.now.0 ≡ Some ty) }
        ensures fault { IfErr result (λ r. IfFault r (λ error. IsTypeErrorAt name.now.1 error
            × (type_of_name self.now name.now.0 ≡ None))) }
    {
        match self.get_type_by_name(name) {
            Some(ty) => Ok(ty),
            None => Err(self.unknown_type(name)),
        }
    }

    /// Refuses two fields of one name.
    fn check_fields(
        &self,
        trees: &[ast::StructField],
        fields: &[StructField],
    ) -> Result<(), Refusal<Error>>
        requires { AllZip (λ (tree : StructFieldTree) (field : StructField).
            slice_get self.now.names field.name.0 ≡ Some tree.name.0) trees.now fields.now }
        ensures once { OnOk result (AreDistinct (map (λ (tree : StructFieldTree). tree.name.0) trees.now)) }
        ensures fault { IfErr result (λ r. IfFault r (λ error. (place : ℕ) × ((tree : StructFieldTree)
            × ((slice_get trees.now place ≡ Some tree) × IsDuplicate (map (λ (other : StructFieldTree). other.name.0) trees.now) place
            × IsTypeErrorAt tree.pos error)))) }
    {
        let names = field_names(self.alloc, fields)?;
        match duplicate(self.alloc, names.as_slice())? {
            None => Ok(()),
            Some(place) => {
                let tree = &trees[place];
                Err(self.part_twice(tree.pos, "field", &tree.name))
            }
        }
    }

    /// Refuses two variants of one name.
    fn check_variants(
        &self,
        trees: &[ast::Variant],
        variants: &[Variant],
    ) -> Result<(), Refusal<Error>>
        requires { AllZip (λ (tree : VariantTree) (variant : Variant).
            slice_get self.now.names variant.name.0 ≡ Some tree.name.0) trees.now variants.now }
        ensures once { OnOk result (AreDistinct (map (λ (tree : VariantTree). tree.name.0) trees.now)) }
        ensures fault { IfErr result (λ r. IfFault r (λ error. (place : ℕ) × ((tree : VariantTree)
            × ((slice_get trees.now place ≡ Some tree) × IsDuplicate (map (λ (other : VariantTree). other.name.0) trees.now) place
            × IsTypeErrorAt tree.pos error)))) }
    {
        let names = variant_names(self.alloc, variants)?;
        match duplicate(self.alloc, names.as_slice())? {
            None => Ok(()),
            Some(place) => {
                let tree = &trees[place];
                Err(self.part_twice(tree.pos, "variant", &tree.name))
            }
        }
    }
}

/// The names of fields, in order.
fn field_names(alloc: Global, fields: &[StructField]) -> Result<Vec<Sym>, AllocError>
    ensures { IfOk result (λ names. names.items ≡ map (λ (field : StructField). field.name) fields.now) }
{
    let names = fields.iter().map(|field| field.name).collect(alloc)?;
    Ok(names)
}

/// The names of variants, in order.
fn variant_names(alloc: Global, variants: &[Variant]) -> Result<Vec<Sym>, AllocError>
    ensures { IfOk result (λ names. names.items ≡ map (λ (variant : Variant). variant.name) variants.now) }
{
    let names = variants.iter().map(|variant| variant.name).collect(alloc)?;
    Ok(names)
}

/// The first place of a name that stands before already.
fn duplicate(alloc: Global, names: &[Sym]) -> Result<Option<usize>, AllocError>
    ensures { IfOk result (λ duplicate. MatchOption duplicate (AreDistinct names.now) (IsDuplicate names.now)) }
{
    let mut before: StableSet<Sym> = StableSet::new(alloc);
    for place in 0..names.len() {
        if !before.insert(names[place])? {
            return Ok(Some(place));
        }
    }
    Ok(None)
}
