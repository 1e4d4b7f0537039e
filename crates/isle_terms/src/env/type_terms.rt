//! The terms of types: one for each variant of an enum, and one for each struct.
ghost use Rattle.std.specs.Prelude.{◌≡◌, ℕ, List, length, IfOk, OnOk};
ghost use Rattle.isle_types.specs.declared.types.BuiltinType.{BuiltinType};
ghost use Rattle.isle_types.specs.declared.types.«Type».TheVariants.{Builtin};
ghost use Rattle.isle_types.specs.IntTypes.{builtin_names};
ghost use Rattle.isle_types.specs.Types.{id_of};
ghost use Rattle.isle_types.specs.Environment.{Environment, NamedType, NamedVariant, FieldList, numbers_in};
ghost use Rattle.isle_types.specs.TypeEnvs.{Shows, IsShown, IsShownVariant, AreShownVariants, AreShownFields};
ghost use Rattle.isle_rules.specs.Definitions.{terms_of_types, terms_of_shape, variant_terms};
ghost use Rattle.isle_rules.specs.Shown.ShownTerms.{numbers_of};
ghost use Rattle.isle_terms.specs.Inside.Collecting.DeclaredTerms.{IsShownTerm, AddsTerms, variant_signature};

use isle_ast::Seq;
use isle_rules::{Term, TermKind};
use isle_types::{Fields, TermId, Type, TypeEnv, TypeId, Variant};
use std::alloc::{AllocError, Global};

/// Adds the terms of the types: one for each variant of an enum, and one for each struct.
pub fn add_type_terms(
    alloc: Global,
    tyenv: &TypeEnv,
    terms: &mut Vec<Term>,
) -> Result<(), AllocError>
    ensures { (types : Environment) → Shows tyenv.now types
        → OnOk result (AddsTerms tyenv.now.names (terms_of_types (length builtin_names) types.types) terms.old.items terms.new.items) }
{
    for ty in tyenv.types() {
        add_terms_of(alloc, ty, terms)?;
    }
    Ok(())
}

/// Adds the terms of a type.
fn add_terms_of(alloc: Global, ty: &Type, terms: &mut Vec<Term>) -> Result<(), AllocError>
    ensures builtin { (builtin : BuiltinType) → ty.now ≡ Builtin builtin → OnOk result (terms.new.items ≡ terms.old.items) }
    ensures defined { (names : List (List ℕ)) (type : NamedType) → IsShown names type ty.now
        → OnOk result (AddsTerms names (terms_of_shape (id_of ty.now).0 type type.shape) terms.old.items terms.new.items) }
{
    match ty {
        Type::Builtin(_) | Type::Primitive(..) => Ok(()),
        Type::Enum { id, variants, .. } => {
            add_variant_terms(alloc, *id, variants.as_slice(), terms)
        }
        Type::Struct {
            name,
            id,
            fields,
            pos,
            ..
        } => {
            let arg_tys = types_of_fields(alloc, fields)?;
            terms.push(Term {
                id: TermId(terms.len()),
                decl_pos: *pos,
                name: *name,
                arg_tys,
                ret_ty: *id,
                kind: TermKind::Struct,
            })?;
            Ok(())
        }
    }
}

/// Adds the terms of the variants of a type.
fn add_variant_terms(
    alloc: Global,
    ty: TypeId,
    variants: &[Variant],
    terms: &mut Vec<Term>,
) -> Result<(), AllocError>
    ensures { (names : List (List ℕ)) (type : List ℕ) (shown : List NamedVariant) → AreShownVariants names type shown variants.now
        → OnOk result (AddsTerms names (variant_terms ty.0 type 0 shown) terms.old.items terms.new.items) }
{
    for variant in variants {
        let term = variant_term(alloc, TermId(terms.len()), ty, variant)?;
        terms.push(term)?;
    }
    Ok(())
}

/// The term of a variant of a type.
fn variant_term(
    alloc: Global,
    id: TermId,
    ty: TypeId,
    variant: &Variant,
) -> Result<Term, AllocError>
    ensures shown { (names : List (List ℕ)) (type : List ℕ) (shown : NamedVariant) → IsShownVariant names type shown variant.now
        → IfOk result (IsShownTerm names (variant_signature ty.0 type variant.now.id.0 shown)) }
    ensures numbered { IfOk result (λ term. term.id ≡ id) }
{
    Ok(Term {
        id,
        decl_pos: variant.pos,
        name: variant.fullname,
        arg_tys: types_of_fields(alloc, &variant.fields)?,
        ret_ty: ty,
        kind: TermKind::EnumVariant {
            variant: variant.id,
        },
    })
}

/// The types of fields, in order.
fn types_of_fields(alloc: Global, fields: &Fields) -> Result<Seq<TypeId>, AllocError>
    ensures { (names : List (List ℕ)) (shown : FieldList) → AreShownFields names shown fields.now
        → IfOk result (λ types. numbers_of types ≡ numbers_in shown) }
{
    Ok(Seq::new(fields.types(alloc)?))
}
