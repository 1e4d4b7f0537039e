//! The table of converters by their types, with a report of each that is ill.
ghost use Rattle.std.specs.Prelude.{◌≡◌, ℕ, None, List, map, IfOk, IfErr};
ghost use Rattle.isle_ast.specs.declared.ast.Def.{Def};
ghost use Rattle.isle_containers.specs.StableMaps.{value_at};
ghost use Rattle.isle_types.specs.Environment.{Environment};
ghost use Rattle.isle_types.specs.TypeEnvs.{Shows};
ghost use Rattle.isle_rules.specs.Signatures.{Signature};
ghost use Rattle.isle_rules.specs.Definitions.{converters_in, names_of_terms};
ghost use Rattle.isle_rules.specs.Shown.TermTables.{same_types};
ghost use Rattle.isle_terms.specs.TermFaults.{ConverterBreaks};
ghost use Rattle.isle_terms.specs.Inside.Collecting.Checks.{Checks};
ghost use Rattle.isle_terms.specs.Inside.Collecting.NameTables.{IsTableOf};
ghost use Rattle.isle_terms.specs.Inside.Collecting.ReadConverters.{IsReadAs, IsIllConverter, AreReadConverters};

use crate::env::messages::{self, IllPart};
use crate::env::name_table::NameTable;
use crate::env::report::report;
use isle_ast::ast::Converter;
use isle_ast::error::Error;
use isle_ast::pos::Pos;
use isle_types::{StableMap, TermId, TypeEnv, TypeId};
use std::alloc::{AllocError, Global};

/// Where a converter is ill, and why.
#[derive(Drop)]
struct IllConverter {
    pos: Pos,
    part: IllPart,
}

/// The types and the term of a converter, if no earlier one has these types.
fn read_converter(
    tyenv: &TypeEnv,
    converter: &Converter,
    terms: &NameTable,
    table: &StableMap<(TypeId, TypeId), TermId>,
) -> Result<((TypeId, TypeId), TermId), IllConverter>
    ensures read { (types : Environment) (names : List (List ℕ)) → Shows tyenv.now types → IsTableOf names terms.now
        → IfOk result (IsReadAs types names converter.now) }
    ensures new { IfOk result (λ read. value_at same_types table.now read.0 ≡ None) }
    ensures ill { (types : Environment) (names : List (List ℕ)) → Shows tyenv.now types → IsTableOf names terms.now
        → IfErr result (λ ill. IsIllConverter types names table.now converter.now ill.pos) }
{
    let Some(inner) = tyenv.get_type_by_name(&converter.inner_ty) else {
        return Err(IllConverter {
            pos: converter.inner_ty.1,
            part: IllPart::Inner,
        });
    };
    let Some(outer) = tyenv.get_type_by_name(&converter.outer_ty) else {
        return Err(IllConverter {
            pos: converter.outer_ty.1,
            part: IllPart::Outer,
        });
    };
    let Some(place) = terms.place(converter.term.0.as_str()) else {
        return Err(IllConverter {
            pos: converter.term.1,
            part: IllPart::Term,
        });
    };
    if table.contains_key(&(inner, outer)) {
        return Err(IllConverter {
            pos: converter.pos,
            part: IllPart::Twice,
        });
    }
    Ok(((inner, outer), TermId(place)))
}

/// The table of the terms of converters by their types; each ill converter is reported.
pub fn collect_converters(
    alloc: Global,
    tyenv: &TypeEnv,
    converters: &[&Converter],
    terms: &NameTable,
    errors: &mut Vec<Error>,
) -> Result<StableMap<(TypeId, TypeId), TermId>, AllocError>
    ensures { (types : Environment) (defs : List Def) (signatures : List Signature) → Shows tyenv.now types
        → IsTableOf (names_of_terms signatures) terms.now → map (λ converter. converter.now) converters.now ≡ converters_in defs
        → IfOk result (λ table. Checks (ConverterBreaks types defs signatures) (AreReadConverters types defs signatures table)
        errors.old.items errors.new.items) }
{
    let mut table = StableMap::new(alloc);
    for converter in converters {
        match read_converter(tyenv, converter, terms, &table) {
            Ok((types, term)) => {
                table.insert(types, term)?;
            }
            Err(ill) => report(
                &mut *errors,
                ill.pos,
                messages::ill_converter(tyenv, converter, ill.part),
            )?,
        }
    }
    Ok(table)
}
