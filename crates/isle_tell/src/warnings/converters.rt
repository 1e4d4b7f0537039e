//! Warnings of converters.
ghost use Rattle.std.specs.Prelude.{List, All, OnOk};
ghost use Rattle.isle_ast.specs.Positions.Files.{SourceFile};
ghost use Rattle.isle_ast.specs.Positions.Printable.{IsPrintablePos};
ghost use Rattle.isle_ast.specs.Positions.DefPositions.{DefAt};
ghost use Rattle.isle_tell.specs.Inside.Warnings.{WarningAt};

use crate::warnings::Warning;
use crate::warnings::messages::unfit;
use isle_ast::ast::{Converter, Def};
use isle_program::Program;
use isle_rules::Term;
use isle_types::TypeId;
use std::alloc::{AllocError, Global};

/// Adds the warnings of the converters that fit nowhere.
pub fn warn_of_converters(
    alloc: Global,
    program: &Program,
    defs: &[Def],
    found: &mut Vec<Warning>,
) -> Result<(), AllocError>
    ensures { OnOk result ((files : List SourceFile) → All (DefAt (IsPrintablePos files)) defs.now
        → All (WarningAt (IsPrintablePos files)) found.old.items
        → All (WarningAt (IsPrintablePos files)) found.new.items) }
{
    for def in defs {
        if let Def::Converter(converter) = def {
            if !may_fit(program, converter) {
                found.push(unfit(alloc, converter)?)?;
            }
        }
    }
    Ok(())
}

/// Whether a converter can be put somewhere. Its term has a constructor or an extractor, since each term of an accepted file
/// does.
fn may_fit(program: &Program, converter: &Converter) -> bool {
    let types = program.types();
    let Some(inner) = types.get_type_by_name(&converter.inner_ty) else {
        return false;
    };
    let Some(outer) = types.get_type_by_name(&converter.outer_ty) else {
        return false;
    };
    let Some(id) = program.terms().get_term_by_name(types, &converter.term) else {
        return false;
    };
    match program.terms().get_term(id) {
        Some(term) => inner != outer && converts(term, inner, outer),
        None => false,
    }
}

/// Whether a term takes exactly the inner type and gives the outer one.
fn converts(term: &Term, inner: TypeId, outer: TypeId) -> bool {
    match term.arg_tys.as_slice() {
        [arg] => *arg == inner && term.ret_ty == outer,
        _ => false,
    }
}
