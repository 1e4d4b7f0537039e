//! What a rule writer should be warned of in accepted files.
ghost use Rattle.std.specs.Prelude.{List, All, IfOk, OnOk, IsPermutation};
ghost use Rattle.isle_ast.specs.Positions.Files.{SourceFile};
ghost use Rattle.isle_ast.specs.Positions.Printable.{IsPrintablePos};
ghost use Rattle.isle_ast.specs.Positions.DefPositions.{DefAt};
ghost use Rattle.std.specs.List.Sorted.{IsSortedByKey};
ghost use Rattle.isle_blocks.specs.Reports.{pos_order};

mod binders;
mod conditions;
mod converters;
mod extractors;
mod messages;
mod terms;
mod uses;
mod variables;

use crate::warnings::converters::warn_of_converters;
use crate::warnings::extractors::warn_of_extractors;
use crate::warnings::terms::warn_of_terms;
use crate::warnings::variables::warn_of_rules;
use isle_ast::ast::Def;
use isle_ast::pos::Pos;
use isle_program::Program;
use std::alloc::{AllocError, Global};

/// What a rule writer should be warned of, and where it stands.
#[derive(Debug, Drop)]
pub struct Warning {
    pub pos: Pos,
    pub text: String,
}

/// The warnings of the definitions that a program was compiled from, in ascending order of their positions.
pub fn warnings(alloc: Global, program: &Program, defs: &[Def]) -> Result<Vec<Warning>, AllocError>
    ensures placed { (files : List SourceFile) → All (DefAt (IsPrintablePos files)) defs.now
        → IfOk result (λ found. All (λ warning. IsPrintablePos files warning.pos) found.items) }
    ensures ascending { IfOk result (λ found. IsSortedByKey (λ warning. warning.pos) pos_order found.items) }
{
    let mut found = Vec::new(alloc);
    warn_of_rules(alloc, program, defs, &mut found)?;
    warn_of_terms(alloc, program, defs, &mut found)?;
    warn_of_extractors(alloc, program, defs, &mut found)?;
    warn_of_converters(alloc, program, defs, &mut found)?;
    sort_warnings(&mut found)?;
    Ok(found)
}

/// Sorts warnings by their positions.
fn sort_warnings(found: &mut Vec<Warning>) -> Result<(), AllocError>
    ensures moved { IsPermutation found.old.items found.new.items }
    ensures ascending { OnOk result (IsSortedByKey (λ warning. warning.pos) pos_order found.new.items) }
{
    found.sort_by_key(|warning: &Warning| warning.pos)
}
