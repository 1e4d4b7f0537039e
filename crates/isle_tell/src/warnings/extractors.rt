//! Warnings of internal extractors.
ghost use Rattle.std.specs.Prelude.{List, All, OnOk};
ghost use Rattle.isle_ast.specs.Positions.Files.{SourceFile};
ghost use Rattle.isle_ast.specs.Positions.Printable.{IsPrintablePos};
ghost use Rattle.isle_ast.specs.Positions.DefPositions.{IdentAt, ExtractorAt, DefAt};
ghost use Rattle.isle_tell.specs.Inside.Warnings.{NameAt, WarningAt};

use crate::warnings::Warning;
use crate::warnings::binders::{PatternName, names_of_pattern};
use crate::warnings::messages::{is_silent, unused, warn_of_bare};
use isle_ast::Text;
use isle_ast::ast::{Def, Extractor, Ident};
use isle_program::Program;
use isle_types::StableSet;
use std::alloc::{AllocError, Global};

/// Adds the warnings of all internal extractors.
pub fn warn_of_extractors(
    alloc: Global,
    program: &Program,
    defs: &[Def],
    found: &mut Vec<Warning>,
) -> Result<(), AllocError>
    ensures { OnOk result ((files : List SourceFile) → All (DefAt (IsPrintablePos files)) defs.now
        → All (WarningAt (IsPrintablePos files)) found.old.items
        → All (WarningAt (IsPrintablePos files)) found.new.items) }
{
    for def in defs {
        if let Def::Extractor(extractor) = def {
            warn_of_extractor(alloc, program, extractor, found)?;
        }
    }
    Ok(())
}

fn warn_of_extractor(
    alloc: Global,
    program: &Program,
    extractor: &Extractor,
    found: &mut Vec<Warning>,
) -> Result<(), AllocError>
    ensures { OnOk result ((files : List SourceFile) → ExtractorAt (IsPrintablePos files) extractor.now
        → All (WarningAt (IsPrintablePos files)) found.old.items
        → All (WarningAt (IsPrintablePos files)) found.new.items) }
{
    let names = names_of_pattern(alloc, &extractor.template)?;
    let args = extractor.args.as_slice();
    warn_of_args(alloc, args, names.as_slice(), found)?;
    warn_of_captures(alloc, program, args, names.as_slice(), found)
}

/// Adds the warnings of the arguments that a body doesn't use.
fn warn_of_args(
    alloc: Global,
    args: &[Ident],
    names: &[PatternName<'_>],
    found: &mut Vec<Warning>,
) -> Result<(), AllocError>
    ensures { OnOk result ((files : List SourceFile) → All (IdentAt (IsPrintablePos files)) args.now
        → All (WarningAt (IsPrintablePos files)) found.old.items
        → All (WarningAt (IsPrintablePos files)) found.new.items) }
{
    let used = names_alone(alloc, names)?;
    for arg in args {
        if !is_silent(arg) && !used.contains(&arg.0) {
            found.push(unused(alloc, arg)?)?;
        }
    }
    Ok(())
}

/// The names that stand alone or before `@ _`.
fn names_alone(alloc: Global, names: &[PatternName<'_>]) -> Result<StableSet<Text>, AllocError> {
    let mut alone = StableSet::new(alloc);
    for name in names {
        if name.is_alone {
            let _ = alone.insert(name.name.0.clone()?)?;
        }
    }
    Ok(alone)
}

/// Adds the warnings of names in a body that are no arguments, and are a variant's or a struct's.
fn warn_of_captures(
    alloc: Global,
    program: &Program,
    args: &[Ident],
    names: &[PatternName<'_>],
    found: &mut Vec<Warning>,
) -> Result<(), AllocError>
    ensures { OnOk result ((files : List SourceFile) → All (NameAt (IsPrintablePos files)) names.now
        → All (WarningAt (IsPrintablePos files)) found.old.items
        → All (WarningAt (IsPrintablePos files)) found.new.items) }
{
    let mut seen = texts_of(alloc, args)?;
    for name in names {
        if seen.insert(name.name.0.clone()?)? {
            let _ = warn_of_bare(alloc, program, name.name, found)?;
        }
    }
    Ok(())
}

/// The texts of names.
fn texts_of(alloc: Global, names: &[Ident]) -> Result<StableSet<Text>, AllocError> {
    let mut texts = StableSet::new(alloc);
    for name in names {
        let _ = texts.insert(name.0.clone()?)?;
    }
    Ok(texts)
}
