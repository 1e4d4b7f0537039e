//! What warnings say.
ghost use Rattle.std.specs.Prelude.{◌≡◌, List, All, IfOk, IfSome, OnOk};
ghost use Rattle.isle_ast.specs.Positions.Files.{SourceFile};
ghost use Rattle.isle_ast.specs.Positions.Printable.{IsPrintablePos};
ghost use Rattle.isle_ast.specs.Positions.DefPositions.{IdentAt};
ghost use Rattle.isle_tell.specs.Inside.Warnings.{WarningAt};

use crate::warnings::Warning;
use isle_ast::ast::{Converter, Ident};
use isle_program::Program;
use isle_rules::TermKind;
use std::alloc::{AllocError, Global};

/// Whether a name says by its first character that it isn't used.
pub fn is_silent(name: &Ident) -> bool {
    name.0.as_str().starts_with('_')
}

/// `x is not used`.
pub fn unused(alloc: Global, name: &Ident) -> Result<Warning, AllocError>
    ensures { IfOk result (λ warning. warning.pos ≡ name.now.1) }
{
    let text = name.0.as_str();
    Ok(Warning {
        pos: name.1,
        text: format!(in alloc; "{text} is not used")?,
    })
}

/// `the converter t fits nothing`.
pub fn unfit(alloc: Global, converter: &Converter) -> Result<Warning, AllocError>
    ensures { IfOk result (λ warning. warning.pos ≡ converter.now.pos) }
{
    let text = converter.term.0.as_str();
    Ok(Warning {
        pos: converter.pos,
        text: format!(in alloc; "the converter {text} fits nothing")?,
    })
}

/// `T.A is a variant: write (T.A)`, where a name is that of a variant's or a struct's term.
fn bare(alloc: Global, program: &Program, name: &Ident) -> Result<Option<Warning>, AllocError>
    ensures { IfOk result (λ found. IfSome found (λ warning. warning.pos ≡ name.now.1)) }
{
    let Some(id) = program.terms().get_term_by_name(program.types(), name) else {
        return Ok(None);
    };
    let Some(term) = program.terms().get_term(id) else {
        return Ok(None);
    };
    let what = match &term.kind {
        TermKind::EnumVariant { .. } => "variant",
        TermKind::Struct => "struct",
        TermKind::Decl { .. } => return Ok(None),
    };
    let below = if term.arg_tys.as_slice().is_empty() {
        ""
    } else {
        " .."
    };
    let text = name.0.as_str();
    Ok(Some(Warning {
        pos: name.1,
        text: format!(in alloc; "{text} is a {what}: write ({text}{below})")?,
    }))
}

/// Adds the warning of a name that is a variant's or a struct's, and tells whether it is one.
pub fn warn_of_bare(
    alloc: Global,
    program: &Program,
    name: &Ident,
    found: &mut Vec<Warning>,
) -> Result<bool, AllocError>
    ensures { OnOk result ((files : List SourceFile) → IdentAt (IsPrintablePos files) name.now
        → All (WarningAt (IsPrintablePos files)) found.old.items
        → All (WarningAt (IsPrintablePos files)) found.new.items) }
{
    match bare(alloc, program, name)? {
        Some(warning) => {
            found.push(warning)?;
            Ok(true)
        }
        None => Ok(false),
    }
}
