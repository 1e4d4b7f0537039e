//! Tables of the names that definitions give: of declared terms, roots of rules, constructors and extractors.
ghost use Rattle.std.specs.Prelude.{◌≡◌, ℕ, Bool, List, [], ◌++◌, map, IfOk, OnOk};
ghost use Rattle.isle_ast.specs.declared.ast.Def.{Def};
ghost use Rattle.isle_types.specs.Names.{AreDistinct};
ghost use Rattle.isle_types.specs.Environment.{Environment};
ghost use Rattle.isle_rules.specs.Definitions.{declared_names, external_constructor_names, extractor_names};
ghost use Rattle.isle_terms.specs.TermFaults.{IsTaken, named_extractors};
ghost use Rattle.isle_terms.specs.TypingFaults.{BreaksTyping};
ghost use Rattle.isle_terms.specs.Inside.Collecting.Checks.{Checks};
ghost use Rattle.isle_terms.specs.Inside.Collecting.NameTables.{IsTableOf};
ghost use Rattle.isle_terms.specs.Inside.Collecting.Parts.{ArePartsOf, AreNamesOf, AreNamedOnce};

use crate::env::checks::name_roots;
use crate::env::name_table::NameTable;
use crate::env::naming::{self, name_all};
use crate::env::parts::Parts;
use isle_ast::error::Error;
use isle_types::TypeEnv;
use std::alloc::{AllocError, Global};

/// The tables of the names that definitions give.
#[derive(Drop)]
pub struct Names {
    /// The declared terms.
    pub declared: NameTable,
    /// The terms at the roots of rules.
    pub roots: NameTable,
    /// The terms of the external constructors.
    pub host_constructors: NameTable,
    /// The terms of the internal extractors, and behind them those of the external ones.
    pub extractors: NameTable,
}

/// The table of declared terms. A second declaration of a term is reported.
fn name_declared(
    alloc: Global,
    tyenv: &TypeEnv,
    parts: &Parts<'_>,
    errors: &mut Vec<Error>,
) -> Result<NameTable, AllocError>
    ensures table { (defs : List Def) → ArePartsOf defs parts.now → IfOk result (IsTableOf (declared_names defs)) }
    ensures checked { (types : Environment) (expands : Bool) (levels : ℕ) (defs : List Def) → ArePartsOf defs parts.now
        → OnOk result (Checks (BreaksTyping types expands levels defs) (AreDistinct (declared_names defs)) errors.old.items errors.new.items) }
{
    let named = naming::declared_names(alloc, parts.decls.as_slice())?;
    name_all(
        alloc,
        tyenv,
        named.as_slice(),
        "is declared already",
        errors,
    )
}

/// The table of the terms of external constructors. A second one of a term is reported.
fn name_host_constructors(
    alloc: Global,
    tyenv: &TypeEnv,
    parts: &Parts<'_>,
    errors: &mut Vec<Error>,
) -> Result<NameTable, AllocError>
    ensures table { (defs : List Def) → ArePartsOf defs parts.now → IfOk result (IsTableOf (external_constructor_names defs)) }
    ensures checked { (types : Environment) (expands : Bool) (levels : ℕ) (defs : List Def) → ArePartsOf defs parts.now
        → OnOk result (Checks (BreaksTyping types expands levels defs) (AreDistinct (external_constructor_names defs))
        errors.old.items errors.new.items) }
{
    let named = naming::host_constructor_names(alloc, parts.host_constructors.as_slice())?;
    name_all(
        alloc,
        tyenv,
        named.as_slice(),
        "has an external constructor already",
        errors,
    )
}

/// The table of the terms of extractors. A second one of a term is reported.
fn name_extractors(
    alloc: Global,
    tyenv: &TypeEnv,
    parts: &Parts<'_>,
    errors: &mut Vec<Error>,
) -> Result<NameTable, AllocError>
    ensures table { (defs : List Def) → ArePartsOf defs parts.now → IfOk result (IsTableOf (extractor_names defs)) }
    ensures checked { (defs : List Def) → ArePartsOf defs parts.now
        → OnOk result (Checks (IsTaken (named_extractors defs)) (AreDistinct (extractor_names defs)) errors.old.items errors.new.items) }
{
    let mut named = naming::extractor_names(alloc, parts.extractors.as_slice())?;
    naming::add_host_extractor_names(&mut named, parts.host_extractors.as_slice())?;
    name_all(
        alloc,
        tyenv,
        named.as_slice(),
        "has an extractor already",
        errors,
    )
}

/// The tables of the names that definitions give. A name that is given twice is reported, that of an extractor in `later`.
pub fn name_parts(
    alloc: Global,
    tyenv: &TypeEnv,
    parts: &Parts<'_>,
    errors: &mut Vec<Error>,
    later: &mut Vec<Error>,
) -> Result<Names, AllocError>
    ensures tables { (defs : List Def) → ArePartsOf defs parts.now → IfOk result (AreNamesOf defs) }
    ensures checked { (types : Environment) (expands : Bool) (levels : ℕ) (defs : List Def) → ArePartsOf defs parts.now
        → OnOk result (Checks (BreaksTyping types expands levels defs) (AreNamedOnce defs) errors.old.items errors.new.items) }
    ensures extractors { (defs : List Def) → ArePartsOf defs parts.now
        → OnOk result (Checks (IsTaken (named_extractors defs)) (AreDistinct (extractor_names defs)) later.old.items later.new.items) }
{
    Ok(Names {
        declared: name_declared(alloc, tyenv, parts, errors)?,
        roots: name_roots(alloc, parts.rules.as_slice())?,
        host_constructors: name_host_constructors(alloc, tyenv, parts, errors)?,
        extractors: name_extractors(alloc, tyenv, parts, later)?,
    })
}
