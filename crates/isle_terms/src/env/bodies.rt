//! Terms that the bodies of internal extractors name, of which each unknown one is reported.
ghost use Rattle.std.specs.Prelude.{◌≡◌, ℕ, List, Bool, true, false, map, OnOk};
ghost use Rattle.isle_ast.specs.declared.pos.Pos.{Pos};
ghost use Rattle.isle_ast.specs.Trees.PatternShape.{pattern_of};
ghost use Rattle.isle_terms.specs.Inside.Collecting.NameTables.{IsTableOf};
ghost use Rattle.isle_terms.specs.Inside.Collecting.Checks.{Checks};
ghost use Rattle.isle_rules.specs.Definitions.{is_among};
ghost use Rattle.isle_terms.specs.Inside.Collecting.ExtractorChecks.{Adds, BodyNamesUnknown, BodyNamesKnown, IsUnknownAt, NamesUnknown, NamesKnown};

use crate::env::messages;
use crate::env::name_table::NameTable;
use crate::env::named::named_terms;
use crate::env::report::report;
use isle_ast::ast::{Extractor, Ident, Pattern};
use isle_ast::error::Error;
use isle_types::TypeEnv;
use std::alloc::{AllocError, Global};

/// Reports each term that an extractor's body names and that isn't known.
pub fn check_bodies(
    tyenv: &TypeEnv,
    alloc: Global,
    extractors: &[&Extractor],
    known: &NameTable,
    errors: &mut Vec<Error>,
) -> Result<(), AllocError>
    ensures { (names : List (List ℕ)) → IsTableOf names known.now
        → OnOk result (Checks (NamesUnknown (map (λ e. e.now) extractors.now) names) (NamesKnown (map (λ e. e.now) extractors.now) names)
        errors.old.items errors.new.items) }
{
    for extractor in extractors {
        check_body(tyenv, alloc, &extractor.template, known, errors)?;
    }
    Ok(())
}

fn check_body(
    tyenv: &TypeEnv,
    alloc: Global,
    body: &Pattern,
    known: &NameTable,
    errors: &mut Vec<Error>,
) -> Result<(), AllocError>
    ensures { (names : List (List ℕ)) → IsTableOf names known.now
        → OnOk result (Adds (BodyNamesUnknown (pattern_of body.now) names) (BodyNamesKnown (pattern_of body.now) names)
        errors.old.items errors.new.items) }
{
    let terms = named_terms(alloc, body)?;
    for term in &terms {
        check_term(tyenv, term, known, errors)?;
    }
    Ok(())
}

fn check_term(
    tyenv: &TypeEnv,
    term: &Ident,
    known: &NameTable,
    errors: &mut Vec<Error>,
) -> Result<(), AllocError>
    ensures { (names : List (List ℕ)) → IsTableOf names known.now
        → OnOk result (Adds (IsUnknownAt names term.now) (is_among term.now.0 names ≡ true) errors.old.items errors.new.items) }
{
    if known.has(term.0.as_str()) {
        return Ok(());
    }
    report(errors, term.1, messages::undeclared(tyenv, term))?;
    Ok(())
}
