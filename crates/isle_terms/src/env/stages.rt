//! The stages that make the terms of definitions, and check their extractors, converters and uses.
ghost use Rattle.std.specs.Prelude.{◌≡◌, ◌<◌, ◌≤◌, ℕ, Bool, true, false, List, [], ◌∷◌, ◌++◌, map, length, All, IfOk, IfErr, OnOk};
ghost use Rattle.std.specs.List.{AllZip};
ghost use Rattle.isle_ast.specs.declared.ast.Decl.{Decl as DeclTree};
ghost use Rattle.isle_ast.specs.declared.ast.Def.{Def};
ghost use Rattle.isle_ast.specs.declared.pos.Pos.{Pos};
ghost use Rattle.isle_ast.specs.Errors.{IfFault};
ghost use Rattle.isle_types.specs.Environment.{Environment};
ghost use Rattle.isle_types.specs.Names.{AreDistinct};
ghost use Rattle.isle_types.specs.TypeEnvs.{Shows, HasMoreNames};
ghost use Rattle.isle_types.specs.TypeFaults.{IsTypeFault};
ghost use Rattle.isle_rules.specs.Signatures.{Signature};
ghost use Rattle.isle_rules.specs.Definitions.{declarations, declared_names, extractor_names, AreTerms, names_of_terms, KeepExtractorRules};
ghost use Rattle.isle_rules.specs.Definitions.{IsDefined};
ghost use Rattle.isle_terms.specs.TermFaults.{IsTaken, named_extractors};
ghost use Rattle.isle_terms.specs.TypingFaults.{BreaksTyping, AreTypingFaults};
ghost use Rattle.isle_terms.specs.Inside.Collecting.Checks.{Checks};
ghost use Rattle.isle_terms.specs.Inside.Collecting.NameTables.{IsTableOf};
ghost use Rattle.isle_terms.specs.Inside.Collecting.Parts.{ArePartsOf, AreNamesOf, KeepFirstRules, AreNamedOnce};
ghost use Rattle.isle_terms.specs.Inside.Collecting.DeclaredTerms.{AreDeclaredTerms, IsShownTerm};
ghost use Rattle.isle_rules.specs.Definitions.{HasPlainTemplates};
ghost use Rattle.isle_terms.specs.Inside.Collecting.MadeTerms.{AreMadeTerms, KeepLaterRules};
ghost use Rattle.isle_rules.specs.Readings.Needs.{needed_of};
ghost use Rattle.isle_rules.specs.declared.terms.Term.{Term as TermRecord};

use crate::env::bodies::check_bodies;
use crate::env::checks::{
    check_defined, check_extractors, check_host_constructors, check_host_extractors, check_marks,
    check_roots,
};
use crate::env::converters::collect_converters;
use crate::env::name_table::NameTable;
use crate::env::names::Names;
use crate::env::naming::{name_all, term_names};
use crate::env::parts::Parts;
use crate::env::recursion::check_recursion;
use crate::env::terms::Forms;
use crate::env::type_terms::add_type_terms;
use isle_ast::Refusal;
use isle_ast::error::Error;
use isle_rules::Term;
use isle_types::{StableMap, TermId, TypeEnv, TypeId};
use std::alloc::{AllocError, Global};

/// The terms that definitions make, each at the place of its id, and the table of their names.
#[derive(Drop)]
pub struct MadeTerms {
    pub terms: Vec<Term>,
    pub table: NameTable,
}

/// Refuses errors, if there are some.
pub fn refuse(errors: Vec<Error>) -> Result<(), Refusal<Vec<Error>>>
    ensures ok { OnOk result (errors.items ≡ []) }
    ensures err { IfErr result (λ r. IfFault r (λ all. (all.items ≡ errors.items) × (0 < length errors.items))) }
{
    if errors.is_empty() {
        Ok(())
    } else {
        Err(Refusal::Fault(errors))
    }
}

/// Checks marks, roots of rules and external constructors.
fn check_first_rules(
    tyenv: &TypeEnv,
    parts: &Parts<'_>,
    names: &Names,
    errors: &mut Vec<Error>,
) -> Result<(), AllocError>
    ensures { (types : Environment) (expands : Bool) (levels : ℕ) (defs : List Def) → ArePartsOf defs parts.now → AreNamesOf defs names.now
        → OnOk result (Checks (BreaksTyping types expands levels defs) (AreNamedOnce defs → KeepFirstRules defs)
        errors.old.items errors.new.items) }
{
    let declared = &names.declared;
    check_marks(tyenv, parts.decls.as_slice(), errors)?;
    check_roots(tyenv, parts.rules.as_slice(), declared, errors)?;
    let hosts = parts.host_constructors.as_slice();
    check_host_constructors(tyenv, hosts, declared, &names.roots, errors)
}

/// The terms of declarations, of which those with unknown types are reported.
fn declare(
    alloc: Global,
    tyenv: &mut TypeEnv,
    parts: &Parts<'_>,
    names: &Names,
    errors: &mut Vec<Error>,
) -> Result<Vec<Term>, Refusal<Vec<Error>>>
    requires { HasPlainTemplates (map (λ extractor. extractor.now) parts.now.extractors.items) }
    ensures made { (types : Environment) (expands : Bool) (levels : ℕ) (defs : List Def) → Shows tyenv.old types → ArePartsOf defs parts.now
        → AreNamesOf defs names.now → IfOk result (λ terms. Checks (BreaksTyping types expands levels defs)
        (AreDeclaredTerms types defs tyenv.new.names (declarations defs) terms.items) errors.old.items errors.new.items) }
    ensures large { (types : Environment) (expands : Bool) (levels : ℕ) (max : ℕ) (defs : List Def) → Shows tyenv.old types
        → ArePartsOf defs parts.now → IfErr result (λ r. IfFault r (λ all. AreTypingFaults types expands levels max defs all.items)) }
    ensures needs { IfOk result (λ terms. All (λ (term : TermRecord). needed_of term ≤ usize.MAX) terms.items) }
    ensures more { HasMoreNames tyenv.old tyenv.new }
    ensures shown { (types : Environment) → Shows tyenv.old types → Shows tyenv.new types }
{
    let forms = Forms {
        alloc,
        roots: &names.roots,
        constructors: parts.host_constructors.as_slice(),
        constructor_table: &names.host_constructors,
        extractors: parts.extractors.as_slice(),
        host_extractors: parts.host_extractors.as_slice(),
        extractor_table: &names.extractors,
    };
    forms.declared_terms(tyenv, parts.decls.as_slice(), errors)
}

/// The declared terms and those of the types, with the table of their names. A name that two terms have is refused.
fn complete(
    alloc: Global,
    tyenv: &TypeEnv,
    declared: Vec<Term>,
) -> Result<MadeTerms, Refusal<Vec<Error>>>
    ensures made { (types : Environment) (defs : List Def) → Shows tyenv.now types
        → AreDeclaredTerms types defs tyenv.now.names (declarations defs) declared.items
        → All (λ (decl : DeclTree). decl.multi ≡ true → decl.partial ≡ false) (declarations defs)
        → IfOk result (AreMadeTerms types defs tyenv.now.names) }
    ensures faults { (types : Environment) (expands : Bool) (levels : ℕ) (max : ℕ) (defs : List Def) → Shows tyenv.now types
        → AreDeclaredTerms types defs tyenv.now.names (declarations defs) declared.items
        → IfErr result (λ r. IfFault r (λ all. AreTypingFaults types expands levels max defs all.items)) }
    ensures needs { (types : Environment) → Shows tyenv.now types → All (λ (term : TermRecord). needed_of term ≤ usize.MAX) declared.items
        → IfOk result (λ made. All (λ (term : TermRecord). needed_of term ≤ usize.MAX) made.terms.items) }
{
    let mut terms = declared;
    add_type_terms(alloc, tyenv, &mut terms)?;
    let mut errors = Vec::new(alloc);
    let named = term_names(alloc, tyenv, terms.as_slice())?;
    let table = name_all(
        alloc,
        tyenv,
        named.as_slice(),
        "is defined already",
        &mut errors,
    )?;
    match refuse(errors) {
        Ok(()) => Ok(MadeTerms { terms, table }),
        Err(refusal) => Err(refusal),
    }
}

/// The terms that definitions make, where the names that these give are given once: `errors` says where not.
pub fn make_terms(
    alloc: Global,
    tyenv: &mut TypeEnv,
    parts: &Parts<'_>,
    names: &Names,
    errors: Vec<Error>,
) -> Result<MadeTerms, Refusal<Vec<Error>>>
    requires { HasPlainTemplates (map (λ extractor. extractor.now) parts.now.extractors.items) }
    ensures made { (types : Environment) (expands : Bool) (levels : ℕ) (defs : List Def) → Shows tyenv.old types → ArePartsOf defs parts.now
        → AreNamesOf defs names.now → Checks (BreaksTyping types expands levels defs) (AreNamedOnce defs) [] errors.items
        → IfOk result (AreMadeTerms types defs tyenv.new.names) }
    ensures kept { (types : Environment) (expands : Bool) (levels : ℕ) (defs : List Def) → Shows tyenv.old types → ArePartsOf defs parts.now
        → AreNamesOf defs names.now → Checks (BreaksTyping types expands levels defs) (AreNamedOnce defs) [] errors.items
        → OnOk result (KeepFirstRules defs) }
    ensures faults { (types : Environment) (expands : Bool) (levels : ℕ) (max : ℕ) (defs : List Def) → Shows tyenv.old types
        → ArePartsOf defs parts.now → AreNamesOf defs names.now
        → Checks (BreaksTyping types expands levels defs) (AreNamedOnce defs) [] errors.items
        → IfErr result (λ r. IfFault r (λ all. AreTypingFaults types expands levels max defs all.items)) }
    ensures needs { (types : Environment) → Shows tyenv.old types
        → IfOk result (λ made. All (λ (term : TermRecord). needed_of term ≤ usize.MAX) made.terms.items) }
    ensures more { HasMoreNames tyenv.old tyenv.new }
    ensures shown { (types : Environment) → Shows tyenv.old types → Shows tyenv.new types }
{
    let mut errors = errors;
    check_first_rules(tyenv, parts, names, &mut errors)?;
    let declared = match declare(alloc, tyenv, parts, names, &mut errors) {
        Ok(declared) => declared,
        Err(refusal) => return Err(refusal),
    };
    match refuse(errors) {
        Ok(()) => complete(alloc, tyenv, declared),
        Err(refusal) => Err(refusal),
    }
}

/// Checks internal and external extractors: their terms, the terms that bodies name, and that no term comes to itself.
fn check_extractor_rules(
    alloc: Global,
    tyenv: &TypeEnv,
    parts: &Parts<'_>,
    names: &Names,
    table: &NameTable,
    errors: &mut Vec<Error>,
) -> Result<(), AllocError>
    ensures { (types : Environment) (expands : Bool) (levels : ℕ) (defs : List Def) (signatures : List Signature) → ArePartsOf defs parts.now
        → AreNamesOf defs names.now → AreTerms types defs signatures → IsTableOf (names_of_terms signatures) table.now
        → OnOk result (Checks (BreaksTyping types expands levels defs) (AreDistinct (extractor_names defs) → KeepExtractorRules defs signatures)
        errors.old.items errors.new.items) }
{
    let declared = &names.declared;
    let extractors = parts.extractors.as_slice();
    check_extractors(tyenv, extractors, parts.decls.as_slice(), declared, errors)?;
    check_host_extractors(tyenv, parts.host_extractors.as_slice(), declared, errors)?;
    check_bodies(tyenv, alloc, extractors, table, errors)?;
    check_recursion(tyenv, alloc, extractors, errors)
}

/// The converters of definitions whose terms are made. Extractors, converters and terms without a use are checked; `errors` has
/// what is reported already of the names of extractors.
pub fn check_terms(
    alloc: Global,
    tyenv: &TypeEnv,
    parts: &Parts<'_>,
    names: &Names,
    table: &NameTable,
    errors: &mut Vec<Error>,
) -> Result<StableMap<(TypeId, TypeId), TermId>, AllocError>
    ensures { (types : Environment) (expands : Bool) (levels : ℕ) (defs : List Def) (signatures : List Signature) → Shows tyenv.now types
        → ArePartsOf defs parts.now → AreNamesOf defs names.now → AreTerms types defs signatures
        → IsTableOf (names_of_terms signatures) table.now
        → Checks (IsTaken (named_extractors defs)) (AreDistinct (extractor_names defs)) [] errors.old.items
        → IfOk result (λ converters. Checks (BreaksTyping types expands levels defs) (KeepLaterRules types defs signatures converters)
        [] errors.new.items) }
{
    check_extractor_rules(alloc, tyenv, parts, names, table, errors)?;
    let converters = collect_converters(alloc, tyenv, parts.converters.as_slice(), table, errors)?;
    let decls = parts.decls.as_slice();
    check_defined(
        tyenv,
        decls,
        &names.roots,
        &names.host_constructors,
        &names.extractors,
        errors,
    )?;
    Ok(converters)
}
