//! The terms of declarations: their types, flags, constructors and extractors.
ghost use Rattle.std.specs.Prelude.{◌≡◌, ◌≤◌, ◌<◌, ◌++◌, ◌∷◌, [], ℕ, List, Some, false, map, length, All, IfOk, IfErr, OnOk};
ghost use Rattle.std.specs.List.{AllZip};
ghost use Rattle.isle_ast.specs.declared.ast.Def.{Def};
ghost use Rattle.isle_ast.specs.Errors.{IfFault, IsFaultAnd, error_kind, size_error};
ghost use Rattle.isle_types.specs.Environment.{Environment};
ghost use Rattle.isle_types.specs.TypeEnvs.{Shows, HasMoreNames};
ghost use Rattle.isle_rules.specs.Definitions.{IsTypeNumber, constructor_for, extractor_for};
ghost use Rattle.isle_rules.specs.Shown.ShownTerms.{numbers_of};
ghost use Rattle.isle_terms.specs.Inside.Collecting.DeclaredTerms.{AreFormsOf, AreShownAs, IsShownConstructor, IsShownExtractor, IsDeclaredTerm};
ghost use Rattle.isle_terms.specs.Inside.Collecting.DeclaredTerms.{IsDeclarationFault, IsUnknownTypeAt, IsOneUnknownAt};
ghost use Rattle.isle_rules.specs.Definitions.{HasPlainTemplates};
ghost use Rattle.isle_terms.specs.Inside.Collecting.DeclaredTerms.{IsShownForm, NamesUnknownType, OneNamesUnknownType, IsLargeAt, IsOneLargeAt, IsAlone};
ghost use Rattle.isle_terms.specs.Inside.Collecting.DeclaredTerms.{AddsDeclaredTerm, AreDeclaredTerms};
ghost use Rattle.isle_terms.specs.Inside.Collecting.Checks.{Checks};
ghost use Rattle.isle_terms.specs.Inside.Collecting.ExtractorChecks.{Adds};
ghost use Rattle.isle_types.specs.TypeFaults.{IsTypeFault, IsSizeFault};
ghost use Rattle.isle_ast.specs.Trees.PatternShape.{pattern_of};
ghost use Rattle.isle_ast.specs.Trees.TreeCalls.{has_macro_arg};
ghost use Rattle.isle_ast.specs.Trees.Templates.{template_tree};
ghost use Rattle.isle_rules.specs.Signatures.{by_template, declared_form};
ghost use Rattle.isle_rules.specs.Definitions.{flags_in};
ghost use Rattle.isle_rules.specs.Shown.ShownTerms.{flags_shown};
ghost use Rattle.isle_rules.specs.declared.terms.Term.{Term as TermRecord};
ghost use Rattle.isle_rules.specs.Readings.Needs.{needed_of, needed_by, needed_by_extractor};

use crate::env::definitions::{HostConstructor, HostExtractor};
use crate::env::name_table::NameTable;
use isle_ast::ast::{Decl, Extractor, Ident};
use isle_ast::error::Error;
use isle_ast::{Refusal, Seq};
use isle_rules::{ConstructorKind, ExtractorKind, Term, TermFlags, TermKind};
use isle_types::{TermId, TypeEnv, TypeId};
use std::alloc::{AllocError, Global};

/// How many arguments a term may have.
pub const MAX_ARGUMENTS: usize = 255;

/// What gives declared terms their constructors and extractors, by the names of the terms.
#[derive(Drop)]
pub struct Forms<'a> {
    pub alloc: Global,
    /// The terms that are roots of rules.
    pub roots: &'a NameTable,
    pub constructors: &'a [HostConstructor<'a>],
    /// The terms of the external constructors.
    pub constructor_table: &'a NameTable,
    pub extractors: &'a [&'a Extractor],
    pub host_extractors: &'a [HostExtractor<'a>],
    /// The terms of the internal extractors, and behind them those of the external ones.
    pub extractor_table: &'a NameTable,
}

impl Forms<'_> {
    /// How the declared term of a name makes its value.
    fn constructor_kind(
        &self,
        tyenv: &mut TypeEnv,
        name: &str,
    ) -> Result<Option<ConstructorKind>, AllocError>
        ensures made { (defs : List Def) → AreFormsOf defs self.now → IfOk result (λ kind.
            AreShownAs (IsShownConstructor tyenv.new.names) (constructor_for defs name.now) kind) }
        ensures more { HasMoreNames tyenv.old tyenv.new }
        ensures shown { (types : Environment) → Shows tyenv.old types → Shows tyenv.new types }
    {
        if self.roots.has(name) {
            return Ok(Some(ConstructorKind::InternalConstructor));
        }
        let Some(place) = self.constructor_table.place(name) else {
            return Ok(None);
        };
        if place >= self.constructors.len() {
            return Ok(None);
        }
        let host = self.constructors[place];
        Ok(Some(ConstructorKind::ExternalConstructor {
            name: tyenv.intern_mut(host.function)?,
        }))
    }

    /// How the declared term of a name takes a value apart.
    fn extractor_kind(
        &self,
        tyenv: &mut TypeEnv,
        name: &str,
    ) -> Result<Option<ExtractorKind>, AllocError>
        requires { HasPlainTemplates (map (λ extractor. extractor.now) self.now.extractors.now) }
        ensures made { (defs : List Def) → AreFormsOf defs self.now → IfOk result (λ kind.
            AreShownAs (IsShownExtractor tyenv.new.names) (extractor_for defs name.now) kind) }
        ensures needs { IfOk result (λ kind. needed_by_extractor kind ≤ usize.MAX) }
        ensures more { HasMoreNames tyenv.old tyenv.new }
        ensures shown { (types : Environment) → Shows tyenv.old types → Shows tyenv.new types }
    {
        let Some(place) = self.extractor_table.place(name) else {
            return Ok(None);
        };
        if place < self.extractors.len() {
            let extractor = self.extractors[place];
            return Ok(Some(internal_extractor(self.alloc, extractor)?));
        }
        let place = place - self.extractors.len();
        if place >= self.host_extractors.len() {
            return Ok(None);
        }
        let host = self.host_extractors[place];
        Ok(Some(ExtractorKind::ExternalExtractor {
            name: tyenv.intern_mut(host.function)?,
            infallible: host.infallible,
            pos: host.pos,
        }))
    }

    /// What the term of a declaration is.
    fn kind_of(&self, tyenv: &mut TypeEnv, decl: &Decl) -> Result<TermKind, AllocError>
        requires { HasPlainTemplates (map (λ extractor. extractor.now) self.now.extractors.now) }
        ensures made { (defs : List Def) → AreFormsOf defs self.now → IfOk result (IsShownForm tyenv.new.names
            (declared_form (flags_in decl.now) (constructor_for defs decl.now.term.0) (extractor_for defs decl.now.term.0))) }
        ensures needs { IfOk result (λ kind. needed_by kind ≤ usize.MAX) }
        ensures more { HasMoreNames tyenv.old tyenv.new }
        ensures shown { (types : Environment) → Shows tyenv.old types → Shows tyenv.new types }
    {
        let constructor_kind = self.constructor_kind(tyenv, decl.term.0.as_str())?;
        let extractor_kind = self.extractor_kind(tyenv, decl.term.0.as_str())?;
        Ok(TermKind::Decl {
            flags: flags_of(decl),
            constructor_kind,
            extractor_kind,
        })
    }

    /// The term that a declaration makes.
    fn declared_term(
        &self,
        tyenv: &mut TypeEnv,
        id: TermId,
        decl: &Decl,
    ) -> Result<Term, Refusal<Error>>
        requires { HasPlainTemplates (map (λ extractor. extractor.now) self.now.extractors.now) }
        ensures made { (types : Environment) (defs : List Def) → Shows tyenv.old types → AreFormsOf defs self.now
            → IfOk result (IsDeclaredTerm types defs tyenv.new.names id decl.now) }
        ensures needs { IfOk result (λ term. needed_of term ≤ usize.MAX) }
        ensures fault { (types : Environment) → Shows tyenv.old types → IfErr result (λ r. IfFault r (IsDeclarationFault types decl.now)) }
        ensures more { HasMoreNames tyenv.old tyenv.new }
        ensures shown { (types : Environment) → Shows tyenv.old types → Shows tyenv.new types }
    {
        let types = match types_of(self.alloc, tyenv, decl) {
            Ok(types) => types,
            Err(refusal) => return Err(refusal),
        };
        let name = tyenv.intern_mut(&decl.term)?;
        let kind = self.kind_of(tyenv, decl)?;
        Ok(Term {
            id,
            decl_pos: decl.pos,
            name,
            arg_tys: Seq::new(types.arguments),
            ret_ty: types.value,
            kind,
        })
    }

    /// Adds the term that a declaration makes. A type that isn't known is reported; too many arguments are an error alone.
    fn add_declared(
        &self,
        tyenv: &mut TypeEnv,
        decl: &Decl,
        terms: &mut Vec<Term>,
        errors: &mut Vec<Error>,
    ) -> Result<(), Refusal<Vec<Error>>>
        requires { HasPlainTemplates (map (λ extractor. extractor.now) self.now.extractors.now) }
        ensures added { (types : Environment) (defs : List Def) → Shows tyenv.old types → AreFormsOf defs self.now
            → OnOk result (Adds (NamesUnknownType types decl.now)
            (AddsDeclaredTerm types defs tyenv.new.names decl.now terms.old.items terms.new.items) errors.old.items errors.new.items) }
        ensures large { (types : Environment) → Shows tyenv.old types
            → IfErr result (λ r. IfFault r (λ all. IsAlone (IsSizeFault (IsLargeAt decl.now)) all.items)) }
        ensures needs { All (λ (term : TermRecord). needed_of term ≤ usize.MAX) terms.old.items
            → All (λ (term : TermRecord). needed_of term ≤ usize.MAX) terms.new.items }
        ensures more { HasMoreNames tyenv.old tyenv.new }
        ensures shown { (types : Environment) → Shows tyenv.old types → Shows tyenv.new types }
    {
        let id = TermId(terms.len());
        match self.declared_term(tyenv, id, decl) {
            Ok(term) => {
                terms.push(term)?;
                Ok(())
            }
            Err(refusal) => keep(self.alloc, refusal, errors),
        }
    }

    /// The terms of declarations, whose numbers count from 0. Types that aren't known are reported; a declaration of too many
    /// arguments is an error alone.
    pub fn declared_terms(
        &self,
        tyenv: &mut TypeEnv,
        decls: &[&Decl],
        errors: &mut Vec<Error>,
    ) -> Result<Vec<Term>, Refusal<Vec<Error>>>
        requires { HasPlainTemplates (map (λ extractor. extractor.now) self.now.extractors.now) }
        ensures made { (types : Environment) (defs : List Def) → Shows tyenv.old types → AreFormsOf defs self.now
            → IfOk result (λ terms. Checks (OneNamesUnknownType types (map (λ decl. decl.now) decls.now))
            (AreDeclaredTerms types defs tyenv.new.names (map (λ decl. decl.now) decls.now) terms.items) errors.old.items errors.new.items) }
        ensures large { (types : Environment) → Shows tyenv.old types
            → IfErr result (λ r. IfFault r (λ all. IsAlone (IsSizeFault (IsOneLargeAt (map (λ decl. decl.now) decls.now))) all.items)) }
        ensures needs { IfOk result (λ terms. All (λ (term : TermRecord). needed_of term ≤ usize.MAX) terms.items) }
        ensures more { HasMoreNames tyenv.old tyenv.new }
        ensures shown { (types : Environment) → Shows tyenv.old types → Shows tyenv.new types }
    {
        let mut terms = Vec::new(self.alloc);
        for decl in decls {
            match self.add_declared(tyenv, decl, &mut terms, errors) {
                Ok(()) => {}
                Err(refusal) => return Err(refusal),
            }
        }
        Ok(terms)
    }
}

/// Keeps a type error. A size error, alone, and that memory ran out are handed on.
fn keep(
    alloc: Global,
    refusal: Refusal<Error>,
    errors: &mut Vec<Error>,
) -> Result<(), Refusal<Vec<Error>>>
    ensures kept { OnOk result (IsFaultAnd refusal (λ error. (¬ (error_kind error ≡ size_error))
        × (errors.new.items ≡ errors.old.items ++ error ∷ []))) }
    ensures alone { IfErr result (λ r. IfFault r (λ all. IsFaultAnd refusal
        (λ error. (error_kind error ≡ size_error) × (all.items ≡ error ∷ [])))) }
{
    match refusal {
        Refusal::Memory(e) => Err(Refusal::Memory(e)),
        Refusal::Fault(Error::SizeError { msg, span }) => {
            let mut alone = Vec::new(alloc);
            alone.push(Error::SizeError { msg, span })?;
            Err(Refusal::Fault(alone))
        }
        Refusal::Fault(error) => {
            errors.push(error)?;
            Ok(())
        }
    }
}

/// The flags of a declaration.
fn flags_of(decl: &Decl) -> TermFlags
    ensures { flags_shown result ≡ flags_in decl.now }
{
    TermFlags {
        pure: decl.pure,
        multi: decl.multi,
        partial: decl.partial,
        rec: decl.rec,
    }
}

/// The template of an internal extractor.
fn internal_extractor(alloc: Global, extractor: &Extractor) -> Result<ExtractorKind, AllocError>
    requires { has_macro_arg (pattern_of extractor.now.template) ≡ false }
    ensures made { (names : List (List ℕ)) → IfOk result (IsShownExtractor names
        (by_template (template_tree extractor.now.args (pattern_of extractor.now.template)))) }
    ensures needs { IfOk result (λ kind. needed_by_extractor (Some kind) ≤ usize.MAX) }
{
    let args = extractor.args.as_slice();
    Ok(ExtractorKind::InternalExtractor {
        template: extractor.template.make_macro_template(alloc, args)?,
    })
}

/// The type of a name.
fn known_type(tyenv: &TypeEnv, name: &Ident) -> Result<TypeId, Refusal<Error>>
    ensures ok { (types : Environment) → Shows tyenv.now types → IfOk result (λ ty. IsTypeNumber types name.now ty.0) }
    ensures err { (types : Environment) → Shows tyenv.now types → IfErr result (λ r. IfFault r (IsTypeFault (IsUnknownTypeAt types name.now))) }
{
    match tyenv.get_type_by_name(name) {
        Some(ty) => Ok(ty),
        None => Err(tyenv.unknown_type(name)),
    }
}

/// The types of names.
fn known_types(
    alloc: Global,
    tyenv: &TypeEnv,
    names: &[Ident],
) -> Result<Vec<TypeId>, Refusal<Error>>
    ensures ok { (types : Environment) → Shows tyenv.now types
        → IfOk result (λ made. AllZip (IsTypeNumber types) names.now (numbers_of made.items)) }
    ensures err { (types : Environment) → Shows tyenv.now types → IfErr result (λ r. IfFault r (IsTypeFault (IsOneUnknownAt types names.now))) }
{
    let mut made = Vec::new(alloc);
    for name in names {
        match known_type(tyenv, name) {
            Ok(ty) => made.push(ty)?,
            Err(refusal) => return Err(refusal),
        }
    }
    Ok(made)
}

/// The types of a declaration's arguments and of its value.
#[derive(Drop)]
struct DeclaredTypes {
    arguments: Vec<TypeId>,
    value: TypeId,
}

/// The types that a declaration names.
fn types_of(alloc: Global, tyenv: &TypeEnv, decl: &Decl) -> Result<DeclaredTypes, Refusal<Error>>
    ensures within { OnOk result (length decl.now.arg_tys ≤ 255) }
    ensures arguments { (types : Environment) → Shows tyenv.now types
        → IfOk result (λ made. AllZip (IsTypeNumber types) decl.now.arg_tys (numbers_of made.arguments.items)) }
    ensures value { (types : Environment) → Shows tyenv.now types → IfOk result (λ made. IsTypeNumber types decl.now.ret_ty made.value.0) }
    ensures fault { (types : Environment) → Shows tyenv.now types → IfErr result (λ r. IfFault r (IsDeclarationFault types decl.now)) }
{
    if decl.arg_tys.as_slice().len() > MAX_ARGUMENTS {
        return Err(tyenv.size_error(decl.pos, "a term has more than 255 arguments"));
    }
    let arguments = match known_types(alloc, tyenv, decl.arg_tys.as_slice()) {
        Ok(arguments) => arguments,
        Err(refusal) => return Err(refusal),
    };
    match known_type(tyenv, &decl.ret_ty) {
        Ok(value) => Ok(DeclaredTypes { arguments, value }),
        Err(refusal) => Err(refusal),
    }
}
