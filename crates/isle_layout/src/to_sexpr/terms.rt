//! S-expressions of declarations, of internal extractors, of what the host provides, and of converters.
ghost use Rattle.std.specs.Prelude.{◌≡◌, ◌++◌, ◌∷◌, [], false, codes, map, IfOk};
ghost use Rattle.isle_layout.specs.SExprTree.{sexpr_atom};
ghost use Rattle.isle_layout.specs.SExprShape.{sexpr_of};
ghost use Rattle.isle_layout.specs.Spellings.{listed, name_sexpr, constant_sexpr};
ghost use Rattle.isle_layout.specs.DefSpellings.{flag, decl_flags, decl_sexpr, extractor_sexpr, extractor_has_macro_arg, extern_sexpr, converter_sexpr};

use crate::sexpr::SExpr;
use crate::to_sexpr::list::{ListBuilder, constant};
use crate::to_sexpr::patterns::add_pattern;
use crate::to_sexpr::{HasMacroArg, ToSExpr};
use isle_syntax::Refusal;
use isle_syntax::ast::{Converter, Decl, Extern, Extractor, Ident};
use std::alloc::{AllocError, Global};

/// A term's declaration.
impl ToSExpr for Decl {
    ghost sexpr = { decl_sexpr };

    ghost macro_arg = { λ _. false };

    fn to_sexpr(&self, alloc: Global) -> Result<SExpr, Refusal<HasMacroArg>> {
        let list = add_flags(ListBuilder::new(alloc).word("decl")?, self)?;
        let list = add_names_list(alloc, list.name(&self.term)?, self.arg_tys.as_slice())?;
        Ok(list.name(&self.ret_ty)?.build())
    }
}

/// A list with the flags of a declaration more.
fn add_flags(list: ListBuilder, decl: &Decl) -> Result<ListBuilder, AllocError>
    ensures { IfOk result (λ longer. longer ≡ list ++ decl_flags decl.now) }
{
    let list = list.flag("pure", decl.pure)?.flag("multi", decl.multi)?;
    list.flag("partial", decl.partial)?.flag("rec", decl.rec)
}

/// A list with one of names as an item more.
fn add_names_list(
    alloc: Global,
    list: ListBuilder,
    names: &[Ident],
) -> Result<ListBuilder, AllocError>
    ensures { IfOk result (λ longer. longer ≡ list ++ listed (map name_sexpr names.now) ∷ []) }
{
    let inner = ListBuilder::new(alloc).names(names)?;
    list.item(inner.build())
}

/// An internal extractor.
impl ToSExpr for Extractor {
    ghost sexpr = { extractor_sexpr };

    ghost macro_arg = { extractor_has_macro_arg };

    fn to_sexpr(&self, alloc: Global) -> Result<SExpr, Refusal<HasMacroArg>> {
        if self.template.has_macro_arg() {
            return Err(Refusal::Fault(HasMacroArg));
        }
        Ok(spell_extractor(alloc, self)?)
    }
}

/// An internal extractor; a `MacroArg` of its template becomes an atom without text.
fn spell_extractor(alloc: Global, extractor: &Extractor) -> Result<SExpr, AllocError>
    ensures { IfOk result (λ sexpr. sexpr_of sexpr ≡ extractor_sexpr extractor.now) }
{
    let list = ListBuilder::new(alloc).word("extractor")?;
    let list = list.item(spell_call(alloc, &extractor.term, extractor.args.as_slice())?)?;
    Ok(add_pattern(alloc, list, &extractor.template)?.build())
}

/// The list of a term and names.
fn spell_call(alloc: Global, term: &Ident, args: &[Ident]) -> Result<SExpr, AllocError>
    ensures { IfOk result (λ sexpr. sexpr_of sexpr ≡ listed (name_sexpr term.now ∷ map name_sexpr args.now)) }
{
    Ok(ListBuilder::new(alloc).name(term)?.names(args)?.build())
}

/// What the host provides.
impl ToSExpr for Extern {
    ghost sexpr = { extern_sexpr };

    ghost macro_arg = { λ _. false };

    fn to_sexpr(&self, alloc: Global) -> Result<SExpr, Refusal<HasMacroArg>> {
        match self {
            Extern::Constructor { term, func, .. } => Ok(spell_constructor(alloc, term, func)?),
            Extern::Extractor {
                term,
                func,
                infallible,
                ..
            } => Ok(spell_host_extractor(alloc, term, func, *infallible)?),
            Extern::Const { name, ty, .. } => Ok(spell_const(alloc, name, ty)?),
        }
    }
}

/// A constructor that the host provides.
fn spell_constructor(alloc: Global, term: &Ident, func: &Ident) -> Result<SExpr, AllocError>
    ensures { IfOk result (λ sexpr. sexpr_of sexpr
        ≡ listed (sexpr_atom (codes "extern") ∷ sexpr_atom (codes "constructor") ∷ name_sexpr term.now ∷ name_sexpr func.now ∷ [])) }
{
    let list = ListBuilder::new(alloc).word("extern")?.word("constructor")?;
    Ok(list.name(term)?.name(func)?.build())
}

/// An extractor that the host provides.
fn spell_host_extractor(
    alloc: Global,
    term: &Ident,
    func: &Ident,
    infallible: bool,
) -> Result<SExpr, AllocError>
    ensures { IfOk result (λ sexpr. sexpr_of sexpr
        ≡ listed (sexpr_atom (codes "extern") ∷ sexpr_atom (codes "extractor")
        ∷ (flag (codes "infallible") infallible ++ (name_sexpr term.now ∷ name_sexpr func.now ∷ [])))) }
{
    let list = ListBuilder::new(alloc).word("extern")?.word("extractor")?;
    let list = list.flag("infallible", infallible)?;
    Ok(list.name(term)?.name(func)?.build())
}

/// A constant that the host provides.
fn spell_const(alloc: Global, name: &Ident, ty: &Ident) -> Result<SExpr, AllocError>
    ensures { IfOk result (λ sexpr. sexpr_of sexpr
        ≡ listed (sexpr_atom (codes "extern") ∷ sexpr_atom (codes "const") ∷ constant_sexpr name.now ∷ name_sexpr ty.now ∷ [])) }
{
    let list = ListBuilder::new(alloc).word("extern")?.word("const")?;
    Ok(list.item(constant(alloc, name)?)?.name(ty)?.build())
}

/// A converter.
impl ToSExpr for Converter {
    ghost sexpr = { converter_sexpr };

    ghost macro_arg = { λ _. false };

    fn to_sexpr(&self, alloc: Global) -> Result<SExpr, Refusal<HasMacroArg>> {
        let list = ListBuilder::new(alloc)
            .word("convert")?
            .name(&self.inner_ty)?;
        Ok(list.name(&self.outer_ty)?.name(&self.term)?.build())
    }
}
