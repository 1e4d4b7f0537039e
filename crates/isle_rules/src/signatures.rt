//! Functions that stand for the constructors and extractors of terms: names, types, and how many answers they give.
ghost use Rattle.std.specs.Prelude.{◌≡◌, ◌++◌, ◌∷◌, [], IfOk, not};
ghost use Rattle.isle_rules.specs.ExternalSigs.{text_of, own_names, host_names, extractor_names, constructor_names};
ghost use Rattle.isle_rules.specs.ExternalSigs.{is_infallible, returns, extractor_sig_of, constructor_sig_of};

use crate::terms::{ConstructorKind, ExtractorKind, Term, TermKind};
use isle_ast::{Seq, Text};
use isle_types::{Sym, TypeEnv, TypeId};
use std::alloc::{AllocError, Global};

/// How many answers a function gives.
#[derive(Debug, Clone, Copy, PartialEq, Eq)]
pub enum ReturnKind {
    /// One.
    Plain,
    /// One at most.
    Option,
    /// Any number.
    Iterator,
}

/// A function that stands for a term.
#[derive(Debug, Clone, Drop)]
pub struct ExternalSig {
    pub func_name: Text,
    /// The name with that of the host's trait.
    pub full_name: Text,
    pub param_tys: Seq<TypeId>,
    pub ret_tys: Seq<TypeId>,
    pub ret_kind: ReturnKind,
}

/// A function's name, and its name in the host's trait.
#[derive(Drop)]
struct Names {
    func: Text,
    full: Text,
}

/// A name after a prefix.
fn prefixed(alloc: Global, prefix: &str, name: &str) -> Result<Text, AllocError>
    ensures { IfOk result (λ text. text ≡ prefix.now ++ name.now) }
{
    let mut text = String::from_str(alloc, prefix)?;
    text.push_str(name)?;
    Ok(Text::new(text))
}

fn own(alloc: Global, prefix: &str, name: &str) -> Result<Names, AllocError>
    ensures func { IfOk result (λ names. names.func ≡ (own_names prefix.now name.now).func) }
    ensures full { IfOk result (λ names. names.full ≡ (own_names prefix.now name.now).full) }
{
    Ok(Names {
        func: prefixed(alloc, prefix, name)?,
        full: prefixed(alloc, prefix, name)?,
    })
}

fn host(alloc: Global, name: &str) -> Result<Names, AllocError>
    ensures func { IfOk result (λ names. names.func ≡ (host_names name.now).func) }
    ensures full { IfOk result (λ names. names.full ≡ (host_names name.now).full) }
{
    Ok(Names {
        func: prefixed(alloc, "", name)?,
        full: prefixed(alloc, "C::", name)?,
    })
}

/// The types in a list of their own.
fn copied(alloc: Global, types: &[TypeId]) -> Result<Seq<TypeId>, AllocError>
    ensures { IfOk result (λ copy. copy ≡ types.now) }
{
    let mut copy = Vec::new(alloc);
    copy.extend_from_slice(types)?;
    Ok(Seq::new(copy))
}

/// One type.
fn single(alloc: Global, ty: TypeId) -> Result<Seq<TypeId>, AllocError>
    ensures { IfOk result (λ list. list ≡ ty ∷ []) }
{
    let mut list = Vec::new(alloc);
    list.push(ty)?;
    Ok(Seq::new(list))
}

fn return_kind(multi: bool, fails: bool) -> ReturnKind
    ensures { result ≡ returns multi fails }
{
    if multi {
        return ReturnKind::Iterator;
    }
    if fails {
        ReturnKind::Option
    } else {
        ReturnKind::Plain
    }
}

impl ExtractorKind {
    fn names(&self, alloc: Global, tyenv: &TypeEnv, term: Sym) -> Result<Names, AllocError>
        ensures func { IfOk result (λ names. names.func ≡ (extractor_names tyenv.now term self.now).func) }
        ensures full { IfOk result (λ names. names.full ≡ (extractor_names tyenv.now term self.now).full) }
    {
        match self {
            ExtractorKind::InternalExtractor { .. } => own(
                alloc,
                "extractor_",
                tyenv.sym_name(term),
            ),
            ExtractorKind::ExternalExtractor { name, .. } => host(alloc, tyenv.sym_name(*name)),
        }
    }

    fn fails(&self) -> bool
        ensures { result ≡ not (is_infallible self.now) }
    {
        match self {
            ExtractorKind::InternalExtractor { .. } => true,
            ExtractorKind::ExternalExtractor { infallible, .. } => !*infallible,
        }
    }
}

impl ConstructorKind {
    fn names(&self, alloc: Global, tyenv: &TypeEnv, term: Sym) -> Result<Names, AllocError>
        ensures func { IfOk result (λ names. names.func ≡ (constructor_names tyenv.now term self.now).func) }
        ensures full { IfOk result (λ names. names.full ≡ (constructor_names tyenv.now term self.now).full) }
    {
        match self {
            ConstructorKind::InternalConstructor => own(
                alloc,
                "constructor_",
                tyenv.sym_name(term),
            ),
            ConstructorKind::ExternalConstructor { name } => host(alloc, tyenv.sym_name(*name)),
        }
    }
}

impl Term {
    /// The function of the term's extractor, if it has one.
    pub fn extractor_sig(
        &self,
        alloc: Global,
        tyenv: &TypeEnv,
    ) -> Result<Option<ExternalSig>, AllocError>
        ensures { IfOk result (λ sig. sig ≡ extractor_sig_of tyenv.now self.now self.now.kind) }
    {
        let TermKind::Decl {
            flags,
            extractor_kind: Some(kind),
            ..
        } = &self.kind
        else {
            return Ok(None);
        };
        let names = kind.names(alloc, tyenv, self.name)?;
        Ok(Some(ExternalSig {
            func_name: names.func,
            full_name: names.full,
            param_tys: single(alloc, self.ret_ty)?,
            ret_tys: copied(alloc, self.arg_tys.as_slice())?,
            ret_kind: return_kind(flags.multi, kind.fails()),
        }))
    }

    /// The function of the term's constructor, if it has one.
    pub fn constructor_sig(
        &self,
        alloc: Global,
        tyenv: &TypeEnv,
    ) -> Result<Option<ExternalSig>, AllocError>
        ensures { IfOk result (λ sig. sig ≡ constructor_sig_of tyenv.now self.now self.now.kind) }
    {
        let TermKind::Decl {
            flags,
            constructor_kind: Some(kind),
            ..
        } = &self.kind
        else {
            return Ok(None);
        };
        let names = kind.names(alloc, tyenv, self.name)?;
        Ok(Some(ExternalSig {
            func_name: names.func,
            full_name: names.full,
            param_tys: copied(alloc, self.arg_tys.as_slice())?,
            ret_tys: single(alloc, self.ret_ty)?,
            ret_kind: return_kind(flags.multi, flags.partial),
        }))
    }
}
