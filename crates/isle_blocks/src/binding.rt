//! Sites, which are values that rules test or make: their kinds, parts, terms and hashes.
ghost use Rattle.std.specs.Prelude.{◌≡◌};
ghost use Rattle.isle_blocks.specs.Bindings.{MakesKnownVariant, term_of};
ghost use Rattle.isle_blocks.specs.Tables.{sources_of};

use crate::ids::{BindingId, TupleIndex};
use isle_ast::Seq;
use isle_rules::TermEnv;
use isle_types::{Sym, TermId, TypeEnv, TypeId, VariantId};
use std::hash::{Hash, Hasher};
use std::slice;

/// A site: a value that a rule tests or makes. Its parts are sites of the same rule set, by their numbers.
#[derive(Debug, Clone, PartialEq, Eq, PartialOrd, Ord, Drop)]
pub enum Binding {
    /// A truth value.
    ConstBool {
        val: bool,
        ty: TypeId,
    },
    /// An integer literal.
    ConstInt {
        val: i128,
        ty: TypeId,
    },
    /// A constant of the host.
    ConstPrim {
        val: Sym,
    },
    /// An argument of the rules' term, by its place.
    Argument {
        index: TupleIndex,
    },
    /// What an external extractor gives of a value.
    Extractor {
        term: TermId,
        parameter: BindingId,
    },
    /// A call of a constructor. `instance` is 0 for a pure call, and counts a rule's impure calls from 1.
    Constructor {
        term: TermId,
        parameters: Seq<BindingId>,
        instance: u32,
    },
    /// One value of a call that may answer any number.
    Iterator {
        source: BindingId,
    },
    /// A variant that is made of its fields.
    MakeVariant {
        ty: TypeId,
        variant: VariantId,
        fields: Seq<BindingId>,
    },
    /// A field of a value that is such a variant.
    MatchVariant {
        source: BindingId,
        variant: VariantId,
        field: TupleIndex,
    },
    /// A struct that is made of its fields.
    MakeStruct {
        ty: TypeId,
        fields: Seq<BindingId>,
    },
    /// A field of a struct.
    ExtractStruct {
        source: BindingId,
        field: TupleIndex,
    },
    /// An option with something in it.
    MakeSome {
        inner: BindingId,
    },
    /// What is in an option.
    MatchSome {
        source: BindingId,
    },
    /// An output of a tuple.
    MatchTuple {
        source: BindingId,
        field: TupleIndex,
    },
}

impl Binding {
    /// Its parts, in order.
    pub fn sources(&self) -> &[BindingId]
        ensures { result.now ≡ sources_of self.now }
    {
        match self {
            Binding::ConstBool { .. } => &[],
            Binding::ConstInt { .. } => &[],
            Binding::ConstPrim { .. } => &[],
            Binding::Argument { .. } => &[],
            Binding::Extractor { parameter, .. } => slice::from_ref(parameter),
            Binding::Constructor { parameters, .. } => parameters.as_slice(),
            Binding::Iterator { source } => slice::from_ref(source),
            Binding::MakeVariant { fields, .. } => fields.as_slice(),
            Binding::MatchVariant { source, .. } => slice::from_ref(source),
            Binding::MakeStruct { fields, .. } => fields.as_slice(),
            Binding::ExtractStruct { source, .. } => slice::from_ref(source),
            Binding::MakeSome { inner } => slice::from_ref(inner),
            Binding::MatchSome { source } => slice::from_ref(source),
            Binding::MatchTuple { source, .. } => slice::from_ref(source),
        }
    }

    /// The term that is called, or the term of the variant that is made; that variant is one of its type.
    pub fn term(&self, tyenv: &TypeEnv, termenv: &TermEnv) -> Option<TermId>
        requires { MakesKnownVariant tyenv.now termenv.now self.now }
        ensures { result ≡ term_of tyenv.now termenv.now self.now }
    {
        match self {
            Binding::ConstBool { .. } => None,
            Binding::ConstInt { .. } => None,
            Binding::ConstPrim { .. } => None,
            Binding::Argument { .. } => None,
            Binding::Extractor { term, .. } => Some(*term),
            Binding::Constructor { term, .. } => Some(*term),
            Binding::Iterator { .. } => None,
            Binding::MakeVariant { ty, variant, .. } => {
                Some(termenv.get_variant_term(tyenv, *ty, *variant))
            }
            Binding::MatchVariant { .. } => None,
            Binding::MakeStruct { .. } => None,
            Binding::ExtractStruct { .. } => None,
            Binding::MakeSome { .. } => None,
            Binding::MatchSome { .. } => None,
            Binding::MatchTuple { .. } => None,
        }
    }
}

/// Its kind, then its fields in order.
impl Hash for Binding {
    ghost use Rattle.isle_blocks.specs.Hashes.{binding_hash};
    ghost use Rattle.isle_blocks.specs.EqualSites.{same_sites-alike};

    ghost hash_input = { binding_hash };

    ghost respects_eq = { same_sites-alike };

    fn hash<H: Hasher>(&self, state: &mut H) {
        match self {
            Binding::ConstBool { val, ty } => (0isize, *val, *ty).hash(state),
            Binding::ConstInt { val, ty } => (1isize, *val, *ty).hash(state),
            Binding::ConstPrim { val } => (2isize, *val).hash(state),
            Binding::Argument { index } => (3isize, *index).hash(state),
            Binding::Extractor { term, parameter } => (4isize, *term, *parameter).hash(state),
            Binding::Constructor {
                term,
                parameters,
                instance,
            } => (5isize, *term, parameters.as_slice(), *instance).hash(state),
            Binding::Iterator { source } => (6isize, *source).hash(state),
            Binding::MakeVariant {
                ty,
                variant,
                fields,
            } => (7isize, *ty, *variant, fields.as_slice()).hash(state),
            Binding::MatchVariant {
                source,
                variant,
                field,
            } => (8isize, *source, *variant, *field).hash(state),
            Binding::MakeStruct { ty, fields } => (9isize, *ty, fields.as_slice()).hash(state),
            Binding::ExtractStruct { source, field } => (10isize, *source, *field).hash(state),
            Binding::MakeSome { inner } => (11isize, *inner).hash(state),
            Binding::MatchSome { source } => (12isize, *source).hash(state),
            Binding::MatchTuple { source, field } => (13isize, *source, *field).hash(state),
        }
    }
}
