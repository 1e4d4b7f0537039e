//! Terms and what they are: variants, structs, and declared terms with flags, a constructor and an extractor.
ghost use Rattle.std.specs.Prelude.{◌≡◌};
ghost use Rattle.isle_rules.specs.Elaboration.{on_lhs};
ghost use Rattle.isle_rules.specs.Shown.ShownTerms.{flags_shown};
ghost use Rattle.isle_rules.specs.Terms.{is_variant_kind, is_struct_kind, is_partial_kind, is_recursive_kind};
ghost use Rattle.isle_rules.specs.Terms.{has_rules_kind, makes_kind, takes_apart_kind, has_host_constructor_kind, has_host_extractor_kind};

use isle_ast::Seq;
use isle_ast::ast::Pattern;
use isle_ast::pos::Pos;
use isle_types::{Sym, TermId, TypeId, VariantId};

/// A term: a declared one, or a variant of an enum by its full name.
#[derive(Clone, PartialEq, Eq, Drop)]
pub struct Term {
    pub id: TermId,
    pub decl_pos: Pos,
    pub name: Sym,
    pub arg_tys: Seq<TypeId>,
    pub ret_ty: TypeId,
    pub kind: TermKind,
}

/// The flags of a declaration.
#[derive(Debug, Clone, Copy, PartialEq, Eq)]
pub struct TermFlags {
    pub pure: bool,
    pub multi: bool,
    pub partial: bool,
    pub rec: bool,
}

impl TermFlags {
    /// The flags of what calls in an if-let of a term with these flags.
    pub fn on_lhs(self) -> TermFlags
        ensures { flags_shown result ≡ on_lhs (flags_shown self) }
    {
        TermFlags {
            pure: true,
            multi: self.multi,
            partial: true,
            rec: self.rec,
        }
    }
}

/// What a term is.
#[derive(Clone, PartialEq, Eq, Drop)]
pub enum TermKind {
    EnumVariant {
        variant: VariantId,
    },
    Struct,
    Decl {
        flags: TermFlags,
        constructor_kind: Option<ConstructorKind>,
        extractor_kind: Option<ExtractorKind>,
    },
}

/// How a declared term makes its value.
#[derive(Debug, Clone, Copy, PartialEq, Eq)]
pub enum ConstructorKind {
    /// By the rules of the program.
    InternalConstructor,
    /// By the host's function of this name.
    ExternalConstructor { name: Sym },
}

/// How a declared term takes a value apart.
#[derive(Clone, PartialEq, Eq, Drop)]
pub enum ExtractorKind {
    /// By a pattern, in which `MacroArg`s stand for the arguments of a use.
    InternalExtractor {
        template: Pattern,
    },
    /// By the host's function of this name; `pos` is where it is given.
    ExternalExtractor {
        name: Sym,
        infallible: bool,
        pos: Pos,
    },
}

impl Term {
    /// The type of the term's value.
    pub fn ty(&self) -> TypeId
        ensures { result ≡ self.now.ret_ty }
    {
        self.ret_ty
    }

    /// Whether the term is a variant of an enum.
    pub fn is_enum_variant(&self) -> bool
        ensures { result ≡ is_variant_kind self.now.kind }
    {
        match &self.kind {
            TermKind::EnumVariant { .. } => true,
            TermKind::Struct | TermKind::Decl { .. } => false,
        }
    }

    /// Whether the term is a struct.
    pub fn is_struct(&self) -> bool
        ensures { result ≡ is_struct_kind self.now.kind }
    {
        match &self.kind {
            TermKind::Struct => true,
            TermKind::EnumVariant { .. } | TermKind::Decl { .. } => false,
        }
    }

    /// Whether the term may answer nothing.
    pub fn is_partial(&self) -> bool
        ensures { result ≡ is_partial_kind self.now.kind }
    {
        match &self.kind {
            TermKind::EnumVariant { .. } | TermKind::Struct => false,
            TermKind::Decl { flags, .. } => flags.partial,
        }
    }

    /// Whether the term is declared with the flag `rec`.
    pub fn is_recursive(&self) -> bool
        ensures { result ≡ is_recursive_kind self.now.kind }
    {
        match &self.kind {
            TermKind::EnumVariant { .. } | TermKind::Struct => false,
            TermKind::Decl { flags, .. } => flags.rec,
        }
    }

    /// Whether the term can be used in an expression.
    pub fn has_constructor(&self) -> bool
        ensures { result ≡ makes_kind self.now.kind }
    {
        match &self.kind {
            TermKind::EnumVariant { .. } | TermKind::Struct => true,
            TermKind::Decl {
                constructor_kind,
                ..
            } => constructor_kind.is_some(),
        }
    }

    /// Whether the term can be used in a pattern.
    pub fn has_extractor(&self) -> bool
        ensures { result ≡ takes_apart_kind self.now.kind }
    {
        match &self.kind {
            TermKind::EnumVariant { .. } | TermKind::Struct => true,
            TermKind::Decl { extractor_kind, .. } => extractor_kind.is_some(),
        }
    }

    /// Whether the term has rules.
    pub fn has_internal_constructor(&self) -> bool
        ensures { result ≡ has_rules_kind self.now.kind }
    {
        match &self.kind {
            TermKind::EnumVariant { .. } | TermKind::Struct => false,
            TermKind::Decl {
                constructor_kind,
                ..
            } => *constructor_kind == Some(ConstructorKind::InternalConstructor),
        }
    }

    /// Whether the term has an extractor of the host.
    pub fn has_external_extractor(&self) -> bool
        ensures { result ≡ has_host_extractor_kind self.now.kind }
    {
        match &self.kind {
            TermKind::EnumVariant { .. } | TermKind::Struct => false,
            TermKind::Decl { extractor_kind, .. } => match extractor_kind {
                Some(ExtractorKind::ExternalExtractor { .. }) => true,
                Some(ExtractorKind::InternalExtractor { .. }) | None => false,
            },
        }
    }

    /// Whether the term has a constructor of the host.
    pub fn has_external_constructor(&self) -> bool
        ensures { result ≡ has_host_constructor_kind self.now.kind }
    {
        match &self.kind {
            TermKind::EnumVariant { .. } | TermKind::Struct => false,
            TermKind::Decl {
                constructor_kind,
                ..
            } => match constructor_kind {
                Some(ConstructorKind::ExternalConstructor { .. }) => true,
                Some(ConstructorKind::InternalConstructor) | None => false,
            },
        }
    }
}
