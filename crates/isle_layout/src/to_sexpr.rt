//! S-expressions made of trees, unless a numbered argument of a template stands in them.
ghost use Rattle.std.specs.Prelude.{◌≡◌, Bool, Some, codes, true, false, IfOk, IfErr};
ghost use Rattle.isle_layout.specs.SExprTree.{SExprTree};
ghost use Rattle.isle_layout.specs.SExprShape.{sexpr_of};
ghost use Rattle.isle_layout.specs.DefSpellings.{OnFault};

mod exprs;
mod items;
mod list;
mod numbers;
mod patterns;
mod rules;
mod terms;
mod types;

use crate::sexpr::SExpr;
use crate::to_sexpr::exprs::{spell_expr, spell_let_def};
use crate::to_sexpr::items::spell_item;
use crate::to_sexpr::list::{ListBuilder, name};
use crate::to_sexpr::patterns::spell_pattern;
use crate::to_sexpr::rules::spell_iflet;
use crate::to_sexpr::types::{
    spell_fields, spell_struct_field, spell_struct_fields, spell_tuple_fields, spell_type_value,
    spell_variant,
};
use isle_syntax::Refusal;
use isle_syntax::ast::{
    Converter, Decl, Def, Expr, Extern, Extractor, Fields, Ident, IfLet, Kept, KeptItem, LetDef,
    Pattern, Pragma, Rule, StructField, StructFields, TupleField, TupleFields, Type, TypeValue,
    Variant,
};
use std::alloc::Global;
use std::fmt;

/// A `MacroArg` occurs in what is to be printed.
#[derive(Debug, Clone, Copy, PartialEq, Eq, Drop)]
pub struct HasMacroArg;

impl fmt::Display for HasMacroArg {
    ghost output = { λ _. Some (codes "a numbered argument of a template can't be printed") };

    fn fmt<W: fmt::Write>(&self, f: &mut fmt::Formatter<W>) -> fmt::Result {
        f.write_str("a numbered argument of a template can't be printed")
    }
}

/// What prints as an S-expression. A `MacroArg` has no spelling and is refused.
pub trait ToSExpr {
    /// The S-expression.
    ghost sexpr: { Self → SExprTree };

    /// Whether a `MacroArg` occurs in it.
    ghost macro_arg: { Self → Bool };

    /// The S-expression.
    fn to_sexpr(&self, alloc: Global) -> Result<SExpr, Refusal<HasMacroArg>>
        ensures spelt { IfOk result (λ answer. sexpr_of answer ≡ sexpr self.now) }
        ensures no_macro_arg { IfOk result (λ _. macro_arg self.now ≡ false) }
        ensures fault { IfErr result (λ refusal. OnFault refusal (macro_arg self.now ≡ true)) };
}

impl ToSExpr for Def {
    ghost use Rattle.isle_layout.specs.DefSpellings.{def_sexpr, def_has_macro_arg};

    ghost sexpr = { def_sexpr };

    ghost macro_arg = { def_has_macro_arg };

    fn to_sexpr(&self, alloc: Global) -> Result<SExpr, Refusal<HasMacroArg>> {
        match self {
            Def::TypeDef(ty) => ty.to_sexpr(alloc),
            Def::Decl(decl) => decl.to_sexpr(alloc),
            Def::Rule(rule) => rule.to_sexpr(alloc),
            Def::Extractor(extractor) => extractor.to_sexpr(alloc),
            Def::Extern(external) => external.to_sexpr(alloc),
            Def::Converter(converter) => converter.to_sexpr(alloc),
            Def::Pragma(pragma) => pragma.to_sexpr(alloc),
            Def::Kept(kept) => kept.to_sexpr(alloc),
        }
    }
}

impl ToSExpr for Ident {
    ghost use Rattle.isle_layout.specs.Spellings.{name_sexpr};

    ghost sexpr = { name_sexpr };

    ghost macro_arg = { λ _. false };

    fn to_sexpr(&self, alloc: Global) -> Result<SExpr, Refusal<HasMacroArg>> {
        Ok(name(alloc, self)?)
    }
}

impl ToSExpr for TypeValue {
    ghost use Rattle.isle_layout.specs.DefSpellings.{type_value_sexpr};

    ghost sexpr = { type_value_sexpr };

    ghost macro_arg = { λ _. false };

    fn to_sexpr(&self, alloc: Global) -> Result<SExpr, Refusal<HasMacroArg>> {
        Ok(spell_type_value(alloc, self)?)
    }
}

impl ToSExpr for Variant {
    ghost use Rattle.isle_layout.specs.DefSpellings.{variant_sexpr};

    ghost sexpr = { variant_sexpr };

    ghost macro_arg = { λ _. false };

    fn to_sexpr(&self, alloc: Global) -> Result<SExpr, Refusal<HasMacroArg>> {
        Ok(spell_variant(alloc, self)?)
    }
}

/// The list of the fields, empty where there are none.
impl ToSExpr for Fields {
    ghost use Rattle.isle_layout.specs.DefSpellings.{fields_sexpr};

    ghost sexpr = { fields_sexpr };

    ghost macro_arg = { λ _. false };

    fn to_sexpr(&self, alloc: Global) -> Result<SExpr, Refusal<HasMacroArg>> {
        Ok(spell_fields(alloc, self)?)
    }
}

impl ToSExpr for StructFields {
    ghost use Rattle.isle_layout.specs.DefSpellings.{struct_fields_sexpr};

    ghost sexpr = { struct_fields_sexpr };

    ghost macro_arg = { λ _. false };

    fn to_sexpr(&self, alloc: Global) -> Result<SExpr, Refusal<HasMacroArg>> {
        Ok(spell_struct_fields(alloc, self)?)
    }
}

impl ToSExpr for TupleFields {
    ghost use Rattle.isle_layout.specs.DefSpellings.{tuple_fields_sexpr};

    ghost sexpr = { tuple_fields_sexpr };

    ghost macro_arg = { λ _. false };

    fn to_sexpr(&self, alloc: Global) -> Result<SExpr, Refusal<HasMacroArg>> {
        Ok(spell_tuple_fields(alloc, self)?)
    }
}

impl ToSExpr for StructField {
    ghost use Rattle.isle_layout.specs.DefSpellings.{struct_field_sexpr};

    ghost sexpr = { struct_field_sexpr };

    ghost macro_arg = { λ _. false };

    fn to_sexpr(&self, alloc: Global) -> Result<SExpr, Refusal<HasMacroArg>> {
        Ok(spell_struct_field(alloc, self)?)
    }
}

impl ToSExpr for TupleField {
    ghost use Rattle.isle_layout.specs.DefSpellings.{tuple_field_sexpr};

    ghost sexpr = { tuple_field_sexpr };

    ghost macro_arg = { λ _. false };

    fn to_sexpr(&self, alloc: Global) -> Result<SExpr, Refusal<HasMacroArg>> {
        Ok(name(alloc, &self.ty)?)
    }
}

impl ToSExpr for IfLet {
    ghost use Rattle.isle_layout.specs.DefSpellings.{iflet_sexpr, iflet_has_macro_arg};

    ghost sexpr = { iflet_sexpr };

    ghost macro_arg = { iflet_has_macro_arg };

    fn to_sexpr(&self, alloc: Global) -> Result<SExpr, Refusal<HasMacroArg>> {
        if self.pattern.has_macro_arg() {
            return Err(Refusal::Fault(HasMacroArg));
        }
        Ok(spell_iflet(alloc, self)?)
    }
}

/// `(pragma)`. There is none.
impl ToSExpr for Pragma {
    ghost use Rattle.isle_layout.specs.DefSpellings.{pragma_sexpr};

    ghost sexpr = { pragma_sexpr };

    ghost macro_arg = { λ _. false };

    fn to_sexpr(&self, alloc: Global) -> Result<SExpr, Refusal<HasMacroArg>> {
        Ok(ListBuilder::new(alloc).word("pragma")?.build())
    }
}

impl ToSExpr for KeptItem {
    ghost use Rattle.isle_ast.specs.Trees.ItemShape.{item_of};
    ghost use Rattle.isle_layout.specs.Spellings.{item_sexpr};

    ghost sexpr = { λ item. item_sexpr (item_of item) };

    ghost macro_arg = { λ _. false };

    fn to_sexpr(&self, alloc: Global) -> Result<SExpr, Refusal<HasMacroArg>> {
        Ok(spell_item(alloc, self)?)
    }
}

impl ToSExpr for Pattern {
    ghost use Rattle.isle_ast.specs.Trees.PatternShape.{pattern_of};
    ghost use Rattle.isle_ast.specs.Trees.TreeCalls.{has_macro_arg};
    ghost use Rattle.isle_layout.specs.Spellings.{pattern_sexpr};

    ghost sexpr = { λ pattern. pattern_sexpr (pattern_of pattern) };

    ghost macro_arg = { λ pattern. has_macro_arg (pattern_of pattern) };

    fn to_sexpr(&self, alloc: Global) -> Result<SExpr, Refusal<HasMacroArg>> {
        if self.has_macro_arg() {
            return Err(Refusal::Fault(HasMacroArg));
        }
        Ok(spell_pattern(alloc, self)?)
    }
}

impl ToSExpr for Expr {
    ghost use Rattle.isle_ast.specs.Trees.ExprShape.{expr_of};
    ghost use Rattle.isle_layout.specs.Spellings.{expr_sexpr};

    ghost sexpr = { λ expr. expr_sexpr (expr_of expr) };

    ghost macro_arg = { λ _. false };

    fn to_sexpr(&self, alloc: Global) -> Result<SExpr, Refusal<HasMacroArg>> {
        Ok(spell_expr(alloc, self)?)
    }
}

impl ToSExpr for LetDef {
    ghost use Rattle.isle_layout.specs.Spellings.{let_def_sexpr};

    ghost sexpr = { let_def_sexpr };

    ghost macro_arg = { λ _. false };

    fn to_sexpr(&self, alloc: Global) -> Result<SExpr, Refusal<HasMacroArg>> {
        Ok(spell_let_def(alloc, self)?)
    }
}
