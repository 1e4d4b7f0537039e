//! Laws of texts, positions, names and trees, each as a function whose contract states it.
ghost use Rattle.std.specs.Prelude.{◌≡◌, ⊤, false, List};
ghost use Rattle.std.specs.Ordering.{nat_cmp};
ghost use Rattle.std.specs.Cmp.Lexicographic.{slice_cmp};
ghost use Rattle.std.specs.Hash.{str as text_hash};
ghost use Rattle.isle_ast.specs.declared.ast.Ident.{Ident as Name};
ghost use Rattle.isle_ast.specs.Trees.PatternTree.{PatternTree};
ghost use Rattle.isle_ast.specs.Trees.PatternShape.{pattern_of};
ghost use Rattle.isle_ast.specs.Trees.ExprShape.{expr_of};
ghost use Rattle.isle_ast.specs.Trees.ItemShape.{item_of};
ghost use Rattle.isle_ast.specs.Trees.TreeCalls.{has_macro_arg};
ghost use Rattle.isle_ast.specs.Trees.Substitution.{Substitutes};
ghost use Rattle.isle_ast.specs.Positions.Orders.{pos_cmp, ident_cmp};
ghost use Rattle.isle_ast.specs.Trees.Comparisons.{AreOrdered, HashesApart, IsInRange, DecidesSame, DecidesSameTree, pos_hash, ident_hash};

use crate::ast::{
    BoxedExpr, BoxedPattern, Converter, Decl, Def, Expr, Exprs, Extern, Extractor, Fields, Ident,
    IfLet, Kept, KeptItem, KeptItems, LetDef, LetDefs, Pattern, Patterns, Rule, StructField,
    StructFields, TupleField, TupleFields, Type, TypeValue, Variant,
};
use crate::pos::Pos;
use crate::text::Text;
use std::hash::Hash;

/// Texts are compared and hashed as their bytes, different ones differently.
pub fn texts_are_ordered()
    ensures ordered { AreOrdered (slice_cmp nat_cmp) text_hash
        ⟦<Text as PartialEq>⟧.eq ⟦<Text as PartialOrd>⟧.partial_cmp ⟦<Text as Ord>⟧.cmp ⟦<Text as Hash>⟧.hash_input }
    ensures apart { HashesApart (λ text. ⊤) ⟦<Text as Hash>⟧.hash_input }
{}

/// Positions are compared by file, then by offset, and different ones are hashed differently.
pub fn positions_are_ordered()
    ensures ordered { AreOrdered pos_cmp pos_hash
        ⟦<Pos as PartialEq>⟧.eq ⟦<Pos as PartialOrd>⟧.partial_cmp ⟦<Pos as Ord>⟧.cmp ⟦<Pos as Hash>⟧.hash_input }
    ensures apart { HashesApart IsInRange ⟦<Pos as Hash>⟧.hash_input }
{}

/// Names are compared by the bytes of their text, then by their position, and different ones are hashed differently.
pub fn identifiers_are_ordered()
    ensures ordered { AreOrdered ident_cmp ident_hash
        ⟦<Ident as PartialEq>⟧.eq ⟦<Ident as PartialOrd>⟧.partial_cmp ⟦<Ident as Ord>⟧.cmp ⟦<Ident as Hash>⟧.hash_input }
    ensures apart { HashesApart (λ name. IsInRange name.1) ⟦<Ident as Hash>⟧.hash_input }
{}

/// Definitions are equal exactly where they are the same.
pub fn equal_definitions_are_the_same()
    ensures { DecidesSame ⟦<Def as PartialEq>⟧.eq }
{}

/// Types and what they are made of are equal exactly where they are the same.
pub fn equal_types_are_the_same()
    ensures types { DecidesSame ⟦<Type as PartialEq>⟧.eq }
    ensures values { DecidesSame ⟦<TypeValue as PartialEq>⟧.eq }
    ensures variants { DecidesSame ⟦<Variant as PartialEq>⟧.eq }
    ensures fields { DecidesSame ⟦<Fields as PartialEq>⟧.eq }
    ensures struct_fields { DecidesSame ⟦<StructFields as PartialEq>⟧.eq }
    ensures struct_field { DecidesSame ⟦<StructField as PartialEq>⟧.eq }
    ensures tuple_fields { DecidesSame ⟦<TupleFields as PartialEq>⟧.eq }
    ensures tuple_field { DecidesSame ⟦<TupleField as PartialEq>⟧.eq }
{}

/// Declarations, rules, conditions, extractors, externs, converters and kept definitions are equal exactly where they
/// are the same.
pub fn equal_parts_are_the_same()
    ensures decls { DecidesSame ⟦<Decl as PartialEq>⟧.eq }
    ensures rules { DecidesSame ⟦<Rule as PartialEq>⟧.eq }
    ensures if_lets { DecidesSame ⟦<IfLet as PartialEq>⟧.eq }
    ensures extractors { DecidesSame ⟦<Extractor as PartialEq>⟧.eq }
    ensures externs { DecidesSame ⟦<Extern as PartialEq>⟧.eq }
    ensures converters { DecidesSame ⟦<Converter as PartialEq>⟧.eq }
    ensures kept { DecidesSame ⟦<Kept as PartialEq>⟧.eq }
{}

/// Patterns are equal exactly where they are the same, and so are their trees.
pub fn equal_patterns_are_the_same()
    ensures patterns { DecidesSame ⟦<Pattern as PartialEq>⟧.eq }
    ensures trees { DecidesSameTree pattern_of ⟦<Pattern as PartialEq>⟧.eq }
    ensures boxed { DecidesSame ⟦<BoxedPattern as PartialEq>⟧.eq }
    ensures lists { DecidesSame ⟦<Patterns as PartialEq>⟧.eq }
{}

/// Expressions and variables of a `let` are equal exactly where they are the same, and so are their trees.
pub fn equal_expressions_are_the_same()
    ensures expressions { DecidesSame ⟦<Expr as PartialEq>⟧.eq }
    ensures trees { DecidesSameTree expr_of ⟦<Expr as PartialEq>⟧.eq }
    ensures boxed { DecidesSame ⟦<BoxedExpr as PartialEq>⟧.eq }
    ensures lists { DecidesSame ⟦<Exprs as PartialEq>⟧.eq }
    ensures lets { DecidesSame ⟦<LetDef as PartialEq>⟧.eq }
    ensures let_lists { DecidesSame ⟦<LetDefs as PartialEq>⟧.eq }
{}

/// Kept items are equal exactly where they are the same, and so are their trees.
pub fn equal_items_are_the_same()
    ensures items { DecidesSame ⟦<KeptItem as PartialEq>⟧.eq }
    ensures trees { DecidesSameTree item_of ⟦<KeptItem as PartialEq>⟧.eq }
    ensures lists { DecidesSame ⟦<KeptItems as PartialEq>⟧.eq }
{}

/// The template of a pattern for names, filled with patterns, is the pattern with the patterns put in for the names, all
/// at once. There is none exactly where a listed name that is to be replaced has no pattern.
pub fn templates_substitute()
    ensures { (names : List Name) (given : List PatternTree) (pattern : PatternTree)
        → has_macro_arg pattern ≡ false → Substitutes names given pattern }
{}
