//! Laws of reading, each as a function whose contract states it. Those of trees, positions and texts are passed on.
ghost use Rattle.std.specs.Prelude.{◌≡◌, ℕ, List};
ghost use Rattle.isle_ast.specs.declared.ast.Def.{Def as Tree};
ghost use Rattle.isle_ast.specs.declared.error.Error.{Error};
ghost use Rattle.isle_syntax.specs.Tokens.RemainingTokens.{RemainingTokens};
ghost use Rattle.isle_syntax.specs.Grammar.Verdict.{IsSpelt, IsFaultOf};
ghost use Rattle.isle_syntax.specs.Grammar.Verdict.{IsWhole, Spells, IsFaultIn};

pub use isle_ast::laws::{
    equal_definitions_are_the_same, equal_expressions_are_the_same, equal_items_are_the_same,
    equal_parts_are_the_same, equal_patterns_are_the_same, equal_types_are_the_same,
    identifiers_are_ordered, positions_are_ordered, templates_substitute, texts_are_ordered,
};

/// What one whole reading of a text spells, the text spells, and the fault of one is the text's.
pub fn read_is_spelt()
    ensures spelt { (file : ℕ) (text : List ℕ) (remaining : RemainingTokens) (defs : List Tree) → IsWhole text remaining
        → remaining.source.file ≡ file → IsSpelt remaining defs → Spells file text defs }
    ensures fault { (file : ℕ) (text : List ℕ) (remaining : RemainingTokens) (error : Error) → IsWhole text remaining
        → remaining.source.file ≡ file → IsFaultOf remaining error → IsFaultIn file text error }
{}
