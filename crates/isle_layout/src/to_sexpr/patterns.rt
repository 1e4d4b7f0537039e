//! S-expressions of patterns, with the chains of bindings around them.
ghost use Rattle.std.specs.Prelude.{◌≡◌, [], ◌∷◌, ◌++◌, IfOk};
ghost use Rattle.isle_ast.specs.Trees.PatternShape.{pattern_of, patterns_of};
ghost use Rattle.isle_ast.specs.Inside.Trees.Innermost.{names_bound};
ghost use Rattle.isle_layout.specs.SExprTree.{sexpr_atom};
ghost use Rattle.isle_layout.specs.SExprShape.{sexpr_of};
ghost use Rattle.isle_layout.specs.Spellings.{listed, bound_sexpr, pattern_sexpr, pattern_sexprs};

use crate::sexpr::{BoxedSExpr, SExpr};
use crate::to_sexpr::list::{ListBuilder, atom, constant, name};
use crate::to_sexpr::numbers::{integer, truth};
use isle_syntax::Text;
use isle_syntax::ast::Pattern;
use std::alloc::{AllocError, Global};

/// A pattern; a `MacroArg` becomes an atom without text.
#[cycle(spell_pattern)]
pub(crate) fn spell_pattern(alloc: Global, pattern: &Pattern) -> Result<SExpr, AllocError>
    ensures { IfOk result (λ sexpr. sexpr_of sexpr ≡ pattern_sexpr (pattern_of pattern.now)) }
{
    let mut names = Vec::new(alloc);
    let mut at = pattern;
    while let Pattern::BindPattern { var, subpat, .. } = at {
        names.push(var.0.clone()?)?;
        at = subpat.get();
    }
    bind(alloc, names, spell_innermost(alloc, at)?)
}

/// The bindings, listed from the outside in, around an S-expression.
fn bind(alloc: Global, mut names: Vec<Text>, inner: SExpr) -> Result<SExpr, AllocError>
    ensures { IfOk result (λ sexpr. sexpr_of sexpr ≡ bound_sexpr names.items (sexpr_of inner)) }
{
    let mut sexpr = inner;
    'names: while let Some(name) = names.pop() {
        sexpr = SExpr::Binding(name, BoxedSExpr::new(alloc, sexpr)?);
    }
    Ok(sexpr)
}

/// A pattern that is no binding.
#[cycle(spell_pattern)]
#[tactic(auto, using(isle_ast::proofs::Trees::PatternSizes::most_pattern_size))]
fn spell_innermost(alloc: Global, pattern: &Pattern) -> Result<SExpr, AllocError>
    requires { names_bound (pattern_of pattern.now) ≡ [] }
    ensures { IfOk result (λ sexpr. sexpr_of sexpr ≡ pattern_sexpr (pattern_of pattern.now)) }
{
    match pattern {
        Pattern::Var { var, .. } => name(alloc, var),
        Pattern::BindPattern { .. } => unreachable!(),
        Pattern::ConstBool { val, .. } => truth(alloc, *val),
        Pattern::ConstInt { val, big, .. } => integer(alloc, *val, *big),
        Pattern::ConstPrim { val, .. } => constant(alloc, val),
        Pattern::Term { sym, args, .. } => spell_patterns(alloc, sym.0.as_str(), args.as_slice()),
        Pattern::Wildcard { .. } => atom(alloc, "_"),
        Pattern::And { subpats, .. } => spell_patterns(alloc, "and", subpats.as_slice()),
        Pattern::MacroArg { .. } => Ok(SExpr::Atom(Text::empty(alloc))),
    }
}

/// A list of a word and patterns.
#[cycle(spell_pattern)]
#[tactic(auto, using(isle_ast::proofs::Trees::PatternSizes::most_pattern_size))]
fn spell_patterns(alloc: Global, word: &str, patterns: &[Pattern]) -> Result<SExpr, AllocError>
    ensures { IfOk result (λ sexpr. sexpr_of sexpr ≡ listed (sexpr_atom word.now ∷ pattern_sexprs (patterns_of patterns.now))) }
{
    let mut list = ListBuilder::new(alloc).word(word)?;
    for pattern in patterns {
        list = list.item(spell_pattern(alloc, pattern)?)?;
    }
    Ok(list.build())
}

/// A list with a pattern more.
pub(crate) fn add_pattern(
    alloc: Global,
    list: ListBuilder,
    pattern: &Pattern,
) -> Result<ListBuilder, AllocError>
    ensures { IfOk result (λ longer. longer ≡ list ++ pattern_sexpr (pattern_of pattern.now) ∷ []) }
{
    list.item(spell_pattern(alloc, pattern)?)
}
