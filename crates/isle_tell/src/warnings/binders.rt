//! The names that the patterns and `let`s of a definition bind.
ghost use Rattle.std.specs.Prelude.{List, All, IfOk, OnOk};
ghost use Rattle.isle_ast.specs.Positions.Files.{SourceFile};
ghost use Rattle.isle_ast.specs.Positions.Printable.{IsPrintablePos};
ghost use Rattle.isle_ast.specs.Positions.DefPositions.{IdentAt, PatternAt, ExprAt, LetDefAt, IfLetAt, RuleAt};
ghost use Rattle.isle_tell.specs.Inside.Warnings.{NameAt};

use isle_ast::ast::{Expr, Ident, IfLet, LetDef, Pattern, Rule};
use std::alloc::{AllocError, Global};

/// A name that stands in a pattern.
#[derive(Clone, Copy)]
pub struct PatternName<'a> {
    pub name: &'a Ident,
    /// Whether it stands alone or before `@ _`: there an extractor's argument is put in.
    pub is_alone: bool,
}

/// The names of a rule's patterns, in the order of the text.
pub fn names_of_rule(alloc: Global, rule: &Rule) -> Result<Vec<PatternName<'_>>, AllocError>
    ensures { (files : List SourceFile) → RuleAt (IsPrintablePos files) rule.now
        → IfOk result (λ names. All (NameAt (IsPrintablePos files)) names.items) }
{
    let mut names = Vec::new(alloc);
    push_names(&rule.pattern, &mut names)?;
    push_of_iflets(rule.iflets.as_slice(), &mut names)?;
    Ok(names)
}

/// The names of a pattern, in the order of the text.
pub fn names_of_pattern(
    alloc: Global,
    pattern: &Pattern,
) -> Result<Vec<PatternName<'_>>, AllocError>
    ensures { (files : List SourceFile) → PatternAt (IsPrintablePos files) pattern.now
        → IfOk result (λ names. All (NameAt (IsPrintablePos files)) names.items) }
{
    let mut names = Vec::new(alloc);
    push_names(pattern, &mut names)?;
    Ok(names)
}

/// Adds the names of the patterns of conditions.
fn push_of_iflets<'a>(
    iflets: &'a [IfLet],
    names: &mut Vec<PatternName<'a>>,
) -> Result<(), AllocError>
    ensures { OnOk result ((files : List SourceFile) → All (IfLetAt (IsPrintablePos files)) iflets.now
        → All (NameAt (IsPrintablePos files)) names.old.items
        → All (NameAt (IsPrintablePos files)) names.new.items) }
{
    for iflet in iflets {
        push_names(&iflet.pattern, names)?;
    }
    Ok(())
}

/// Adds the names of a pattern. A chain `x @ y @ ..` is walked by a loop, since it nests without parentheses.
#[cycle(push_names)]
#[tactic(auto, using(isle_ast::proofs::Trees::PatternSizes::most_pattern_size))]
fn push_names<'a>(pattern: &'a Pattern, names: &mut Vec<PatternName<'a>>) -> Result<(), AllocError>
    ensures { OnOk result ((files : List SourceFile) → PatternAt (IsPrintablePos files) pattern.now
        → All (NameAt (IsPrintablePos files)) names.old.items
        → All (NameAt (IsPrintablePos files)) names.new.items) }
{
    let mut at = pattern;
    loop {
        match at {
            Pattern::BindPattern { var, subpat, .. } => {
                at = subpat.get();
                push_name(var, is_wildcard(at), names)?;
            }
            Pattern::Var { var, .. } => return push_name(var, true, names),
            Pattern::Term { args, .. } => return push_all(args.as_slice(), names),
            Pattern::And { subpats, .. } => return push_all(subpats.as_slice(), names),
            Pattern::ConstBool { .. }
            | Pattern::ConstInt { .. }
            | Pattern::ConstPrim { .. }
            | Pattern::Wildcard { .. }
            | Pattern::MacroArg { .. } => return Ok(()),
        }
    }
}

/// Adds the names of patterns.
#[cycle(push_names)]
fn push_all<'a>(patterns: &'a [Pattern], names: &mut Vec<PatternName<'a>>) -> Result<(), AllocError>
    ensures { OnOk result ((files : List SourceFile) → All (PatternAt (IsPrintablePos files)) patterns.now
        → All (NameAt (IsPrintablePos files)) names.old.items
        → All (NameAt (IsPrintablePos files)) names.new.items) }
{
    for pattern in patterns {
        push_names(pattern, names)?;
    }
    Ok(())
}

/// Adds a name.
fn push_name<'a>(
    name: &'a Ident,
    is_alone: bool,
    names: &mut Vec<PatternName<'a>>,
) -> Result<(), AllocError>
    ensures { OnOk result ((files : List SourceFile) → IdentAt (IsPrintablePos files) name.now → All (NameAt (IsPrintablePos files)) names.old.items
        → All (NameAt (IsPrintablePos files)) names.new.items) }
{
    names.push(PatternName { name, is_alone })?;
    Ok(())
}

fn is_wildcard(pattern: &Pattern) -> bool {
    matches!(pattern, Pattern::Wildcard { .. })
}

/// The variables of a rule's `let`s, each behind those in its value.
pub fn lets_of_rule(alloc: Global, rule: &Rule) -> Result<Vec<&Ident>, AllocError>
    ensures { (files : List SourceFile) → RuleAt (IsPrintablePos files) rule.now
        → IfOk result (λ lets. All (λ name. IdentAt (IsPrintablePos files) name.now) lets.items) }
{
    let mut lets = Vec::new(alloc);
    push_lets_of_iflets(rule.iflets.as_slice(), &mut lets)?;
    push_lets(&rule.expr, &mut lets)?;
    Ok(lets)
}

/// Adds the variables of the `let`s of conditions.
fn push_lets_of_iflets<'a>(iflets: &'a [IfLet], lets: &mut Vec<&'a Ident>) -> Result<(), AllocError>
    ensures { OnOk result ((files : List SourceFile) → All (IfLetAt (IsPrintablePos files)) iflets.now
        → All (λ name. IdentAt (IsPrintablePos files) name.now) lets.old.items
        → All (λ name. IdentAt (IsPrintablePos files) name.now) lets.new.items) }
{
    for iflet in iflets {
        push_lets(&iflet.expr, lets)?;
    }
    Ok(())
}

/// Adds the variables of the `let`s of an expression.
#[cycle(push_lets)]
#[tactic(auto, using(isle_ast::proofs::Trees::ExprSizes::most_expr_size, isle_ast::proofs::Trees::ExprSizes::most_let_size))]
fn push_lets<'a>(expr: &'a Expr, lets: &mut Vec<&'a Ident>) -> Result<(), AllocError>
    ensures { OnOk result ((files : List SourceFile) → ExprAt (IsPrintablePos files) expr.now
        → All (λ name. IdentAt (IsPrintablePos files) name.now) lets.old.items
        → All (λ name. IdentAt (IsPrintablePos files) name.now) lets.new.items) }
{
    match expr {
        Expr::Term { args, .. } => push_lets_of_all(args.as_slice(), lets),
        Expr::Let { defs, body, .. } => {
            push_variables(defs.as_slice(), lets)?;
            push_lets(body.get(), lets)
        }
        Expr::Var { .. }
        | Expr::ConstBool { .. }
        | Expr::ConstInt { .. }
        | Expr::ConstPrim { .. } => Ok(()),
    }
}

/// Adds the variables of the `let`s of expressions.
#[cycle(push_lets)]
#[tactic(auto, using(isle_ast::proofs::Trees::ExprSizes::most_expr_size, isle_ast::proofs::Trees::ExprSizes::most_let_size))]
fn push_lets_of_all<'a>(exprs: &'a [Expr], lets: &mut Vec<&'a Ident>) -> Result<(), AllocError>
    ensures { OnOk result ((files : List SourceFile) → All (ExprAt (IsPrintablePos files)) exprs.now
        → All (λ name. IdentAt (IsPrintablePos files) name.now) lets.old.items
        → All (λ name. IdentAt (IsPrintablePos files) name.now) lets.new.items) }
{
    for expr in exprs {
        push_lets(expr, lets)?;
    }
    Ok(())
}

/// Adds the variables of a `let`, each behind those of the `let`s in its value.
#[cycle(push_lets)]
#[tactic(auto, using(isle_ast::proofs::Trees::ExprSizes::most_expr_size, isle_ast::proofs::Trees::ExprSizes::most_let_size))]
fn push_variables<'a>(defs: &'a [LetDef], lets: &mut Vec<&'a Ident>) -> Result<(), AllocError>
    ensures { OnOk result ((files : List SourceFile) → All (LetDefAt (IsPrintablePos files)) defs.now
        → All (λ name. IdentAt (IsPrintablePos files) name.now) lets.old.items
        → All (λ name. IdentAt (IsPrintablePos files) name.now) lets.new.items) }
{
    for def in defs {
        push_lets(&def.val, lets)?;
        lets.push(&def.var)?;
    }
    Ok(())
}
