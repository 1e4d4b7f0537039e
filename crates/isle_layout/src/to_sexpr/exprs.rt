//! S-expressions of expressions, and of the variables of a `let`.
ghost use Rattle.std.specs.Prelude.{◌≡◌, [], ◌∷◌, ◌++◌, IfOk};
ghost use Rattle.isle_ast.specs.Trees.ExprShape.{expr_of, exprs_of, lets_of};
ghost use Rattle.isle_layout.specs.SExprShape.{sexpr_of};
ghost use Rattle.isle_layout.specs.Spellings.{listed, name_sexpr, expr_sexpr, expr_sexprs, let_sexprs, let_def_sexpr};

use crate::sexpr::SExpr;
use crate::to_sexpr::list::{ListBuilder, constant, name};
use crate::to_sexpr::numbers::{integer, truth};
use isle_syntax::ast::{BoxedExpr, Expr, Ident, LetDef};
use std::alloc::{AllocError, Global};

/// An expression.
#[cycle(spell_expr)]
#[tactic(auto, using(isle_ast::proofs::Trees::ExprSizes::most_expr_size, isle_ast::proofs::Trees::ExprSizes::most_let_size))]
pub(crate) fn spell_expr(alloc: Global, expr: &Expr) -> Result<SExpr, AllocError>
    ensures { IfOk result (λ sexpr. sexpr_of sexpr ≡ expr_sexpr (expr_of expr.now)) }
{
    match expr {
        Expr::Term { sym, args, .. } => spell_term(alloc, sym, args.as_slice()),
        Expr::Var { name: var, .. } => name(alloc, var),
        Expr::ConstBool { val, .. } => truth(alloc, *val),
        Expr::ConstInt { val, big, .. } => integer(alloc, *val, *big),
        Expr::ConstPrim { val, .. } => constant(alloc, val),
        Expr::Let { defs, body, .. } => {
            let list = ListBuilder::new(alloc).word("let")?;
            let list = list.item(spell_lets(alloc, defs.as_slice())?)?;
            Ok(list.item(spell_expr(alloc, body.get())?)?.build())
        }
    }
}

/// A term and its arguments.
#[cycle(spell_expr)]
#[tactic(auto, using(isle_ast::proofs::Trees::ExprSizes::most_expr_size, isle_ast::proofs::Trees::ExprSizes::most_let_size))]
fn spell_term(alloc: Global, term: &Ident, args: &[Expr]) -> Result<SExpr, AllocError>
    ensures { IfOk result (λ sexpr. sexpr_of sexpr ≡ listed (name_sexpr term.now ∷ expr_sexprs (exprs_of args.now))) }
{
    let mut list = ListBuilder::new(alloc).name(term)?;
    for arg in args {
        list = list.item(spell_expr(alloc, arg)?)?;
    }
    Ok(list.build())
}

/// The variables of a `let`.
#[cycle(spell_expr)]
#[tactic(auto, using(isle_ast::proofs::Trees::ExprSizes::most_expr_size, isle_ast::proofs::Trees::ExprSizes::most_let_size))]
fn spell_lets(alloc: Global, defs: &[LetDef]) -> Result<SExpr, AllocError>
    ensures { IfOk result (λ sexpr. sexpr_of sexpr ≡ listed (let_sexprs (lets_of defs.now))) }
{
    let mut list = ListBuilder::new(alloc);
    for def in defs {
        list = list.item(spell_let_def(alloc, def)?)?;
    }
    Ok(list.build())
}

/// A variable of a `let`, its type and its value.
#[cycle(spell_expr)]
pub(crate) fn spell_let_def(alloc: Global, def: &LetDef) -> Result<SExpr, AllocError>
    ensures { IfOk result (λ sexpr. sexpr_of sexpr ≡ let_def_sexpr def.now) }
{
    let list = ListBuilder::new(alloc).name(&def.var)?.name(&def.ty)?;
    Ok(list.item(spell_expr(alloc, &def.val)?)?.build())
}

/// A list with an expression more.
pub(crate) fn add_expr(
    alloc: Global,
    list: ListBuilder,
    expr: &Expr,
) -> Result<ListBuilder, AllocError>
    ensures { IfOk result (λ longer. longer ≡ list ++ expr_sexpr (expr_of expr.now) ∷ []) }
{
    list.item(spell_expr(alloc, expr)?)
}
