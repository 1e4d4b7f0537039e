//! Which positions stand in a rule.

use isle_ast::ast::{Expr, Rule};
use isle_ast::pos::Pos;

/// Where the last node of an expression stands.
#[cycle(last_place)]
#[tactic(auto, using(isle_ast::proofs::Trees::ExprSizes::most_expr_size, isle_ast::proofs::Trees::ExprSizes::most_let_size))]
fn last_place(expr: &Expr) -> Pos {
    match expr {
        Expr::Term { args, pos, .. } => last_place_of(args.as_slice(), *pos),
        Expr::Let { body, .. } => last_place(body.get()),
        Expr::Var { pos, .. }
        | Expr::ConstBool { pos, .. }
        | Expr::ConstInt { pos, .. }
        | Expr::ConstPrim { pos, .. } => *pos,
    }
}

/// Where the last node of expressions stands, or a position where there are none.
#[cycle(last_place)]
#[tactic(auto, using(isle_ast::proofs::Trees::ExprSizes::most_expr_size, isle_ast::proofs::Trees::ExprSizes::most_let_size))]
fn last_place_of(exprs: &[Expr], pos: Pos) -> Pos {
    let mut last = pos;
    for expr in exprs {
        last = last_place(expr);
    }
    last
}

/// Whether a position stands outside a rule: in another file, before it or behind its right side.
pub fn is_outside(tree: &Rule, pos: Pos) -> bool {
    if pos.file != tree.pos.file || pos.offset < tree.pos.offset {
        return true;
    }
    last_place(&tree.expr).offset < pos.offset
}
