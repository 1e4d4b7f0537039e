//! The terms that occur in patterns and expressions, handed to a function one by one, or counted.
ghost use Rattle.std.specs.Prelude.{◌≡◌, length, min};
ghost use Rattle.std.specs.List.{FoldsTo};
ghost use Rattle.isle_ast.specs.Trees.PatternShape.{pattern_of, patterns_of};
ghost use Rattle.isle_ast.specs.Trees.ExprShape.{expr_of, exprs_of, lets_of};
ghost use Rattle.isle_ast.specs.Trees.Terms.{pattern_terms, patterns_terms, expr_terms, exprs_terms, lets_terms, CalledAtTerm};

use crate::ast::{Expr, Ident, LetDef, Pattern};
use crate::pos::Pos;

impl Pattern {
    /// Hands each term's symbol and position to `f`, each before those below it.
    pub fn terms<F: FnMut(Pos, &Ident)>(&self, f: &mut F)
        requires { F.IsAlwaysCallable f.old }
        ensures callable { F.IsAlwaysCallable f.new }
        ensures handed { FoldsTo (CalledAtTerm F.FnMut) f.old (pattern_terms (pattern_of self.now)) f.new }
    {
        hand_pattern(self, f);
    }

    /// How many terms occur in the pattern, at most the greatest number.
    pub fn count_terms(&self) -> usize
        ensures { result ≡ min (length (pattern_terms (pattern_of self.now))) usize.MAX }
    {
        let mut count = 0usize;
        self.terms(&mut |_, _| count = count.saturating_add(1));
        count
    }
}

/// Hands one term's symbol and position to `f`.
fn hand_term<F: FnMut(Pos, &Ident)>(pos: Pos, sym: &Ident, f: &mut F)
    requires { F.IsAlwaysCallable f.old }
    ensures callable { F.IsAlwaysCallable f.new }
    ensures called { CalledAtTerm F.FnMut f.old (pos, sym.now) f.new }
{
    f(pos, sym);
}

/// Hands each term of a pattern to `f`.
#[cycle(pattern_terms)]
#[tactic(auto, using(crate::proofs::Trees::Innermost::innermost_terms, crate::proofs::Trees::Innermost::innermost_is_no_binding))]
fn hand_pattern<F: FnMut(Pos, &Ident)>(pattern: &Pattern, f: &mut F)
    requires { F.IsAlwaysCallable f.old }
    ensures callable { F.IsAlwaysCallable f.new }
    ensures called { FoldsTo (CalledAtTerm F.FnMut) f.old (pattern_terms (pattern_of pattern.now)) f.new }
{
    match pattern.innermost() {
        Pattern::Term { sym, args, pos } => {
            hand_term(*pos, sym, f);
            hand_patterns(args.as_slice(), f);
        }
        Pattern::And { subpats, .. } => hand_patterns(subpats.as_slice(), f),
        Pattern::BindPattern { .. } => unreachable!(),
        Pattern::Var { .. }
        | Pattern::ConstBool { .. }
        | Pattern::ConstInt { .. }
        | Pattern::ConstPrim { .. }
        | Pattern::Wildcard { .. }
        | Pattern::MacroArg { .. } => {}
    }
}

#[cycle(pattern_terms)]
#[tactic(auto, using(crate::proofs::Trees::PatternSizes::most_pattern_size))]
fn hand_patterns<F: FnMut(Pos, &Ident)>(patterns: &[Pattern], f: &mut F)
    requires { F.IsAlwaysCallable f.old }
    ensures callable { F.IsAlwaysCallable f.new }
    ensures called { FoldsTo (CalledAtTerm F.FnMut) f.old (patterns_terms (patterns_of patterns.now)) f.new }
{
    for pattern in patterns {
        hand_pattern(pattern, f);
    }
}

impl Expr {
    /// Hands each term's symbol and position to `f`, each before those below it, and the values of a `let` before its
    /// body.
    pub fn terms<F: FnMut(Pos, &Ident)>(&self, f: &mut F)
        requires { F.IsAlwaysCallable f.old }
        ensures callable { F.IsAlwaysCallable f.new }
        ensures handed { FoldsTo (CalledAtTerm F.FnMut) f.old (expr_terms (expr_of self.now)) f.new }
    {
        hand_expr(self, f);
    }

    /// How many terms occur in the expression, at most the greatest number.
    pub fn count_terms(&self) -> usize
        ensures { result ≡ min (length (expr_terms (expr_of self.now))) usize.MAX }
    {
        let mut count = 0usize;
        self.terms(&mut |_, _| count = count.saturating_add(1));
        count
    }
}

/// Hands each term of an expression to `f`.
#[cycle(expr_terms)]
#[tactic(auto, using(crate::proofs::Trees::ExprSizes::most_expr_size, crate::proofs::Trees::ExprSizes::most_let_size))]
fn hand_expr<F: FnMut(Pos, &Ident)>(expr: &Expr, f: &mut F)
    requires { F.IsAlwaysCallable f.old }
    ensures callable { F.IsAlwaysCallable f.new }
    ensures called { FoldsTo (CalledAtTerm F.FnMut) f.old (expr_terms (expr_of expr.now)) f.new }
{
    match expr {
        Expr::Term { sym, args, pos } => {
            hand_term(*pos, sym, f);
            hand_exprs(args.as_slice(), f);
        }
        Expr::Let { defs, body, .. } => {
            hand_lets(defs.as_slice(), f);
            hand_expr(body.get(), f);
        }
        Expr::Var { .. }
        | Expr::ConstBool { .. }
        | Expr::ConstInt { .. }
        | Expr::ConstPrim { .. } => {}
    }
}

#[cycle(expr_terms)]
#[tactic(auto, using(crate::proofs::Trees::ExprSizes::most_expr_size, crate::proofs::Trees::ExprSizes::most_let_size))]
fn hand_exprs<F: FnMut(Pos, &Ident)>(exprs: &[Expr], f: &mut F)
    requires { F.IsAlwaysCallable f.old }
    ensures callable { F.IsAlwaysCallable f.new }
    ensures called { FoldsTo (CalledAtTerm F.FnMut) f.old (exprs_terms (exprs_of exprs.now)) f.new }
{
    for expr in exprs {
        hand_expr(expr, f);
    }
}

#[cycle(expr_terms)]
#[tactic(auto, using(crate::proofs::Trees::ExprSizes::most_expr_size, crate::proofs::Trees::ExprSizes::most_let_size))]
fn hand_lets<F: FnMut(Pos, &Ident)>(defs: &[LetDef], f: &mut F)
    requires { F.IsAlwaysCallable f.old }
    ensures callable { F.IsAlwaysCallable f.new }
    ensures called { FoldsTo (CalledAtTerm F.FnMut) f.old (lets_terms (lets_of defs.now)) f.new }
{
    for def in defs {
        hand_expr(&def.val, f);
    }
}
