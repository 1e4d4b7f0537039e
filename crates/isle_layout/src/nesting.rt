//! Whether what is printed of a definition opens no more parentheses at once than may be.
ghost use Rattle.std.specs.Prelude.{◌↔◌, ◌≤◌, IsTrue};
ghost use Rattle.isle_ast.specs.Trees.PatternShape.{pattern_of, patterns_of};
ghost use Rattle.isle_ast.specs.Trees.ExprShape.{expr_of, exprs_of, lets_of};
ghost use Rattle.isle_ast.specs.Trees.ItemShape.{item_of, items_of};
ghost use Rattle.isle_layout.specs.Nesting.{pattern_nesting, pattern_nestings, expr_nesting, expr_nestings, let_nestings, item_nesting};
ghost use Rattle.isle_layout.specs.Nesting.{item_nestings, iflet_nestings, rule_nesting, nesting};

use isle_syntax::ast::{Def, Expr, IfLet, KeptItem, LetDef, Pattern, Rule};

/// Whether no more parentheses are open at once in a pattern. A chain `x @ y @ ..` is walked by a loop, since it nests
/// without parentheses.
#[cycle(pattern_fits)]
#[tactic(auto, using(isle_ast::proofs::Trees::PatternSizes::most_pattern_size))]
fn pattern_fits(pattern: &Pattern, depth_left: usize) -> bool
    ensures { IsTrue result ↔ pattern_nesting (pattern_of pattern.now) ≤ depth_left }
{
    let mut at = pattern;
    loop {
        match at {
            Pattern::BindPattern { subpat, .. } => at = subpat.get(),
            Pattern::Term { args, .. } => {
                return depth_left > 0 && patterns_fit(args.as_slice(), depth_left - 1);
            }
            Pattern::And { subpats, .. } => {
                return depth_left > 0 && patterns_fit(subpats.as_slice(), depth_left - 1);
            }
            Pattern::Var { .. }
            | Pattern::ConstBool { .. }
            | Pattern::ConstInt { .. }
            | Pattern::ConstPrim { .. }
            | Pattern::Wildcard { .. }
            | Pattern::MacroArg { .. } => return true,
        }
    }
}

#[cycle(pattern_fits)]
fn patterns_fit(patterns: &[Pattern], depth_left: usize) -> bool
    ensures { IsTrue result ↔ pattern_nestings (patterns_of patterns.now) ≤ depth_left }
{
    for pattern in patterns {
        if !pattern_fits(pattern, depth_left) {
            return false;
        }
    }
    true
}

#[cycle(expr_fits)]
#[tactic(auto, using(isle_ast::proofs::Trees::ExprSizes::most_expr_size, isle_ast::proofs::Trees::ExprSizes::most_let_size))]
fn expr_fits(expr: &Expr, depth_left: usize) -> bool
    ensures { IsTrue result ↔ expr_nesting (expr_of expr.now) ≤ depth_left }
{
    match expr {
        Expr::Term { args, .. } => depth_left > 0 && exprs_fit(args.as_slice(), depth_left - 1),
        Expr::Let { defs, body, .. } => {
            depth_left > 1
                && lets_fit(defs.as_slice(), depth_left - 2)
                && expr_fits(body.get(), depth_left - 1)
        }
        Expr::Var { .. }
        | Expr::ConstBool { .. }
        | Expr::ConstInt { .. }
        | Expr::ConstPrim { .. } => true,
    }
}

#[cycle(expr_fits)]
fn exprs_fit(exprs: &[Expr], depth_left: usize) -> bool
    ensures { IsTrue result ↔ expr_nestings (exprs_of exprs.now) ≤ depth_left }
{
    for expr in exprs {
        if !expr_fits(expr, depth_left) {
            return false;
        }
    }
    true
}

#[cycle(expr_fits)]
fn lets_fit(defs: &[LetDef], depth_left: usize) -> bool
    ensures { IsTrue result ↔ let_nestings (lets_of defs.now) ≤ depth_left }
{
    for def in defs {
        if depth_left == 0 || !expr_fits(&def.val, depth_left - 1) {
            return false;
        }
    }
    true
}

#[cycle(item_fits)]
#[tactic(auto, using(isle_ast::proofs::Trees::ItemSizes::most_item_size))]
fn item_fits(item: &KeptItem, depth_left: usize) -> bool
    ensures { IsTrue result ↔ item_nesting (item_of item.now) ≤ depth_left }
{
    match item {
        KeptItem::List { items, .. } => depth_left > 0
            && items_fit(items.as_slice(), depth_left - 1),
        KeptItem::Int { .. } | KeptItem::Big { .. } | KeptItem::Symbol(_) | KeptItem::At { .. } =>
            true,
    }
}

#[cycle(item_fits)]
fn items_fit(items: &[KeptItem], depth_left: usize) -> bool
    ensures { IsTrue result ↔ item_nestings (items_of items.now) ≤ depth_left }
{
    for item in items {
        if !item_fits(item, depth_left) {
            return false;
        }
    }
    true
}

fn iflets_fit(iflets: &[IfLet], depth_left: usize) -> bool
    ensures { IsTrue result ↔ iflet_nestings iflets.now ≤ depth_left }
{
    for iflet in iflets {
        if depth_left == 0
            || !pattern_fits(&iflet.pattern, depth_left - 1)
            || !expr_fits(&iflet.expr, depth_left - 1)
        {
            return false;
        }
    }
    true
}

fn rule_fits(rule: &Rule, depth_left: usize) -> bool
    ensures { IsTrue result ↔ rule_nesting rule.now ≤ depth_left }
{
    pattern_fits(&rule.pattern, depth_left)
        && iflets_fit(rule.iflets.as_slice(), depth_left)
        && expr_fits(&rule.expr, depth_left)
}

/// Whether no more parentheses are open at once in what is printed of a definition.
pub(crate) fn fits(def: &Def, depth_left: usize) -> bool
    ensures { IsTrue result ↔ nesting def.now ≤ depth_left }
{
    match def {
        Def::TypeDef(_) => depth_left >= 4,
        Def::Decl(_) => depth_left >= 2,
        Def::Rule(rule) => depth_left >= 1 && rule_fits(rule, depth_left - 1),
        Def::Extractor(extractor) => depth_left >= 2
            && pattern_fits(&extractor.template, depth_left - 1),
        Def::Extern(_) | Def::Converter(_) => depth_left >= 1,
        Def::Pragma(_) => true,
        Def::Kept(kept) => depth_left >= 1 && items_fit(kept.items.as_slice(), depth_left - 1),
    }
}
