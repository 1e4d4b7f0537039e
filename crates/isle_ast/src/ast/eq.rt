//! Equality of definitions, patterns, expressions, kept items and lists, positions included.
ghost use Rattle.std.specs.Prelude.{◌≡◌, ◌↔◌, IsTrue, true, []};
ghost use Rattle.isle_ast.specs.Trees.PatternShape.{pattern_of, patterns_of};
ghost use Rattle.isle_ast.specs.Trees.ExprTree.{expr_height};
ghost use Rattle.isle_ast.specs.Trees.ExprShape.{expr_of, exprs_of, lets_of};
ghost use Rattle.isle_ast.specs.Trees.TreeCalls.{is_leaf};
ghost use Rattle.isle_ast.specs.Inside.Trees.Innermost.{names_bound};
ghost use Rattle.isle_ast.specs.Trees.Equality.{let_of};
ghost use Rattle.isle_ast.specs.Trees.ItemShape.{item_of, items_of};

use crate::ast::{
    BoxedExpr, BoxedPattern, Def, Expr, Exprs, KeptItem, KeptItems, LetDef, LetDefs, Pattern,
    Patterns,
};
use crate::text::Seq;

/// Whether two chains bind the same names at the same positions.
fn have_same_names(a: &Pattern, b: &Pattern) -> bool
    ensures { IsTrue result ↔ (names_bound (pattern_of a.now) ≡ names_bound (pattern_of b.now)) }
{
    let mut s = a;
    let mut t = b;
    loop {
        match (s, t) {
            (
                Pattern::BindPattern {
                    var: x,
                    subpat: c,
                    pos: p,
                },
                Pattern::BindPattern {
                    var: y,
                    subpat: d,
                    pos: q,
                },
            ) => {
                if x != y || *p != *q {
                    return false;
                }
                s = c.get();
                t = d.get();
            }
            (Pattern::BindPattern { .. }, _) => return false,
            (_, Pattern::BindPattern { .. }) => return false,
            _ => return true,
        }
    }
}

/// Whether two patterns are the same, positions included.
#[cycle(same_pattern)]
#[tactic(auto, using(crate::proofs::Trees::Innermost::chain_ends, crate::proofs::Trees::Innermost::same_where_innermost))]
fn is_same_pattern(a: &Pattern, b: &Pattern) -> bool
    ensures { IsTrue result ↔ (pattern_of a.now ≡ pattern_of b.now) }
{
    have_same_names(a, b) && is_same_innermost(a.innermost(), b.innermost())
}

/// Whether two patterns are the same, of which the first is no binding.
#[cycle(same_pattern)]
#[tactic(auto, using(crate::proofs::Trees::PatternSizes::most_pattern_size))]
fn is_same_innermost(a: &Pattern, b: &Pattern) -> bool
    requires { names_bound (pattern_of a.now) ≡ [] }
    ensures { IsTrue result ↔ (pattern_of a.now ≡ pattern_of b.now) }
{
    match (a, b) {
        (
            Pattern::Term {
                sym: x,
                args: s,
                pos: p,
            },
            Pattern::Term {
                sym: y,
                args: t,
                pos: q,
            },
        ) => { x == y && are_same_patterns(s.as_slice(), t.as_slice()) && *p == *q }
        (Pattern::And { subpats: s, pos: p }, Pattern::And { subpats: t, pos: q }) =>
            are_same_patterns(s.as_slice(), t.as_slice()) && *p == *q,
        _ => is_same_leaf(a, b),
    }
}

/// Whether two patterns are the same and none occurs below them.
fn is_same_leaf(a: &Pattern, b: &Pattern) -> bool
    ensures { IsTrue result ↔ ((pattern_of a.now ≡ pattern_of b.now) × (is_leaf (pattern_of a.now) ≡ true)) }
{
    match (a, b) {
        (Pattern::Var { var: x, pos: p }, Pattern::Var { var: y, pos: q }) => x == y && *p == *q,
        (Pattern::ConstBool { val: m, pos: p }, Pattern::ConstBool { val: n, pos: q }) => *m == *n
            && *p == *q,
        (
            Pattern::ConstInt {
                val: m,
                big: x,
                pos: p,
            },
            Pattern::ConstInt {
                val: n,
                big: y,
                pos: q,
            },
        ) => { *m == *n && *x == *y && *p == *q }
        (Pattern::ConstPrim { val: x, pos: p }, Pattern::ConstPrim { val: y, pos: q }) => x == y
            && *p == *q,
        (Pattern::Wildcard { pos: p }, Pattern::Wildcard { pos: q }) => *p == *q,
        (Pattern::MacroArg { index: m, pos: p }, Pattern::MacroArg { index: n, pos: q }) => *m == *n
            && *p == *q,
        _ => false,
    }
}

#[cycle(same_pattern)]
#[tactic(auto, using(crate::proofs::Trees::PatternSizes::most_pattern_size, crate::proofs::Trees::TreeShapes::patterns_compared))]
fn are_same_patterns(a: &[Pattern], b: &[Pattern]) -> bool
    ensures { IsTrue result ↔ (patterns_of a.now ≡ patterns_of b.now) }
{
    if a.len() != b.len() {
        return false;
    }
    for i in 0..a.len() {
        if !is_same_pattern(&a[i], &b[i]) {
            return false;
        }
    }
    true
}

impl PartialEq for Pattern {
    ghost use Rattle.std.specs.Cmp.{partial_equiv_from_equiv};
    ghost use Rattle.isle_ast.specs.Trees.Equality.{same_pattern, same_pattern-equiv};

    ghost eq = { same_pattern };

    ghost laws = { partial_equiv_from_equiv same_pattern-equiv };

    fn eq(&self, other: &Pattern) -> bool {
        is_same_pattern(self, other)
    }
}

impl Eq for Pattern {
    ghost use Rattle.isle_ast.specs.Trees.Equality.{same_pattern-equiv};

    ghost laws = { same_pattern-equiv };
}

impl PartialEq for BoxedPattern {
    ghost use Rattle.std.specs.Cmp.{partial_equiv_from_equiv};
    ghost use Rattle.isle_ast.specs.Trees.Equality.{same_coded, same_coded-equiv};
    ghost use Rattle.isle_ast.specs.Trees.PatternCode.{pattern_tree_code};

    ghost eq = { same_coded pattern_tree_code };

    ghost laws = { partial_equiv_from_equiv (same_coded-equiv pattern_tree_code) };

    fn eq(&self, other: &BoxedPattern) -> bool {
        is_same_pattern(self.get(), other.get())
    }
}

impl Eq for BoxedPattern {
    ghost use Rattle.isle_ast.specs.Trees.Equality.{same_coded-equiv};
    ghost use Rattle.isle_ast.specs.Trees.PatternCode.{pattern_tree_code};

    ghost laws = { same_coded-equiv pattern_tree_code };
}

impl PartialEq for Patterns {
    ghost use Rattle.std.specs.Cmp.{partial_equiv_from_equiv};
    ghost use Rattle.isle_ast.specs.Trees.Equality.{same_coded, same_coded-equiv};
    ghost use Rattle.isle_ast.specs.Trees.PatternCode.{pattern_trees_code};

    ghost eq = { same_coded pattern_trees_code };

    ghost laws = { partial_equiv_from_equiv (same_coded-equiv pattern_trees_code) };

    fn eq(&self, other: &Patterns) -> bool {
        are_same_patterns(self.as_slice(), other.as_slice())
    }
}

impl Eq for Patterns {
    ghost use Rattle.isle_ast.specs.Trees.Equality.{same_coded-equiv};
    ghost use Rattle.isle_ast.specs.Trees.PatternCode.{pattern_trees_code};

    ghost laws = { same_coded-equiv pattern_trees_code };
}

/// Whether two expressions are the same, positions included.
#[cycle(same_expr)]
#[tactic(auto, using(crate::proofs::Trees::ExprSizes::most_expr_size, crate::proofs::Trees::ExprSizes::most_let_size))]
fn is_same_expr(a: &Expr, b: &Expr) -> bool
    ensures { IsTrue result ↔ (expr_of a.now ≡ expr_of b.now) }
{
    match (a, b) {
        (
            Expr::Term {
                sym: x,
                args: s,
                pos: p,
            },
            Expr::Term {
                sym: y,
                args: t,
                pos: q,
            },
        ) => { x == y && are_same_exprs(s.as_slice(), t.as_slice()) && *p == *q }
        (
            Expr::Let {
                defs: c,
                body: s,
                pos: p,
            },
            Expr::Let {
                defs: d,
                body: t,
                pos: q,
            },
        ) => {
            are_same_lets(c.as_slice(), d.as_slice()) && is_same_expr(s.get(), t.get()) && *p == *q
        }
        _ => is_same_leaf_expr(a, b),
    }
}

/// Whether two expressions are the same and none occurs below them.
fn is_same_leaf_expr(a: &Expr, b: &Expr) -> bool
    ensures { IsTrue result ↔ ((expr_of a.now ≡ expr_of b.now) × (expr_height (expr_of a.now) ≡ 0)) }
{
    match (a, b) {
        (Expr::Var { name: x, pos: p }, Expr::Var { name: y, pos: q }) => x == y && *p == *q,
        (Expr::ConstBool { val: m, pos: p }, Expr::ConstBool { val: n, pos: q }) => *m == *n
            && *p == *q,
        (
            Expr::ConstInt {
                val: m,
                big: x,
                pos: p,
            },
            Expr::ConstInt {
                val: n,
                big: y,
                pos: q,
            },
        ) => { *m == *n && *x == *y && *p == *q }
        (Expr::ConstPrim { val: x, pos: p }, Expr::ConstPrim { val: y, pos: q }) => x == y
            && *p == *q,
        _ => false,
    }
}

#[cycle(same_expr)]
#[tactic(auto, using(crate::proofs::Trees::ExprSizes::expr_sizes, crate::proofs::Trees::TreeShapes::exprs_compared))]
fn are_same_exprs(a: &[Expr], b: &[Expr]) -> bool
    ensures { IsTrue result ↔ (exprs_of a.now ≡ exprs_of b.now) }
{
    if a.len() != b.len() {
        return false;
    }
    for i in 0..a.len() {
        if !is_same_expr(&a[i], &b[i]) {
            return false;
        }
    }
    true
}

#[cycle(same_expr)]
#[tactic(auto, using(crate::proofs::Trees::ExprSizes::expr_sizes, crate::proofs::Trees::TreeShapes::lets_compared))]
fn are_same_lets(a: &[LetDef], b: &[LetDef]) -> bool
    ensures { IsTrue result ↔ (lets_of a.now ≡ lets_of b.now) }
{
    if a.len() != b.len() {
        return false;
    }
    for i in 0..a.len() {
        if !is_same_let(&a[i], &b[i]) {
            return false;
        }
    }
    true
}

#[cycle(same_expr)]
#[tactic(auto, using(crate::proofs::Trees::ExprSizes::expr_sizes, crate::proofs::Trees::TreeShapes::let_of_parts))]
fn is_same_let(a: &LetDef, b: &LetDef) -> bool
    ensures { IsTrue result ↔ (let_of a.now ≡ let_of b.now) }
{
    a.var == b.var && a.ty == b.ty && is_same_expr(&a.val, &b.val) && a.pos == b.pos
}

impl PartialEq for Expr {
    ghost use Rattle.std.specs.Cmp.{partial_equiv_from_equiv};
    ghost use Rattle.isle_ast.specs.Trees.Equality.{same_expr, same_expr-equiv};

    ghost eq = { same_expr };

    ghost laws = { partial_equiv_from_equiv same_expr-equiv };

    fn eq(&self, other: &Expr) -> bool {
        is_same_expr(self, other)
    }
}

impl Eq for Expr {
    ghost use Rattle.isle_ast.specs.Trees.Equality.{same_expr-equiv};

    ghost laws = { same_expr-equiv };
}

impl PartialEq for LetDef {
    ghost use Rattle.std.specs.Cmp.{partial_equiv_from_equiv};
    ghost use Rattle.isle_ast.specs.Trees.Equality.{same_let, same_let-equiv};

    ghost eq = { same_let };

    ghost laws = { partial_equiv_from_equiv same_let-equiv };

    fn eq(&self, other: &LetDef) -> bool {
        is_same_let(self, other)
    }
}

impl Eq for LetDef {
    ghost use Rattle.isle_ast.specs.Trees.Equality.{same_let-equiv};

    ghost laws = { same_let-equiv };
}

impl PartialEq for BoxedExpr {
    ghost use Rattle.std.specs.Cmp.{partial_equiv_from_equiv};
    ghost use Rattle.isle_ast.specs.Trees.Equality.{same_coded, same_coded-equiv};
    ghost use Rattle.isle_ast.specs.Trees.ExprCode.{expr_tree_code};

    ghost eq = { same_coded expr_tree_code };

    ghost laws = { partial_equiv_from_equiv (same_coded-equiv expr_tree_code) };

    fn eq(&self, other: &BoxedExpr) -> bool {
        is_same_expr(self.get(), other.get())
    }
}

impl Eq for BoxedExpr {
    ghost use Rattle.isle_ast.specs.Trees.Equality.{same_coded-equiv};
    ghost use Rattle.isle_ast.specs.Trees.ExprCode.{expr_tree_code};

    ghost laws = { same_coded-equiv expr_tree_code };
}

impl PartialEq for Exprs {
    ghost use Rattle.std.specs.Cmp.{partial_equiv_from_equiv};
    ghost use Rattle.isle_ast.specs.Trees.Equality.{same_coded, same_coded-equiv};
    ghost use Rattle.isle_ast.specs.Trees.ExprCode.{expr_trees_code};

    ghost eq = { same_coded expr_trees_code };

    ghost laws = { partial_equiv_from_equiv (same_coded-equiv expr_trees_code) };

    fn eq(&self, other: &Exprs) -> bool {
        are_same_exprs(self.as_slice(), other.as_slice())
    }
}

impl Eq for Exprs {
    ghost use Rattle.isle_ast.specs.Trees.Equality.{same_coded-equiv};
    ghost use Rattle.isle_ast.specs.Trees.ExprCode.{expr_trees_code};

    ghost laws = { same_coded-equiv expr_trees_code };
}

impl PartialEq for LetDefs {
    ghost use Rattle.std.specs.Cmp.{partial_equiv_from_equiv};
    ghost use Rattle.isle_ast.specs.Trees.Equality.{same_coded, same_coded-equiv};
    ghost use Rattle.isle_ast.specs.Trees.ExprCode.{let_trees_code};

    ghost eq = { same_coded let_trees_code };

    ghost laws = { partial_equiv_from_equiv (same_coded-equiv let_trees_code) };

    fn eq(&self, other: &LetDefs) -> bool {
        are_same_lets(self.as_slice(), other.as_slice())
    }
}

impl Eq for LetDefs {
    ghost use Rattle.isle_ast.specs.Trees.Equality.{same_coded-equiv};
    ghost use Rattle.isle_ast.specs.Trees.ExprCode.{let_trees_code};

    ghost laws = { same_coded-equiv let_trees_code };
}

/// Whether two kept items are the same, positions included.
#[cycle(same_item)]
#[tactic(auto, using(crate::proofs::Trees::ItemSizes::most_item_size))]
fn is_same_item(a: &KeptItem, b: &KeptItem) -> bool
    ensures { IsTrue result ↔ (item_of a.now ≡ item_of b.now) }
{
    match (a, b) {
        (KeptItem::Int { val: m, pos: p }, KeptItem::Int { val: n, pos: q }) => *m == *n
            && *p == *q,
        (KeptItem::Big { val: m, pos: p }, KeptItem::Big { val: n, pos: q }) => *m == *n
            && *p == *q,
        (KeptItem::Symbol(x), KeptItem::Symbol(y)) => x == y,
        (KeptItem::At { pos: p }, KeptItem::At { pos: q }) => *p == *q,
        (KeptItem::List { items: s, pos: p }, KeptItem::List { items: t, pos: q }) => {
            are_same_items(s.as_slice(), t.as_slice()) && *p == *q
        }
        _ => false,
    }
}

#[cycle(same_item)]
#[tactic(auto, using(crate::proofs::Trees::ItemSizes::most_item_size, crate::proofs::Trees::TreeShapes::items_compared))]
fn are_same_items(a: &[KeptItem], b: &[KeptItem]) -> bool
    ensures { IsTrue result ↔ (items_of a.now ≡ items_of b.now) }
{
    if a.len() != b.len() {
        return false;
    }
    for i in 0..a.len() {
        if !is_same_item(&a[i], &b[i]) {
            return false;
        }
    }
    true
}

impl PartialEq for KeptItem {
    ghost use Rattle.std.specs.Cmp.{partial_equiv_from_equiv};
    ghost use Rattle.isle_ast.specs.Trees.Equality.{same_item, same_item-equiv};

    ghost eq = { same_item };

    ghost laws = { partial_equiv_from_equiv same_item-equiv };

    fn eq(&self, other: &KeptItem) -> bool {
        is_same_item(self, other)
    }
}

impl Eq for KeptItem {
    ghost use Rattle.isle_ast.specs.Trees.Equality.{same_item-equiv};

    ghost laws = { same_item-equiv };
}

impl PartialEq for KeptItems {
    ghost use Rattle.std.specs.Cmp.{partial_equiv_from_equiv};
    ghost use Rattle.isle_ast.specs.Trees.Equality.{same_coded, same_coded-equiv};
    ghost use Rattle.isle_ast.specs.Trees.ItemCode.{item_trees_code};

    ghost eq = { same_coded item_trees_code };

    ghost laws = { partial_equiv_from_equiv (same_coded-equiv item_trees_code) };

    fn eq(&self, other: &KeptItems) -> bool {
        are_same_items(self.as_slice(), other.as_slice())
    }
}

impl Eq for KeptItems {
    ghost use Rattle.isle_ast.specs.Trees.Equality.{same_coded-equiv};
    ghost use Rattle.isle_ast.specs.Trees.ItemCode.{item_trees_code};

    ghost laws = { same_coded-equiv item_trees_code };
}

impl<T: PartialEq> PartialEq for Seq<T> {
    ghost use Rattle.std.proofs.Common.{rules};
    ghost use Rattle.std.specs.Cmp.Rules.{comparing};
    ghost use Rattle.std.specs.Cmp.Lexicographic.{pointwise};

    ghost eq = { pointwise T.eq };

    ghost laws = { Prim.search (comparing, rules) };

    fn eq(&self, other: &Seq<T>) -> bool {
        self.as_slice() == other.as_slice()
    }
}

impl<T: Eq> Eq for Seq<T> {
    ghost use Rattle.std.proofs.Common.{rules};
    ghost use Rattle.std.specs.Cmp.Rules.{comparing};

    ghost laws = { Prim.search (comparing, rules) };
}

impl Def {
    ghost use Rattle.isle_ast.specs.Trees.DefEquality.{same_def};

    /// Whether two definitions are the same, positions included.
    fn is_same(&self, other: &Def) -> bool
        ensures { result ≡ same_def self.now other.now }
    {
        match (self, other) {
            (Def::TypeDef(a), Def::TypeDef(b)) => a == b,
            (Def::Decl(a), Def::Decl(b)) => a == b,
            (Def::Rule(a), Def::Rule(b)) => a == b,
            (Def::Extractor(a), Def::Extractor(b)) => a == b,
            (Def::Extern(a), Def::Extern(b)) => a == b,
            (Def::Converter(a), Def::Converter(b)) => a == b,
            (Def::Pragma(a), Def::Pragma(b)) => a == b,
            (Def::Kept(a), Def::Kept(b)) => a == b,
            _ => false,
        }
    }
}

impl PartialEq for Def {
    ghost use Rattle.std.specs.Cmp.{partial_equiv_from_equiv};
    ghost use Rattle.isle_ast.specs.Trees.DefEquality.{same_def, same_def-equiv};

    ghost eq = { same_def };

    ghost laws = { partial_equiv_from_equiv same_def-equiv };

    fn eq(&self, other: &Def) -> bool
        ensures answer { result ≡ same_def self.now other.now }
        ensures same { IsTrue result ↔ (self.now ≡ other.now) }
    {
        self.is_same(other)
    }
}

impl Eq for Def {
    ghost use Rattle.isle_ast.specs.Trees.DefEquality.{same_def-equiv};

    ghost laws = { same_def-equiv };
}
