//! S-expressions, as which trees are printed: atoms, bindings and lists.
ghost use Rattle.std.specs.Prelude.{◌≡◌, IfOk};
ghost use Rattle.isle_layout.specs.SExprShape.{sexpr_of, sexprs_of};

use isle_syntax::Text;
use std::alloc::{AllocError, Global};
use std::marker::Model;

/// An S-expression: what is printed of a tree.
#[cycle(sexpr)]
#[derive(Drop)]
pub enum SExpr {
    /// A symbol or an integer, as it is written.
    Atom(Text),
    /// A name, `@`, and what it is bound to.
    Binding(Text, BoxedSExpr),
    /// What stands between parentheses.
    List(SExprs),
}

/// An S-expression below another, seen as its tree.
#[cycle(sexpr)]
pub struct BoxedSExpr {
    sexpr: Box<SExpr>,
}

// A chain `x @ y @ ..` nests without parentheses, so it is dropped by a loop.
impl Drop for BoxedSExpr {
    #[cycle(drop_sexpr)]
    fn drop(mut self) {
        loop {
            let BoxedSExpr { sexpr } = self;
            match Box::into_inner(sexpr) {
                SExpr::Binding(_, inner) => self = inner,
                _ => return,
            }
        }
    }
}

impl Model for BoxedSExpr {
    ghost use Rattle.isle_layout.specs.SExprTree.{SExprTree, sexpr_height};
    ghost use Rattle.isle_layout.specs.Inside.SExprCode.{sexpr_tree_code};

    ghost Value = { SExprTree };

    ghost coded = { sexpr_tree_code };

    ghost use Rattle.isle_layout.specs.SExprShape.{sexpr_of};

    ghost view = { λ c. sexpr_of c.sexpr.value };

    ghost size = { sexpr_height };

    ghost use Rattle.isle_layout.specs.SExprDecreases.{sexpr_decreases};
    ghost use Rattle.std.proofs.Common.{arith};

    ghost size_decreases = { λ c h. Prim.omega (arith, sexpr_decreases c.sexpr.value) };
}

impl BoxedSExpr {
    /// An S-expression in memory of its own.
    pub fn new(alloc: Global, sexpr: SExpr) -> Result<BoxedSExpr, AllocError>
        ensures { IfOk result (λ boxed. boxed ≡ sexpr_of sexpr) }
    {
        Ok(BoxedSExpr {
            sexpr: Box::new(alloc, sexpr)?,
        })
    }

    /// The S-expression.
    pub fn get(&self) -> &SExpr
        ensures { sexpr_of result.now ≡ self.now }
    {
        &self.sexpr
    }
}

/// The S-expressions of a list, seen as their trees.
#[cycle(sexpr)]
#[derive(Drop)]
pub struct SExprs {
    sexprs: Vec<SExpr>,
}

impl Model for SExprs {
    ghost use Rattle.isle_layout.specs.SExprTree.{SExprTrees, sexpr_heights};
    ghost use Rattle.isle_layout.specs.Inside.SExprCode.{sexpr_trees_code};

    ghost Value = { SExprTrees };

    ghost coded = { sexpr_trees_code };

    ghost use Rattle.isle_layout.specs.SExprShape.{sexprs_of};

    ghost view = { λ c. sexprs_of c.sexprs.items };

    ghost size = { sexpr_heights };

    ghost use Rattle.isle_layout.specs.SExprDecreases.{sexprs_decrease};
    ghost use Rattle.std.proofs.Common.{arith};

    ghost size_decreases = { λ c h. Prim.omega (arith, sexprs_decrease c.sexprs.items) };
}

impl SExprs {
    /// The S-expressions of a `Vec`, which takes no memory.
    pub fn new(sexprs: Vec<SExpr>) -> SExprs
        ensures { result ≡ sexprs_of sexprs.items }
    {
        SExprs { sexprs }
    }

    /// The S-expressions.
    pub fn as_slice(&self) -> &[SExpr]
        ensures { sexprs_of result.now ≡ self.now }
    {
        self.sexprs.as_slice()
    }

    /// The `Vec` inside, which takes no memory.
    pub fn into_vec(self) -> Vec<SExpr>
        ensures { sexprs_of result.items ≡ self }
    {
        self.sexprs
    }
}
