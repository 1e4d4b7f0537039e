//! Copies of typed trees. Their memory comes from where that of what they copy does.
ghost use Rattle.std.specs.Prelude.{◌≡◌, IfOk};

use crate::rules::{Expr, IfLet, Pattern, Rule};
use isle_ast::{Boxed, Seq};
use isle_types::{TypeId, VarId};
use std::alloc::AllocError;

impl Clone for Rule {
    ghost use Rattle.std.specs.Prelude.{◌≡◌};

    ghost is_clone = { λ x y. y ≡ x };

    fn clone(&self) -> Result<Rule, AllocError> {
        Ok(Rule {
            id: self.id,
            root_term: self.root_term,
            args: clone_patterns(&self.args)?,
            iflets: clone_iflets(&self.iflets)?,
            rhs: self.rhs.clone()?,
            vars: self.vars.clone()?,
            prio: self.prio,
            pos: self.pos,
            name: self.name,
        })
    }
}

fn clone_iflets(iflets: &Seq<IfLet>) -> Result<Seq<IfLet>, AllocError>
    ensures { IfOk result (λ new. new ≡ iflets.now) }
{
    let mut all = iflets.empty_beside();
    for iflet in iflets.as_slice() {
        all.push(iflet.clone()?)?;
    }
    Ok(Seq::new(all))
}

impl Clone for IfLet {
    ghost use Rattle.std.specs.Prelude.{◌≡◌};

    ghost is_clone = { λ x y. y ≡ x };

    fn clone(&self) -> Result<IfLet, AllocError> {
        Ok(IfLet {
            lhs: self.lhs.clone()?,
            rhs: self.rhs.clone()?,
        })
    }
}

impl Clone for Pattern {
    ghost use Rattle.std.specs.Prelude.{◌≡◌};

    ghost is_clone = { λ x y. y ≡ x };

    #[cycle(clone_pattern)]
    fn clone(&self) -> Result<Pattern, AllocError> {
        match self {
            Pattern::BindPattern(ty, var, subpat) => {
                let below = subpat.get().clone()?;
                Ok(Pattern::BindPattern(*ty, *var, subpat.new_beside(below)?))
            }
            Pattern::Var(ty, var) => Ok(Pattern::Var(*ty, *var)),
            Pattern::ConstBool(ty, val) => Ok(Pattern::ConstBool(*ty, *val)),
            Pattern::ConstInt(ty, val) => Ok(Pattern::ConstInt(*ty, *val)),
            Pattern::ConstPrim(ty, val) => Ok(Pattern::ConstPrim(*ty, *val)),
            Pattern::Term(ty, term, args) => Ok(Pattern::Term(*ty, *term, clone_patterns(args)?)),
            Pattern::Wildcard(ty) => Ok(Pattern::Wildcard(*ty)),
            Pattern::And(ty, subpats) => Ok(Pattern::And(*ty, clone_patterns(subpats)?)),
        }
    }
}

#[cycle(clone_pattern)]
fn clone_patterns(patterns: &Seq<Pattern>) -> Result<Seq<Pattern>, AllocError>
    ensures { IfOk result (λ new. new ≡ patterns.now) }
{
    let mut all = patterns.empty_beside();
    for pattern in patterns.as_slice() {
        all.push(pattern.clone()?)?;
    }
    Ok(Seq::new(all))
}

impl Clone for Expr {
    ghost use Rattle.std.specs.Prelude.{◌≡◌};

    ghost is_clone = { λ x y. y ≡ x };

    #[cycle(clone_expr)]
    fn clone(&self) -> Result<Expr, AllocError> {
        match self {
            Expr::Term(ty, term, args) => Ok(Expr::Term(*ty, *term, clone_exprs(args)?)),
            Expr::Var(ty, var) => Ok(Expr::Var(*ty, *var)),
            Expr::ConstBool(ty, val) => Ok(Expr::ConstBool(*ty, *val)),
            Expr::ConstInt(ty, val) => Ok(Expr::ConstInt(*ty, *val)),
            Expr::ConstPrim(ty, val) => Ok(Expr::ConstPrim(*ty, *val)),
            Expr::Let { ty, bindings, body } => {
                let bindings = clone_bindings(bindings)?;
                let below = body.get().clone()?;
                Ok(Expr::Let {
                    ty: *ty,
                    bindings,
                    body: body.new_beside(below)?,
                })
            }
        }
    }
}

#[cycle(clone_expr)]
fn clone_exprs(exprs: &Seq<Expr>) -> Result<Seq<Expr>, AllocError>
    ensures { IfOk result (λ new. new ≡ exprs.now) }
{
    let mut all = exprs.empty_beside();
    for expr in exprs.as_slice() {
        all.push(expr.clone()?)?;
    }
    Ok(Seq::new(all))
}

#[cycle(clone_expr)]
fn clone_bindings(
    bindings: &Seq<(VarId, TypeId, Boxed<Expr>)>,
) -> Result<Seq<(VarId, TypeId, Boxed<Expr>)>, AllocError>
    ensures { IfOk result (λ new. new ≡ bindings.now) }
{
    let mut all = bindings.empty_beside();
    for (var, ty, value) in bindings.as_slice() {
        let copy = value.get().clone()?;
        all.push((*var, *ty, value.new_beside(copy)?))?;
    }
    Ok(Seq::new(all))
}
