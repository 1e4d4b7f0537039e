//! Visits of typed expressions, which tell a visitor how values are made.
ghost use Rattle.std.specs.Prelude.{◌≡◌, []};
ghost use Rattle.isle_rules.specs.Visits.Runs.{asks, on_some, stuck, listed};
ghost use Rattle.isle_rules.specs.Visits.VisitScopes.{scope_of, scope_left};
ghost use Rattle.isle_rules.specs.Visits.InternedTrees.{expr_of, exprs_of, bindings_of, term_expr};
ghost use Rattle.isle_rules.specs.Visits.VisitorCalls.{making_of};
ghost use Rattle.isle_rules.specs.Visits.Events.{visits_expr, visits_exprs, visits_bindings};

use crate::env::TermEnv;
use crate::rules::Expr;
use crate::terms::TermKind;
use crate::visit::scope::{bind, copy_of, look_up};
use crate::visit::{ExprVisitor, VisitFault};
use isle_ast::Boxed;
use isle_types::{TermId, TypeId, VarId};
use std::alloc::Global;
use std::collections::HashMap;

/// Tells that a value is made of its arguments, by a term of this kind.
fn make<V: ExprVisitor>(
    visitor: &mut V,
    inputs: Vec<(V::ExprId, TypeId)>,
    ty: TypeId,
    id: TermId,
    kind: &TermKind,
) -> Result<V::ExprId, VisitFault>
    ensures { on_some (making_of kind.now ty id inputs.items) (λ call. asks V.expr_step call) stuck visitor.old result visitor.new }
{
    match kind {
        TermKind::EnumVariant { variant } => visitor.add_create_variant(inputs, ty, *variant),
        TermKind::Struct => visitor.add_create_struct(inputs, ty),
        TermKind::Decl {
            flags,
            constructor_kind,
            ..
        } => match constructor_kind {
            None => Err(VisitFault::Undefined),
            Some(_) => visitor.add_construct(
                inputs,
                ty,
                id,
                flags.pure,
                !flags.partial,
                flags.multi,
                flags.rec,
            ),
        },
    }
}

impl Expr {
    /// Tells the visitor of the expression, and answers its value. `vars` has the variables that it can use.
    #[cycle(visit_expr)]
    pub fn visit<V: ExprVisitor>(
        &self,
        alloc: Global,
        visitor: &mut V,
        termenv: &TermEnv,
        vars: &HashMap<VarId, V::ExprId>,
    ) -> Result<V::ExprId, VisitFault>
        ensures { visits_expr V.expr_step termenv.now.terms (expr_of self.now) (scope_of vars.now) visitor.old result visitor.new }
    {
        match self {
            Expr::Term(ty, id, args) => {
                visit_term(*ty, *id, args.as_slice(), alloc, visitor, termenv, vars)
            }
            Expr::Var(_, var) => match look_up(vars, *var) {
                Some(value) => Ok(value),
                None => Err(VisitFault::Undefined),
            },
            Expr::ConstBool(ty, val) => visitor.add_const_bool(*ty, *val),
            Expr::ConstInt(ty, val) => visitor.add_const_int(*ty, *val),
            Expr::ConstPrim(ty, val) => visitor.add_const_prim(*ty, *val),
            Expr::Let { bindings, body, .. } => {
                let inner = visit_bindings(bindings.as_slice(), alloc, visitor, termenv, vars)?;
                body.get().visit(alloc, visitor, termenv, &inner)
            }
        }
    }
}

/// Tells of a term's arguments, then that it is made of them.
#[cycle(visit_expr)]
fn visit_term<V: ExprVisitor>(
    ty: TypeId,
    id: TermId,
    args: &[Expr],
    alloc: Global,
    visitor: &mut V,
    termenv: &TermEnv,
    vars: &HashMap<VarId, V::ExprId>,
) -> Result<V::ExprId, VisitFault>
    ensures { visits_expr V.expr_step termenv.now.terms (term_expr ty id (exprs_of args.now)) (scope_of vars.now)
        visitor.old result visitor.new }
{
    match termenv.get_term(id) {
        Some(term) => {
            let inputs = visit_all(args, term.arg_tys.as_slice(), alloc, visitor, termenv, vars)?;
            make(visitor, inputs, ty, id, &term.kind)
        }
        None => Err(VisitFault::Undefined),
    }
}

/// Tells of arguments in order, each of which has its type.
#[cycle(visit_expr)]
fn visit_all<V: ExprVisitor>(
    exprs: &[Expr],
    tys: &[TypeId],
    alloc: Global,
    visitor: &mut V,
    termenv: &TermEnv,
    vars: &HashMap<VarId, V::ExprId>,
) -> Result<Vec<(V::ExprId, TypeId)>, VisitFault>
    ensures { visits_exprs V.expr_step termenv.now.terms (exprs_of exprs.now) tys.now [] (scope_of vars.now)
        visitor.old (listed result) visitor.new }
{
    let mut inputs = Vec::new(alloc);
    for i in 0..exprs.len() {
        let expr = &exprs[i];
        if i >= tys.len() {
            return Err(VisitFault::Undefined);
        }
        let value = expr.visit(alloc, visitor, termenv, vars)?;
        inputs.push((value, tys[i]))?;
    }
    Ok(inputs)
}

/// Tells of the values of a `let`, in order, and answers the variables that its body can use.
#[cycle(visit_expr)]
fn visit_bindings<V: ExprVisitor>(
    bindings: &[(VarId, TypeId, Boxed<Expr>)],
    alloc: Global,
    visitor: &mut V,
    termenv: &TermEnv,
    vars: &HashMap<VarId, V::ExprId>,
) -> Result<HashMap<VarId, V::ExprId>, VisitFault>
    ensures { visits_bindings V.expr_step termenv.now.terms (bindings_of bindings.now) (scope_of vars.now)
        visitor.old (scope_left result) visitor.new }
{
    let mut inner = copy_of(alloc, vars)?;
    for i in 0..bindings.len() {
        let binding = &bindings[i];
        let value = binding.2.get().visit(alloc, visitor, termenv, &inner)?;
        bind(&mut inner, binding.0, value)?;
    }
    Ok(inner)
}
