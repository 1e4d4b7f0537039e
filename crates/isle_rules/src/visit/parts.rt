//! Patterns and expressions of a rule that a visitor is still to visit, with the variables that they can use.
ghost use Rattle.isle_rules.specs.Visits.Runs.{answered};
ghost use Rattle.isle_rules.specs.Visits.VisitScopes.{scope_of, scope_left};
ghost use Rattle.isle_rules.specs.Visits.InternedTrees.{pattern_of};
ghost use Rattle.isle_rules.specs.Visits.Events.{visits};
ghost use Rattle.isle_rules.specs.Visits.RuleEvents.{visits_typed};

use crate::env::TermEnv;
use crate::rules::{Expr, Pattern};
use crate::visit::{ExprVisitor, PatternVisitor, VisitFault};
use isle_types::{TypeId, VarId};
use std::alloc::{AllocError, Global};
use std::collections::HashMap;

/// A pattern of a rule that is still to be visited, at a value, under the variables bound before it.
#[derive(Drop)]
pub struct PatternPart<'a, V: PatternVisitor> {
    pub pattern: &'a Pattern,
    pub alloc: Global,
    pub input: V::PatternId,
    pub termenv: &'a TermEnv,
    pub vars: HashMap<VarId, V::PatternId>,
}

impl<'a, V: PatternVisitor> PatternPart<'a, V> {
    /// Tells a visitor of the pattern, and hands the variables back, with those that the pattern binds.
    pub fn visit(self, visitor: &mut V) -> Result<HashMap<VarId, V::PatternId>, VisitFault>
        ensures { visits V.pattern_step self.entry.termenv.now.terms (pattern_of self.entry.pattern.now) self.entry.input
            (scope_of self.entry.vars) visitor.old (scope_left result) visitor.new }
    {
        let PatternPart {
            pattern,
            alloc,
            input,
            termenv,
            vars,
        } = self;
        let mut vars = vars;
        match pattern.visit(alloc, visitor, input, termenv, &mut vars) {
            Ok(()) => Ok(vars),
            Err(fault) => Err(fault),
        }
    }
}

/// What a visitor was told of a whole expression.
#[derive(Drop)]
pub struct VisitedExpr<V: ExprVisitor> {
    pub ty: TypeId,
    pub value: V::ExprId,
}

/// The same type and value, which takes no memory.
impl<V: ExprVisitor> Clone for VisitedExpr<V> {
    ghost use Rattle.std.specs.Prelude.{◌≡◌};

    ghost is_clone = { λ x y. y ≡ x };

    fn clone(&self) -> Result<VisitedExpr<V>, AllocError> {
        Ok(VisitedExpr {
            ty: self.ty,
            value: self.value,
        })
    }
}

/// An expression of a rule that is still to be visited, under the variables that it can use.
#[derive(Drop)]
pub struct ExprPart<'a, V: ExprVisitor> {
    pub expr: &'a Expr,
    pub alloc: Global,
    pub termenv: &'a TermEnv,
    pub vars: HashMap<VarId, V::ExprId>,
}

impl<'a, V: ExprVisitor> ExprPart<'a, V> {
    /// Tells a visitor of the expression, and answers its type and value.
    pub fn visit(self, visitor: &mut V) -> Result<VisitedExpr<V>, VisitFault>
        ensures { visits_typed V.expr_step self.entry.termenv.now.terms self.entry.expr.now (scope_of self.entry.vars)
            visitor.old (answered (λ visited. (visited.ty, visited.value)) result) visitor.new }
    {
        let ExprPart {
            expr,
            alloc,
            termenv,
            vars,
        } = self;
        let value = expr.visit(alloc, visitor, termenv, &vars)?;
        Ok(VisitedExpr {
            ty: expr.ty(),
            value,
        })
    }
}
