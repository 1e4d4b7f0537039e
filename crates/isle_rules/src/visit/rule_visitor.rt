//! The trait of visitors of rules: what one is told of arguments, patterns and expressions.
ghost use Rattle.isle_rules.specs.Visits.VisitScopes.{scope_of, scope_left};
ghost use Rattle.isle_rules.specs.Visits.InternedTrees.{pattern_of};
ghost use Rattle.isle_rules.specs.Visits.Events.{visits};
ghost use Rattle.isle_rules.specs.Visits.RuleSteps.{RuleSteps, in_pattern, in_expr};
ghost use Rattle.isle_rules.specs.Visits.RuleEvents.{visits_typed};

use crate::visit::{ExprPart, ExprVisitor, PatternPart, PatternVisitor, VisitFault};
use isle_types::{TypeId, VarId};
use std::collections::HashMap;

/// What is told of a rule. Each call is one step of the visitor, round the steps of those that it hands out.
pub trait RuleVisitor {
    type PatternVisitor: PatternVisitor;

    type ExprVisitor: ExprVisitor;

    /// The visitor's name for an expression.
    type Expr: Drop;

    ghost rule_steps: { RuleSteps Self Self.PatternVisitor Self.ExprVisitor Self.Expr Self.PatternVisitor.PatternId Self.ExprVisitor.ExprId };

    /// An argument of the rule's term. The answer names its value.
    fn add_arg(
        &mut self,
        index: usize,
        ty: TypeId,
    ) -> Result<<Self::PatternVisitor as PatternVisitor>::PatternId, VisitFault>
        ensures { rule_steps.arg (index, ty) self.old result self.new };

    /// A pattern, of which the part tells a visitor once. What it answers is handed back.
    fn add_pattern(
        &mut self,
        part: PatternPart<'_, Self::PatternVisitor>,
    ) -> Result<HashMap<VarId, <Self::PatternVisitor as PatternVisitor>::PatternId>, VisitFault>
        ensures { in_pattern rule_steps (visits Self.PatternVisitor.pattern_step part.entry.termenv.now.terms
            (pattern_of part.entry.pattern.now) part.entry.input (scope_of part.entry.vars)) self.old (scope_left result) self.new };

    /// An expression, of which the part tells a visitor once.
    fn add_expr(&mut self, part: ExprPart<'_, Self::ExprVisitor>) -> Result<Self::Expr, VisitFault>
        ensures { in_expr rule_steps (visits_typed Self.ExprVisitor.expr_step part.entry.termenv.now.terms
            part.entry.expr.now (scope_of part.entry.vars)) self.old result self.new };

    /// An expression's value is to be matched.
    fn expr_as_pattern(
        &mut self,
        expr: Self::Expr,
    ) -> Result<<Self::PatternVisitor as PatternVisitor>::PatternId, VisitFault>
        ensures { rule_steps.expr_as_pattern expr self.old result self.new };

    /// A value that was matched is used in expressions.
    fn pattern_as_expr(
        &mut self,
        pattern: <Self::PatternVisitor as PatternVisitor>::PatternId,
    ) -> Result<<Self::ExprVisitor as ExprVisitor>::ExprId, VisitFault>
        ensures { rule_steps.pattern_as_expr pattern self.old result self.new };
}
