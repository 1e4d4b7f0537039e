//! Visits of typed rules: of their arguments, then of their conditions, then of their right sides.
ghost use Rattle.std.specs.Prelude.{length};
ghost use Rattle.isle_rules.specs.Visits.VisitScopes.{scope_of, scope_left, with_scope, no_values};
ghost use Rattle.isle_rules.specs.Visits.RuleEvents.{visits_var, visits_vars, visits_part, visits_args, visits_value, visits_iflets};
ghost use Rattle.isle_rules.specs.Visits.RuleEvents.{visits_rest, visits_rule};

use crate::env::TermEnv;
use crate::rules::{Expr, IfLet, Pattern, Rule};
use crate::visit::scope::{bind, look_up};
use crate::visit::{ExprPart, ExprVisitor, PatternPart, PatternVisitor, RuleVisitor, VisitFault};
use isle_types::{TypeId, VarId};
use std::alloc::Global;
use std::collections::HashMap;

/// Tells of a pattern of a rule, at a value.
fn visit_pattern<V: RuleVisitor>(
    pattern: &Pattern,
    alloc: Global,
    visitor: &mut V,
    input: <V::PatternVisitor as PatternVisitor>::PatternId,
    termenv: &TermEnv,
    vars: HashMap<VarId, <V::PatternVisitor as PatternVisitor>::PatternId>,
) -> Result<HashMap<VarId, <V::PatternVisitor as PatternVisitor>::PatternId>, VisitFault>
    ensures { visits_part V.rule_steps V.PatternVisitor.pattern_step termenv.now.terms pattern.now input (scope_of vars)
        visitor.old (scope_left result) visitor.new }
{
    visitor.add_pattern(PatternPart {
        pattern,
        alloc,
        input,
        termenv,
        vars,
    })
}

/// Makes a variable's value one of expressions, where the variable is bound.
fn visit_var<V: RuleVisitor>(
    visitor: &mut V,
    vars: &HashMap<VarId, <V::PatternVisitor as PatternVisitor>::PatternId>,
    var: VarId,
    values: &mut HashMap<VarId, <V::ExprVisitor as ExprVisitor>::ExprId>,
) -> Result<(), VisitFault>
    ensures { visits_var V.rule_steps (scope_of vars.now) var (scope_of values.old)
        visitor.old (with_scope result (scope_of values.new)) visitor.new }
{
    match look_up(vars, var) {
        Some(input) => {
            let value = visitor.pattern_as_expr(input)?;
            bind(values, var, value)
        }
        None => Ok(()),
    }
}

/// Makes the values of the variables bound so far ones of expressions, ascending.
fn visit_vars<V: RuleVisitor>(
    alloc: Global,
    visitor: &mut V,
    vars: &HashMap<VarId, <V::PatternVisitor as PatternVisitor>::PatternId>,
    count: usize,
) -> Result<HashMap<VarId, <V::ExprVisitor as ExprVisitor>::ExprId>, VisitFault>
    ensures { visits_vars V.rule_steps (scope_of vars.now) 0 count no_values visitor.old (scope_left result) visitor.new }
{
    let mut values = HashMap::new(alloc);
    for var in 0..count {
        visit_var(visitor, vars, VarId(var), &mut values)?;
    }
    Ok(values)
}

impl Expr {
    /// Tells of an expression of a rule with `count` variables in its patterns, under those bound so far.
    fn visit_in_rule<V: RuleVisitor>(
        &self,
        alloc: Global,
        visitor: &mut V,
        termenv: &TermEnv,
        vars: &HashMap<VarId, <V::PatternVisitor as PatternVisitor>::PatternId>,
        count: usize,
    ) -> Result<V::Expr, VisitFault>
        ensures { visits_value V.rule_steps V.ExprVisitor.expr_step termenv.now.terms count self.now (scope_of vars.now)
            visitor.old result visitor.new }
    {
        let values = visit_vars(alloc, visitor, vars, count)?;
        visitor.add_expr(ExprPart {
            expr: self,
            alloc,
            termenv,
            vars: values,
        })
    }
}

/// Tells of the arguments of a rule, each with its pattern.
fn visit_args<V: RuleVisitor>(
    args: &[Pattern],
    tys: &[TypeId],
    alloc: Global,
    visitor: &mut V,
    termenv: &TermEnv,
) -> Result<HashMap<VarId, <V::PatternVisitor as PatternVisitor>::PatternId>, VisitFault>
    ensures { visits_args V.rule_steps V.PatternVisitor.pattern_step termenv.now.terms args.now tys.now 0 no_values
        visitor.old (scope_left result) visitor.new }
{
    let mut vars = HashMap::new(alloc);
    for i in 0..args.len() {
        let arg = &args[i];
        if i >= tys.len() {
            return Err(VisitFault::Undefined);
        }
        let input = visitor.add_arg(i, tys[i])?;
        vars = visit_pattern(arg, alloc, visitor, input, termenv, vars)?;
    }
    Ok(vars)
}

/// Tells of the conditions of a rule, under the variables of its arguments.
fn visit_iflets<V: RuleVisitor>(
    iflets: &[IfLet],
    alloc: Global,
    visitor: &mut V,
    termenv: &TermEnv,
    vars: HashMap<VarId, <V::PatternVisitor as PatternVisitor>::PatternId>,
    count: usize,
) -> Result<HashMap<VarId, <V::PatternVisitor as PatternVisitor>::PatternId>, VisitFault>
    ensures { visits_iflets V.rule_steps V.PatternVisitor.pattern_step V.ExprVisitor.expr_step termenv.now.terms count iflets.now
        (scope_of vars) visitor.old (scope_left result) visitor.new }
{
    let mut vars = vars;
    for i in 0..iflets.len() {
        let iflet = &iflets[i];
        let value = iflet
            .rhs
            .visit_in_rule(alloc, visitor, termenv, &vars, count)?;
        let input = visitor.expr_as_pattern(value)?;
        vars = visit_pattern(&iflet.lhs, alloc, visitor, input, termenv, vars)?;
    }
    Ok(vars)
}

impl Rule {
    /// Tells the visitor of the rule: of its arguments, its conditions and its right side, whose name is answered.
    pub fn visit<V: RuleVisitor>(
        &self,
        alloc: Global,
        visitor: &mut V,
        termenv: &TermEnv,
    ) -> Result<V::Expr, VisitFault>
        ensures { visits_rule V.rule_steps V.PatternVisitor.pattern_step V.ExprVisitor.expr_step termenv.now.terms self.now
            visitor.old result visitor.new }
    {
        let Some(root) = termenv.get_term(self.root_term) else {
            return Err(VisitFault::Undefined);
        };
        let vars = visit_args(
            self.args.as_slice(),
            root.arg_tys.as_slice(),
            alloc,
            visitor,
            termenv,
        )?;
        self.visit_rest(alloc, visitor, termenv, vars)
    }

    /// Tells of the conditions and the right side, under the variables of the arguments.
    fn visit_rest<V: RuleVisitor>(
        &self,
        alloc: Global,
        visitor: &mut V,
        termenv: &TermEnv,
        vars: HashMap<VarId, <V::PatternVisitor as PatternVisitor>::PatternId>,
    ) -> Result<V::Expr, VisitFault>
        ensures { visits_rest V.rule_steps V.PatternVisitor.pattern_step V.ExprVisitor.expr_step termenv.now.terms self.now
            (scope_of vars) visitor.old result visitor.new }
    {
        let count = self.vars.as_slice().len();
        let vars = visit_iflets(self.iflets.as_slice(), alloc, visitor, termenv, vars, count)?;
        self.rhs
            .visit_in_rule(alloc, visitor, termenv, &vars, count)
    }
}
