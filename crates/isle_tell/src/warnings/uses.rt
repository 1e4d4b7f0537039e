//! Which variables of a typed rule are used.

use isle_ast::{Boxed, Text};
use isle_program::Program;
use isle_rules::{Expr, IfLet, Pattern, Rule};
use isle_types::{StableSet, TypeId, VarId};
use std::alloc::{AllocError, Global};

/// The variables that a rule's patterns bind, those that its `let`s bind, each in order, and which of all are used.
#[derive(Drop)]
pub struct Uses {
    by_pattern: Vec<VarId>,
    by_let: Vec<VarId>,
    used: Vec<bool>,
}

impl Uses {
    /// The uses in a rule.
    pub fn of_rule(alloc: Global, rule: &Rule) -> Result<Uses, AllocError> {
        let mut uses = Uses {
            by_pattern: Vec::new(alloc),
            by_let: Vec::new(alloc),
            used: vec![in alloc; false; rule.vars.as_slice().len()]?,
        };
        read_patterns(rule.args.as_slice(), &mut uses)?;
        read_iflets(rule.iflets.as_slice(), &mut uses)?;
        read_expr(&rule.rhs, &mut uses)?;
        Ok(uses)
    }

    /// Whether a variable is used.
    fn is_used(&self, var: VarId) -> bool {
        match self.used.get(var.index()) {
            Some(used) => *used,
            None => true,
        }
    }

    /// Whether the variable of a `let` is used, by its place among the variables of `let`s.
    pub fn is_let_used(&self, place: usize) -> bool {
        match self.by_let.get(place) {
            Some(var) => self.is_used(*var),
            None => true,
        }
    }

    /// The names of the variables that patterns bind and that are used.
    pub fn names_used(
        &self,
        alloc: Global,
        program: &Program,
        rule: &Rule,
    ) -> Result<StableSet<Text>, AllocError> {
        let mut names = StableSet::new(alloc);
        for var in &self.by_pattern {
            if self.is_used(*var) {
                let name = Text::from_str(alloc, name_of(program, rule, *var))?;
                let _ = names.insert(name)?;
            }
        }
        Ok(names)
    }

    /// Marks a variable as used.
    fn mark(&mut self, var: VarId) {
        let place = var.index();
        if place < self.used.len() {
            self.used[place] = true;
        }
    }
}

/// The name of a rule's variable.
fn name_of<'a>(program: &'a Program, rule: &Rule, var: VarId) -> &'a str {
    match rule.vars.as_slice().get(var.index()) {
        Some(bound) => program.types().sym_name(bound.name),
        None => "",
    }
}

/// Reads conditions.
fn read_iflets(iflets: &[IfLet], uses: &mut Uses) -> Result<(), AllocError> {
    for iflet in iflets {
        read_expr(&iflet.rhs, uses)?;
        read_pattern(&iflet.lhs, uses)?;
    }
    Ok(())
}

/// Reads a pattern.
#[cycle(read_pattern)]
fn read_pattern(pattern: &Pattern, uses: &mut Uses) -> Result<(), AllocError> {
    match pattern {
        Pattern::BindPattern(_, var, below) => {
            uses.by_pattern.push(*var)?;
            read_pattern(below.get(), uses)
        }
        Pattern::Var(_, var) => {
            uses.mark(*var);
            Ok(())
        }
        Pattern::Term(_, _, args) => read_patterns(args.as_slice(), uses),
        Pattern::And(_, subpats) => read_patterns(subpats.as_slice(), uses),
        Pattern::ConstBool(_, _)
        | Pattern::ConstInt(_, _)
        | Pattern::ConstPrim(_, _)
        | Pattern::Wildcard(_) => Ok(()),
    }
}

/// Reads patterns.
#[cycle(read_pattern)]
fn read_patterns(patterns: &[Pattern], uses: &mut Uses) -> Result<(), AllocError> {
    for pattern in patterns {
        read_pattern(pattern, uses)?;
    }
    Ok(())
}

/// Reads an expression.
#[cycle(read_expr)]
fn read_expr(expr: &Expr, uses: &mut Uses) -> Result<(), AllocError> {
    match expr {
        Expr::Term(_, _, args) => read_exprs(args.as_slice(), uses),
        Expr::Var(_, var) => {
            uses.mark(*var);
            Ok(())
        }
        Expr::Let { bindings, body, .. } => {
            read_bindings(bindings.as_slice(), uses)?;
            read_expr(body.get(), uses)
        }
        Expr::ConstBool(_, _) | Expr::ConstInt(_, _) | Expr::ConstPrim(_, _) => Ok(()),
    }
}

/// Reads expressions.
#[cycle(read_expr)]
fn read_exprs(exprs: &[Expr], uses: &mut Uses) -> Result<(), AllocError> {
    for expr in exprs {
        read_expr(expr, uses)?;
    }
    Ok(())
}

/// Reads the variables of a `let`, each behind its value.
#[cycle(read_expr)]
fn read_bindings(
    bindings: &[(VarId, TypeId, Boxed<Expr>)],
    uses: &mut Uses,
) -> Result<(), AllocError> {
    for binding in bindings {
        read_expr(binding.2.get(), uses)?;
        uses.by_let.push(binding.0)?;
    }
    Ok(())
}
