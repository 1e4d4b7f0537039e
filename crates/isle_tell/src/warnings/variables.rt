//! Warnings of the variables of rules.
ghost use Rattle.std.specs.Prelude.{List, All, IfOk, OnOk};
ghost use Rattle.isle_ast.specs.Positions.Files.{SourceFile};
ghost use Rattle.isle_ast.specs.Positions.Printable.{IsPrintablePos};
ghost use Rattle.isle_ast.specs.Positions.DefPositions.{IdentAt, RuleAt, DefAt};
ghost use Rattle.isle_tell.specs.Inside.Warnings.{NameAt, WarningAt};

use crate::warnings::Warning;
use crate::warnings::binders::{PatternName, lets_of_rule, names_of_rule};
use crate::warnings::conditions::warn_of_conditions;
use crate::warnings::messages::{is_silent, unused, warn_of_bare};
use crate::warnings::uses::Uses;
use isle_ast::Text;
use isle_ast::ast::{Def, Ident, Rule};
use isle_program::Program;
use isle_rules::Rule as TypedRule;
use isle_types::StableSet;
use std::alloc::{AllocError, Global};

/// Adds the warnings of all rules.
pub fn warn_of_rules(
    alloc: Global,
    program: &Program,
    defs: &[Def],
    found: &mut Vec<Warning>,
) -> Result<(), AllocError>
    ensures { OnOk result ((files : List SourceFile) → All (DefAt (IsPrintablePos files)) defs.now
        → All (WarningAt (IsPrintablePos files)) found.old.items
        → All (WarningAt (IsPrintablePos files)) found.new.items) }
{
    let rules = rules_in(alloc, defs)?;
    for i in 0..rules.len() {
        if let Some(typed) = program.rules().get(i) {
            warn_of_rule(alloc, program, rules[i], typed, found)?;
        }
    }
    Ok(())
}

/// The rules of definitions, in their order.
fn rules_in(alloc: Global, defs: &[Def]) -> Result<Vec<&Rule>, AllocError>
    ensures { (files : List SourceFile)
        → All (DefAt (IsPrintablePos files)) defs.now → IfOk result (λ rules. All (λ rule. RuleAt (IsPrintablePos files) rule.now) rules.items) }
{
    let mut rules = Vec::new(alloc);
    for def in defs {
        if let Def::Rule(rule) = def {
            rules.push(rule)?;
        }
    }
    Ok(rules)
}

/// Adds the warnings of a rule, which was typed as the other one.
fn warn_of_rule(
    alloc: Global,
    program: &Program,
    rule: &Rule,
    typed: &TypedRule,
    found: &mut Vec<Warning>,
) -> Result<(), AllocError>
    ensures { OnOk result ((files : List SourceFile) → RuleAt (IsPrintablePos files) rule.now → All (WarningAt (IsPrintablePos files)) found.old.items
        → All (WarningAt (IsPrintablePos files)) found.new.items) }
{
    let uses = Uses::of_rule(alloc, typed)?;
    let names = names_of_rule(alloc, rule)?;
    let mut used = uses.names_used(alloc, program, typed)?;
    warn_of_data(alloc, program, names.as_slice(), &mut used, found)?;
    warn_of_names(alloc, names.as_slice(), &used, found)?;
    let lets = lets_of_rule(alloc, rule)?;
    warn_of_lets(alloc, lets.as_slice(), &uses, found)?;
    let typed = typed.iflets.as_slice();
    warn_of_conditions(alloc, program, rule.iflets.as_slice(), typed, found)
}

/// Adds the warnings of names that are a variant's or a struct's. They count as used, and so does a name that stands twice.
fn warn_of_data(
    alloc: Global,
    program: &Program,
    names: &[PatternName<'_>],
    used: &mut StableSet<Text>,
    found: &mut Vec<Warning>,
) -> Result<(), AllocError>
    ensures { OnOk result ((files : List SourceFile) → All (NameAt (IsPrintablePos files)) names.now
        → All (WarningAt (IsPrintablePos files)) found.old.items
        → All (WarningAt (IsPrintablePos files)) found.new.items) }
{
    let mut seen = StableSet::new(alloc);
    for name in names {
        let is_new = seen.insert(name.name.0.clone()?)?;
        if !is_new || warn_of_bare(alloc, program, name.name, found)? {
            let _ = used.insert(name.name.0.clone()?)?;
        }
    }
    Ok(())
}

/// Adds the warnings of the names that aren't used.
fn warn_of_names(
    alloc: Global,
    names: &[PatternName<'_>],
    used: &StableSet<Text>,
    found: &mut Vec<Warning>,
) -> Result<(), AllocError>
    ensures { OnOk result ((files : List SourceFile) → All (NameAt (IsPrintablePos files)) names.now
        → All (WarningAt (IsPrintablePos files)) found.old.items
        → All (WarningAt (IsPrintablePos files)) found.new.items) }
{
    for name in names {
        if !is_silent(name.name) && !used.contains(&name.name.0) {
            found.push(unused(alloc, name.name)?)?;
        }
    }
    Ok(())
}

/// Adds the warnings of the variables of `let`s that aren't used.
fn warn_of_lets(
    alloc: Global,
    lets: &[&Ident],
    uses: &Uses,
    found: &mut Vec<Warning>,
) -> Result<(), AllocError>
    ensures { OnOk result ((files : List SourceFile) → All (λ name. IdentAt (IsPrintablePos files) name.now) lets.now
        → All (WarningAt (IsPrintablePos files)) found.old.items
        → All (WarningAt (IsPrintablePos files)) found.new.items) }
{
    for i in 0..lets.len() {
        if !is_silent(lets[i]) && !uses.is_let_used(i) {
            found.push(unused(alloc, lets[i])?)?;
        }
    }
    Ok(())
}
