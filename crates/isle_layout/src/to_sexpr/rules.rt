//! S-expressions of rules, with their names, priorities and conditions.
ghost use Rattle.std.specs.Prelude.{◌≡◌, ◌++◌, map, IfOk};
ghost use Rattle.std.specs.List.{list_any};
ghost use Rattle.isle_layout.specs.SExprShape.{sexpr_of};
ghost use Rattle.isle_layout.specs.DefSpellings.{rule_name, rule_priority, iflet_sexpr, rule_sexpr, iflet_has_macro_arg, rule_has_macro_arg};

use crate::sexpr::SExpr;
use crate::to_sexpr::exprs::add_expr;
use crate::to_sexpr::list::ListBuilder;
use crate::to_sexpr::numbers::signed;
use crate::to_sexpr::patterns::add_pattern;
use crate::to_sexpr::{HasMacroArg, ToSExpr};
use isle_syntax::Refusal;
use isle_syntax::ast::{Ident, IfLet, Rule};
use std::alloc::{AllocError, Global};

/// A rule.
impl ToSExpr for Rule {
    ghost sexpr = { rule_sexpr };

    ghost macro_arg = { rule_has_macro_arg };

    fn to_sexpr(&self, alloc: Global) -> Result<SExpr, Refusal<HasMacroArg>> {
        if rule_has_macro_arg(self) {
            return Err(Refusal::Fault(HasMacroArg));
        }
        let list = ListBuilder::new(alloc).word("rule")?;
        let list = add_priority(alloc, add_name(list, &self.name)?, &self.prio)?;
        let list = add_pattern(alloc, list, &self.pattern)?;
        let list = add_iflets(alloc, list, self.iflets.as_slice())?;
        Ok(add_expr(alloc, list, &self.expr)?.build())
    }
}

/// A list with a rule's name more, if it has one.
fn add_name(list: ListBuilder, name: &Option<Ident>) -> Result<ListBuilder, AllocError>
    ensures { IfOk result (λ longer. longer ≡ list ++ rule_name name.now) }
{
    match name {
        Some(name) => list.name(name),
        None => Ok(list),
    }
}

/// A list with a rule's priority more, if it has one.
fn add_priority(
    alloc: Global,
    list: ListBuilder,
    priority: &Option<i64>,
) -> Result<ListBuilder, AllocError>
    ensures { IfOk result (λ longer. longer ≡ list ++ rule_priority priority.now) }
{
    match priority {
        Some(priority) => list.item(signed(alloc, *priority as i128)?),
        None => Ok(list),
    }
}

/// A list with a rule's conditions more.
fn add_iflets(alloc: Global, list: ListBuilder, iflets: &[IfLet]) -> Result<ListBuilder, AllocError>
    ensures { IfOk result (λ longer. longer ≡ list ++ map iflet_sexpr iflets.now) }
{
    let mut longer = list;
    for iflet in iflets {
        longer = longer.item(spell_iflet(alloc, iflet)?)?;
    }
    Ok(longer)
}

/// A condition of a rule; a `MacroArg` of its pattern becomes an atom without text.
pub(crate) fn spell_iflet(alloc: Global, iflet: &IfLet) -> Result<SExpr, AllocError>
    ensures { IfOk result (λ sexpr. sexpr_of sexpr ≡ iflet_sexpr iflet.now) }
{
    let list = ListBuilder::new(alloc).word("if-let")?;
    let list = add_pattern(alloc, list, &iflet.pattern)?;
    Ok(add_expr(alloc, list, &iflet.expr)?.build())
}

/// Whether a `MacroArg` occurs in a rule's patterns.
fn rule_has_macro_arg(rule: &Rule) -> bool
    ensures { result ≡ rule_has_macro_arg rule.now }
{
    rule.pattern.has_macro_arg() || any_has_macro_arg(rule.iflets.as_slice())
}

fn any_has_macro_arg(iflets: &[IfLet]) -> bool
    ensures { result ≡ list_any iflet_has_macro_arg iflets.now }
{
    iflets.iter().any(|iflet| iflet.pattern.has_macro_arg())
}
