//! What a rule stands for: the typed patterns of its arguments, its conditions and its right side.
ghost use Rattle.std.specs.Prelude.{◌≡◌, ◌≤◌, length, map, IfOk, IfErr};
ghost use Rattle.isle_ast.specs.Trees.PatternShape.{patterns_of};
ghost use Rattle.isle_terms.specs.Inside.Readings.Outcomes.{stands_for};
ghost use Rattle.isle_terms.specs.Inside.Readings.RuleOutcomes.{read_conditions, read_rule};
ghost use Rattle.isle_rules.specs.Shown.ShownTerms.{flags_shown, term_shown};
ghost use Rattle.isle_rules.specs.Shown.ShownRules.{iflet_shown, greatest};
ghost use Rattle.isle_terms.specs.Inside.Readings.Failures.{Fails};
ghost use Rattle.isle_terms.specs.Inside.Readings.Contexts.{known_in};
ghost use Rattle.isle_terms.specs.Inside.Shown.PartsShown.{parts_shown, parts_limit};
ghost use Rattle.isle_rules.specs.Shown.RulesShown.{iflet_limit};
ghost use Rattle.isle_terms.specs.Inside.Readings.ConditionReading.{read_condition};

use super::Context;
use super::bindings::Bindings;
use super::exprs::translate_expr;
use super::patterns::{translate_args, translate_pattern};
use isle_ast::error::Error;
use isle_ast::pos::Pos;
use isle_ast::{Refusal, ast};
use isle_rules::{Expr, IfLet, Pattern, Term, TermFlags};

/// The typed parts of a rule.
#[derive(Drop)]
pub struct Parts {
    pub args: Vec<Pattern>,
    pub iflets: Vec<IfLet>,
    pub rhs: Expr,
}

/// A condition: its expression, at no type, and then its pattern at that expression's type.
fn translate_condition(
    context: &Context<'_>,
    levels: usize,
    caller: TermFlags,
    tree: &ast::IfLet,
    bindings: &mut Bindings,
) -> Result<IfLet, Refusal<Error>>
    ensures ok { IfOk result (λ made. read_condition (known_in context.now) (flags_shown caller) context.now.max_nodes levels
        tree.now bindings.old ≡ stands_for (iflet_shown context.now.tyenv.now.names made) bindings.new) }
    ensures err { IfErr result (Fails context.now.rule (read_condition (known_in context.now) (flags_shown caller) context.now.max_nodes levels
        tree.now bindings.old)) }
    ensures symbols { IfOk result (λ made. iflet_limit made ≤ length context.now.tyenv.now.names) }
{
    let rhs = translate_expr(context, levels, caller, &tree.expr, None, bindings)?;
    let lhs = translate_pattern(context, levels, &tree.pattern, rhs.ty(), bindings)?;
    Ok(IfLet { lhs, rhs })
}

/// The conditions of a rule, one after the other.
fn translate_conditions(
    context: &Context<'_>,
    levels: usize,
    caller: TermFlags,
    trees: &[ast::IfLet],
    bindings: &mut Bindings,
) -> Result<Vec<IfLet>, Refusal<Error>>
    ensures ok { IfOk result (λ made. read_conditions (known_in context.now) (flags_shown caller) context.now.max_nodes levels
        trees.now bindings.old ≡ stands_for (map (iflet_shown context.now.tyenv.now.names) made.items) bindings.new) }
    ensures err { IfErr result (Fails context.now.rule (read_conditions (known_in context.now) (flags_shown caller) context.now.max_nodes levels
        trees.now bindings.old)) }
    ensures symbols { IfOk result (λ made. greatest (map iflet_limit made.items) ≤ length context.now.tyenv.now.names) }
{
    let mut all = Vec::new(context.alloc);
    for i in 0..trees.len() {
        all.push(translate_condition(context, levels, caller, &trees[i], bindings)?)?;
    }
    Ok(all)
}

/// The parts of a rule of a term, whose pattern has these arguments at a position, and the rule's variables.
pub fn translate_parts(
    context: &Context<'_>,
    levels: usize,
    term: &Term,
    flags: TermFlags,
    pos: Pos,
    args: &[ast::Pattern],
    tree: &ast::Rule,
) -> Result<(Parts, Bindings), Refusal<Error>>
    requires { length args.now ≡ length term.now.arg_tys }
    ensures ok { IfOk result (λ made. read_rule (known_in context.now) context.now.max_nodes levels
        (term_shown context.now.tyenv.now.names term.now) (flags_shown flags) pos (patterns_of args.now) tree.now
        ≡ stands_for (parts_shown context.now.tyenv.now.names made.0) made.1) }
    ensures err { IfErr result (Fails context.now.rule (read_rule (known_in context.now) context.now.max_nodes levels
        (term_shown context.now.tyenv.now.names term.now) (flags_shown flags) pos (patterns_of args.now) tree.now)) }
    ensures symbols { IfOk result (λ made. parts_limit made.0 ≤ length context.now.tyenv.now.names) }
{
    let mut bindings = Bindings::new(context.alloc);
    let tys = term.arg_tys.as_slice();
    let args = translate_args(context, levels, pos, args, tys, &mut bindings)?;
    let conditions = tree.iflets.as_slice();
    let iflets = translate_conditions(context, levels, flags.on_lhs(), conditions, &mut bindings)?;
    let rhs = translate_expr(
        context,
        levels,
        flags,
        &tree.expr,
        Some(term.ret_ty),
        &mut bindings,
    )?;
    Ok((Parts { args, iflets, rhs }, bindings))
}
