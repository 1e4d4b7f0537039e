//! The terms that rules make values by.
ghost use Rattle.std.specs.Prelude.{◌≡◌, ◌∷◌, ◌++◌, ℕ, List, OnOk, map};
ghost use Rattle.isle_types.specs.declared.ids.VarId.{VarId as VarNumber};
ghost use Rattle.isle_types.specs.declared.ids.TypeId.{TypeId as TypeNumber};
ghost use Rattle.isle_rules.specs.declared.rules.Expr.{Expr as SourceExpr};
ghost use Rattle.isle_rules.specs.Shown.ShownRules.{built_list, built_shown, binding_list};
ghost use Rattle.isle_program.specs.Facts.Reach.{terms_in, terms_in_all, terms_in_bound, terms_in_iflets, terms_made_by};

use isle_rules::{Expr, IfLet, Rule};
use isle_syntax::Boxed;
use isle_types::{TermId, TypeId, VarId};
use std::alloc::AllocError;

/// Adds the terms that a rule makes values by.
pub fn push_made(rule: &Rule, made: &mut Vec<usize>) -> Result<(), AllocError>
    ensures { OnOk result ((names : List (List ℕ)) → made.new.items ≡ made.old.items ++ terms_made_by names rule.now) }
{
    push_of_iflets(rule.iflets.as_slice(), made)?;
    push_of_expr(&rule.rhs, made)
}

/// Adds those of conditions.
fn push_of_iflets(iflets: &[IfLet], made: &mut Vec<usize>) -> Result<(), AllocError>
    ensures { OnOk result ((names : List (List ℕ)) → made.new.items ≡ made.old.items ++ terms_in_iflets names iflets.now) }
{
    for iflet in iflets {
        push_of_expr(&iflet.rhs, made)?;
    }
    Ok(())
}

/// Adds those of an expression.
#[cycle(push_of_expr)]
fn push_of_expr(expr: &Expr, made: &mut Vec<usize>) -> Result<(), AllocError>
    ensures { OnOk result ((names : List (List ℕ)) → made.new.items ≡ made.old.items ++ terms_in (built_shown names expr.now)) }
{
    match expr {
        Expr::Term(_, term, args) => push_of_call(*term, args.as_slice(), made),
        Expr::Let { bindings, body, .. } => {
            push_of_values(bindings.as_slice(), made)?;
            push_of_expr(body.get(), made)
        }
        Expr::Var(_, _) | Expr::ConstBool(_, _) | Expr::ConstInt(_, _) | Expr::ConstPrim(_, _) =>
            Ok(()),
    }
}

/// Adds a term and those of its arguments.
#[cycle(push_of_expr)]
fn push_of_call(term: TermId, args: &[Expr], made: &mut Vec<usize>) -> Result<(), AllocError>
    ensures { OnOk result ((names : List (List ℕ)) → made.new.items
        ≡ made.old.items ++ (term.0 ∷ terms_in_all (built_list (map (built_shown names) args.now)))) }
{
    made.push(term.index())?;
    push_of_exprs(args, made)
}

/// Adds those of expressions.
#[cycle(push_of_expr)]
fn push_of_exprs(exprs: &[Expr], made: &mut Vec<usize>) -> Result<(), AllocError>
    ensures { OnOk result ((names : List (List ℕ)) → made.new.items
        ≡ made.old.items ++ terms_in_all (built_list (map (built_shown names) exprs.now))) }
{
    for expr in exprs {
        push_of_expr(expr, made)?;
    }
    Ok(())
}

/// Adds those of the values of a `let`.
#[cycle(push_of_expr)]
fn push_of_values(
    bindings: &[(VarId, TypeId, Boxed<Expr>)],
    made: &mut Vec<usize>,
) -> Result<(), AllocError>
    ensures { OnOk result ((names : List (List ℕ)) → made.new.items ≡ made.old.items ++ terms_in_bound (binding_list
        (map (λ (binding : VarNumber × TypeNumber × SourceExpr). (binding.0, binding.1, built_shown names binding.2)) bindings.now))) }
{
    for binding in bindings {
        push_of_expr(binding.2.get(), made)?;
    }
    Ok(())
}
