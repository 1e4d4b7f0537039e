//! Warnings of clauses that never fail.
ghost use Rattle.std.specs.Prelude.{◌≡◌, List, All, IfOk, OnOk};
ghost use Rattle.isle_ast.specs.Positions.Files.{SourceFile};
ghost use Rattle.isle_ast.specs.Positions.Printable.{IsPrintablePos};
ghost use Rattle.isle_ast.specs.Positions.DefPositions.{IfLetAt};
ghost use Rattle.isle_tell.specs.Inside.Warnings.{WarningAt};

use crate::warnings::Warning;
use isle_ast::ast::IfLet;
use isle_program::Program;
use isle_program::facts::hindrances::gives_many;
use isle_rules::{Expr, IfLet as TypedIfLet, Pattern};
use std::alloc::{AllocError, Global};

/// Adds the warnings of clauses that ask nothing of what a call gives that always gives something. They were typed as the others.
pub fn warn_of_conditions(
    alloc: Global,
    program: &Program,
    iflets: &[IfLet],
    typed: &[TypedIfLet],
    found: &mut Vec<Warning>,
) -> Result<(), AllocError>
    ensures { OnOk result ((files : List SourceFile) → All (IfLetAt (IsPrintablePos files)) iflets.now
        → All (WarningAt (IsPrintablePos files)) found.old.items
        → All (WarningAt (IsPrintablePos files)) found.new.items) }
{
    for i in 0..iflets.len() {
        warn_of_condition(alloc, program, &iflets[i], typed.get(i), found)?;
    }
    Ok(())
}

/// Adds the warning of such a clause.
fn warn_of_condition(
    alloc: Global,
    program: &Program,
    clause: &IfLet,
    typed: Option<&TypedIfLet>,
    found: &mut Vec<Warning>,
) -> Result<(), AllocError>
    ensures { OnOk result ((files : List SourceFile) → IfLetAt (IsPrintablePos files) clause.now
        → All (WarningAt (IsPrintablePos files)) found.old.items
        → All (WarningAt (IsPrintablePos files)) found.new.items) }
{
    let Some(name) = sure_call(program, typed) else {
        return Ok(());
    };
    found.push(never_fails(alloc, clause, name)?)?;
    Ok(())
}

/// The name of the term that a clause calls and asks nothing of, where that is neither partial nor multi and its arguments call nothing.
fn sure_call<'a>(program: &'a Program, clause: Option<&TypedIfLet>) -> Option<&'a str> {
    let Some(
        TypedIfLet {
            lhs: Pattern::Wildcard(_),
            rhs: Expr::Term(_, term, args),
        },
    ) = clause
    else {
        return None;
    };
    let known = program.terms().get_term(*term)?;
    if known.is_partial() || gives_many(known) || !args.as_slice().iter().all(|arg| is_plain(arg)) {
        return None;
    }
    Some(program.name(*term))
}

/// Whether an expression is a variable or a constant.
fn is_plain(expr: &Expr) -> bool {
    match expr {
        Expr::Var(_, _) | Expr::ConstBool(_, _) | Expr::ConstInt(_, _) | Expr::ConstPrim(_, _) =>
            true,
        Expr::Term(_, _, _) | Expr::Let { .. } => false,
    }
}

/// `g is not partial, so this never fails`.
fn never_fails(alloc: Global, clause: &IfLet, name: &str) -> Result<Warning, AllocError>
    ensures { IfOk result (λ warning. warning.pos ≡ clause.now.pos) }
{
    Ok(Warning {
        pos: clause.pos,
        text: format!(in alloc; "{name} is not partial, so this never fails")?,
    })
}
