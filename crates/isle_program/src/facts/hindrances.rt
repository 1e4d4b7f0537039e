//! What keeps rules from being run.
ghost use Rattle.std.specs.Prelude.{◌≡◌, map, slice_get};
ghost use Rattle.std.specs.List.{list_any};
ghost use Rattle.isle_types.specs.declared.ids.VarId.{VarId as VarNumber};
ghost use Rattle.isle_types.specs.declared.ids.TypeId.{TypeId as TypeNumber};
ghost use Rattle.isle_rules.specs.declared.rules.Expr.{Expr as SourceExpr};
ghost use Rattle.isle_rules.specs.Shown.ShownRules.{typed_list, typed_shown, built_list, built_shown, binding_list};
ghost use Rattle.isle_rules.specs.Shown.TermTables.{is_multi_in, is_multi_kind};
ghost use Rattle.isle_program.specs.Facts.Reach.{is_data_type, is_hindering_pattern, are_hindering_patterns, is_hindering_expr, are_hindering_exprs};
ghost use Rattle.isle_program.specs.Facts.Reach.{are_hindering_bindings, is_hindering_iflet, is_hindering_rule};

use isle_rules::{Expr, IfLet, Pattern, Rule, Term, TermEnv, TermKind};
use isle_syntax::Boxed;
use isle_types::{TermId, Type, TypeEnv, TypeId, VarId};

/// Whether a rule takes values apart by a multi term, or names a constant of an enum or struct.
pub fn hinders(tyenv: &TypeEnv, termenv: &TermEnv, rule: &Rule) -> bool
    ensures { result ≡ is_hindering_rule tyenv.now termenv.now rule.now }
{
    patterns_hinder(tyenv, termenv, rule.args.as_slice())
        || iflets_hinder(tyenv, termenv, rule.iflets.as_slice())
        || expr_hinders(tyenv, &rule.rhs)
}

/// Whether one of the conditions does.
fn iflets_hinder(tyenv: &TypeEnv, termenv: &TermEnv, iflets: &[IfLet]) -> bool
    ensures { result ≡ list_any (is_hindering_iflet tyenv.now termenv.now) iflets.now }
{
    iflets
        .iter()
        .any(|iflet| iflet_hinders(tyenv, termenv, iflet))
}

/// Whether a condition does.
fn iflet_hinders(tyenv: &TypeEnv, termenv: &TermEnv, iflet: &IfLet) -> bool
    ensures { result ≡ is_hindering_iflet tyenv.now termenv.now iflet.now }
{
    pattern_hinders(tyenv, termenv, &iflet.lhs) || expr_hinders(tyenv, &iflet.rhs)
}

/// Whether a type is an enum or a struct.
fn is_data(tyenv: &TypeEnv, ty: TypeId) -> bool
    ensures { result ≡ is_data_type (slice_get tyenv.now.types ty.0) }
{
    matches!(
        tyenv.get_type(ty),
        Some(Type::Enum { .. } | Type::Struct { .. })
    )
}

/// Whether the term of an id gives any number of answers.
pub fn is_multi(termenv: &TermEnv, term: TermId) -> bool
    ensures { result ≡ is_multi_in termenv.now term.0 }
{
    match termenv.get_term(term) {
        Some(term) => gives_many(term),
        None => false,
    }
}

/// Whether a term gives any number of answers.
pub fn gives_many(term: &Term) -> bool
    ensures { result ≡ is_multi_kind term.now.kind }
{
    match &term.kind {
        TermKind::EnumVariant { .. } | TermKind::Struct => false,
        TermKind::Decl { flags, .. } => flags.multi,
    }
}

/// Whether a pattern takes values apart by a multi term, or names a constant of an enum or struct.
#[cycle(pattern_hinders)]
fn pattern_hinders(tyenv: &TypeEnv, termenv: &TermEnv, pattern: &Pattern) -> bool
    ensures { result ≡ is_hindering_pattern tyenv.now termenv.now (typed_shown tyenv.now.names pattern.now) }
{
    match pattern {
        Pattern::BindPattern(_, _, below) => pattern_hinders(tyenv, termenv, below.get()),
        Pattern::ConstPrim(ty, _) => is_data(tyenv, *ty),
        Pattern::Term(_, term, args) => is_multi(termenv, *term)
            || patterns_hinder(tyenv, termenv, args.as_slice()),
        Pattern::And(_, below) => patterns_hinder(tyenv, termenv, below.as_slice()),
        Pattern::Var(_, _)
        | Pattern::ConstBool(_, _)
        | Pattern::ConstInt(_, _)
        | Pattern::Wildcard(_) => false,
    }
}

/// Whether one of the patterns does.
#[cycle(pattern_hinders)]
fn patterns_hinder(tyenv: &TypeEnv, termenv: &TermEnv, patterns: &[Pattern]) -> bool
    ensures { result ≡ are_hindering_patterns tyenv.now termenv.now (typed_list (map (typed_shown tyenv.now.names) patterns.now)) }
{
    for pattern in patterns {
        if pattern_hinders(tyenv, termenv, pattern) {
            return true;
        }
    }
    false
}

/// Whether an expression names a constant of an enum or struct.
#[cycle(expr_hinders)]
fn expr_hinders(tyenv: &TypeEnv, expr: &Expr) -> bool
    ensures { result ≡ is_hindering_expr tyenv.now (built_shown tyenv.now.names expr.now) }
{
    match expr {
        Expr::Term(_, _, args) => exprs_hinder(tyenv, args.as_slice()),
        Expr::ConstPrim(ty, _) => is_data(tyenv, *ty),
        Expr::Let { bindings, body, .. } => values_hinder(tyenv, bindings.as_slice())
            || expr_hinders(tyenv, body.get()),
        Expr::Var(_, _) | Expr::ConstBool(_, _) | Expr::ConstInt(_, _) => false,
    }
}

/// Whether one of the expressions does.
#[cycle(expr_hinders)]
fn exprs_hinder(tyenv: &TypeEnv, exprs: &[Expr]) -> bool
    ensures { result ≡ are_hindering_exprs tyenv.now (built_list (map (built_shown tyenv.now.names) exprs.now)) }
{
    for expr in exprs {
        if expr_hinders(tyenv, expr) {
            return true;
        }
    }
    false
}

/// Whether a value of a `let` does.
#[cycle(expr_hinders)]
fn values_hinder(tyenv: &TypeEnv, bindings: &[(VarId, TypeId, Boxed<Expr>)]) -> bool
    ensures { result ≡ are_hindering_bindings tyenv.now (binding_list
        (map (λ (binding : VarNumber × TypeNumber × SourceExpr). (binding.0, binding.1, built_shown tyenv.now.names binding.2)) bindings.now)) }
{
    for binding in bindings {
        if expr_hinders(tyenv, binding.2.get()) {
            return true;
        }
    }
    false
}
