//! What keeps a term from being run by itself.

use isle_program::Program;
use isle_program::facts::hindrances::{hinders, is_multi};
use isle_rules::{IfLet, Pattern, Rule, TermEnv};
use isle_types::TermId;

/// What keeps a term from being run.
#[derive(Clone, Copy)]
pub(super) enum Hindrance {
    /// It is multi.
    Multi,
    /// A rule of it takes values apart by this multi term.
    TakesApart(TermId),
    /// A rule of it names a constant of an enum or struct.
    NamesConstant,
}

/// What keeps a term from being run, of itself or of its rules.
pub(super) fn hindrance_of(program: &Program, term: TermId) -> Option<Hindrance> {
    if is_multi(program.terms(), term) {
        return Some(Hindrance::Multi);
    }
    for place in program.rules_of(term) {
        if let Some(rule) = program.rules().get(*place) {
            if hinders(program.types(), program.terms(), rule) {
                return Some(hindrance_in(program.terms(), rule));
            }
        }
    }
    None
}

/// What a rule does that hinders.
fn hindrance_in(termenv: &TermEnv, rule: &Rule) -> Hindrance {
    match multi_in_rule(termenv, rule) {
        Some(term) => Hindrance::TakesApart(term),
        None => Hindrance::NamesConstant,
    }
}

/// The first multi term by which a rule takes values apart.
fn multi_in_rule(termenv: &TermEnv, rule: &Rule) -> Option<TermId> {
    match multi_in_some(termenv, rule.args.as_slice()) {
        Some(term) => Some(term),
        None => multi_in_iflets(termenv, rule.iflets.as_slice()),
    }
}

/// The first multi term by which a condition takes values apart.
fn multi_in_iflets(termenv: &TermEnv, iflets: &[IfLet]) -> Option<TermId> {
    for iflet in iflets {
        if let Some(term) = multi_in(termenv, &iflet.lhs) {
            return Some(term);
        }
    }
    None
}

/// The first multi term by which a pattern takes values apart.
#[cycle(multi_in)]
fn multi_in(termenv: &TermEnv, pattern: &Pattern) -> Option<TermId> {
    match pattern {
        Pattern::BindPattern(_, _, below) => multi_in(termenv, below.get()),
        Pattern::Term(_, term, args) => {
            if is_multi(termenv, *term) {
                Some(*term)
            } else {
                multi_in_some(termenv, args.as_slice())
            }
        }
        Pattern::And(_, below) => multi_in_some(termenv, below.as_slice()),
        Pattern::Var(_, _)
        | Pattern::ConstBool(_, _)
        | Pattern::ConstInt(_, _)
        | Pattern::ConstPrim(_, _)
        | Pattern::Wildcard(_) => None,
    }
}

/// The first multi term by which one of the patterns does.
#[cycle(multi_in)]
fn multi_in_some(termenv: &TermEnv, patterns: &[Pattern]) -> Option<TermId> {
    for pattern in patterns {
        if let Some(term) = multi_in(termenv, pattern) {
            return Some(term);
        }
    }
    None
}
