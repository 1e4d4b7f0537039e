//! The typed rules and terms of ISLE: their trees, the environment that holds them, and visits of them.
#![tactic(auto, using(isle_ast::proofs::Trees::PatternSizes::most_pattern_size, isle_ast::proofs::Trees::ExprSizes::most_expr_size))]

mod clone;
mod env;
mod rules;
mod signatures;
mod terms;
mod visit;

pub use env::TermEnv;
pub use rules::{BoundVar, Expr, IfLet, Pattern, Rule};
pub use signatures::{ExternalSig, ReturnKind};
pub use terms::{ConstructorKind, ExtractorKind, Term, TermFlags, TermKind};
pub use visit::{
    ExprPart, ExprVisitor, PatternPart, PatternVisitor, RuleVisitor, VisitFault, VisitedExpr,
};
