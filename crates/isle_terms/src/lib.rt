//! The reading of definitions of ISLE: the terms and typed rules that they make.
#![tactic(auto, using(isle_ast::proofs::Trees::PatternSizes::most_pattern_size, isle_ast::proofs::Trees::ExprSizes::most_expr_size))]

mod env;
pub mod laws;
mod translate;

pub use env::FromAst;
pub use isle_rules::{
    BoundVar, ConstructorKind, Expr, ExprPart, ExprVisitor, ExternalSig, ExtractorKind, IfLet,
    Pattern, PatternPart, PatternVisitor, ReturnKind, Rule, RuleVisitor, Term, TermEnv, TermFlags,
    TermKind, VisitFault, VisitedExpr,
};
