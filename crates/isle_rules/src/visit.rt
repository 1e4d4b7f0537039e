//! Visits of typed patterns, expressions and rules: visitors, what they are told, and why a visit ends early.

mod exprs;
mod fault;
mod parts;
mod patterns;
mod rule_visitor;
mod rules;
mod scope;
mod visitors;

pub use fault::VisitFault;
pub use parts::{ExprPart, PatternPart, VisitedExpr};
pub use rule_visitor::RuleVisitor;
pub use visitors::{ExprVisitor, PatternVisitor};
