//! What the trees of a rule stand for, under the types and terms of all definitions.
pub mod bindings;
pub mod exprs;
pub mod frames;
pub mod messages;
pub mod names;
pub mod patterns;
pub mod rules;

use isle_ast::ast::Pattern;
use isle_ast::pos::Pos;
use isle_rules::TermEnv;
use isle_types::TypeEnv;
use std::alloc::Global;

/// What a rule is read under.
#[derive(Clone, Copy)]
pub struct Context<'a> {
    pub alloc: Global,
    pub tyenv: &'a TypeEnv,
    pub termenv: &'a TermEnv,
    /// How many nodes a rule may have.
    pub max_nodes: usize,
    /// Where the rule stands.
    pub rule: Pos,
    /// The pattern at the root of the rule.
    pub root: &'a Pattern,
}
