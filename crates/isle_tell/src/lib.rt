//! What a reader of rule files is told of a program: its trees, in words and as a graph, warnings, and why something is refused.
#![tactic(auto)]

pub mod reasons;
mod trees;
pub mod warnings;

pub use trees::graphs::trees_graph;
pub use trees::names::{place_text, spaces};
pub use trees::trees_text;
