//! Values and their texts, worlds, and queries.
#![tactic(auto)]

pub mod queries;
pub mod values;
pub mod worlds;

pub use queries::{QueryFault, is_blank, query};
pub use values::typing::has_type;
pub use values::{Node, Value, ValueFault};
pub use worlds::{Side, TableWorld, World, WorldFault};
