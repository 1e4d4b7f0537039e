//! Whether the rules of a term leave no call without a rule, or which calls they leave.
#![tactic(auto)]

mod demand;
mod facts;
mod ids;
pub mod laws;
mod possible;
mod rows;
mod search;
mod sites;

pub use demand::Demand;
pub use facts::Fact;
pub use ids::{SiteId, TestId};
pub use rows::Row;
pub use search::{Coverage, decide};
pub use sites::SiteTests;
