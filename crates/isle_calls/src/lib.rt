//! Calls of terms, by trees and by rules: answers, the calls that are open, the values that they meet, and what the host is asked.
#![tactic(auto)]

pub mod answer;
pub mod choices;
pub mod frames;
pub mod host;
mod machine;
mod plain;
pub mod roads;
pub mod store;
pub mod traced;

pub use answer::{Answer, Called, Effect};
pub use choices::Choice;
pub use machine::{call, trace};
pub use plain::{call_plain, trace_plain};
