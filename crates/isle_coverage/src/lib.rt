//! Whether each call of a term of a program has a rule.
#![tactic(auto)]

mod calls;
mod complete;
mod deciding;
mod numbered;
mod patterns;
mod rows;
mod sites;
mod stuck;
mod table;
mod verdict;

pub use deciding::coverage;
pub use patterns::missing_text;
pub use stuck::never_stuck;
pub use verdict::{Told, Verdict};
