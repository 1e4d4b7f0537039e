//! Compiles rule files, and tells of a program what holds of its terms before any is called.
#![tactic(auto)]

pub mod compiler;
pub mod facts;
pub mod faulty;
pub mod laid;
pub mod program;

pub use compiler::{Refused, compile};
pub use isle_types::{TermId, TypeId};
pub use program::Program;
