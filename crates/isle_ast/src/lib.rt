//! Trees of the definitions of ISLE, what is computed of them, and where they stand: positions, source files and errors.
#![tactic(auto)]

pub mod ast;
pub mod error;
pub mod files;
pub mod laws;
mod links;
pub mod pos;
mod refusal;
mod text;

pub use links::{Boxed, Shared};
pub use refusal::Refusal;
pub use text::{Seq, Text};
