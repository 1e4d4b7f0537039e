//! The layout of ISLE: S-expressions, how they are printed, and which definitions can be; and texts laid out with their comments.
#![tactic(auto)]

pub mod changes;
pub mod format;
pub mod keep;
pub mod laws;
pub mod layout;
mod nesting;
pub mod pieces;
pub mod printer;
mod rows;
pub mod sexpr;
pub mod to_sexpr;
pub mod writable;
