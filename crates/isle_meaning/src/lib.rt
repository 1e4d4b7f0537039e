//! The meaning of typed rules and of calls of their terms: definitions, and laws over them.
#![tactic(auto)]

pub mod laws;
