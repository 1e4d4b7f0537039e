//! Compiles rule files and answers calls of their terms: all calls of the crates below it, and the laws over them.
#![tactic(auto)]

pub mod laws;

pub use isle_calls::{Answer, Called, Choice, Effect, call, call_plain, trace, trace_plain};
pub use isle_coverage::{Told, Verdict, coverage, missing_text, never_stuck};
pub use isle_program::{Program, Refused, TermId, TypeId, compile};
pub use isle_tell::{place_text, reasons, spaces, trees_graph, trees_text, warnings};
pub use isle_values::{
    Node, QueryFault, Side, TableWorld, Value, ValueFault, World, WorldFault, has_type, is_blank,
    query,
};
