//! The plain road: a call is answered by its term's rules, tried one by one.
mod evaluation;
mod fitting;
mod frame;
mod road;
mod traced;
mod variables;

pub use road::call_plain;
pub use traced::trace_plain;
