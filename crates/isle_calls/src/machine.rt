//! The road over trees: a call is answered by the tree of its term.
mod binding;
mod bound;
mod frame;
mod holding;
mod naming;
mod passing;
mod reading;
mod road;
mod testing;
mod traced;

pub use road::call;
pub use traced::trace;
