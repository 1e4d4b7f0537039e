//! Why a term can't be run, why a query or a world is refused, and why rules have faults, in words. They are tested, and no clause speaks of them.
mod arguments;
mod entries;
mod faults;
mod hindered;
mod misfits;
mod queries;
mod terms;
mod unread;
mod words;

pub use entries::world_reason;
pub use faults::fault_reasons;
pub use queries::query_reason;
pub use terms::term_reason;
