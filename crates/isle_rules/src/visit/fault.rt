//! Faults that end a visit early: no room, something that isn't defined, or no memory.
ghost use Rattle.std.specs.Prelude.{◌≡◌};
ghost use Rattle.isle_rules.specs.declared.visit.fault.VisitFault.TheVariants.{Memory};

use std::alloc::{AllocError, AllocFailed};
use thiserror::Error;

/// Why a visit ends early.
#[derive(Debug, Clone, Copy, PartialEq, Eq, Error)]
pub enum VisitFault {
    /// The visitor has no room for what it is told.
    #[error("the rule is too large")]
    Size,
    /// The rule has a variable that isn't bound, or a term that isn't known or can't be used so. Elaboration makes
    /// no such rule.
    #[error("the rule uses what is not defined")]
    Undefined,
    #[error("out of memory")]
    Memory,
}

impl From<AllocError> for VisitFault {
    ghost from_gives = { λ _ fault. fault ≡ Memory };

    fn from(_error: AllocError) -> VisitFault {
        VisitFault::Memory
    }
}

impl<T: Drop> From<AllocFailed<T>> for VisitFault {
    ghost from_gives = { λ _ fault. fault ≡ Memory };

    fn from(_error: AllocFailed<T>) -> VisitFault {
        VisitFault::Memory
    }
}
