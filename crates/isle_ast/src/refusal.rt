//! Refusals of calls that take memory: a fault of what they are given, or memory that ran out.
use std::alloc::{AllocError, AllocFailed};

/// Why a call that takes memory refused: a fault of its input, or running out of memory.
#[derive(Debug, Drop)]
pub enum Refusal<E> {
    Fault(E),
    Memory(AllocError),
}

impl<E> From<AllocError> for Refusal<E> {
    ghost use Rattle.std.specs.Prelude.{◌≡◌, alloc_error};
    ghost use Rattle.isle_ast.specs.declared.refusal.Refusal.TheVariants.{Memory};

    ghost from_gives = { λ _ r. r ≡ Memory alloc_error };

    fn from(e: AllocError) -> Refusal<E> {
        Refusal::Memory(e)
    }
}

impl<E, T: Drop> From<AllocFailed<T>> for Refusal<E> {
    ghost use Rattle.std.specs.Prelude.{◌≡◌, alloc_error};
    ghost use Rattle.isle_ast.specs.declared.refusal.Refusal.TheVariants.{Memory};

    ghost from_gives = { λ _ r. r ≡ Memory alloc_error };

    fn from(_e: AllocFailed<T>) -> Refusal<E> {
        Refusal::Memory(AllocError)
    }
}
