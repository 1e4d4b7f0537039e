//! A host that computes on numbers and gives out registers.
ghost use Rattle.std.specs.Prelude.{◌≡◌};

use crate::example::bytes::{byte_in, byte_value, combined_values, taken_apart};
use isle_run::{Value, World};
use std::alloc::{AllocError, Global};

/// A host that answers `checked_add`, `less_than`, `at_most` and `half`, and numbers the registers that `emit` gives out.
#[derive(Debug, Drop)]
pub struct Registers {
    /// The number of the next register.
    pub next: u64,
}

impl Registers {
    /// No register is given out yet.
    pub fn new() -> Registers
        ensures { result.next ≡ 0 }
    {
        Registers { next: 0 }
    }
}

impl World for Registers {
    ghost use Rattle.std.proofs.Common.{refl};
    ghost use Rattle.isle_callers.specs.Registers.{constructed, extracted, Emits};

    ghost constructs = { λ _. constructed };

    ghost extracts = { λ _. extracted };

    ghost step = { Emits };

    fn construct(
        &self,
        alloc: Global,
        term: &str,
        args: &[Value],
    ) -> Result<Option<Value>, AllocError> {
        if args.len() != 2 {
            return Ok(None);
        }
        combined_values(alloc, term, &args[0], &args[1])
    }

    fn extract(
        &self,
        alloc: Global,
        term: &str,
        arg: &Value,
    ) -> Result<Option<Vec<Value>>, AllocError> {
        let Some(number) = byte_in(alloc, arg)? else {
            return Ok(None);
        };
        match taken_apart(term, number) {
            Some(part) => Ok(Some(vec![in alloc; byte_value(alloc, part)?]?)),
            None => Ok(None),
        }
    }

    // The value is made before the count goes on: where memory is refused, no number is lost.
    fn effect(
        &mut self,
        alloc: Global,
        term: &str,
        _args: &[Value],
    ) -> Result<Option<Value>, AllocError> {
        if term != "emit" || self.next == u64::MAX {
            return Ok(None);
        }
        let register = Value::opaque(alloc, self.next)?;
        self.next += 1;
        Ok(Some(register))
    }

    ghost keeps = { λ _ _ _ _ _ _. (refl, refl) };
}
