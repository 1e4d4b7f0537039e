//! The values of a rule's variables, by their numbers in a store.
ghost use Rattle.std.specs.Prelude.{◌≡◌, ◌==◌, ℕ, OnOk, if◌then◌else◌};
ghost use Rattle.isle_calls.specs.Inside.Plain.Fitting.{number_of_variable};

use isle_types::VarId;
use std::alloc::{AllocError, Global};

/// The numbers of the values of a rule's variables in a store, each at the place of its variable's number.
#[derive(Drop)]
pub struct Variables {
    numbers: Vec<usize>,
    /// The number of the value that a variable has before it is bound.
    unset: usize,
}

impl Variables {
    /// No variable is bound.
    pub fn new(alloc: Global, unset: usize) -> Variables
        ensures { (k : ℕ) → number_of_variable result k ≡ unset }
    {
        Variables {
            numbers: Vec::new(alloc),
            unset,
        }
    }

    /// The number of a variable's value.
    pub fn get(&self, var: VarId) -> usize
        ensures { result ≡ number_of_variable self.now var.0 }
    {
        match self.numbers.get(var.index()) {
            Some(number) => *number,
            None => self.unset,
        }
    }

    /// Gives a variable a value.
    pub fn set(&mut self, var: VarId, number: usize) -> Result<(), AllocError>
        ensures { OnOk result ((k : ℕ) → number_of_variable self.new k ≡ (if k == var.0 then number else number_of_variable self.old k)) }
    {
        while self.numbers.len() <= var.index() {
            self.numbers.push(self.unset)?;
        }
        if let Some(slot) = self.numbers.get_mut(var.index()) {
            *slot = number;
        }
        Ok(())
    }
}
