//! The values that are met while a call is answered.
ghost use Rattle.std.specs.Prelude.{◌≡◌, ◌↔◌, [], IfOk, IsTrue, OnErr, Some, length, option_copied, slice_get};
ghost use Rattle.isle_types.specs.Names.{AreDistinct};
ghost use Rattle.isle_meaning.specs.Values.{Value as ShownValue};
ghost use Rattle.isle_calls.specs.Stores.Values.{Stands, Extends};
ghost use Rattle.isle_calls.specs.Stores.Tables.{IsFound};

mod printing;
mod sharing;

use isle_ast::{Seq, Text};
use isle_types::{SortedSet, TypeId, VariantId};
use std::alloc::{AllocError, Global};
use std::marker::Model;

/// A value in a store: a leaf, or data with the numbers of its fields.
#[derive(PartialEq, Eq, PartialOrd, Ord, Drop)]
pub enum Stored {
    Bool(bool),
    /// The 128 bits of an integer: a number from 2^127 on is the negative one of its bits.
    Int(i128),
    /// A named constant, without its `$`.
    Const(Text),
    Opaque(u64),
    /// A variant of an enum.
    Variant(TypeId, VariantId, Seq<usize>),
    Struct(TypeId, Seq<usize>),
}

/// The values that are met while a call is answered, each once: equal values have one number, and a copy is a number.
#[derive(Drop)]
pub struct Store {
    alloc: Global,
    values: SortedSet<Stored>,
}

impl Model for Store {
    ghost use Rattle.std.specs.Prelude.{List};
    ghost use Rattle.isle_calls.specs.declared.store.Stored.{Stored};

    ghost Value = { List Stored };

    ghost view = { λ store. store.values };
}

impl Store {
    /// A store without values.
    pub fn new(alloc: Global) -> Store
        ensures { result ≡ [] }
    {
        Store {
            alloc,
            values: SortedSet::new(alloc),
        }
    }

    /// The value of a number.
    pub fn get(&self, number: usize) -> Option<&Stored>
        ensures { option_copied result ≡ slice_get self.now number }
    {
        self.values.get(number)
    }

    /// How many values there are, none of which has two numbers.
    pub fn len(&self) -> usize
        ensures count { result ≡ length self.now }
        ensures once { AreDistinct self.now }
    {
        self.values.len()
    }

    /// Whether two numbers stand for one value.
    pub fn is_same(&self, number: usize, other: usize) -> bool
        ensures { (v w : ShownValue) → Stands self.now v number → Stands self.now w other → IsTrue result ↔ (v ≡ w) }
    {
        let _count = self.values.len();
        number == other
    }

    /// The number of a value, if it is there.
    pub fn find(&self, stored: &Stored) -> Option<usize>
        ensures { IsFound self.now stored.now result }
    {
        self.values.find(stored)
    }

    /// The number of a value.
    pub fn intern(&mut self, stored: Stored) -> Result<usize, AllocError>
        ensures number { IfOk result (λ number. slice_get self.new number ≡ Some stored) }
        ensures kept { Extends self.old self.new }
        ensures refused { OnErr result (self.new ≡ self.old) }
    {
        self.values.insert(stored)
    }
}
