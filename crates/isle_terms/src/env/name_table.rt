//! A table of names, which tells the first place of each in a list.
ghost use Rattle.std.specs.Prelude.{◌≡◌, ℕ, List, [], ◌∷◌, ◌++◌, length, is_some, is_none, IfOk, OnOk};
ghost use Rattle.isle_types.specs.Names.{position_of};
ghost use Rattle.isle_terms.specs.Inside.Collecting.NameTables.{IsTableOf};

use isle_types::StableMap;
use std::alloc::{AllocError, Global};

/// The first place of each name in a list of names.
#[derive(Drop)]
pub struct NameTable {
    alloc: Global,
    places: StableMap<String, usize>,
}

impl NameTable {
    /// The table of no names.
    pub fn new(alloc: Global) -> NameTable
        ensures { IsTableOf [] result }
    {
        NameTable {
            alloc,
            places: StableMap::new(alloc),
        }
    }

    /// The first place of a name.
    pub fn place(&self, name: &str) -> Option<usize>
        ensures { (names : List (List ℕ)) → IsTableOf names self.now → result ≡ position_of names name.now }
    {
        self.places.get_text(name).copied()
    }

    /// Whether a name occurs.
    pub fn has(&self, name: &str) -> bool
        ensures { (names : List (List ℕ)) → IsTableOf names self.now → result ≡ is_some (position_of names name.now) }
    {
        self.place(name).is_some()
    }

    /// Adds the name of the next place, and tells whether it is new.
    pub fn add(&mut self, name: &str, place: usize) -> Result<bool, AllocError>
        ensures new { (names : List (List ℕ)) → IsTableOf names self.old
            → IfOk result (λ new. new ≡ is_none (position_of names name.now)) }
        ensures added { (names : List (List ℕ)) → IsTableOf names self.old → place ≡ length names
            → OnOk result (IsTableOf (names ++ name.now ∷ []) self.new) }
    {
        if self.has(name) {
            return Ok(false);
        }
        let key = String::from_str(self.alloc, name)?;
        self.places.insert(key, place)?;
        Ok(true)
    }
}
