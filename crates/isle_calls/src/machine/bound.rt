//! What is bound, by site.

ghost use Rattle.std.specs.Prelude.{◌≡◌, ◌≤◌, ◌+◌, ◌-◌, ℕ, List, [], OnOk, OnErr, length, option_copied, reverse};
ghost use Rattle.std.specs.Vec.{vec_len, vec_capacity};
ghost use Rattle.isle_calls.specs.Inside.Blocks.Bounds.{held_at, place_in, AreIndexed};

use std::alloc::{AllocError, Global};
use std::collections::BTreeMap;
use std::marker::Model;

/// What a site holds, and where what it held before stands.
#[derive(Drop)]
struct BoundSite<T> {
    site: usize,
    held: T,
    before: Option<usize>,
}

/// How many bindings are looked through; those behind them are found by their sites.
const FEW: usize = 16;

/// What sites hold that are bound, in the order in which they were. A site that is bound again holds what it was bound to last.
///
/// It is seen as the list of its bindings, the last first.
#[derive(Drop)]
pub struct Bound<T> {
    bindings: Vec<BoundSite<T>>,
    /// For the sites of the bindings behind the first few, where the last one of each stands.
    places: BTreeMap<usize, usize>,
}

impl<T> Model for Bound<T> {
    ghost use Rattle.std.specs.Prelude.{ℕ, List};
    ghost use Rattle.isle_calls.specs.Inside.Blocks.Bounds.{AreIndexed, shown};

    ghost Value = { List (ℕ × T) };

    ghost view = { λ bound. shown bound.bindings.items };

    ghost invariant = { λ bound. AreIndexed bound.bindings.items bound.places };
}

/// Makes room for one more in a list. One that is empty gets just that: of most lists of a call that waits one item is all, and as
/// many calls wait as are nested.
pub fn make_room<T>(list: &mut Vec<T>) -> Result<(), AllocError>
    ensures items { list.new.items ≡ list.old.items }
    ensures len { vec_len list.new ≡ vec_len list.old }
    ensures ok { OnOk result (vec_len list.new + 1 ≤ vec_capacity list.new) }
{
    if list.is_empty() {
        list.reserve_exact(1)
    } else {
        list.reserve(1)
    }
}

/// Where the last binding of a site stands.
fn place_of<T>(
    bindings: &[BoundSite<T>],
    places: &BTreeMap<usize, usize>,
    site: usize,
) -> Option<usize>
    requires indexed { AreIndexed bindings.now places.now }
    ensures place { result ≡ place_in site (reverse bindings.now) }
{
    match places.get(&site) {
        Some(place) => Some(*place),
        None => place_among(&bindings[..bindings.len().min(FEW)], site),
    }
}

/// The same, all of them looked through from the last one on.
fn place_among<T>(bindings: &[BoundSite<T>], site: usize) -> Option<usize>
    ensures { result ≡ place_in site (reverse bindings.now) }
{
    let mut place = bindings.len();
    while place > 0 {
        place -= 1;
        if bindings[place].site == site {
            return Some(place);
        }
    }
    None
}

impl<T> Bound<T> {
    /// Nothing is bound, which takes no memory.
    pub fn new(alloc: Global) -> Bound<T>
        ensures { result ≡ [] }
    {
        Bound {
            bindings: Vec::new(alloc),
            places: BTreeMap::new(alloc),
        }
    }

    /// How many bindings there are.
    pub fn len(&self) -> usize
        ensures { result ≡ length self.now }
    {
        self.bindings.len()
    }

    /// What a site holds.
    pub fn get(&self, site: usize) -> Option<&T>
        ensures { option_copied result ≡ held_at site self.now }
    {
        let place = place_of(&self.bindings, &self.places, site)?;
        Some(&self.bindings[place].held)
    }
}

impl<T> Bound<T> {
    ghost use Rattle.std.specs.Prelude.{◌∷◌, drop};

    /// A site is bound.
    pub fn bind(&mut self, site: usize, held: T) -> Result<(), AllocError>
    where
        T: Drop,
        ensures bound { OnOk result (self.new ≡ (site, held) ∷ self.old) }
        ensures kept { OnErr result (self.new ≡ self.old) }
    {
        make_room(&mut self.bindings)?;
        let place = self.bindings.len();
        let before = if place < FEW {
            None
        } else {
            self.places.insert(site, place)?
        };
        self.bindings.push(BoundSite { site, held, before })?;
        Ok(())
    }

    /// Goes back to so many bindings, the first ones.
    pub fn back_to(&mut self, count: usize)
    where
        T: Drop,
        ensures { self.new ≡ drop (length self.old - count) self.old }
    {
        while self.len() > count {
            self.undo();
        }
    }

    /// Takes the last binding back.
    fn undo(&mut self)
    where
        T: Drop,
        ensures { self.new ≡ drop 1 self.old }
    {
        if let Some(BoundSite { site, before, .. }) = self.bindings.pop() {
            if self.bindings.len() >= FEW {
                match before {
                    Some(place) => {
                        let _ = self.places.insert(site, place);
                    }
                    None => {
                        self.places.remove(&site);
                    }
                }
            }
        }
    }
}
