//! A set that numbers its members in the order in which they came.
ghost use Rattle.isle_containers.specs.SortedMaps.{IsSearchResult, entries_at};
ghost use Rattle.isle_containers.specs.SortedSets.{AreUnequal, IsOrderOf, number_in, with_member};
ghost use Rattle.std.specs.List.{insert};
ghost use Rattle.std.specs.Prelude.{◌≡◌, ◌≤◌, ◌<◌, ◌^◌, IfOk, OnErr, OnOk, [], ◌∷◌, ◌++◌, Some, None, length, option_copied, slice_get};

use std::alloc::{AllocError, Global};
use std::cmp::Ordering;
use std::marker::Model;

/// A set that gives each member a number, from 0 on in the order in which they came, and finds a member's number by `K`'s
/// own order.
#[derive(Debug, Drop)]
pub struct SortedSet<K: Ord> {
    members: Vec<K>,
    order: Vec<usize>,
}

impl<K: Ord> Model for SortedSet<K> {
    ghost use Rattle.std.specs.Prelude.{List};
    ghost use Rattle.isle_containers.specs.SortedSets.{IsOrderOf};

    ghost Value = { List K };

    ghost view = { λ set. set.members.items };

    ghost invariant = { λ set. IsOrderOf K.cmp set.members.items set.order.items };
}

impl<K: Ord> SortedSet<K> {
    /// An empty set, which has no memory yet.
    pub fn new(alloc: Global) -> Self
        ensures { result ≡ [] }
    {
        SortedSet {
            members: Vec::new(alloc),
            order: Vec::new(alloc),
        }
    }

    /// An empty set that has room for so many members.
    pub fn with_capacity(alloc: Global, count: usize) -> Result<Self, AllocError>
    where
        K: Drop,
        ensures { IfOk result (λ made. made ≡ []) }
    {
        let members = Vec::with_capacity(alloc, count)?;
        let order = Vec::with_capacity(alloc, count)?;
        Ok(SortedSet { members, order })
    }

    /// How many members there are, no two of which are equal.
    pub fn len(&self) -> usize
        ensures count { result ≡ length self.now }
        ensures small { result < 2 ^ 63 }
        ensures once { AreUnequal K.cmp self.now }
    {
        self.order.len()
    }

    /// The members, each at its number.
    pub fn as_slice(&self) -> &[K]
        ensures { result.now ≡ self.now }
    {
        self.members.as_slice()
    }

    /// The members alone, each at its number.
    pub fn into_vec(self) -> Vec<K>
        ensures { result.items ≡ self }
    {
        let SortedSet {
            members,
            order: _order,
        } = self;
        members
    }

    /// The member with a number.
    pub fn get(&self, number: usize) -> Option<&K>
        ensures { option_copied result ≡ slice_get self.now number }
    {
        self.members.get(number)
    }

    /// The number of the member that is equal to the key.
    pub fn find(&self, key: &K) -> Option<usize>
        ensures { result ≡ number_in K.cmp self.now key.now }
    {
        match search(&self.members, &self.order, key) {
            Ok(at) => Some(self.order[at]),
            Err(_) => None,
        }
    }

    /// Puts the key behind the members, unless one is equal to it, and gives its number. A member that is there stays, and the
    /// key is dropped. Only a new member takes memory.
    pub fn insert(&mut self, key: K) -> Result<usize, AllocError>
    where
        K: Drop,
        ensures number { IfOk result (λ number. number_in K.cmp self.new key ≡ Some number) }
        ensures members { OnOk result (self.new ≡ with_member K.cmp self.old key) }

        // Only a new member is refused.
        ensures err { OnErr result (self.new ≡ self.old) }
        ensures refused { OnErr result (number_in K.cmp self.old key ≡ None) }
    {
        match search(&self.members, &self.order, &key) {
            Ok(at) => Ok(self.order[at]),
            Err(gap) => {
                let number = self.members.len();
                add_member(&mut self.members, &mut self.order, gap, key)?;
                Ok(number)
            }
        }
    }
}

// Adds a member, and its number at a gap in the order. Where memory is refused, nothing changes.
fn add_member<K: Drop>(
    members: &mut Vec<K>,
    order: &mut Vec<usize>,
    gap: usize,
    member: K,
) -> Result<(), AllocError>
    requires { gap ≤ length order.old.items }
    ensures members { OnOk result (members.new.items ≡ members.old.items ++ member ∷ []) }
    ensures order { OnOk result (order.new.items ≡ insert order.old.items gap (length members.old.items)) }
    ensures members_kept { OnErr result (members.new.items ≡ members.old.items) }
    ensures order_kept { OnErr result (order.new.items ≡ order.old.items) }
{
    order.reserve(1)?;
    let number = members.len();
    members.push(member)?;
    order.insert(gap, number)?;
    Ok(())
}

// Where the key's number is in the order, or where it would go.
fn search<K: Ord>(members: &[K], order: &[usize], key: &K) -> Result<usize, usize>
    requires { IsOrderOf K.cmp members.now order.now }
    ensures { IsSearchResult K.cmp key.now (entries_at members.now order.now) result }
{
    let mut low = 0;
    let mut high = order.len();
    while low < high {
        let middle = low + (high - low) / 2;
        match key.cmp(&members[order[middle]]) {
            Ordering::Less => high = middle,
            Ordering::Equal => return Ok(middle),
            Ordering::Greater => low = middle + 1,
        }
    }
    Err(low)
}
