//! Sets of items that share no member, for equalities between items.
ghost use Rattle.std.specs.Prelude.{◌≡◌, ◌+◌, ◌≤◌, ◌<◌, ◌^◌, ◌||◌, ◌&&◌, ◌++◌, if◌then◌else◌, not, true, false, length, [], IfOk, OnOk, OnErr, Some};
ghost use Rattle.std.specs.Prelude.{None, IsTrue, ◌↔◌, unwrap_or, IsPermutation, IsSorted};
ghost use Rattle.std.specs.HashMap.{get, spare, IsUnique};
ghost use Rattle.isle_containers.specs.JoinedSets.{set_of, representative, are_joined, comes_together, members, with_member, AreDisjoint, AreSameSets};
ghost use Rattle.isle_containers.specs.JoinedTables.{entered, relabeled, without, members_at, IsReorderedTable};

use std::alloc::{AllocError, Global};
use std::collections::HashMap;
use std::hash::Hash;
use std::marker::Model;

/// Disjoint sets of at least two items each (`cranelift_isle::disjointsets::DisjointSets`). `merge` alone makes a
/// set. One member of each set represents it. The order of the sets, and of a set's members after the first, means
/// nothing.
#[derive(Debug, Drop)]
pub struct DisjointSets<T: Copy + Eq + Hash> {
    // The representative of each member.
    table: HashMap<T, T>,
    alloc: Global,
}

impl<T: Copy + Eq + Hash> Model for DisjointSets<T> {
    ghost use Rattle.std.specs.Prelude.{List};
    ghost use Rattle.isle_containers.specs.JoinedTables.{sets_of, IsJoinedTable};

    ghost Value = { List (List T) };

    ghost view = { λ s. sets_of T.eq s.table.entries };

    ghost invariant = { λ s. IsJoinedTable T.eq s.table.entries };
}

impl<T: Copy + Eq + Hash> DisjointSets<T> {
    /// No sets.
    pub fn new(alloc: Global) -> Self
        ensures { result ≡ [] }
    {
        DisjointSets {
            table: HashMap::new(alloc),
            alloc,
        }
    }

    /// What `find` answers. Upstream shortens its paths here; there are none, so nothing changes.
    pub fn find_mut(&mut self, x: T) -> Option<T>
        ensures found { result ≡ representative T.eq self.old x }
        ensures unchanged { self.new ≡ self.old }
    {
        self.find(x)
    }

    /// The representative of the set that has `x`, the same for each of its members.
    pub fn find(&self, x: T) -> Option<T>
        ensures { result ≡ representative T.eq self.now x }
    {
        self.table.get(&x).copied()
    }

    /// Joins the set of `x`, or `x` alone, with that of `y`, or `y` alone. `x` and `y` must differ. Where memory is
    /// refused, nothing changes.
    pub fn merge(&mut self, x: T, y: T) -> Result<(), AllocError>
        requires { T.eq x y ≡ false }

        // Two items are joined if they were, or if each is x or y or was joined with one of them.
        ensures joined { OnOk result ((a b : T) → are_joined T.eq self.new a b
            ≡ (are_joined T.eq self.old a b || (comes_together T.eq self.old x y a && comes_together T.eq self.old x y b))) }

        // The representative of x, or x itself, represents all of the joined set. The other sets keep theirs.
        ensures represented { OnOk result ((a : T) → representative T.eq self.new a
            ≡ (if comes_together T.eq self.old x y a then Some (unwrap_or (representative T.eq self.old x) x) else representative T.eq self.old a)) }

        // x and y become members where they were none. No other member comes or goes.
        ensures gained { OnOk result (IsPermutation (with_member T.eq (with_member T.eq (members self.old) x) y) (members self.new)) }
        ensures refused { OnErr result (self.new ≡ self.old) }
    {
        self.table.reserve(2)?;
        let kept = enter(&mut self.table, x);
        let merged = enter(&mut self.table, y);
        relabel(&mut self.table, merged, kept);
        Ok(())
    }

    /// Whether one set has both items.
    pub fn in_same_set(&self, x: T, y: T) -> bool
        ensures { result ≡ are_joined T.eq self.now x y }
    {
        match (self.table.get(&x), self.table.get(&y)) {
            (Some(x), Some(y)) => *x == *y,
            _ => false,
        }
    }

    /// Removes the set of `x`, and returns its members, ascending: none if no set has `x`. Where memory is refused,
    /// nothing changes.
    pub fn remove_set_of(&mut self, x: T) -> Result<Vec<T>, AllocError>
    where
        T: Ord,
        ensures members { IfOk result (λ set. IsPermutation (set_of T.eq self.old x) set.items) }
        ensures ascending { IfOk result (λ set. IsSorted T.cmp set.items) }

        // Each member is returned or stays, and the other sets stay as they were.
        ensures parted { IfOk result (λ set. IsPermutation (members self.old) (set.items ++ members self.new)) }
        ensures joined { OnOk result ((a b : T) → are_joined T.eq self.new a b
            ≡ (are_joined T.eq self.old a b && not (are_joined T.eq self.old x a))) }
        ensures represented { OnOk result ((a : T) → representative T.eq self.new a
            ≡ (if are_joined T.eq self.old x a then None else representative T.eq self.old a)) }
        ensures refused { OnErr result (self.new ≡ self.old) }
    {
        let Some(&root) = self.table.get(&x) else {
            return Ok(Vec::new(self.alloc));
        };
        let mut set = gather(&self.table, root, self.alloc)?;
        set.sort_unstable();
        remove_values(&mut self.table, root);
        Ok(set)
    }

    /// Whether there is no set.
    pub fn is_empty(&self) -> bool
        ensures { IsTrue result ↔ (self.now ≡ []) }
    {
        self.table.is_empty()
    }

    /// The number of members of all sets.
    pub fn len(&self) -> usize
        ensures count { result ≡ length (members self.now) }
        ensures small { result < 2 ^ 63 }
        ensures disjoint { AreDisjoint T.eq self.now }
    {
        self.table.len()
    }
}

impl<T: Copy + Eq + Hash> Clone for DisjointSets<T> {
    ghost is_clone = { AreSameSets T.eq };

    fn clone(&self) -> Result<Self, AllocError> {
        let table = copy_of(&self.table, self.alloc)?;
        Ok(DisjointSets {
            table,
            alloc: self.alloc,
        })
    }
}

/// Makes `x` its own representative where it has none, and returns its representative.
fn enter<T: Copy + Eq + Hash>(table: &mut HashMap<T, T>, x: T) -> T
    requires { 0 < spare table.old }
    ensures root { result ≡ unwrap_or (get T.eq table.old x) x }
    ensures entries { IsReorderedTable T.eq (entered T.eq table.old.entries x) table.new.entries }
    ensures room { spare table.old ≤ spare table.new + 1 }
{
    if let Some(root) = table.get(&x) {
        return *root;
    }
    let Ok(_) = table.insert(x, x) else {
        unreachable!()
    };
    x
}

/// Writes `to` over each value that equals `from`.
fn relabel<K: Copy + Eq + Hash, V: Copy + Eq>(table: &mut HashMap<K, V>, from: V, to: V)
    ensures entries { table.new.entries ≡ relabeled V.eq table.old.entries from to }
    ensures unique { IsUnique K.eq table.new }
{
    table.retain(|_, value| {
        if *value == from {
            *value = to;
        }
        true
    });
}

/// Removes each entry whose value equals `root`.
fn remove_values<K: Copy + Eq + Hash, V: Copy + Eq>(table: &mut HashMap<K, V>, root: V)
    ensures { table.new.entries ≡ without V.eq table.old.entries root }
{
    table.retain(|_, value| *value != root);
}

/// The keys whose value equals `root`.
fn gather<T: Copy + Eq + Hash>(
    table: &HashMap<T, T>,
    root: T,
    alloc: Global,
) -> Result<Vec<T>, AllocError>
    ensures { IfOk result (λ found. found.items ≡ members_at T.eq table.now.entries root) }
{
    let mut found = Vec::new(alloc);
    for (member, value) in table {
        if *value == root {
            found.push(*member)?;
        }
    }
    Ok(found)
}

/// A table of the same entries.
fn copy_of<T: Copy + Eq + Hash>(
    table: &HashMap<T, T>,
    alloc: Global,
) -> Result<HashMap<T, T>, AllocError>
    ensures { IfOk result (λ copy. IsPermutation table.now.entries copy.entries) }
{
    let mut copy = HashMap::new(alloc);
    for (member, value) in table {
        copy.insert(*member, *value)?;
    }
    Ok(copy)
}
