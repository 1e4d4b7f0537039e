//! A set and a map that can't be walked, so that no result depends on the order of a hashed table.
ghost use Rattle.std.specs.Prelude.{◌≡◌, ◌||◌, [], ◌∷◌, length, not, false, is_some, Some, None, if◌then◌else◌, IsPermutation, MatchBool};
ghost use Rattle.std.specs.Prelude.{MatchOption, IsSome, IfOk, OnOk, OnErr, option_copied};
ghost use Rattle.std.specs.List.{IsDistinct, AllZip};
ghost use Rattle.std.specs.Map.{set_value, KeepsOthers};
ghost use Rattle.std.specs.Iterator.{IsFiniteIterable};
ghost use Rattle.isle_containers.specs.StableMaps.{has, value_at, value_at_text, HasDistinctKeys, AreEntriesOf, AreClones};

use std::alloc::{AllocError, Global};
use std::collections::{HashMap, HashSet};
use std::hash::Hash;
use std::marker::Model;
use std::ops::Index;

/// A set whose members can't be walked: `cranelift_isle::stablemapset::StableSet`.
/// Contracts see it as the list of its members, each once, in an order that means nothing.
#[derive(Debug, Drop)]
pub struct StableSet<T: Eq + Hash>(HashSet<T>);

impl<T: Eq + Hash> Model for StableSet<T> {
    ghost use Rattle.std.specs.Prelude.{List};

    ghost Value = { List T };

    ghost view = { λ s. s.0.keys };
}

impl<T: Eq + Hash> StableSet<T> {
    /// The empty set, which takes its memory from the allocator.
    pub fn new(alloc: Global) -> StableSet<T>
        ensures { result ≡ [] }
    {
        StableSet(HashSet::new(alloc))
    }

    /// Adds the value, and tells whether it is new. A member that is equal to it stays in its stead.
    /// Only a new value can be refused, out of memory.
    pub fn insert(&mut self, val: T) -> Result<bool, AllocError>
    where
        T: Drop,
        ensures added { IfOk result (λ added. added ≡ not (has T.eq self.old val)) }
        ensures has { OnOk result ((x : T) → has T.eq self.new x ≡ (T.eq val x || has T.eq self.old x)) }
        ensures members { IfOk result (λ added. MatchBool added (IsPermutation (val ∷ self.old) self.new) (self.new ≡ self.old)) }
        ensures refused { OnErr result (has T.eq self.old val ≡ false) }
        ensures unchanged { OnErr result (self.new ≡ self.old) }
    {
        Ok(self.0.insert(val)?)
    }

    /// Whether a member is equal to the value.
    pub fn contains(&self, val: &T) -> bool
        ensures { result ≡ has T.eq self.now val.now }
    {
        self.0.contains(val)
    }

    /// How many members there are; no two of them are equal.
    pub fn len(&self) -> usize
        ensures len { result ≡ length self.now }
        ensures distinct { IsDistinct T.eq self.now }
    {
        self.0.len()
    }
}

/// The clone of each member, in its place. Refused out of memory, or where a clone isn't equal to
/// its source.
impl<T: Eq + Hash + Clone> Clone for StableSet<T> {
    ghost is_clone = { λ s n. AllZip T.is_clone s n };

    fn clone(&self) -> Result<StableSet<T>, AllocError> {
        Ok(StableSet(self.0.clone()?))
    }
}

/// A map whose entries can't be walked: `cranelift_isle::stablemapset::StableMap`.
/// Contracts see it as the list of its entries, each key once, in an order that means nothing.
#[derive(Debug, Drop)]
pub struct StableMap<K: Eq + Hash, V>(HashMap<K, V>);

impl<K: Eq + Hash, V> Model for StableMap<K, V> {
    ghost use Rattle.std.specs.Prelude.{List};

    ghost Value = { List (K × V) };

    ghost view = { λ m. m.0.entries };
}

impl<K: Eq + Hash, V> StableMap<K, V> {
    /// The empty map, which takes its memory from the allocator.
    pub fn new(alloc: Global) -> StableMap<K, V>
        ensures { result ≡ [] }
    {
        StableMap(HashMap::new(alloc))
    }

    /// The map of the pairs that the iterator gives, which has to end. Of two pairs with equal keys the
    /// later one counts; it isn't promised which of the two keys stands in the map.
    /// Refused only out of memory. Upstream this is an `impl FromIterator`.
    pub fn from_pairs<I: IntoIterator<Item = (K, V)>>(
        alloc: Global,
        pairs: I,
    ) -> Result<StableMap<K, V>, AllocError>
    where
        K: Drop,
        V: Drop,
        requires ends { IsFiniteIterable I.into_iter_gives I.IntoIter.can_next I.IntoIter.remaining pairs }
        ensures made { IfOk result (AreEntriesOf K.eq I.into_iter_gives I.IntoIter.next_gives pairs) }
    {
        Ok(StableMap(pairs.into_iter().collect(alloc)?))
    }

    /// Puts the value at the key, and gives the value that stood there. A key that is equal to it
    /// stays in its stead. Only a new key can be refused, out of memory.
    pub fn insert(&mut self, k: K, v: V) -> Result<Option<V>, AllocError>
    where
        K: Drop,
        V: Drop,
        ensures old { IfOk result (λ old. old ≡ value_at K.eq self.old k) }
        ensures values { OnOk result ((q : K) → value_at K.eq self.new q ≡ (if K.eq k q then Some v else value_at K.eq self.old q)) }
        ensures entries { IfOk result (λ old. MatchOption old (IsPermutation ((k, v) ∷ self.old) self.new)
            (λ _. self.new ≡ set_value (K.eq k) self.old v)) }
        // A query for other keys, as `get_text` makes, finds what it found before.
        ensures others { OnOk result (KeepsOthers K.eq (K.eq k) self.old self.new) }
        ensures refused { OnErr result (value_at K.eq self.old k ≡ None) }
        ensures unchanged { OnErr result (self.new ≡ self.old) }
    {
        Ok(self.0.insert(k, v)?)
    }

    /// The value at the key.
    pub fn get(&self, k: &K) -> Option<&V>
        ensures { option_copied result ≡ value_at K.eq self.now k.now }
    {
        self.0.get(k)
    }

    /// Whether there is a value at the key.
    pub fn contains_key(&self, k: &K) -> bool
        ensures { result ≡ is_some (value_at K.eq self.now k.now) }
    {
        self.0.contains_key(k)
    }

    /// How many entries there are; no two of them have equal keys.
    pub fn len(&self) -> usize
        ensures len { result ≡ length self.now }
        ensures distinct { HasDistinctKeys K.eq self.now }
    {
        self.0.len()
    }
}

impl<V> StableMap<String, V> {
    /// The value at the key that is this text, which is `get` without a `String`.
    pub fn get_text(&self, key: &str) -> Option<&V>
        ensures { option_copied result ≡ value_at_text self.now key.now }
    {
        self.0.get(key)
    }
}

impl<K: Eq + Hash, V> Index<&K> for StableMap<K, V> {
    type Output = V;

    ghost can_index = { λ m k. IsSome (value_at K.eq m k.now) };

    ghost index_gives = { λ m k v. value_at K.eq m k.now ≡ Some v };

    fn index(&self, k: &K) -> &V {
        &self.0[k]
    }
}

impl<K: Eq + Hash, V> From<HashMap<K, V>> for StableMap<K, V> {
    ghost from_gives = { λ table made. made ≡ table.entries };

    fn from(table: HashMap<K, V>) -> StableMap<K, V> {
        StableMap(table)
    }
}

/// The clone of each entry, in its place. Refused out of memory, or where a key's clone isn't
/// equal to its source.
impl<K: Eq + Hash + Clone, V: Clone> Clone for StableMap<K, V> {
    ghost is_clone = { λ m n. AreClones K.is_clone V.is_clone m n };

    fn clone(&self) -> Result<StableMap<K, V>, AllocError> {
        Ok(StableMap(self.0.clone()?))
    }
}
