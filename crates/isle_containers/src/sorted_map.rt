//! A map in ascending order of its keys.
ghost use Rattle.isle_containers.specs.SortedMaps.{IsSearchResult, IsSortedIndex, binary_digits, entries_at};
ghost use Rattle.std.specs.BTreeMap.{insert_entry, is_at};
ghost use Rattle.std.specs.List.Sorted.{IsStrictlySortedBy};
ghost use Rattle.std.specs.List.{insert, position};
ghost use Rattle.std.specs.Map.{keys_of, lookup};
ghost use Rattle.std.specs.Option.{option_copied, option_map};
ghost use Rattle.std.specs.Prelude.{◌≡◌, ◌≤◌, ◌<◌, ◌^◌, IfOk, OnErr, OnOk, [], ◌∷◌, ◌++◌, length, slice_get};

use std::alloc::{AllocError, Global};
use std::cmp::Ordering;
use std::marker::Model;
use std::mem;

/// A map that keeps its entries in ascending order of their keys, by `K`'s own order.
///
/// An entry stays where it was put, and an insertion moves only the numbers that order the entries.
#[derive(Debug, Drop)]
pub struct SortedMap<K: Ord, V> {
    entries: Vec<(K, V)>,
    places: Vec<usize>,
}

impl<K: Ord, V> Model for SortedMap<K, V> {
    ghost use Rattle.std.specs.Prelude.{List};
    ghost use Rattle.isle_containers.specs.SortedMaps.{IsSortedIndex, entries_at};

    ghost Value = { List (K × V) };

    ghost view = { λ map. entries_at map.entries.items map.places.items };

    ghost invariant = { λ map. IsSortedIndex K.cmp map.entries.items map.places.items };
}

impl<K: Ord, V> SortedMap<K, V> {
    /// An empty map, which has no memory yet.
    pub fn new(alloc: Global) -> Self
        ensures { result ≡ [] }
    {
        SortedMap {
            entries: Vec::new(alloc),
            places: Vec::new(alloc),
        }
    }

    /// An empty map that has room for so many entries.
    pub fn with_capacity(alloc: Global, count: usize) -> Result<Self, AllocError>
    where
        K: Drop,
        V: Drop,
        ensures { IfOk result (λ made. made ≡ []) }
    {
        let entries = Vec::with_capacity(alloc, count)?;
        let places = Vec::with_capacity(alloc, count)?;
        Ok(SortedMap { entries, places })
    }

    /// The number of entries.
    pub fn len(&self) -> usize
        ensures count { result ≡ length self.now }
        ensures small { result < 2 ^ 63 }
        ensures ascending { IsStrictlySortedBy K.cmp (keys_of self.now) }
    {
        self.places.len()
    }

    /// The value at the key.
    pub fn get(&self, key: &K) -> Option<&V>
        ensures { option_copied result ≡ lookup (is_at (K.cmp key.now)) self.now }
    {
        match search(&self.entries, &self.places, key).0 {
            Ok(at) => Some(&self.entries[self.places[at]].1),
            Err(_) => None,
        }
    }

    /// The place of the key in ascending order, and the number of comparisons that the search
    /// made. The contract bounds that number, and does not say what it is.
    pub fn find(&self, key: &K) -> (Option<usize>, u32)
        ensures place { result.0 ≡ position (is_at (K.cmp key.now)) (keys_of self.now) }
        ensures comparisons { result.1 ≤ binary_digits (length self.now) }
    {
        let (found, comparisons) = search(&self.entries, &self.places, key);
        (found.ok(), comparisons)
    }

    /// The entry at a place in ascending order of the keys.
    pub fn entry(&self, place: usize) -> Option<(&K, &V)>
        ensures { option_map (λ e. (e.0.now, e.1.now)) result ≡ slice_get self.now place }
    {
        let at = *self.places.get(place)?;
        let entry = &self.entries[at];
        Some((&entry.0, &entry.1))
    }

    /// Puts the value at the key, and hands back the value that stood there. A key that is there
    /// stays, and the new one is dropped. Only a new key takes memory.
    pub fn insert(&mut self, key: K, value: V) -> Result<Option<V>, AllocError>
    where
        K: Drop,
        V: Drop,
        ensures ok { OnOk result (self.new ≡ insert_entry K.cmp self.old key value) }
        ensures replaced { IfOk result (λ old. old ≡ lookup (is_at (K.cmp key)) self.old) }

        // Only a new key is refused.
        ensures err { OnErr result (self.new ≡ self.old) }
        ensures refused { OnErr result (lookup (is_at (K.cmp key)) self.old ≡ None) }
    {
        match search(&self.entries, &self.places, &key).0 {
            Ok(at) => {
                let place = self.places[at];
                Ok(Some(mem::replace(&mut self.entries[place].1, value)))
            }
            Err(gap) => {
                add_entry(&mut self.entries, &mut self.places, gap, (key, value))?;
                Ok(None)
            }
        }
    }
}

// Adds an entry, and its place at a gap between the places. Where memory is refused, nothing changes.
fn add_entry<K: Drop, V: Drop>(
    entries: &mut Vec<(K, V)>,
    places: &mut Vec<usize>,
    gap: usize,
    entry: (K, V),
) -> Result<(), AllocError>
    requires { gap ≤ length places.old.items }
    ensures entries { OnOk result (entries.new.items ≡ entries.old.items ++ entry ∷ []) }
    ensures places { OnOk result (places.new.items ≡ insert places.old.items gap (length entries.old.items)) }
    ensures entries_kept { OnErr result (entries.new.items ≡ entries.old.items) }
    ensures places_kept { OnErr result (places.new.items ≡ places.old.items) }
{
    places.reserve(1)?;
    let place = entries.len();
    entries.push(entry)?;
    places.insert(gap, place)?;
    Ok(())
}

// Where the key is among the places or where it would go, and the number of comparisons.
fn search<K: Ord, V>(entries: &[(K, V)], places: &[usize], key: &K) -> (Result<usize, usize>, u32)
    requires { IsSortedIndex K.cmp entries.now places.now }
    ensures found { IsSearchResult K.cmp key.now (keys_of (entries_at entries.now places.now)) result.0 }
    ensures comparisons { result.1 ≤ binary_digits (length places.now) }
{
    let mut low = 0;
    let mut high = places.len();
    let mut comparisons = 0;
    while low < high {
        let middle = low + (high - low) / 2;
        comparisons += 1;
        match key.cmp(&entries[places[middle]].0) {
            Ordering::Less => high = middle,
            Ordering::Equal => return (Ok(middle), comparisons),
            Ordering::Greater => low = middle + 1,
        }
    }
    (Err(low), comparisons)
}
