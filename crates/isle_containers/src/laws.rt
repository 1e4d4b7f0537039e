//! Laws of the containers, each as a function whose contract states it.
ghost use Rattle.std.specs.List.{IsDistinct};
ghost use Rattle.std.specs.List.Sorted.{IsStrictlySortedBy};
ghost use Rattle.std.specs.Map.{keys_of};
ghost use Rattle.isle_containers.specs.JoinedSets.{AreDisjoint};
ghost use Rattle.isle_containers.specs.StableMaps.{HasDistinctKeys};

use crate::disjointsets::DisjointSets;
use crate::sorted_map::SortedMap;
use crate::stablemapset::{StableMap, StableSet};
use std::hash::Hash;

/// The sets have two members each at least, and no member in common.
pub fn sets_are_disjoint<T: Copy + Eq + Hash>(sets: &DisjointSets<T>)
    ensures { AreDisjoint T.eq sets.now }
{
    sets.len();
}

/// No two members of a set are equal.
pub fn members_stand_once<T: Eq + Hash>(set: &StableSet<T>)
    ensures { IsDistinct T.eq set.now }
{
    set.len();
}

/// No two keys of a map are equal.
pub fn keys_stand_once<K: Eq + Hash, V>(map: &StableMap<K, V>)
    ensures { HasDistinctKeys K.eq map.now }
{
    map.len();
}

/// The keys of a sorted map strictly ascend, so that no two are equal.
pub fn sorted_keys_ascend<K: Ord, V>(map: &SortedMap<K, V>)
    ensures { IsStrictlySortedBy K.cmp (keys_of map.now) }
{
    map.len();
}
