//! Containers whose results depend on no hashed order: sets and maps that can't be walked, sorted ones, and sets that share no member.
#![tactic(auto)]

mod disjointsets;
mod laws;
mod sorted_map;
mod sorted_set;
mod stablemapset;

pub use disjointsets::DisjointSets;
pub use laws::{keys_stand_once, members_stand_once, sets_are_disjoint, sorted_keys_ascend};
pub use sorted_map::SortedMap;
pub use sorted_set::SortedSet;
pub use stablemapset::{StableMap, StableSet};
