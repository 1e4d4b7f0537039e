//! Maps and sets that can't be walked: what callers know of calls that no library makes.
ghost use Rattle.std.specs.Prelude.{◌≡◌, nat_eq, Some, IsSome, IfOk, string_eq};
ghost use Rattle.isle_containers.specs.StableMaps.{HoldsLastOf, value_at};

use isle_types::{StableMap, StableSet};
use std::alloc::{AllocError, Global};
use std::collections::HashMap;

// What a caller that has its pairs in a `Vec` knows of the map.
fn map_of(alloc: Global, pairs: Vec<(String, u32)>) -> Result<StableMap<String, u32>, AllocError>
    ensures { IfOk result (λ map. HoldsLastOf string_eq pairs.items map) }
{
    StableMap::from_pairs(alloc, pairs)
}

// Where the clone of a member is the member, so is that of a set.
fn copy_of_set(set: &StableSet<u32>) -> Result<StableSet<u32>, AllocError>
    ensures { IfOk result (λ copy. copy ≡ set.now) }
{
    set.clone()
}

// What a caller that has a table knows of the map.
fn map_of_table(table: HashMap<u32, u32>) -> StableMap<u32, u32>
    ensures { result ≡ table.entries }
{
    StableMap::from(table)
}

// What a caller knows of the value at a key that is there.
fn value_of(map: &StableMap<u32, u32>, key: u32) -> u32
    requires { IsSome (value_at nat_eq map.now key) }
    ensures { value_at nat_eq map.now key ≡ Some result }
{
    map[&key]
}

/// Pairs at two texts, the first of them twice.
fn pairs(alloc: Global) -> Result<Vec<(String, u32)>, AllocError> {
    let mut pairs = Vec::new(alloc);
    for (text, value) in [("a", 1), ("b", 2), ("a", 3)] {
        pairs.push((String::from_str(alloc, text)?, value))?;
    }
    Ok(pairs)
}

/// Whether a map of pairs has the last value of each text.
pub fn has_last_values(alloc: Global) -> Result<bool, AllocError> {
    let map = map_of(alloc, pairs(alloc)?)?;
    Ok(
        map.len() == 2
            && map.get_text("a") == Some(&3)
            && map.get_text("b") == Some(&2)
            && map.get_text("c") == None,
    )
}

/// Whether a copy of a set has its member.
pub fn is_copied(alloc: Global) -> Result<bool, AllocError> {
    let mut set = StableSet::new(alloc);
    set.insert(7)?;
    let copy = copy_of_set(&set)?;
    Ok(copy.contains(&7) && copy.len() == 1)
}

/// Whether a map of a table has its value.
pub fn is_of_table(alloc: Global) -> Result<bool, AllocError> {
    let mut table = HashMap::new(alloc);
    table.insert(5u32, 50u32)?;
    let map = map_of_table(table);
    Ok(map.len() == 1 && map.contains_key(&5) && value_of(&map, 5) == 50)
}
