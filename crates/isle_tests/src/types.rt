//! Tests of the containers of `isle_types`, and of copies of its types.
mod sorted_maps;
mod stable_maps;

use isle_types::DisjointSets;
use sorted_maps::most_comparisons;
use stable_maps::{has_last_values, is_copied, is_of_table};
use std::alloc::{AllocError, Global};
use std::test::Fail;

/// Whether sets that share an item are one, whose members are removed in ascending order, of a copy alone.
fn are_joined(alloc: Global) -> Result<bool, AllocError> {
    let mut sets: DisjointSets<u32> = DisjointSets::new(alloc);
    sets.merge(1, 2)?;
    sets.merge(4, 3)?;
    sets.merge(2, 4)?;
    let removed = sets.clone()?.remove_set_of(3)?;
    let is_right = removed.as_slice() == [1, 2, 3, 4].as_slice();
    Ok(is_right && sets.find_mut(3) == Some(1) && sets.find(5) == None)
}

/// Keys in order, in the other one, and in none: a search that compares with each would take more comparisons.
#[test]
fn containers_hold_what_is_put(rt: HostRuntime) -> Result<(), Fail> {
    let alloc = rt.alloc();
    let rows: [(&[u32], u32); 4] = [
        (&[], 0),
        (&[1, 2, 3, 4, 5, 6, 7], 3),
        (&[7, 6, 5, 4, 3, 2, 1], 3),
        (&[5, 2, 8, 1, 7, 3, 6, 4], 4),
    ];
    for (keys, most) in rows {
        if most_comparisons(alloc, keys)? != Some(most) {
            return Err(Fail::from("other comparisons"));
        }
    }
    let held = [
        has_last_values(alloc)?,
        is_copied(alloc)?,
        is_of_table(alloc)?,
        are_joined(alloc)?,
    ];
    if held == [true, true, true, true] {
        Ok(())
    } else {
        Err(Fail::from("other values"))
    }
}
