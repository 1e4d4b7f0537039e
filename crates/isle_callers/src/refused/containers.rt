//! Calls of the containers.
use crate::refused::tried::{Tried, push_number};
use isle_types::{DisjointSets, SortedMap, SortedSet, StableMap, StableSet};
use std::alloc::{AllocError, Global};

/// A set of so many numbers.
fn set_of(alloc: Global, size: u64) -> Result<StableSet<u64>, AllocError> {
    let mut set = StableSet::new(alloc);
    for number in 0..size {
        set.insert(number)?;
    }
    Ok(set)
}

/// A set of so many numbers takes in the next one.
pub fn insert_in_set(alloc: Global, size: u64) -> Result<Tried, AllocError> {
    let mut set = set_of(alloc, size)?;
    let inserted = set.insert(size);
    let mut state = format!(in alloc; "{} of", set.len())?;
    for number in 0..=size {
        if set.contains(&number) {
            push_number(alloc, &mut state, number)?;
        }
    }
    Ok(Tried {
        is_answered: inserted.is_ok(),
        state,
    })
}

/// A map of so many numbers, each with itself.
fn map_of(alloc: Global, size: u64) -> Result<StableMap<u64, u64>, AllocError> {
    let mut map = StableMap::new(alloc);
    for number in 0..size {
        map.insert(number, number)?;
    }
    Ok(map)
}

/// A map of so many numbers takes in the next one.
pub fn insert_in_map(alloc: Global, size: u64) -> Result<Tried, AllocError> {
    let mut map = map_of(alloc, size)?;
    let inserted = map.insert(size, size);
    let mut state = format!(in alloc; "{} of", map.len())?;
    for number in 0..=size {
        if let Some(value) = map.get(&number) {
            push_number(alloc, &mut state, *value)?;
        }
    }
    Ok(Tried {
        is_answered: inserted.is_ok(),
        state,
    })
}

/// A sorted map of so many numbers from 1, each with the one before it.
fn sorted_map_of(alloc: Global, size: u64) -> Result<SortedMap<u64, u64>, AllocError> {
    let mut map = SortedMap::new(alloc);
    for number in 0..size {
        map.insert(number.saturating_add(1), number)?;
    }
    Ok(map)
}

/// A sorted map of the numbers from 1 takes in 0, before all others.
pub fn insert_in_sorted(alloc: Global, size: u64) -> Result<Tried, AllocError> {
    let mut map = sorted_map_of(alloc, size)?;
    let inserted = map.insert(0, size);
    let mut state = format!(in alloc; "{} of", map.len())?;
    for place in 0..map.len() {
        if let Some((key, _value)) = map.entry(place) {
            push_number(alloc, &mut state, *key)?;
        }
    }
    Ok(Tried {
        is_answered: inserted.is_ok(),
        state,
    })
}

/// A sorted set of so many numbers from 1.
fn sorted_set_of(alloc: Global, size: u64) -> Result<SortedSet<u64>, AllocError> {
    let mut set = SortedSet::new(alloc);
    for number in 0..size {
        set.insert(number.saturating_add(1))?;
    }
    Ok(set)
}

/// A sorted set of the numbers from 1 takes in 0, which gets the last number.
pub fn insert_in_numbered(alloc: Global, size: u64) -> Result<Tried, AllocError> {
    let mut set = sorted_set_of(alloc, size)?;
    let inserted = set.insert(0);
    let mut state = format!(in alloc; "{} of", set.len())?;
    for member in set.as_slice() {
        push_number(alloc, &mut state, *member)?;
    }
    Ok(Tried {
        is_answered: inserted.is_ok(),
        state,
    })
}

/// Joins the sets of two numbers, if they differ.
fn join(sets: &mut DisjointSets<u64>, one: u64, other: u64) -> Result<(), AllocError> {
    if one != other {
        sets.merge(one, other)?;
    }
    Ok(())
}

/// So many pairs of numbers, 0 and 1 one of them.
fn pairs(alloc: Global, size: u64) -> Result<DisjointSets<u64>, AllocError> {
    let mut sets: DisjointSets<u64> = DisjointSets::new(alloc);
    for number in 0..size {
        let first = number.saturating_mul(2);
        join(&mut sets, first, first.saturating_add(1))?;
    }
    Ok(sets)
}

/// The sets of the numbers up to one: each number behind the first of its set.
fn told_sets(alloc: Global, sets: &DisjointSets<u64>, last: u64) -> Result<String, AllocError> {
    let mut state = format!(in alloc; "{} of", sets.len())?;
    for number in 0..=last {
        if let Some(first) = (0..=last).find(|it| sets.in_same_set(*it, number)) {
            push_number(alloc, &mut state, first)?;
        }
    }
    Ok(state)
}

/// Of so many pairs the first takes in a new number.
pub fn merge(alloc: Global, size: u64) -> Result<Tried, AllocError> {
    let mut sets = pairs(alloc, size)?;
    let new = size.saturating_mul(2);
    let merged = join(&mut sets, 0, new.max(1));
    Ok(Tried {
        is_answered: merged.is_ok(),
        state: told_sets(alloc, &sets, new)?,
    })
}

/// Of so many pairs the first is taken out.
pub fn remove(alloc: Global, size: u64) -> Result<Tried, AllocError> {
    let mut sets = pairs(alloc, size)?;
    let removed = sets.remove_set_of(0);
    Ok(Tried {
        is_answered: removed.is_ok(),
        state: told_sets(alloc, &sets, size.saturating_mul(2))?,
    })
}
