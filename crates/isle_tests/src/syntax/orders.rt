//! Orders, hashes and equality, of values that are keys.
use crate::syntax::trees::placed;
use isle_syntax::ast::Def;
use isle_syntax::lexer::Pos;
use std::alloc::{AllocError, Global};
use std::collections::{BTreeMap, HashMap};
use std::hash::Hash;
use std::test::Fail;

/// Whether an ordered table with these keys finds the second one, the least, and not another.
fn are_ordered<K: Ord>(
    alloc: Global,
    keys: &[K],
    second: &K,
    other: &K,
) -> Result<bool, AllocError> {
    let mut table = BTreeMap::new(alloc);
    for (place, key) in keys.iter().enumerate() {
        table.insert(key, place)?;
    }
    let is_found = table.get(&second) == Some(&1) && table.get(&other) == None;
    Ok(is_found && table.keys().next() == Some(&second))
}

/// Whether a hashed table with these keys finds the second one, and not another.
fn are_hashed<K: Eq + Hash>(
    alloc: Global,
    keys: &[K],
    second: &K,
    other: &K,
) -> Result<bool, AllocError> {
    let mut table = HashMap::new(alloc);
    for (place, key) in keys.iter().enumerate() {
        table.insert(key, place)?;
    }
    Ok(table.get(&second) == Some(&1) && table.get(&other) == None)
}

/// Whether values are the keys of tables.
pub fn are_keys<K: Ord + Hash>(
    alloc: Global,
    keys: &[K],
    second: &K,
    other: &K,
) -> Result<bool, AllocError> {
    Ok(are_ordered(alloc, keys, second, other)? && are_hashed(alloc, keys, second, other)?)
}

/// Whether the types of the arguments that a text declares are keys, and not its other type.
pub fn names_are_keys(alloc: Global, text: &str) -> Result<bool, Fail> {
    let defs = placed(alloc, text)?;
    let Some(Def::Decl(decl)) = defs.first() else {
        return Err(Fail::from("a declaration"));
    };
    match decl.arg_tys.as_slice() {
        [_, second, _] => Ok(are_keys(alloc, decl.arg_tys.as_slice(), second, &decl.ret_ty)?),
        _ => Ok(false),
    }
}

pub fn positions_are_keys(alloc: Global) -> Result<bool, AllocError> {
    let keys = [Pos::new(1, 0), Pos::new(0, 2), Pos::new(0, 9)];
    are_keys(alloc, &keys, &Pos::new(0, 2), &Pos::new(9, 0))
}
