//! The names of symbols.
ghost use Rattle.std.specs.Prelude.{◌≡◌, ◌↔◌, IfOk, IsTrue, length, map, max, nat_eq, string_bytes};
ghost use Rattle.std.specs.List.{list_all};
ghost use Rattle.isle_blocks.specs.Building.Naming.{longest_of, name_by, text_beyond};

use isle_ast::Text;
use isle_types::{Sym, TypeEnv};
use std::alloc::{AllocError, Global};

/// The name of a symbol. A symbol without a name ends as want of memory.
pub fn name_of(alloc: Global, types: &TypeEnv, symbol: Sym) -> Result<Text, AllocError>
    ensures { IfOk result (λ name. name ≡ name_by types.now.names symbol) }
{
    match types.syms().get(symbol.index()) {
        Some(name) => Text::from_str(alloc, name.as_str()),
        None => Err(AllocError),
    }
}

/// Whether a text is the name of a symbol. A symbol without a name has a text of its own.
pub fn is_name(types: &TypeEnv, symbol: Sym, text: &str) -> bool
    ensures { IsTrue result ↔ (name_by types.now.names symbol ≡ text.now) }
{
    match types.syms().get(symbol.index()) {
        Some(name) => name.as_str() == text,
        None => is_beyond(types.syms(), symbol, text),
    }
}

/// Whether a text is that of a symbol without a name: zeros, longer than each name by the symbol's number and one.
fn is_beyond(names: &[String], symbol: Sym, text: &str) -> bool
    ensures { IsTrue result ↔ (text_beyond (map string_bytes names.now) symbol ≡ text.now) }
{
    let bytes = text.as_bytes();
    let length = longest(names) as u128 + 1 + symbol.index() as u128;
    bytes.len() as u128 == length && are_zeros(bytes)
}

/// The length of the longest name.
fn longest(names: &[String]) -> usize
    ensures { result ≡ longest_of (map string_bytes names.now) }
{
    let mut most = 0;
    for name in names {
        most = longer(most, name.as_str());
    }
    most
}

/// The length of a name, or a greater one.
fn longer(most: usize, name: &str) -> usize
    ensures { result ≡ max most (length name.now) }
{
    let length = name.len();
    if most < length { length } else { most }
}

/// Whether bytes are all zero.
fn are_zeros(bytes: &[u8]) -> bool
    ensures { result ≡ list_all (λ byte. nat_eq byte 0) bytes.now }
{
    bytes.iter().all(|byte| *byte == 0)
}
