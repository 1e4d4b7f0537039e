//! The environment of types: the types and constants of definitions, and the names interned for them.
mod errors;
mod fields;
mod lookup;
mod messages;
mod reading;

use crate::ids::{Sym, TypeId};
use crate::symbols::Symbols;
use crate::types::Type;
use isle_ast::error::Error;
use isle_ast::files::Files;
use isle_containers::StableMap;
use std::alloc::Global;
use std::marker::Model;
use std::rc::Rc;

/// The types and constants of a list of definitions, and the names interned for them:
/// `cranelift_isle::sema::TypeEnv`. Contracts see its tables, by name.
#[derive(Debug, Drop)]
pub struct TypeEnv {
    alloc: Global,
    symbols: Symbols,
    types: Vec<Type>,
    type_map: StableMap<Sym, TypeId>,
    const_types: StableMap<Sym, TypeId>,
    errors: Vec<Error>,
    // The source files, for messages.
    files: Option<Rc<Files>>,
}

impl Model for TypeEnv {
    ghost use Rattle.isle_types.specs.TypeTables.{TypeTables, by_name, AreTablesOf};

    ghost Value = { TypeTables };

    ghost view = { λ env. record {
      names = env.symbols;
      types = env.types.items;
      numbers = by_name env.symbols env.type_map;
      constants = by_name env.symbols env.const_types;
      errors = env.errors.items;
    } };

    ghost invariant = { λ env. AreTablesOf env.symbols env.type_map env.const_types };
}
