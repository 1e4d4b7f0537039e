//! The types of ISLE: ids, builtin and defined types, and the environment that holds them. The containers of `isle_containers` are passed on.
#![tactic(auto)]

mod env;
mod ids;
mod laws;
mod symbols;
mod types;

pub use env::TypeEnv;
pub use ids::{FieldId, RuleId, Sym, TermId, TypeId, VarId, VariantId};
pub use isle_containers::{
    DisjointSets, SortedMap, SortedSet, StableMap, StableSet, keys_stand_once, members_stand_once,
    sets_are_disjoint, sorted_keys_ascend,
};
pub use laws::{
    builtin_ids_are_places, constants_are_builtin_ids, field_ids_are_numbers, rule_ids_are_numbers,
    syms_are_numbers, term_ids_are_numbers, type_ids_are_numbers, var_ids_are_numbers,
    variant_ids_are_numbers,
};
pub use types::{
    BuiltinType, Fields, IntType, StructField, StructFields, TupleField, TupleFields, Type, Variant,
};
