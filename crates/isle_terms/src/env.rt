//! The terms and rules of definitions, stage by stage.

mod bodies;
mod checks;
mod converters;
mod cycles;
mod definitions;
mod from_ast;
mod graph;
mod messages;
mod name_table;
mod named;
mod names;
mod naming;
mod parts;
mod recursion;
mod repeats;
mod report;
mod rule_names;
mod rules;
mod stages;
mod term_numbers;
mod terms;
mod type_terms;

pub use from_ast::FromAst;
