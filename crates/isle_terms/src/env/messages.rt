//! What the type errors of definitions say: names, and where these stand before.

use crate::env::name_table::NameTable;
use crate::env::naming::Named;
use isle_ast::ast::{Converter, Decl, Extractor, Ident, Pattern, Rule};
use isle_ast::pos::Pos;
use isle_types::TypeEnv;
use std::alloc::AllocError;

/// What is ill of a converter.
#[derive(Clone, Copy)]
pub enum IllPart {
    /// Its inner type is not known.
    Inner,
    /// Its outer type is not known.
    Outer,
    /// Its term is not known.
    Term,
    /// There is one of its types already.
    Twice,
}

/// `f is not declared`.
pub fn undeclared(tyenv: &TypeEnv, name: &Ident) -> Result<String, AllocError> {
    let name = name.0.as_str();
    format!(in tyenv.alloc(); "{name} is not declared")
}

/// The root of a rule is no declared term.
pub fn ill_root(tyenv: &TypeEnv, rule: &Rule) -> Result<String, AllocError> {
    match &rule.pattern {
        Pattern::Term { sym, .. } => undeclared(tyenv, sym),
        _ => String::from_str(tyenv.alloc(), "the root of a rule is a term"),
    }
}

/// `f is not declared`, or `f has rules and an external constructor`.
pub fn ill_host(tyenv: &TypeEnv, term: &Ident, declared: &NameTable) -> Result<String, AllocError> {
    let name = term.0.as_str();
    if declared.has(name) {
        format!(in tyenv.alloc(); "{name} has rules and an external constructor")
    } else {
        undeclared(tyenv, term)
    }
}

/// `f is not declared`, or `f is multi and has an internal extractor`.
pub fn ill_extractor(
    tyenv: &TypeEnv,
    term: &Ident,
    declared: &NameTable,
) -> Result<String, AllocError> {
    let name = term.0.as_str();
    if declared.has(name) {
        format!(in tyenv.alloc(); "{name} is multi and has an internal extractor")
    } else {
        undeclared(tyenv, term)
    }
}

/// `f has no rule, extractor or external constructor`.
pub fn unused(tyenv: &TypeEnv, decl: &Decl) -> Result<String, AllocError> {
    let name = decl.term.0.as_str();
    format!(in tyenv.alloc(); "{name} has no rule, extractor or external constructor")
}

/// `f is multi and partial`.
pub fn ill_marked(tyenv: &TypeEnv, decl: &Decl) -> Result<String, AllocError> {
    let name = decl.term.0.as_str();
    format!(in tyenv.alloc(); "{name} is multi and partial")
}

/// The term of the extractor at a position.
fn extractor_at<'a>(extractors: &[&'a Extractor], pos: Pos) -> &'a str {
    for extractor in extractors {
        if extractor.pos == pos {
            return extractor.term.0.as_str();
        }
    }
    "a term"
}

/// `the extractor of f comes to f again`.
pub fn recursive(
    tyenv: &TypeEnv,
    extractors: &[&Extractor],
    pos: Pos,
) -> Result<String, AllocError> {
    let name = extractor_at(extractors, pos);
    format!(in tyenv.alloc(); "the extractor of {name} comes to {name} again")
}

/// What is ill of a converter.
pub fn ill_converter(
    tyenv: &TypeEnv,
    converter: &Converter,
    part: IllPart,
) -> Result<String, AllocError> {
    match part {
        IllPart::Inner => tyenv.unknown_type_text(&converter.inner_ty),
        IllPart::Outer => tyenv.unknown_type_text(&converter.outer_ty),
        IllPart::Term => undeclared(tyenv, &converter.term),
        IllPart::Twice => {
            let inner = converter.inner_ty.0.as_str();
            let outer = converter.outer_ty.0.as_str();
            format!(in tyenv.alloc(); "{inner} has a converter to {outer} already")
        }
    }
}

/// Where the first of a name stands.
fn first_place(
    tyenv: &TypeEnv,
    named: &[Named<'_>],
    table: &NameTable,
    name: &str,
) -> Result<String, AllocError> {
    if let Some(place) = table.place(name) {
        if let Some(first) = named.get(place) {
            return tyenv.at_place(first.pos);
        }
    }
    Ok(String::new(tyenv.alloc()))
}

/// `f is declared already at FILE:LINE:COLUMN`, where `already` says of what the name at a place stands before.
pub fn taken(
    tyenv: &TypeEnv,
    named: &[Named<'_>],
    table: &NameTable,
    place: usize,
    already: &str,
) -> Result<String, AllocError> {
    match named.get(place) {
        Some(one) => {
            let name = one.name;
            let first = first_place(tyenv, named, table, name)?;
            format!(in tyenv.alloc(); "{name} {already}{first}")
        }
        None => String::from_str(tyenv.alloc(), already),
    }
}
