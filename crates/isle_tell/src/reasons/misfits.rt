//! Why a value isn't of a type.

use crate::reasons::words::{Counted, ill_count, listed, shortened};
use isle_program::Program;
use isle_types::{IntType, TypeId};
use isle_values::values::typing::{Kind, data_term, kind_of, node_fits};
use isle_values::{Node, Value};
use std::alloc::{AllocError, Global};

/// Why a value, read at a type, isn't of it; nothing where it is.
pub(super) fn value_reason(
    alloc: Global,
    program: &Program,
    value: &Value,
    ty: TypeId,
) -> Result<Option<String>, AllocError> {
    let nodes = value.nodes();
    let Some((place, wanted)) = first_misfit(alloc, program, nodes, ty)? else {
        return Ok(None);
    };
    match nodes.get(place) {
        Some(node) => {
            let shown = shown(alloc, value, node, place)?;
            let told = misfit_text(alloc, program, node, wanted, shown.as_str())?;
            Ok(Some(told))
        }
        None => Ok(None),
    }
}

/// The place of the first node that isn't of the type that is wanted there, and this type.
fn first_misfit(
    alloc: Global,
    program: &Program,
    nodes: &[Node],
    ty: TypeId,
) -> Result<Option<(usize, TypeId)>, AllocError> {
    let mut wanted = vec![in alloc; ty]?;
    for place in 0..nodes.len() {
        let Some(next) = wanted.pop() else {
            return Ok(None);
        };
        if !fits(program, &nodes[place], next) {
            return Ok(Some((place, next)));
        }
        want_fields(program, &nodes[place], &mut wanted)?;
    }
    Ok(None)
}

/// Whether a node, read at a type, is that of a value of it, with as many fields as that has.
fn fits(program: &Program, node: &Node, ty: TypeId) -> bool {
    match node {
        Node::Big(_) if kind_of(program, ty) == Kind::Primitive => true,
        Node::Data(name, fields, _) => match data_term(program, name.as_str()) {
            Some(term) => term.ret_ty == ty && term.arg_tys.as_slice().len() == *fields,
            None => false,
        },
        _ => node_fits(program, node, ty),
    }
}

/// Adds the types of a node's fields, the last one first.
fn want_fields(program: &Program, node: &Node, wanted: &mut Vec<TypeId>) -> Result<(), AllocError> {
    let Node::Data(name, _, _) = node else {
        return Ok(());
    };
    if let Some(term) = data_term(program, name.as_str()) {
        for ty in term.arg_tys.as_slice().iter().rev() {
            wanted.push(*ty)?;
        }
    }
    Ok(())
}

/// How the node at a place of a value is told: the whole value by its text, a part of it without its fields.
fn shown(alloc: Global, value: &Value, node: &Node, place: usize) -> Result<String, AllocError> {
    if place == 0 {
        let text = value.print(alloc)?;
        shortened(alloc, text.as_str())
    } else {
        node_shown(alloc, node)
    }
}

/// A node without its fields: `5`, `(T.A)` or `(T.B ..)`.
fn node_shown(alloc: Global, node: &Node) -> Result<String, AllocError> {
    match node {
        Node::Bool(b) => String::from_str(alloc, if *b { "true" } else { "false" }),
        Node::Int(n) => {
            let n = *n;
            n.to_string(alloc)
        }
        Node::Big(n) => n.to_string(alloc),
        Node::Const(name) => {
            let name = name.as_str();
            format!(in alloc; "${name}")
        }
        Node::Opaque(n) => {
            let n = *n;
            format!(in alloc; "v{n}")
        }
        Node::Data(name, fields, _) => listed(alloc, name.as_str(), *fields == 0),
    }
}

/// Why a node, which is shown so, isn't of a type.
fn misfit_text(
    alloc: Global,
    program: &Program,
    node: &Node,
    ty: TypeId,
    shown: &str,
) -> Result<String, AllocError> {
    match node {
        Node::Data(name, fields, _) => {
            data_misfit(alloc, program, name.as_str(), *fields, ty, shown)
        }
        Node::Const(name) => constant_misfit(alloc, program, name.as_str(), ty, shown),
        Node::Int(_) | Node::Big(_) => integer_misfit(alloc, program, ty, shown),
        Node::Bool(_) | Node::Opaque(_) => not_of_type(alloc, program, ty, shown),
    }
}

/// Why data of a name and so many fields isn't of a type: `(T.B ..) takes 1 field, 2 are given`.
fn data_misfit(
    alloc: Global,
    program: &Program,
    name: &str,
    fields: usize,
    ty: TypeId,
    shown: &str,
) -> Result<String, AllocError> {
    let list = listed(alloc, name, fields == 0)?;
    match data_term(program, name) {
        Some(term) if term.ret_ty == ty => {
            let takes = term.arg_tys.as_slice().len();
            ill_count(alloc, list.as_str(), Counted::Fields, takes, fields)
        }
        Some(_) => not_of_type(alloc, program, ty, shown),
        None => {
            if program.term(name).is_some() {
                let list = list.as_str();
                format!(in alloc; "{list} is a call, and no value")
            } else {
                format!(in alloc; "{name} is the name of no variant or struct")
            }
        }
    }
}

/// Why a constant isn't of a type: `$X is not declared`.
fn constant_misfit(
    alloc: Global,
    program: &Program,
    name: &str,
    ty: TypeId,
    shown: &str,
) -> Result<String, AllocError> {
    match program.types().const_type(name) {
        None => format!(in alloc; "{shown} is not declared"),
        Some(known) if known == ty => {
            format!(in alloc; "{shown} is a constant of an enum or struct, and no value")
        }
        Some(_) => not_of_type(alloc, program, ty, shown),
    }
}

/// `300 is not a u8 (0 to 255)`.
fn integer_misfit(
    alloc: Global,
    program: &Program,
    ty: TypeId,
    shown: &str,
) -> Result<String, AllocError> {
    match kind_of(program, ty) {
        Kind::Int(int) => {
            let article = article(int);
            let name = int.name();
            let bounds = int.bounds();
            format!(in alloc; "{shown} is not {article} {name} ({bounds})")
        }
        Kind::Bool | Kind::Primitive | Kind::Data | Kind::None => {
            not_of_type(alloc, program, ty, shown)
        }
    }
}

/// What stands before the name of an integer type.
fn article(int: IntType) -> &'static str {
    if int.is_signed() { "an" } else { "a" }
}

/// `true is not a u8`, or `v7 is not of type T`.
fn not_of_type(
    alloc: Global,
    program: &Program,
    ty: TypeId,
    shown: &str,
) -> Result<String, AllocError> {
    match kind_of(program, ty) {
        Kind::Int(int) => {
            let article = article(int);
            let name = int.name();
            format!(in alloc; "{shown} is not {article} {name}")
        }
        Kind::Bool => format!(in alloc; "{shown} is not a bool"),
        Kind::Primitive | Kind::Data | Kind::None => {
            let name = program.types().type_name(ty);
            format!(in alloc; "{shown} is not of type {name}")
        }
    }
}
