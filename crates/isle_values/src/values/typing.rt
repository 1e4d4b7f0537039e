//! Values of types.
ghost use Rattle.std.specs.Prelude.{◌≡◌, ◌+◌, ◌↔◌, ◌<◌, ◌^◌, ℕ, List, IsTrue, map, None, Some, MatchOption, length, slice_get};
ghost use Rattle.isle_meaning.specs.ValueTypes.{IsOfType, IsIntOf, HasConstants, primitive_kind};
ghost use Rattle.isle_program.specs.Programs.{value_facts, number_of, types_of_term};
ghost use Rattle.isle_values.specs.Values.TypedNodes.{NodeFits, NodesFit, FieldsFit, AllFieldsFit, shown_kind};
ghost use Rattle.isle_values.specs.declared.values.Node.{Node as DeclaredNode};

use crate::values::{Node, Value};
use isle_program::Program;
use isle_rules::{Term, TermKind};
use isle_types::{BuiltinType, IntType, Type, TypeId};

/// Whether a value is one of a type.
pub fn has_type(program: &Program, value: &Value, ty: TypeId) -> bool
    ensures { IsTrue result ↔ IsOfType (value_facts program.now) value.now ty.0 }
{
    let nodes = value.nodes();
    node_fits(program, &nodes[0], ty) && all_fields_fit(program, nodes)
}

/// Whether the fields of each node fit.
fn all_fields_fit(program: &Program, nodes: &[Node]) -> bool
    ensures { IsTrue result ↔ AllFieldsFit (value_facts program.now) nodes.now }
{
    for at in 0..nodes.len() {
        if !fields_fit(program, nodes, at) {
            return false;
        }
    }
    true
}

/// Whether the fields of the node at a place fit the types of its term.
fn fields_fit(program: &Program, nodes: &[Node], at: usize) -> bool
    requires { at < length nodes.now }
    ensures { (node : DeclaredNode) → slice_get nodes.now at ≡ Some node
        → IsTrue result ↔ FieldsFit (value_facts program.now) nodes.now (at + 1) node }
{
    let Node::Data(name, fields, _nodes) = &nodes[at] else {
        return true;
    };
    match data_term(program, name.as_str()) {
        Some(term) => data_fits(program, nodes, at + 1, *fields, term.arg_tys.as_slice()),
        None => false,
    }
}

/// Whether so many nodes from a place on, each behind all that belongs to the one before, fit these types.
fn data_fits(
    program: &Program,
    nodes: &[Node],
    from: usize,
    fields: usize,
    types: &[TypeId],
) -> bool
    ensures { IsTrue result ↔ ((length types.now ≡ fields) × NodesFit (value_facts program.now) nodes.now from (map number_of types.now)) }
{
    types.len() == fields && nodes_fit(program, nodes, from, types)
}

/// Whether the nodes from a place on, each behind all that belongs to the one before, fit these types.
fn nodes_fit(program: &Program, nodes: &[Node], from: usize, types: &[TypeId]) -> bool
    ensures { IsTrue result ↔ NodesFit (value_facts program.now) nodes.now from (map number_of types.now) }
{
    let mut at = from;
    for ty in types {
        let Some(node) = nodes.get(at) else {
            return false;
        };
        if !node_fits(program, node, *ty) {
            return false;
        }
        at = at.saturating_add(node.below()).saturating_add(1);
    }
    true
}

/// Whether a node is that of a value of a type, as far as the node itself tells.
pub fn node_fits(program: &Program, node: &Node, ty: TypeId) -> bool
    ensures { IsTrue result ↔ NodeFits (value_facts program.now) node.now ty.0 }
{
    match node {
        Node::Bool(_) => kind_of(program, ty) == Kind::Bool,
        Node::Int(n) => holds_int(program, ty, *n),
        Node::Big(n) => kind_of(program, ty) == Kind::Int(IntType::U128)
            && *n > i128::MAX.cast_unsigned(),
        Node::Const(name) => has_constant(program, name.as_str(), ty),
        Node::Opaque(n) => holds_opaque(program, ty, *n),
        Node::Data(name, _, _) => makes_data(program, name.as_str(), ty),
    }
}

/// Whether an integer from -2^127 to 2^127 - 1 is of a type.
fn holds_int(program: &Program, ty: TypeId, n: i128) -> bool
    ensures { IsTrue result ↔ IsIntOf n ((value_facts program.now).kind ty.0) }
{
    match kind_of(program, ty) {
        Kind::Int(int) => int.holds(n, false),
        Kind::Primitive => true,
        Kind::Bool | Kind::Data | Kind::None => false,
    }
}

/// Whether an opaque value is of a type.
fn holds_opaque(program: &Program, ty: TypeId, number: u64) -> bool
    ensures { IsTrue result ↔ (((value_facts program.now).kind ty.0 ≡ primitive_kind) × (number < 2 ^ 64)) }
{
    kind_of(program, ty) == Kind::Primitive && number <= u64::MAX
}

/// Whether a constant is of a type, which is builtin or primitive.
fn has_constant(program: &Program, name: &str, ty: TypeId) -> bool
    ensures { IsTrue result ↔ (((value_facts program.now).constant name.now ≡ Some ty.0) × HasConstants ((value_facts program.now).kind ty.0)) }
{
    if program.types().const_type(name) != Some(ty) {
        return false;
    }
    match kind_of(program, ty) {
        Kind::Bool | Kind::Int(_) | Kind::Primitive => true,
        Kind::Data | Kind::None => false,
    }
}

/// Whether a name is that of a variant or struct of a type.
fn makes_data(program: &Program, name: &str, ty: TypeId) -> bool
    ensures { IsTrue result ↔ ((types : List ℕ) × ((value_facts program.now).data_named name.now ≡ Some (ty.0, types))) }
{
    match data_term(program, name) {
        Some(term) => term.ret_ty == ty,
        None => false,
    }
}

/// The term of a variant or struct.
pub fn data_term<'a>(program: &'a Program, name: &str) -> Option<&'a Term>
    ensures { MatchOption result ((value_facts program.now).data_named name.now ≡ None)
        (λ term. (value_facts program.now).data_named name.now ≡ Some (types_of_term term.now)) }
{
    let term = program.terms().get_term(program.term(name)?)?;
    match &term.kind {
        TermKind::EnumVariant { .. } | TermKind::Struct => Some(term),
        TermKind::Decl { .. } => None,
    }
}

/// What kind of values a type has.
pub fn kind_of(program: &Program, ty: TypeId) -> Kind
    ensures { shown_kind result ≡ (value_facts program.now).kind ty.0 }
{
    match program.types().get_type(ty) {
        Some(Type::Builtin(BuiltinType::Bool)) => Kind::Bool,
        Some(Type::Builtin(BuiltinType::Int(int))) => Kind::Int(*int),
        Some(Type::Primitive(..)) => Kind::Primitive,
        Some(Type::Enum { .. } | Type::Struct { .. }) => Kind::Data,
        None => Kind::None,
    }
}

/// What kind of values a type has.
#[derive(Clone, Copy, PartialEq, Eq)]
pub enum Kind {
    Bool,
    Int(IntType),
    Primitive,
    /// Variants of an enum, or a struct.
    Data,
    /// The program has no such type.
    None,
}
