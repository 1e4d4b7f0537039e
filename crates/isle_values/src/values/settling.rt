//! Values read at types: there a number from 2^127 on can be the integer of its 128 bits.
ghost use Rattle.std.specs.Prelude.{◌≡◌, ◌++◌, ◌↔◌, IfOk, IfSome, IfNone, IsTrue, map, reverse};
ghost use Rattle.isle_meaning.specs.ValueTypes.{IsOfType};
ghost use Rattle.isle_program.specs.Programs.{value_facts, number_of};
ghost use Rattle.isle_values.specs.Values.Settled.{settled};
ghost use Rattle.isle_values.specs.Inside.Values.SettledNodes.{settled_node, types_below, FitsWithFields};

use super::{Node, Value};
use crate::values::typing::{Kind, data_term, kind_of, node_fits};
use isle_program::Program;
use isle_types::TypeId;
use std::alloc::{AllocError, Global};

impl Value {
    /// The value, read at a type, where it is then of that type.
    pub(crate) fn settle(
        self,
        alloc: Global,
        program: &Program,
        ty: TypeId,
    ) -> Result<Option<Value>, AllocError>
        ensures some { IfOk result (λ r. IfSome r (λ v. (v ≡ settled (value_facts program.now) self ty.0)
            × IsOfType (value_facts program.now) v ty.0)) }
        ensures none { IfOk result (λ r. IfNone r (IsOfType (value_facts program.now) (settled (value_facts program.now) self ty.0) ty.0 → ⊥)) }
    {
        let Value { mut nodes } = self;
        let mut expected = vec![in alloc; ty]?;
        for at in 0..nodes.len() {
            let Some(next) = expected.pop() else {
                return Ok(None);
            };
            settle_node(program, &mut nodes[at], next);
            if !expect_fields(program, &nodes[at], next, &mut expected)? {
                return Ok(None);
            }
        }
        Ok(Some(Value { nodes }))
    }
}

/// Reads a node at a type.
fn settle_node(program: &Program, node: &mut Node, ty: TypeId)
    ensures { node.new ≡ settled_node node.old ((value_facts program.now).kind ty.0) }
{
    let Node::Big(n) = node else {
        return;
    };
    if kind_of(program, ty) == Kind::Primitive {
        *node = Node::Int(n.cast_signed());
    }
}

/// Whether a node is that of a value of a type, with as many fields as that has. The types of these are then expected
/// next.
fn expect_fields(
    program: &Program,
    node: &Node,
    ty: TypeId,
    expected: &mut Vec<TypeId>,
) -> Result<bool, AllocError>
    ensures fits { IfOk result (λ fits. IsTrue fits ↔ FitsWithFields (value_facts program.now) node.now ty.0) }
    ensures next { IfOk result (λ fits. IsTrue fits → map number_of (reverse expected.new.items)
        ≡ types_below (value_facts program.now) node.now ++ map number_of (reverse expected.old.items)) }
{
    let Node::Data(name, fields, _nodes) = node else {
        return Ok(node_fits(program, node, ty));
    };
    let Some(term) = data_term(program, name.as_str()) else {
        return Ok(false);
    };
    let types = term.arg_tys.as_slice();
    if term.ret_ty != ty || types.len() != *fields {
        return Ok(false);
    }
    expect_types(types, expected)?;
    Ok(true)
}

/// Expects values of these types next.
fn expect_types(types: &[TypeId], expected: &mut Vec<TypeId>) -> Result<(), AllocError>
    ensures { IfOk result (λ _. expected.new.items ≡ expected.old.items ++ reverse types.now) }
{
    for i in 0..types.len() {
        expected.push(types[types.len() - 1 - i])?;
    }
    Ok(())
}
