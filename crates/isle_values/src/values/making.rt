//! Values that are made in code.
ghost use Rattle.std.specs.Prelude.{◌≡◌, IfOk};
ghost use Rattle.isle_rules.specs.Values.{bool_tree, int_tree, big_tree, const_tree, opaque_tree, data_tree, value_list};
ghost use Rattle.isle_values.specs.Values.Nodes.{nodes_all};

use super::{Node, Value};
use isle_syntax::Text;
use std::alloc::{AllocError, Global};

impl Value {
    /// `true` or `false`.
    pub fn bool(alloc: Global, b: bool) -> Result<Value, AllocError>
        ensures { IfOk result (λ v. v ≡ bool_tree b) }
    {
        Ok(Value {
            nodes: vec![in alloc; Node::Bool(b)]?,
        })
    }

    /// An integer from -2^127 to 2^127 - 1.
    pub fn int(alloc: Global, n: i128) -> Result<Value, AllocError>
        ensures { IfOk result (λ v. v ≡ int_tree n) }
    {
        Ok(Value {
            nodes: vec![in alloc; Node::Int(n)]?,
        })
    }

    /// A number that is written as one from 2^127 on.
    pub fn big(alloc: Global, n: u128) -> Result<Value, AllocError>
        ensures { IfOk result (λ v. v ≡ big_tree n) }
    {
        Ok(Value {
            nodes: vec![in alloc; Node::Big(n)]?,
        })
    }

    /// The constant of a name, which is given without `$`.
    pub fn constant(alloc: Global, name: &str) -> Result<Value, AllocError>
        ensures { IfOk result (λ v. v ≡ const_tree name.now) }
    {
        Ok(Value {
            nodes: vec![in alloc; Node::Const(Text::from_str(alloc, name)?)]?,
        })
    }

    /// The opaque value of a number.
    pub fn opaque(alloc: Global, number: u64) -> Result<Value, AllocError>
        ensures { IfOk result (λ v. v ≡ opaque_tree number) }
    {
        Ok(Value {
            nodes: vec![in alloc; Node::Opaque(number)]?,
        })
    }

    /// Data of a variant, by its full name, or of a struct.
    pub fn data(alloc: Global, name: &str, fields: Vec<Value>) -> Result<Value, AllocError>
        ensures { IfOk result (λ v. v ≡ data_tree name.now (value_list fields.items)) }
    {
        let count = fields.len();
        let mut below = nodes_of_all(alloc, fields)?;
        let mut nodes = vec![in alloc;
            Node::Data(Text::from_str(alloc, name)?, count, below.len()),
        ]?;
        nodes.append(&mut below)?;
        Ok(Value { nodes })
    }
}

/// The nodes of values, one value behind the other.
pub(crate) fn nodes_of_all(alloc: Global, values: Vec<Value>) -> Result<Vec<Node>, AllocError>
    ensures { IfOk result (λ nodes. nodes.items ≡ nodes_all (value_list values.items)) }
{
    let mut nodes = Vec::new(alloc);
    for value in values {
        let Value { nodes: mut more } = value;
        if nodes.is_empty() {
            nodes = more;
        } else {
            nodes.append(&mut more)?;
        }
    }
    Ok(nodes)
}
