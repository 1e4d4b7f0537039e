//! Values that are laid out from the last to the first.
ghost use Rattle.std.specs.Prelude.{◌≡◌, IfOk, IfSome, IfNone};
ghost use Rattle.isle_rules.specs.Values.{ValueTree, data_tree, no_trees, more_trees};
ghost use Rattle.isle_values.specs.Values.Nodes.{put, first_values, later_values};
ghost use Rattle.isle_values.specs.Values.Laying.{IsLeaf};

use super::{Node, Value};
use isle_syntax::Text;
use std::alloc::{AllocError, Global};
use std::marker::Model;

/// Values that are laid out from the last to the first, so that how many nodes data has is known when it is made of its fields.
#[derive(Drop)]
pub struct LaidValues {
    /// The nodes of the values, from the last to the first.
    nodes: Vec<Node>,
    /// For each value how many nodes stand behind its own, from the last value to the first.
    behind: Vec<usize>,
}

impl Model for LaidValues {
    ghost use Rattle.std.specs.Prelude.{reverse};
    ghost use Rattle.isle_rules.specs.Values.{ValueTrees};
    ghost use Rattle.isle_values.specs.Values.Code.{value_trees_code};
    ghost use Rattle.isle_values.specs.Values.Nodes.{values_in};
    ghost use Rattle.isle_values.specs.Values.Laying.{AreLaid};

    ghost Value = { ValueTrees };

    ghost coded = { value_trees_code };

    ghost view = { λ laid. values_in (reverse laid.nodes.items) };

    ghost invariant = { λ laid. AreLaid laid.nodes.items laid.behind.items };
}

impl LaidValues {
    /// No values.
    pub fn new(alloc: Global) -> LaidValues
        ensures { result ≡ no_trees }
    {
        LaidValues {
            nodes: Vec::new(alloc),
            behind: Vec::new(alloc),
        }
    }

    /// Lays out a value of one node before the others.
    pub fn put_leaf(&mut self, node: Node) -> Result<(), AllocError>
        requires { IsLeaf node }
        ensures { IfOk result (λ _. self.new ≡ put node self.old) }
    {
        let behind = self.nodes.len();
        self.nodes.reserve(1)?;
        self.behind.push(behind)?;
        self.nodes.push(node)?;
        Ok(())
    }

    /// Makes data of the first values, so many of them.
    pub fn put_data(&mut self, name: Text, fields: usize) -> Result<(), AllocError>
        ensures { IfOk result
            (λ _. self.new ≡ more_trees (data_tree name (first_values fields self.old)) (later_values fields self.old)) }
    {
        let fields = fields.min(self.behind.len());
        let kept = self.behind.len() - fields;
        let all = self.nodes.len();
        let behind = self.behind.get(kept).copied().unwrap_or(all);
        self.nodes.reserve(1)?;
        self.behind.reserve(1)?;
        self.behind.truncate(kept);
        self.behind.push(behind)?;
        self.nodes.push(Node::Data(name, fields, all - behind))?;
        Ok(())
    }

    /// The value, if there is exactly one.
    pub fn into_value(self) -> Option<Value>
        ensures some { IfSome result (λ v. self ≡ more_trees v no_trees) }
        ensures none { IfNone result ((v : ValueTree) → self ≡ more_trees v no_trees → ⊥) }
    {
        if self.behind.len() != 1 {
            return None;
        }
        let LaidValues {
            mut nodes,
            behind: _behind,
        } = self;
        nodes.as_mut_slice().reverse();
        Some(Value { nodes })
    }
}
