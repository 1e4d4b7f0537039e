//! Ground values.
ghost use Rattle.std.specs.Prelude.{◌≡◌, ◌++◌, ◌+◌, ◌≤◌, ℕ, List, IfOk, string_bytes};
ghost use Rattle.isle_syntax.specs.declared.lexer.Token.{Token};
ghost use Rattle.isle_meaning.specs.ValueTypes.{ValueFacts, IsOfType};
ghost use Rattle.isle_values.specs.Values.Held.{IsHeldNode};
ghost use Rattle.isle_values.specs.Values.Nodes.{nodes_of, nodes_below};
ghost use Rattle.isle_values.specs.Values.Settled.{SpellTyped};
ghost use Rattle.isle_values.specs.Values.TextTokens.{AreTokensOf};
ghost use Rattle.isle_values.specs.Values.Tokens.{IsSpellable};
ghost use Rattle.isle_values.specs.Values.Text.{value_text, node_text, end_of, Closes};

mod copies;
mod laying;
mod making;
mod parsing;
mod reading;
mod settling;
pub mod tokens;
pub mod typing;

use isle_syntax::Text;
pub use laying::LaidValues;
pub(crate) use making::nodes_of_all;
pub use parsing::ValueFault;
pub use reading::read_front;
use std::alloc::{AllocError, Global};
use std::marker::Model;

/// A node of a value. The nodes of the fields of data follow it, field by field.
#[derive(Debug, Clone, PartialEq, Eq, PartialOrd, Ord, Drop)]
pub enum Node {
    Bool(bool),
    /// From -2^127 to 2^127 - 1.
    Int(i128),
    /// From 2^127 on.
    Big(u128),
    /// A named constant, without its `$`.
    Const(Text),
    Opaque(u64),
    /// A variant of an enum, by its full name, or a struct: how many fields it has, and how many nodes these have in all.
    Data(Text, usize, usize),
}

/// A ground value: a finite tree, laid out node by node, so that nothing that is done with it recurses, however deep it
/// nests. Different ones are never equal.
#[derive(Debug, Drop)]
pub struct Value {
    nodes: Vec<Node>,
}

impl Model for Value {
    ghost use Rattle.std.specs.Prelude.{◌≡◌};
    ghost use Rattle.isle_rules.specs.Values.{ValueTree};
    ghost use Rattle.isle_values.specs.Values.Code.{value_tree_code};
    ghost use Rattle.isle_values.specs.Values.Nodes.{value_in, nodes_of};

    ghost Value = { ValueTree };

    ghost coded = { value_tree_code };

    ghost view = { λ v. value_in v.nodes.items };

    ghost invariant = { λ v. v.nodes.items ≡ nodes_of (value_in v.nodes.items) };
}

impl Node {
    /// How many nodes follow it that belong to it.
    pub fn below(&self) -> usize
        ensures { result ≡ nodes_below self.now }
    {
        match self {
            Node::Data(_, _, nodes) => *nodes,
            Node::Bool(_) | Node::Int(_) | Node::Big(_) | Node::Const(_) | Node::Opaque(_) => 0,
        }
    }
}

impl Value {
    /// Its nodes, each before its fields.
    pub fn nodes(&self) -> &[Node]
        ensures { result.now ≡ nodes_of self.now }
    {
        self.nodes.as_slice()
    }

    /// The value's text: `true`, `-5`, `$NAME`, `v7` or `(Op.Add 1 2)`. At each of its types that is read back as the value.
    pub fn print(&self, alloc: Global) -> Result<String, AllocError>
        ensures text { IfOk result (λ text. string_bytes text ≡ value_text self.now) }
        ensures reads_back { IfOk result (λ text. (facts : ValueFacts) (ty : ℕ) → IsOfType facts self.now ty → IsSpellable self.now
            → (tokens : List Token) × AreTokensOf (string_bytes text) tokens × SpellTyped facts tokens self.now ty) }
    {
        let nodes = self.nodes.as_slice();
        let mut text = String::new(alloc);
        let mut ends = Vec::new(alloc);
        for at in 0..nodes.len() {
            if at > 0 {
                text.push(' ')?;
            }
            write_node(alloc, &nodes[at], at + 1, &mut ends, &mut text)?;
            close_data(at + 1, &mut ends, &mut text)?;
        }
        Ok(text)
    }
}

/// Writes a node behind a text. Data is left open, and the place where it ends is noted: `after` is that behind its node.
fn write_node(
    alloc: Global,
    node: &Node,
    after: usize,
    ends: &mut Vec<usize>,
    text: &mut String,
) -> Result<(), AllocError>
    requires { after + nodes_below node.now ≤ usize.MAX }
    ensures text { IfOk result (λ _. string_bytes text.new ≡ string_bytes text.old ++ node_text node.now) }
    ensures ends { IfOk result (λ _. ends.new.items ≡ ends.old.items ++ end_of after node.now) }
    ensures held { IfOk result (λ _. IsHeldNode node.now) }
{
    match node {
        Node::Bool(b) => text.push_str(if *b { "true" } else { "false" }),
        Node::Int(n) => {
            let n = *n;
            text.push_str(n.to_string(alloc)?.as_str())
        }
        Node::Big(n) => text.push_str(n.to_string(alloc)?.as_str()),
        Node::Const(name) => {
            text.push('$')?;
            text.push_str(name.as_str())
        }
        Node::Opaque(n) => {
            text.push('v')?;
            text.push_str(n.to_string(alloc)?.as_str())
        }
        Node::Data(name, _fields, nodes) => {
            text.push('(')?;
            text.push_str(name.as_str())?;
            ends.push(after + *nodes)?;
            Ok(())
        }
    }
}

/// Closes the data that ends at a place.
fn close_data(at: usize, ends: &mut Vec<usize>, text: &mut String) -> Result<(), AllocError>
    ensures { IfOk result (λ _. (closed : List ℕ) × Closes at ends.old.items ends.new.items closed
        × (string_bytes text.new ≡ string_bytes text.old ++ closed)) }
{
    while let Some(end) = ends.pop() {
        if end != at {
            ends.push(end)?;
            return Ok(());
        }
        text.push(')')?;
    }
    Ok(())
}
