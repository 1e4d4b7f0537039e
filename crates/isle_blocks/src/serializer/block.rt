//! Blocks laid out node by node.

ghost use Rattle.std.specs.Prelude.{◌≡◌, ◌<◌, length, IfOk};
ghost use Rattle.isle_blocks.specs.Inside.Trees.Ends.{AreEnds, end_in, node_end};

use crate::serializer::node::Node;
use crate::serializer::views::Steps;
use std::alloc::{AllocError, Global};
use std::marker::Model;

/// What a rule set's tests become: steps, one after another. A step binds sites and then makes one check, behind which lie further
/// steps.
///
/// A block is seen as its tree of steps, in which sites go by their numbers in the rule set, and the list of all its returns.
#[derive(Drop)]
pub struct Block {
    nodes: Vec<Node>,
    /// For each node the place where what comes after its piece begins.
    ends: Vec<usize>,
}

impl Model for Block {
    ghost use Rattle.isle_blocks.specs.Trees.Shown.{BlockShown};
    ghost use Rattle.isle_blocks.specs.Inside.Trees.ShownCode.{block_code};

    ghost Value = { BlockShown };

    ghost coded = { block_code };

    ghost use Rattle.isle_blocks.specs.Inside.Trees.Ends.{AreEnds};
    ghost use Rattle.isle_blocks.specs.Trees.Shown.{block_of};

    ghost view = { λ b. block_of b.nodes.items };

    ghost invariant = { λ b. AreEnds b.nodes.items b.ends.items };
}

/// Where the piece at a place ends.
fn end_in(ends: &[usize], at: usize) -> usize
    ensures { result ≡ end_in ends.now at }
{
    match ends.get(at) {
        Some(end) => *end,
        None => at,
    }
}

/// The same for a node, where it is known for those after it.
fn node_end(node: &Node, at: usize, ends: &[usize]) -> usize
    requires { at < length ends.now }
    ensures { result ≡ node_end node.now at ends.now }
{
    match node {
        Node::End => at + 1,
        Node::NoArm => at + 1,
        Node::Match { .. } => end_in(ends, end_in(ends, at + 1)),
        Node::Equal { .. } => end_in(ends, end_in(ends, at + 1)),
        Node::Loop { .. } => end_in(ends, end_in(ends, at + 1)),
        Node::Return { .. } => end_in(ends, at + 1),
        Node::Arm { .. } => end_in(ends, end_in(ends, at + 1)),
    }
}

/// Where the piece of each node ends.
fn ends_of(alloc: Global, nodes: &[Node]) -> Result<Vec<usize>, AllocError>
    ensures { IfOk result (λ ends. AreEnds nodes.now ends.items) }
{
    let mut ends = vec![in alloc; 0; nodes.len()]?;
    let mut at = nodes.len();
    'nodes: while at > 0 {
        at -= 1;
        let end = node_end(&nodes[at], at, &ends);
        ends[at] = end;
    }
    Ok(ends)
}

/// A place among the nodes of a block, or past them.
#[derive(Clone, Copy)]
pub(crate) struct Place<'a> {
    nodes: &'a [Node],
    ends: &'a [usize],
    at: usize,
    ghost laid: { AreEnds nodes.now ends.now },
}

impl<'a> Place<'a> {
    ghost use Rattle.std.specs.Prelude.{◌≡◌, [], IfNone, IfSome, Contains};
    ghost use Rattle.std.specs.Option.{ForSome};
    ghost use Rattle.isle_blocks.specs.Trees.Nodes.{put, later};
    ghost use Rattle.isle_blocks.specs.Trees.Shown.{return_of};
    ghost use Rattle.isle_blocks.specs.Trees.Places.{pieces_at, returns_around};

    /// The node at the place, the place of its first part, and the place of what comes after that part.
    pub(crate) fn parts(self) -> Option<(&'a Node, Place<'a>, Place<'a>)>
        ensures past { IfNone result (pieces_at self.entry ≡ []) }
        ensures first { IfSome result (λ p. pieces_at self.entry ≡ put p.0.now (pieces_at p.1)) }
        ensures after { IfSome result (λ p. pieces_at p.2 ≡ later (pieces_at p.1)) }
        ensures first_returns { IfSome result (λ p. returns_around p.1 ≡ returns_around self.entry) }
        ensures after_returns { IfSome result (λ p. returns_around p.2 ≡ returns_around self.entry) }
        ensures returned { IfSome result (λ p. ForSome (return_of p.0.now) (Contains (returns_around self.entry))) }
    {
        let Place { nodes, ends, at } = self;
        let node = nodes.get(at)?;
        let first = Place {
            nodes,
            ends,
            at: at + 1,
        };
        let after = Place {
            nodes,
            ends,
            at: end_in(ends, at + 1),
        };
        Some((node, first, after))
    }
}

impl Block {
    ghost use Rattle.std.specs.Prelude.{◌≡◌};
    ghost use Rattle.isle_blocks.specs.Trees.Shown.{block_of};
    ghost use Rattle.isle_blocks.specs.Trees.Places.{steps_at};
    ghost use Rattle.isle_blocks.specs.Trees.Views.{shown_steps};

    /// The block that nodes stand for.
    pub(crate) fn new(alloc: Global, nodes: Vec<Node>) -> Result<Block, AllocError>
        ensures { IfOk result (λ block. block ≡ block_of nodes.items) }
    {
        let ends = ends_of(alloc, &nodes)?;
        Ok(Block { nodes, ends })
    }

    /// The steps of the block.
    pub fn steps(&self) -> Steps<'_>
        ensures { shown_steps result ≡ self.now }
    {
        Steps::new(self.start())
    }

    /// The place of the first node.
    fn start(&self) -> Place<'_>
        ensures { steps_at result ≡ self.now }
    {
        Place {
            nodes: self.nodes.as_slice(),
            ends: self.ends.as_slice(),
            at: 0,
        }
    }
}
