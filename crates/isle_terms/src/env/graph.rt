//! A graph, as the list of each node's targets.
ghost use Rattle.std.specs.Prelude.{◌≡◌, ◌+◌, ◌^◌, ◌<◌, [], ◌∷◌, ◌++◌, length, slice_get, slice_set, slice_index_or, replicate, IfOk, OnOk, OnSome};

use std::alloc::{AllocError, Global};
use std::marker::Model;

/// A graph. Contracts see it as the list of each node's targets.
#[derive(Drop)]
pub struct Graph {
    rows: Vec<Vec<usize>>,
}

impl Model for Graph {
    ghost use Rattle.std.specs.Prelude.{List, ℕ, map};

    ghost Value = { List (List ℕ) };

    ghost view = { λ graph. map (λ row. row.items) graph.rows.items };
}

impl Graph {
    /// A graph with no edge.
    pub fn new(alloc: Global, nodes: usize) -> Result<Graph, AllocError>
        ensures { IfOk result (λ graph. graph ≡ replicate nodes []) }
    {
        let mut rows = Vec::new(alloc);
        for _node in 0..nodes {
            rows.push(Vec::new(alloc))?;
        }
        Ok(Graph { rows })
    }

    /// How many nodes there are.
    pub fn len(&self) -> usize
        ensures { result ≡ length self.now }
    {
        self.rows.len()
    }

    /// Adds an edge.
    pub fn add(&mut self, from: usize, to: usize) -> Result<(), AllocError>
        requires { from < length self.old }
        ensures { OnOk result (self.new ≡ slice_set self.old from (slice_index_or self.old from [] ++ to ∷ [])) }
    {
        self.rows[from].push(to)?;
        Ok(())
    }

    /// The target of the edge at a place of a node.
    pub fn target(&self, node: usize, place: usize) -> Option<usize>
        requires { node < length self.now }
        ensures target { result ≡ slice_get (slice_index_or self.now node []) place }
        ensures small { OnSome result (place + 1 < 2 ^ 64) }
    {
        self.rows[node].get(place).copied()
    }
}
