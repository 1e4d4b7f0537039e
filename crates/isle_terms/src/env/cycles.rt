//! A search for a cycle of a graph.
ghost use Rattle.std.specs.Prelude.{◌≡◌, ◌<◌, ℕ, [], ◌∷◌, ◌++◌, length, slice_get, Some, IfOk, OnOk, IfNone, MatchOption};
ghost use Rattle.isle_terms.specs.Inside.Collecting.Graphs.{AreWithin, IsAcyclic, Leads, IsFinished, IsOpen, AreSettled, IsSearching, Goes, search_work};

use crate::env::graph::Graph;
use std::alloc::{AllocError, Global};
use std::marker::Model;

/// What a search knows of a node.
#[derive(Clone, Copy)]
enum Mark {
    Unseen,
    /// It lies on the path that is being searched.
    Open,
    /// All paths from it were searched.
    Finished,
}

/// A node of the path that is being searched, and how many of its targets are finished.
#[derive(Clone, Copy)]
struct Step {
    node: usize,
    place: usize,
}

/// The path that is being searched. Contracts see its last step first.
#[derive(Drop)]
struct Path {
    steps: Vec<Step>,
}

impl Model for Path {
    ghost use Rattle.std.specs.Prelude.{List, reverse};
    ghost use Rattle.isle_terms.specs.declared.env.cycles.Step.{Step};

    ghost Value = { List Step };

    ghost view = { λ path. reverse path.steps.items };
}

impl Path {
    fn new(alloc: Global) -> Path
        ensures { result ≡ [] }
    {
        Path {
            steps: Vec::new(alloc),
        }
    }

    fn push(&mut self, step: Step) -> Result<(), AllocError>
        ensures { OnOk result (self.new ≡ step ∷ self.old) }
    {
        self.steps.push(step)?;
        Ok(())
    }

    fn pop(&mut self) -> Option<Step>
        ensures { MatchOption result (self.old ≡ []) (λ step. self.old ≡ step ∷ self.new) }
    {
        self.steps.pop()
    }
}

/// Looks at the next target of the path's last node, which is taken off it: a node on a cycle, if there is one.
fn advance(
    graph: &Graph,
    marks: &mut Vec<Mark>,
    path: &mut Path,
    last: Step,
) -> Result<Option<usize>, AllocError>
    requires within { AreWithin graph.now }
    requires searching { IsSearching graph.now marks.old.items (last ∷ path.old) }
    ensures searched { IfOk result (λ found. MatchOption found (IsSearching graph.now marks.new.items path.new) (λ node. Leads graph.now node node)) }
    ensures goes { OnOk result (Goes marks.old.items marks.new.items) }
    ensures less { IfOk result (λ found. IfNone found
        (search_work graph.now marks.new.items path.new < search_work graph.now marks.old.items (last ∷ path.old))) }
{
    let Some(next) = graph.target(last.node, last.place) else {
        marks[last.node] = Mark::Finished;
        return Ok(None);
    };
    match marks[next] {
        Mark::Open => return Ok(Some(next)),
        Mark::Finished => path.push(Step {
            node: last.node,
            place: last.place + 1,
        })?,
        Mark::Unseen => {
            marks[next] = Mark::Open;
            path.push(last)?;
            path.push(Step {
                node: next,
                place: 0,
            })?;
        }
    }
    Ok(None)
}

/// Searches all paths from a node that isn't seen yet: a node on a cycle, if there is one.
fn explore(
    alloc: Global,
    graph: &Graph,
    marks: &mut Vec<Mark>,
    root: usize,
) -> Result<Option<usize>, AllocError>
    requires within { AreWithin graph.now }
    requires searching { IsSearching graph.now marks.old.items [] }
    requires unseen { slice_get marks.old.items root ≡ Some Mark.Unseen }
    ensures searched { IfOk result (λ found. MatchOption found (IsSearching graph.now marks.new.items []) (λ node. Leads graph.now node node)) }
    ensures goes { OnOk result (Goes marks.old.items marks.new.items) }
    ensures finished { IfOk result (λ found. IfNone found (IsFinished marks.new.items root)) }
{
    let mut path = Path::new(alloc);
    marks[root] = Mark::Open;
    path.push(Step {
        node: root,
        place: 0,
    })?;
    while let Some(last) = path.pop() {
        if let Some(node) = advance(graph, marks, &mut path, last)? {
            return Ok(Some(node));
        }
    }
    Ok(None)
}

/// A node on a cycle, if there is one.
pub fn find_cycle(alloc: Global, graph: &Graph) -> Result<Option<usize>, AllocError>
    requires { AreWithin graph.now }
    ensures { IfOk result (λ found. MatchOption found (IsAcyclic graph.now) (λ node. Leads graph.now node node)) }
{
    let mut marks = vec![in alloc; Mark::Unseen; graph.len()]?;
    for root in 0..graph.len() {
        if let Mark::Unseen = marks[root] {
            if let Some(node) = explore(alloc, graph, &mut marks, root)? {
                return Ok(Some(node));
            }
        }
    }
    Ok(None)
}
