//! Recursion of internal extractors: one that comes to its own term through bodies is reported.
ghost use Rattle.std.specs.Prelude.{◌≡◌, ◌<◌, ℕ, Some, map, length, slice_get, IfOk, OnOk, MatchOption};
ghost use Rattle.std.specs.Str.{bytes_eq};
ghost use Rattle.isle_ast.specs.declared.ast.Extractor.{Extractor as ExtractorTree};
ghost use Rattle.isle_ast.specs.Trees.PatternShape.{pattern_of};
ghost use Rattle.isle_containers.specs.StableMaps.{value_at};
ghost use Rattle.isle_terms.specs.Inside.Collecting.Checks.{Checks};
ghost use Rattle.isle_terms.specs.Inside.Collecting.ExtractorGraphs.{extracted, ArePlaces, AddsEdges, JoinsTerm, JoinsNode, JoinsPlaces};
ghost use Rattle.isle_terms.specs.Inside.Collecting.ExtractorGraphs.{IsGraphOf, IsRecursiveAt, IsNotRecursive};

use crate::env::cycles::find_cycle;
use crate::env::graph::Graph;
use crate::env::messages;
use crate::env::named::named_terms;
use crate::env::report::report;
use isle_ast::Text;
use isle_ast::ast::{Extractor, Ident, Pattern};
use isle_ast::error::Error;
use isle_ast::pos::Pos;
use isle_types::{StableMap, TypeEnv};
use std::alloc::{AllocError, Global};

/// Reports an extractor that comes to its own term through bodies, if there is one.
pub fn check_recursion(
    tyenv: &TypeEnv,
    alloc: Global,
    extractors: &[&Extractor],
    errors: &mut Vec<Error>,
) -> Result<(), AllocError>
    ensures { OnOk result (Checks (IsRecursiveAt (map (λ e. e.now) extractors.now)) (IsNotRecursive (map (λ e. e.now) extractors.now))
        errors.old.items errors.new.items) }
{
    match find_recursion(alloc, extractors)? {
        Some(pos) => report(errors, pos, messages::recursive(tyenv, extractors, pos)),
        None => Ok(()),
    }
}

/// Where an extractor stands that comes to its own term, if one does.
fn find_recursion(alloc: Global, extractors: &[&Extractor]) -> Result<Option<Pos>, AllocError>
    ensures { IfOk result (λ found. MatchOption found (IsNotRecursive (map (λ e. e.now) extractors.now))
        (λ pos. IsRecursiveAt (map (λ e. e.now) extractors.now) pos)) }
{
    let places = places_of(alloc, extractors)?;
    let graph = graph_of(alloc, extractors, &places)?;
    let Some(place) = find_cycle(alloc, &graph)? else {
        return Ok(None);
    };
    Ok(Some(pos_at(extractors, place)))
}

/// Where the extractor at a place stands.
fn pos_at(extractors: &[&Extractor], place: usize) -> Pos
    requires { place < length extractors.now }
    ensures { (extractor : ExtractorTree) → slice_get (map (λ e. e.now) extractors.now) place ≡ Some extractor → result ≡ extractor.pos }
{
    extractors[place].pos
}

/// A place of each term with an extractor.
fn places_of(alloc: Global, extractors: &[&Extractor]) -> Result<StableMap<Text, usize>, AllocError>
    ensures { IfOk result (λ places. ArePlaces (extracted (map (λ e. e.now) extractors.now)) places) }
{
    let mut places = StableMap::new(alloc);
    for place in 0..extractors.len() {
        let name = Text::from_str(alloc, extractors[place].term.0.as_str())?;
        places.insert(name, place)?;
    }
    Ok(places)
}

/// The graph with an edge for each term that a body names.
fn graph_of(
    alloc: Global,
    extractors: &[&Extractor],
    places: &StableMap<Text, usize>,
) -> Result<Graph, AllocError>
    requires { ArePlaces (extracted (map (λ e. e.now) extractors.now)) places.now }
    ensures { IfOk result (λ graph. IsGraphOf (map (λ e. e.now) extractors.now) places.now graph) }
{
    let mut graph = Graph::new(alloc, extractors.len())?;
    for extractor in extractors {
        add_extractor(alloc, extractor, places, &mut graph)?;
    }
    Ok(graph)
}

/// Adds an edge for each term that an extractor's body names.
fn add_extractor(
    alloc: Global,
    extractor: &Extractor,
    places: &StableMap<Text, usize>,
    graph: &mut Graph,
) -> Result<(), AllocError>
    requires { (from : ℕ) → value_at bytes_eq places.now extractor.now.term.0 ≡ Some from → from < length graph.old }
    ensures { OnOk result (AddsEdges (JoinsPlaces places.now extractor.now) graph.old graph.new) }
{
    match places.get(&extractor.term.0) {
        None => Ok(()),
        Some(from) => add_targets(alloc, *from, &extractor.template, places, graph),
    }
}

/// Adds an edge for each term that a body names.
fn add_targets(
    alloc: Global,
    from: usize,
    body: &Pattern,
    places: &StableMap<Text, usize>,
    graph: &mut Graph,
) -> Result<(), AllocError>
    requires { from < length graph.old }
    ensures { OnOk result (AddsEdges (JoinsNode places.now from (pattern_of body.now)) graph.old graph.new) }
{
    let terms = named_terms(alloc, body)?;
    for term in &terms {
        add_target(from, term, places, graph)?;
    }
    Ok(())
}

/// Adds an edge to the term of a name, if it has an extractor.
fn add_target(
    from: usize,
    term: &Ident,
    places: &StableMap<Text, usize>,
    graph: &mut Graph,
) -> Result<(), AllocError>
    requires { from < length graph.old }
    ensures { OnOk result (AddsEdges (JoinsTerm places.now from term.now) graph.old graph.new) }
{
    match places.get(&term.0) {
        None => Ok(()),
        Some(to) => graph.add(from, *to),
    }
}
