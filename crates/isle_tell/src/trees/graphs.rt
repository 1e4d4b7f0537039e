//! The trees of a program's rules, as a graph.
ghost use Rattle.std.specs.Prelude.{◌≡◌, IfOk, string_bytes};
ghost use Rattle.isle_program.specs.Compiled.{IsProgramOf};
ghost use Rattle.isle_tell.specs.TreeTexts.DotSets.{IsEntryGraph, IsSetGraph, TellsGraph, term_line};
ghost use Rattle.isle_tell.specs.TreeTexts.Names.{AreTexts};
ghost use Rattle.isle_tell.specs.TreeTexts.Sets.{sets_and_trees};
ghost use Rattle.isle_program.specs.Trees.{IsSetTree};

use crate::trees::graph::{Scene, steps_graph};
use crate::trees::is_asked;
use crate::trees::paths::Table;
use crate::trees::quoted::quoted;
use crate::trees::tested::types_told;
use isle_ast::files::Files;
use isle_blocks::{Block, RuleSet};
use isle_program::Program;
use isle_types::TermId;
use std::alloc::{AllocError, Global};

/// The node of a term.
fn term_line(alloc: Global, program: &Program, term: TermId) -> Result<String, AllocError>
    ensures { IfOk result (λ text. string_bytes text ≡ term_line program.now term) }
{
    let number = term.index();
    let name = program.name(term);
    let words = format!(in alloc; "term {number} {name}")?;
    let label = quoted(alloc, words.as_str())?;
    format!(in alloc; "  t{number}_0 [shape=plaintext, label={label}];\n")
}

/// The node of a term, and the nodes of its tree with the edges to them.
fn set_graph(
    alloc: Global,
    program: &Program,
    files: &Files,
    term: TermId,
    set: &RuleSet,
    tree: &Block,
) -> Result<String, AllocError>
    requires { IsSetTree set.now tree.now }
    ensures { IfOk result (λ text. IsSetGraph program.now files.now term set.now tree.now (string_bytes text)) }
{
    let line = term_line(alloc, program, term)?;
    let rules = set.rules();
    let sites = set.bindings();
    let types = types_told(alloc, sites, rules)?;
    let table = Table {
        program,
        sites,
        types: types.as_slice(),
    };
    let term = term.index();
    let scene = Scene { term, rules, table };
    let steps = steps_graph(alloc, files, &scene, tree.steps())?;
    format!(in alloc; "{line}{steps}")
}

/// What is drawn of a term's rule set: nothing where the term isn't asked for.
fn entry_graph(
    alloc: Global,
    program: &Program,
    files: &Files,
    asked: &[TermId],
    set: &(TermId, RuleSet),
    tree: &Block,
) -> Result<String, AllocError>
    requires { IsSetTree set.now.1 tree.now }
    ensures { IfOk result (λ text. IsEntryGraph program.now files.now asked.now (set.now, tree.now) (string_bytes text)) }
{
    if is_asked(asked, set.0) {
        set_graph(alloc, program, files, set.0, &set.1, tree)
    } else {
        Ok(String::new(alloc))
    }
}

/// What is drawn of each rule set in turn.
fn sets_graph(
    alloc: Global,
    program: &Program,
    files: &Files,
    asked: &[TermId],
) -> Result<String, AllocError>
    requires { IsProgramOf files.now program.now }
    ensures { IfOk result (λ text. AreTexts (IsEntryGraph program.now files.now asked.now) (sets_and_trees program.now) (string_bytes text)) }
{
    let sets = program.rule_sets();
    let trees = program.trees();
    let mut text = String::new(alloc);
    for place in 0..sets.len() {
        let one = entry_graph(alloc, program, files, asked, &sets[place], &trees[place])?;
        text.push_str(one.as_str())?;
    }
    Ok(text)
}

/// The trees that the program has of these terms as a graph in the language of Graphviz, ascending by the term; of all terms with
/// rules where none is named. `files` are those that were compiled.
pub fn trees_graph(
    alloc: Global,
    program: &Program,
    files: &Files,
    asked: &[TermId],
) -> Result<String, AllocError>
    requires { IsProgramOf files.now program.now }
    ensures { IfOk result (λ text. TellsGraph program.now files.now asked.now (string_bytes text)) }
{
    let sets = sets_graph(alloc, program, files, asked)?;
    let mut text = String::from_str(alloc, "digraph trees {\n")?;
    text.push_str(sets.as_str())?;
    text.push_str("}\n")?;
    Ok(text)
}
