//! The trees of a program's rules, in words.
ghost use Rattle.std.specs.Prelude.{◌≡◌, IfOk, string_bytes};
ghost use Rattle.isle_program.specs.Compiled.{IsProgramOf};
ghost use Rattle.isle_program.specs.Trees.{IsSetTree};
ghost use Rattle.isle_tell.specs.TreeTexts.Sets.{IsEntryText, IsSetText, TellsTrees, is_asked};

mod fields;
mod graph;
pub mod graphs;
pub mod names;
mod paths;
mod quoted;
mod rules;
mod sites;
mod steps;
mod tested;

use isle_ast::files::Files;
use isle_blocks::{Block, RuleSet};
use isle_program::Program;
use isle_types::TermId;
use rules::rules_text;
use sites::sites_text;
use std::alloc::{AllocError, Global};
use steps::steps_text;

/// Whether a term is among those that are asked for; where none is, all are.
pub(crate) fn is_asked(asked: &[TermId], term: TermId) -> bool
    ensures { result ≡ is_asked asked.now term }
{
    asked.is_empty() || asked.contains(&term)
}

/// The line of a term, the lines of its rule set, and those of its tree.
fn set_text(
    alloc: Global,
    program: &Program,
    files: &Files,
    term: TermId,
    set: &RuleSet,
    tree: &Block,
) -> Result<String, AllocError>
    requires { IsSetTree set.now tree.now }
    ensures { IfOk result (λ text. IsSetText program.now files.now term set.now tree.now (string_bytes text)) }
{
    let number = term.index();
    let name = program.name(term);
    let sites = sites_text(alloc, program, set.bindings())?;
    let rules = rules_text(alloc, program, files, set.rules())?;
    let steps = steps_text(alloc, program, files, set.rules(), tree.steps())?;
    format!(in alloc; "term {number} {name}\n  sites\n{sites}{rules}  block\n{steps}")
}

/// What is printed of a term's rule set and tree: nothing where the term isn't asked for.
fn entry_text(
    alloc: Global,
    program: &Program,
    files: &Files,
    asked: &[TermId],
    set: &(TermId, RuleSet),
    tree: &Block,
) -> Result<String, AllocError>
    requires { IsSetTree set.now.1 tree.now }
    ensures { IfOk result (λ text. IsEntryText program.now files.now asked.now (set.now, tree.now) (string_bytes text)) }
{
    if is_asked(asked, set.0) {
        set_text(alloc, program, files, set.0, &set.1, tree)
    } else {
        Ok(String::new(alloc))
    }
}

/// The rule sets of these terms and the trees that the program has of them, in words, ascending by the term; of all terms with rules
/// where none is named. `files` are those that were compiled.
pub fn trees_text(
    alloc: Global,
    program: &Program,
    files: &Files,
    asked: &[TermId],
) -> Result<String, AllocError>
    requires { IsProgramOf files.now program.now }
    ensures { IfOk result (λ text. TellsTrees program.now files.now asked.now (string_bytes text)) }
{
    let sets = program.rule_sets();
    let trees = program.trees();
    let mut text = String::new(alloc);
    for place in 0..sets.len() {
        let one = entry_text(alloc, program, files, asked, &sets[place], &trees[place])?;
        text.push_str(one.as_str())?;
    }
    Ok(text)
}
