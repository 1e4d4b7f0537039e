//! Which terms can't be run, for what their rules do or those of terms that they reach.
ghost use Rattle.std.specs.Prelude.{◌≡◌, ◌<◌, ◌↔◌, ℕ, true, false, IfOk, All, length, map, slice_get, slice_set, slice_index_or};
ghost use Rattle.isle_rules.specs.declared.terms.Term.{Term as TermRecord};
ghost use Rattle.isle_blocks.specs.Inside.Building.Contents.{Marked};
ghost use Rattle.isle_rules.specs.Shown.TermTables.{is_multi_kind};
ghost use Rattle.isle_program.specs.Facts.Reach.{is_hindered, is_root, IsBarred};

use crate::facts::callers::callers;
use crate::facts::hindrances::{gives_many, hinders};
use crate::facts::spreading::spread;
use isle_rules::{Term, TermEnv};
use isle_types::{TermId, TypeEnv};
use std::alloc::{AllocError, Global};

/// The terms that can't be run: those that are hindered, and those that reach one that is.
pub(super) fn barred_terms(
    alloc: Global,
    tyenv: &TypeEnv,
    termenv: &TermEnv,
) -> Result<Vec<bool>, AllocError>
    requires { All (λ rule. rule.root_term.0 < length termenv.now.terms) termenv.now.rules }
    ensures { IfOk result (λ marks. (n : ℕ) → Marked marks.items n ↔ IsBarred tyenv.now termenv.now n) }
{
    let mut marks = hindered_terms(alloc, tyenv, termenv)?;
    let lists = callers(alloc, termenv)?;
    spread(alloc, lists.as_slice(), &mut marks)?;
    Ok(marks)
}

/// The terms that are multi, or have a rule that hinders.
fn hindered_terms(
    alloc: Global,
    tyenv: &TypeEnv,
    termenv: &TermEnv,
) -> Result<Vec<bool>, AllocError>
    requires { All (λ rule. rule.root_term.0 < length termenv.now.terms) termenv.now.rules }
    ensures fits { IfOk result (λ marks. length marks.items ≡ length termenv.now.terms) }
    ensures marks { IfOk result (λ marks. (n : ℕ) → slice_index_or marks.items n false ≡ is_hindered tyenv.now termenv.now n) }
{
    let mut marks = multi_terms(alloc, termenv.terms())?;
    for rule in termenv.rules() {
        if hinders(tyenv, termenv, rule) {
            set_mark(&mut marks, rule.root_term);
        }
    }
    Ok(marks)
}

/// The terms that are the root of a rule.
pub(super) fn roots(alloc: Global, termenv: &TermEnv) -> Result<Vec<bool>, AllocError>
    requires { All (λ rule. rule.root_term.0 < length termenv.now.terms) termenv.now.rules }
    ensures { IfOk result (λ marks. (n : ℕ) → slice_index_or marks.items n false ≡ is_root termenv.now n) }
{
    let mut marks = vec![in alloc; false; termenv.terms().len()]?;
    for rule in termenv.rules() {
        set_mark(&mut marks, rule.root_term);
    }
    Ok(marks)
}

/// Marks a term, if there is a mark for it.
fn set_mark(marks: &mut Vec<bool>, term: TermId)
    ensures { marks.new.items ≡ slice_set marks.old.items term.0 true }
{
    let place = term.index();
    if place < marks.len() {
        marks[place] = true;
    }
}

/// The terms that give any number of answers.
fn multi_terms(alloc: Global, terms: &[Term]) -> Result<Vec<bool>, AllocError>
    ensures { IfOk result (λ marks. marks.items ≡ map (λ (term : TermRecord). is_multi_kind term.kind) terms.now) }
{
    let mut marks = Vec::new(alloc);
    for term in terms {
        marks.push(gives_many(term))?;
    }
    Ok(marks)
}
