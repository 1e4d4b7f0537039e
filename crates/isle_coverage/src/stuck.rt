//! Whether a call is ever stuck.
ghost use Rattle.std.specs.Prelude.{◌≡◌, All, IfOk, IsTrue, List, false, slice_index_or};
ghost use Rattle.isle_ast.specs.Positions.Files.{SourceFile};
ghost use Rattle.isle_program.specs.Compiled.{IsProgramOf};
ghost use Rattle.isle_program.specs.Meanings.{may_run};
ghost use Rattle.isle_coverage.specs.Stuck.{AreNeverStuck};
ghost use Rattle.isle_coverage.specs.Inside.Reached.{IsFine, IsMarked, KeepsMarks};

use crate::deciding::coverage;
use isle_program::Program;
use isle_program::facts::made::push_made;
use isle_rules::Rule;
use isle_types::TermId;
use std::alloc::{AllocError, Global};

/// Whether a number is marked.
fn is_marked(marks: &[bool], number: usize) -> bool
    ensures { result ≡ slice_index_or marks.now number false }
{
    match marks.get(number) {
        Some(mark) => *mark,
        None => false,
    }
}

/// Marks a number, and says whether it wasn't marked.
fn mark(marks: &mut Vec<bool>, number: usize) -> bool {
    if number < marks.len() && !marks[number] {
        marks[number] = true;
        return true;
    }
    false
}

/// Marks numbers, and says whether one wasn't marked.
fn mark_each(marks: &mut Vec<bool>, numbers: &[usize]) -> bool {
    let mut grown = false;
    for number in numbers {
        grown = mark(marks, *number) || grown;
    }
    grown
}

/// The terms by which a rule makes values.
fn made_by(alloc: Global, rule: &Rule) -> Result<Vec<usize>, AllocError> {
    let mut made = Vec::new(alloc);
    push_made(rule, &mut made)?;
    Ok(made)
}

/// Marks the terms by which the rules of marked terms make values, and says whether one wasn't marked.
fn mark_made(alloc: Global, rules: &[Rule], marks: &mut Vec<bool>) -> Result<bool, AllocError> {
    let mut grown = false;
    for rule in rules {
        if is_marked(marks.as_slice(), rule.root_term.index()) {
            let made = made_by(alloc, rule)?;
            grown = mark_each(marks, made.as_slice()) || grown;
        }
    }
    Ok(grown)
}

/// A mark for each term that a term reaches, and for itself.
fn reached_terms(alloc: Global, program: &Program, term: TermId) -> Result<Vec<bool>, AllocError> {
    let count = program.terms().terms().len();
    let mut marks = vec![in alloc; false; count]?;
    mark(&mut marks, term.index());
    for _ in 0..count {
        if !mark_made(alloc, program.rules(), &mut marks)? {
            break;
        }
    }
    Ok(marks)
}

/// Whether numbers are all marked.
fn are_marked(marks: &[bool], numbers: &[usize]) -> bool
    ensures { IsTrue result → All (IsMarked marks.now) numbers.now }
{
    for number in numbers {
        if !is_marked(marks, *number) {
            return false;
        }
    }
    true
}

/// Whether the terms by which a rule makes values are marked, if its own is.
fn keeps_marks(alloc: Global, marks: &[bool], rule: &Rule) -> Result<bool, AllocError>
    ensures { IfOk result (λ kept. IsTrue kept → KeepsMarks marks.now rule.now) }
{
    if !is_marked(marks, rule.root_term.index()) {
        return Ok(true);
    }
    let mut made = Vec::new(alloc);
    push_made(rule, &mut made)?;
    let kept = are_marked(marks, made.as_slice());
    Ok(kept)
}

/// Whether the terms by which rules of marked terms make values are marked.
fn are_closed(alloc: Global, marks: &[bool], rules: &[Rule]) -> Result<bool, AllocError>
    ensures { IfOk result (λ closed. IsTrue closed → All (KeepsMarks marks.now) rules.now) }
{
    for rule in rules {
        if !keeps_marks(alloc, marks, rule)? {
            return Ok(false);
        }
    }
    Ok(true)
}

/// Whether a term is partial or covered, if it is marked.
fn is_fine(
    alloc: Global,
    program: &Program,
    marks: &[bool],
    term: TermId,
    steps: usize,
) -> Result<bool, AllocError>
    ensures { IfOk result (λ fine. IsTrue fine → (files : List SourceFile) → IsProgramOf files program.now → IsFine program.now marks.now term) }
{
    if program.is_partial(term) {
        return Ok(true);
    }
    if !is_marked(marks, term.index()) {
        return Ok(true);
    }
    let verdict = coverage(alloc, program, term, steps)?;
    let covered = verdict.is_covered();
    Ok(covered)
}

/// Whether the marked ones of some terms are partial or covered.
fn are_fine(
    alloc: Global,
    program: &Program,
    marks: &[bool],
    terms: &[TermId],
    steps: usize,
) -> Result<bool, AllocError>
    ensures { IfOk result (λ fine. IsTrue fine → (files : List SourceFile) → IsProgramOf files program.now
        → All (IsFine program.now marks.now) terms.now) }
{
    for term in terms {
        if !is_fine(alloc, program, marks, *term, steps)? {
            return Ok(false);
        }
    }
    Ok(true)
}

/// Whether no call of a term is ever stuck, as far as that is decided: it is `true` only where each term with rules to which such a call comes is
/// partial or covered. Each of these is judged within so many steps, as `coverage` judges it.
pub fn never_stuck(
    alloc: Global,
    program: &Program,
    term: TermId,
    steps: usize,
) -> Result<bool, AllocError>
    ensures { IfOk result (λ never. IsTrue never → (files : List SourceFile) → IsProgramOf files program.now → may_run program.now term.0
        → AreNeverStuck program.now term.0) }
{
    let marks = reached_terms(alloc, program, term)?;
    let marks = marks.as_slice();
    if !is_marked(marks, term.index()) {
        return Ok(false);
    }
    if !are_closed(alloc, marks, program.rules())? {
        return Ok(false);
    }
    let fine = are_fine(alloc, program, marks, program.terms_with_rules(), steps)?;
    Ok(fine)
}
