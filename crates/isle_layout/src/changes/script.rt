//! Which lines of two texts stay, are removed or are added.
ghost use Rattle.std.specs.Prelude.{◌≡◌, ◌≤◌, ◌++◌, IfOk, OnOk, drop, length, map};
ghost use Rattle.isle_layout.specs.Changes.Scripts.{IsScript, Leads};
ghost use Rattle.isle_layout.specs.Inside.Changes.{BeginAlike, edit_by, edit_of, text_of};
ghost use Rattle.isle_layout.specs.declared.changes.script.Mark.TheVariants.{Kept};

use crate::changes::lines::{Line, lines};
use std::alloc::{AllocError, Global};

/// What becomes of a line.
#[derive(Clone, Copy)]
pub enum Mark {
    Kept,
    Removed,
    Added,
}

/// A line with its newline, and what becomes of it.
#[derive(Clone, Copy)]
pub struct Step<'text> {
    pub mark: Mark,
    pub line: &'text str,
}

/// The steps from a text to another: few where the texts differ in white space alone.
pub fn script<'text>(
    alloc: Global,
    old: &'text str,
    new: &'text str,
) -> Result<Vec<Step<'text>>, AllocError>
    ensures { IfOk result (λ steps. IsScript old.now new.now (map edit_of steps.items)) }
{
    let old_lines = lines(alloc, old)?;
    let new_lines = lines(alloc, new)?;
    steps(alloc, old_lines.as_slice(), new_lines.as_slice())
}

/// The steps from lines to others.
fn steps<'text>(
    alloc: Global,
    old: &[Line<'text>],
    new: &[Line<'text>],
) -> Result<Vec<Step<'text>>, AllocError>
    ensures { IfOk result (λ steps. Leads (map text_of old.now) (map text_of new.now) (map edit_of steps.items)) }
{
    let mut steps = Vec::new(alloc);
    let mut from = 0;
    let mut to = 0;
    loop {
        let old_rest = &old[from..];
        let new_rest = &new[to..];
        let (removed, added) = before_kept(old_rest, new_rest);
        push_lines(&mut steps, Mark::Removed, &old_rest[..removed])?;
        push_lines(&mut steps, Mark::Added, &new_rest[..added])?;
        if removed == old_rest.len() {
            return Ok(steps);
        }
        steps.push(Step {
            mark: Mark::Kept,
            line: old_rest[removed].text,
        })?;
        from += removed + 1;
        to += added + 1;
    }
}

/// Adds lines to the steps, all with the same mark.
fn push_lines<'text>(
    steps: &mut Vec<Step<'text>>,
    mark: Mark,
    lines: &[Line<'text>],
) -> Result<(), AllocError>
    ensures { OnOk result (map edit_of steps.new.items ≡ map edit_of steps.old.items ++ map (edit_by mark) (map text_of lines.now)) }
{
    for line in lines {
        steps.push(Step {
            mark,
            line: line.text,
        })?;
    }
    Ok(())
}

/// How many lines of two texts stand before the next one that stays.
fn before_kept(old: &[Line<'_>], new: &[Line<'_>]) -> (usize, usize)
    ensures removed { result.0 ≤ length old.now }
    ensures added { result.1 ≤ length new.now }
    ensures kept { BeginAlike (map text_of (drop result.0 old.now)) (map text_of (drop result.1 new.now)) }
{
    let mut removed = 0;
    let mut added = 0;
    let mut old_weight = 0usize;
    let mut new_weight = 0usize;
    while removed < old.len() && added < new.len() {
        let from = &old[removed];
        let to = &new[added];
        match next_mark(from, to, old_weight, new_weight) {
            Mark::Kept => return (removed, added),
            Mark::Removed => {
                old_weight = old_weight.saturating_add(from.weight);
                removed += 1;
            }
            Mark::Added => {
                new_weight = new_weight.saturating_add(to.weight);
                added += 1;
            }
        }
    }
    (old.len(), new.len())
}

/// What becomes of the next line of one of two texts, by how many bytes that aren't white space stand before each: where fewer stand before one, that
/// goes on. Where as many do, the same line stays, and of different ones a blank one goes first.
fn next_mark(old: &Line<'_>, new: &Line<'_>, old_weight: usize, new_weight: usize) -> Mark
    ensures { result ≡ Kept → old.now.text.now ≡ new.now.text.now }
{
    if old_weight == new_weight && old.text == new.text {
        Mark::Kept
    } else if old_weight < new_weight {
        Mark::Removed
    } else if new_weight < old_weight {
        Mark::Added
    } else if old.weight == 0 {
        Mark::Removed
    } else if new.weight == 0 {
        Mark::Added
    } else {
        Mark::Removed
    }
}
