//! Marks that spread over lists of numbers.
ghost use Rattle.std.specs.Prelude.{◌≡◌, ◌<◌, ◌↔◌, ◌∷◌, [], ℕ, Vec, Some, length, slice_get, Contains, IfOk, OnOk};
ghost use Rattle.std.specs.Global.{Global};
ghost use Rattle.isle_blocks.specs.Inside.Building.Contents.{Marked};
ghost use Rattle.isle_program.specs.Inside.Facts.Spreading.{IsSpread, MarksAndLists};

use std::alloc::{AllocError, Global};

/// Spreads marks: where a number is marked, so are those that are listed at it.
pub(crate) fn spread(
    alloc: Global,
    lists: &[Vec<usize>],
    marks: &mut Vec<bool>,
) -> Result<(), AllocError>
    requires { length lists.now ≡ length marks.old.items }
    ensures { OnOk result (IsSpread lists.now marks.old.items marks.new.items) }
{
    let mut left = marked_numbers(alloc, marks.as_slice())?;
    while let Some(number) = left.pop() {
        mark_listed(lists, number, marks, &mut left)?;
    }
    Ok(())
}

/// The numbers that are marked.
fn marked_numbers(alloc: Global, marks: &[bool]) -> Result<Vec<usize>, AllocError>
    ensures { IfOk result (λ numbers. (n : ℕ) → Contains numbers.items n ↔ Marked marks.now n) }
{
    let mut numbers = Vec::new(alloc);
    for n in 0..marks.len() {
        if marks[n] {
            numbers.push(n)?;
        }
    }
    Ok(numbers)
}

/// Marks the numbers in a list of lists, and lists those that weren't marked.
fn mark_listed(
    lists: &[Vec<usize>],
    number: usize,
    marks: &mut Vec<bool>,
    left: &mut Vec<usize>,
) -> Result<(), AllocError>
    requires { number < length lists.now }
    ensures { OnOk result ((own : Vec ℕ Global) → slice_get lists.now number ≡ Some own
        → MarksAndLists own.items marks.old.items marks.new.items left.old.items left.new.items) }
{
    mark_each(lists[number].as_slice(), marks, left)
}

/// Marks the numbers of a list, and lists those that weren't marked.
fn mark_each(
    numbers: &[usize],
    marks: &mut Vec<bool>,
    left: &mut Vec<usize>,
) -> Result<(), AllocError>
    ensures { OnOk result (MarksAndLists numbers.now marks.old.items marks.new.items left.old.items left.new.items) }
{
    for i in 0..numbers.len() {
        mark(numbers[i], marks, left)?;
    }
    Ok(())
}

/// Marks a number and lists it, if there is a mark for it that isn't set.
fn mark(number: usize, marks: &mut Vec<bool>, left: &mut Vec<usize>) -> Result<(), AllocError>
    ensures { OnOk result (MarksAndLists (number ∷ []) marks.old.items marks.new.items left.old.items left.new.items) }
{
    if number < marks.len() && !marks[number] {
        left.push(number)?;
        marks[number] = true;
    }
    Ok(())
}
