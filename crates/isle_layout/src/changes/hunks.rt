//! The hunks of a unified diff.
ghost use Rattle.std.specs.Prelude.{◌≡◌, ◌<◌, ◌≤◌, ◌+◌, ◌++◌, ◌∷◌, false, length, map, not, ◌&&◌, IfOk, string_bytes};
ghost use Rattle.std.specs.List.{list_any};
ghost use Rattle.isle_layout.specs.Changes.Scripts.{is_new, is_old};
ghost use Rattle.isle_layout.specs.Changes.Hunks.{behind, is_change as the_change, is_shown, line_text, range_text, hunk_header, hunk_end, hunks, start, mark_byte};
ghost use Rattle.isle_layout.specs.Inside.Changes.{edit_of};

use crate::changes::script::{Mark, Step};
use std::alloc::AllocError;
use std::fmt::Write;

/// A place in a script.
#[derive(Clone, Copy)]
pub struct Place {
    /// How many lines of the old text stand before.
    pub old: usize,
    /// How many lines of the new text stand before.
    pub new: usize,
    /// How many lines from here on are shown since one shortly before is changed.
    pub left: usize,
}

impl Place {
    /// The start of a script.
    fn start() -> Place
        ensures { result ≡ start }
    {
        Place {
            old: 0,
            new: 0,
            left: 0,
        }
    }

    /// The place behind a line.
    fn behind(self, mark: Mark) -> Place
        requires old { self.old < usize.MAX }
        requires new { self.new < usize.MAX }
        ensures place { result ≡ behind self mark }
        ensures old { result.old ≤ self.old + 1 }
        ensures new { result.new ≤ self.new + 1 }
    {
        let Place { old, new, left } = self;
        match mark {
            Mark::Kept => Place {
                old: old + 1,
                new: new + 1,
                left: left.saturating_sub(1),
            },
            Mark::Removed => Place {
                old: old + 1,
                new,
                left: 3,
            },
            Mark::Added => Place {
                old,
                new: new + 1,
                left: 3,
            },
        }
    }

    /// Whether the next line is shown.
    fn is_shown(self, steps: &[Step<'_>]) -> bool
        ensures { result ≡ is_shown self (map edit_of steps.now) }
    {
        0 < self.left || any_change(&steps[..steps.len().min(4)])
    }
}

/// Whether a line of these is removed or added.
fn any_change(steps: &[Step<'_>]) -> bool
    ensures { result ≡ list_any the_change (map edit_of steps.now) }
{
    for step in steps {
        if is_change(step.mark) {
            return true;
        }
    }
    false
}

/// Whether a line is removed or added, by what becomes of it.
fn is_change(mark: Mark) -> bool
    ensures { result ≡ not (is_old mark && is_new mark) }
{
    match mark {
        Mark::Kept => false,
        Mark::Removed => true,
        Mark::Added => true,
    }
}

/// Writes the hunks of a script.
pub fn write_hunks(out: &mut String, steps: &[Step<'_>]) -> Result<(), AllocError>
    ensures { IfOk result (λ done. string_bytes out.new ≡ string_bytes out.old ++ hunks false start (map edit_of steps.now)) }
{
    let mut place = Place::start();
    let mut was_shown = false;
    for (i, step) in steps.iter().enumerate() {
        let from = &steps[i..];
        let shown = place.is_shown(from);
        if shown {
            if !was_shown {
                write_header(out, place, from)?;
            }
            write_line(out, step)?;
        }
        was_shown = shown;
        place = place.behind(step.mark);
    }
    Ok(())
}

/// Writes the header of the hunk that begins at a place.
fn write_header(out: &mut String, place: Place, steps: &[Step<'_>]) -> Result<(), AllocError>
    requires old { place.old + length steps.now < usize.MAX }
    requires new { place.new + length steps.now < usize.MAX }
    ensures { IfOk result (λ done. string_bytes out.new ≡ string_bytes out.old ++ hunk_header place (map edit_of steps.now)) }
{
    let end = hunk_end(place, steps);
    out.push_str("@@ -")?;
    write_range(out, place.old, end.old)?;
    out.push_str(" +")?;
    write_range(out, place.new, end.new)?;
    out.push_str(" @@\n")
}

/// The place where the hunk ends that begins at a place.
fn hunk_end(place: Place, steps: &[Step<'_>]) -> Place
    requires old { place.old + length steps.now < usize.MAX }
    requires new { place.new + length steps.now < usize.MAX }
    ensures { result ≡ hunk_end place (map edit_of steps.now) }
{
    let mut end = place;
    for (i, step) in steps.iter().enumerate() {
        if !end.is_shown(&steps[i..]) {
            return end;
        }
        end = end.behind(step.mark);
    }
    end
}

/// Writes where the lines of a side begin that a hunk has, and how many they are.
fn write_range(out: &mut String, from: usize, to: usize) -> Result<(), AllocError>
    requires { from < usize.MAX }
    ensures { IfOk result (λ done. string_bytes out.new ≡ string_bytes out.old ++ range_text from to) }
{
    let size = to.saturating_sub(from);
    let first = from + 1;
    match size {
        0 => write!(out, "{from},0"),
        1 => write!(out, "{first}"),
        _ => write!(out, "{first},{size}"),
    }
}

/// Writes a line that is shown, behind its mark.
fn write_line(out: &mut String, step: &Step<'_>) -> Result<(), AllocError>
    ensures { IfOk result (λ done. string_bytes out.new ≡ string_bytes out.old ++ line_text (edit_of step.now)) }
{
    out.push(mark_char(step.mark))?;
    out.push_str(step.line)?;
    if !step.line.ends_with('\n') {
        out.push_str("\n\\ No newline at end of file\n")?;
    }
    Ok(())
}

/// The character before a line, by what becomes of it.
fn mark_char(mark: Mark) -> char
    ensures { result ≡ mark_byte mark }
{
    match mark {
        Mark::Kept => ' ',
        Mark::Removed => '-',
        Mark::Added => '+',
    }
}
