//! What changes from a text to another, as a unified diff.
ghost use Rattle.std.specs.Prelude.{◌≡◌, ◌++◌, ◌↔◌, [], IfOk, string_bytes};
ghost use Rattle.isle_layout.specs.Changes.Hunks.{file_header};
ghost use Rattle.isle_layout.specs.Changes.Diffs.{IsDiff};

mod hunks;
mod lines;
mod script;

use hunks::write_hunks;
use script::script;
use std::alloc::{AllocError, Global};

/// What changes from a text to another, as a unified diff of the file of a name, with three lines of context; nothing where nothing does.
pub fn changes(alloc: Global, name: &str, old: &str, new: &str) -> Result<String, AllocError>
    ensures none { IfOk result (λ told. (old.now ≡ new.now) ↔ (string_bytes told ≡ [])) }
    ensures told { IfOk result (λ told. IsDiff name.now old.now new.now (string_bytes told)) }
{
    let mut told = String::new(alloc);
    if old == new {
        return Ok(told);
    }
    let steps = script(alloc, old, new)?;
    write_file_header(&mut told, name)?;
    write_hunks(&mut told, steps.as_slice())?;
    Ok(told)
}

/// Writes the two lines that name the file.
fn write_file_header(out: &mut String, name: &str) -> Result<(), AllocError>
    ensures { IfOk result (λ done. string_bytes out.new ≡ string_bytes out.old ++ file_header name.now) }
{
    out.push_str("--- ")?;
    out.push_str(name)?;
    out.push_str("\n+++ ")?;
    out.push_str(name)?;
    out.push('\n')
}
