//! What is printed of a world that is refused.
ghost use Rattle.std.specs.Prelude.{◌≡◌, ◌+◌, ◌-◌, ◌∷◌, IfOk, slice_index, string_bytes};
ghost use Rattle.isle_ast.specs.Positions.Lines.{starts_up_to};
ghost use Rattle.islec.specs.Reasons.{TellsFault};
ghost use Rattle.islec.specs.Worlds.{placed_line, world_fault_line};

use crate::explain::world_line;
use isle_run::{Program, WorldFault};
use isle_syntax::files::LineMap;
use std::alloc::{AllocError, Global};

/// The line of an offset, from 1.
fn line_of(map: &LineMap, offset: usize) -> usize
    ensures { result ≡ starts_up_to map.now offset + 1 }
{
    map.line(offset) + 1
}

/// Where the line of an offset starts.
fn start_of(map: &LineMap, offset: usize) -> usize
    ensures { result ≡ slice_index (0 ∷ map.now) (starts_up_to map.now offset) }
{
    match map.line(offset).checked_sub(1) {
        None => 0,
        Some(i) => map[i],
    }
}

/// The column of an offset, in bytes from 1.
fn column_of(map: &LineMap, offset: usize) -> u128
    ensures { result ≡ offset - slice_index (0 ∷ map.now) (starts_up_to map.now offset) + 1 }
{
    offset.saturating_sub(start_of(map, offset)) as u128 + 1
}

/// The line `NAME:LINE:COLUMN: KIND` of an offset of a text.
fn placed_fault(
    alloc: Global,
    name: &str,
    text: &str,
    offset: usize,
    kind: &str,
) -> Result<String, AllocError>
    ensures { IfOk result (λ line. string_bytes line ≡ placed_line (record { name = name.now; text = text.now }) offset kind.now) }
{
    let map = LineMap::from_str(alloc, text)?;
    let line = line_of(&map, offset);
    let column = column_of(&map, offset);
    let placed = format!(in alloc; "{name}:{line}:{column}")?;
    let place = placed.as_str();
    let told = format!(in alloc; "{place}: {kind}\n")?;
    Ok(told)
}

/// What tells why the world of a name and a text is refused, with its reason below it where reasons are asked for.
pub fn fault_text(
    alloc: Global,
    program: &Program,
    explain: bool,
    name: &str,
    text: &str,
    fault: &WorldFault,
) -> Result<String, AllocError>
    ensures { IfOk result (λ lines. TellsFault explain program.now (record { name = name.now; text = text.now }) fault.now (string_bytes lines)) }
{
    let mut lines = fault_line(alloc, program, name, text, fault)?;
    lines.push_str(world_line(alloc, program, explain, text, fault)?.as_str())?;
    Ok(lines)
}

/// The line that tells why the world of a name and a text is refused; nothing where memory ran out.
fn fault_line(
    alloc: Global,
    program: &Program,
    name: &str,
    text: &str,
    fault: &WorldFault,
) -> Result<String, AllocError>
    ensures { IfOk result (λ line. string_bytes line
        ≡ world_fault_line program.now (record { name = name.now; text = text.now }) fault.now) }
{
    match fault {
        WorldFault::X1(offset) => placed_fault(alloc, name, text, *offset, "X1"),
        WorldFault::X2(offset) => placed_fault(alloc, name, text, *offset, "X2"),
        WorldFault::X3(offset) => placed_fault(alloc, name, text, *offset, "X3"),
        WorldFault::X4(offset) => placed_fault(alloc, name, text, *offset, "X4"),
        WorldFault::X5(offset) => placed_fault(alloc, name, text, *offset, "X5"),
        WorldFault::X6(term) => {
            let lacking = program.name(*term);
            format!(in alloc; "{name}: X6 {lacking}\n")
        }
        WorldFault::Memory(_) => Ok(String::new(alloc)),
    }
}
