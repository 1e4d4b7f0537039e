//! Texts as labels of a graph.
ghost use Rattle.std.specs.Prelude.{◌≡◌, ◌++◌, IfOk, OnOk, string_bytes};
ghost use Rattle.isle_tell.specs.TreeTexts.DotLabels.{escaped, quoted};

use std::alloc::{AllocError, Global};

/// A text between quotes.
pub(crate) fn quoted(alloc: Global, text: &str) -> Result<String, AllocError>
    ensures { IfOk result (λ label. string_bytes label ≡ quoted text.now) }
{
    let mut label = String::from_str(alloc, "\"")?;
    for c in text.chars() {
        push_escaped(&mut label, c)?;
    }
    label.push_str("\"")?;
    Ok(label)
}

/// A character of a label. One that ends a label, or that is read as more than itself, is escaped.
fn push_escaped(label: &mut String, c: char) -> Result<(), AllocError>
    ensures { OnOk result (string_bytes label.new ≡ string_bytes label.old ++ escaped c) }
{
    match c {
        '"' => label.push_str("\\\""),
        '\\' => label.push_str("\\\\"),
        '&' => label.push_str("&amp;"),
        _ => label.push(c),
    }
}
