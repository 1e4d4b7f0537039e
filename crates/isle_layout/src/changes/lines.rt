//! The lines of a text.
ghost use Rattle.std.specs.Prelude.{◌≡◌, IfOk, drop, map, take, count_by, not};
ghost use Rattle.std.specs.Char.{is_ascii_whitespace};
ghost use Rattle.isle_layout.specs.Changes.Lines.{lines_of};
ghost use Rattle.isle_layout.specs.Inside.Changes.{line_length as the_line_length, text_of};

use std::alloc::{AllocError, Global};

/// A line of a text with its newline, and how many of its bytes aren't white space.
#[derive(Clone, Copy)]
pub struct Line<'text> {
    pub text: &'text str,
    pub weight: usize,
}

/// The lines of a text.
pub fn lines<'text>(alloc: Global, text: &'text str) -> Result<Vec<Line<'text>>, AllocError>
    ensures { IfOk result (λ lines. map text_of lines.items ≡ lines_of text.now) }
{
    let mut lines = Vec::new(alloc);
    let mut rest = text;
    while !rest.is_empty() {
        let (text, others) = split_line(rest);
        let weight = weight(text);
        lines.push(Line { text, weight })?;
        rest = others;
    }
    Ok(lines)
}

/// The first line of a text, and what follows it.
fn split_line(text: &str) -> (&str, &str)
    ensures line { result.0.now ≡ take (the_line_length text.now) text.now }
    ensures rest { result.1.now ≡ drop (the_line_length text.now) text.now }
{
    text.split_at(line_length(text.as_bytes()))
}

/// How long the first line of a text is, with its newline.
fn line_length(text: &[u8]) -> usize
    ensures { result ≡ the_line_length text.now }
{
    for (i, byte) in text.iter().enumerate() {
        if *byte == b'\n' {
            return i + 1;
        }
    }
    text.len()
}

/// How many bytes of a line aren't white space.
fn weight(line: &str) -> usize
    ensures { result ≡ count_by (λ b. not (is_ascii_whitespace b)) line.now }
{
    line.bytes()
        .filter(|byte| !byte.is_ascii_whitespace())
        .count()
}
