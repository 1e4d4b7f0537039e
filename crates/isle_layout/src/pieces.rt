//! The pieces of a text: its tokens and its comments.
ghost use Rattle.std.specs.Prelude.{◌≡◌, IfOk, map};
ghost use Rattle.std.specs.Str.{IsUtf8};
ghost use Rattle.isle_syntax.specs.Tokens.Ends.{IsEnd};
ghost use Rattle.isle_layout.specs.Keeping.Pieces.{one_more, break_with, kind_at, after_piece, cut_of, before_rest, text_by, trimmed, pieces_of, piece_of};

use isle_syntax::gap::{
    Lead, after_char, after_comment, after_first, after_line, front, is_space, lead_of,
};
use isle_syntax::number::after_integer;
use isle_syntax::symbol::after_symbol;
use std::alloc::{AllocError, Global};

/// What a piece is.
#[derive(Clone, Copy, Debug, PartialEq, Eq)]
pub enum Kind {
    Opening,
    Closing,
    AtSign,
    /// A symbol or an integer.
    Atom,
    /// A comment from `;` up to the line's end.
    Line,
    /// A comment between `(;` and `;)`.
    Block,
}

/// The newlines in the white space before a piece.
#[derive(Clone, Copy, Debug, PartialEq, Eq)]
pub enum Break {
    /// None: the piece stands on the line of the one before.
    Same,
    /// One: it begins a line.
    Line,
    /// Two or more: there is a blank line before it.
    Blank,
}

impl Break {
    /// With one newline more.
    fn one_more(self) -> Break
        ensures { result ≡ one_more self }
    {
        match self {
            Break::Same => Break::Line,
            Break::Line => Break::Blank,
            Break::Blank => Break::Blank,
        }
    }

    /// With one byte of white space more.
    fn with(self, b: u8) -> Break
        ensures { result ≡ break_with self b }
    {
        if b == b'\n' { self.one_more() } else { self }
    }
}

/// A token or a comment as it is written.
#[derive(Clone, Copy, Debug)]
pub struct Piece<'src> {
    pub kind: Kind,
    pub text: &'src str,
    pub before: Break,
}

/// What a piece at the front of a text is, and what follows it. A `(;` that isn't closed counts as `(`.
fn after_piece(bytes: &[u8]) -> (Kind, &[u8])
    ensures kind { result.0 ≡ kind_at bytes.now }
    ensures rest { result.1.now ≡ after_piece bytes.now }
{
    match lead_of(bytes) {
        Lead::Opening => (Kind::Opening, after_first(bytes)),
        Lead::Closing => (Kind::Closing, after_first(bytes)),
        Lead::AtSign => (Kind::AtSign, after_first(bytes)),
        Lead::Number => (Kind::Atom, after_integer(bytes)),
        Lead::Word => (Kind::Atom, after_symbol(bytes)),
        Lead::Line => (Kind::Line, after_line(bytes)),
        Lead::Comment => match after_comment(after_first(after_first(bytes))) {
            Some(rest) => (Kind::Block, rest),
            None => (Kind::Opening, after_first(bytes)),
        },
        Lead::Space => (Kind::Atom, &[]),
        Lead::End => (Kind::Atom, &[]),
    }
}

/// A text in two, the second of which these bytes are.
fn split_at_end<'a>(text: &'a str, end: &[u8]) -> (&'a str, &'a str)
    requires end { IsEnd text.now end.now }
    requires text { IsUtf8 end.now }
    ensures front { result.0.now ≡ before_rest text.now end.now }
    ensures end { result.1.now ≡ end.now }
{
    text.split_at(text.len() - end.len())
}

/// Bytes without the white space at their end.
fn trimmed_bytes(bytes: &[u8]) -> &[u8]
    ensures { result.now ≡ trimmed bytes.now }
{
    let mut left = bytes;
    'bytes: while let [front @ .., last] = left {
        if !is_space(*last) {
            return left;
        }
        left = front;
    }
    left
}

/// A text without the white space at its end.
pub fn trimmed(text: &str) -> &str
    ensures { result.now ≡ trimmed text.now }
{
    let (front, _) = text.split_at(trimmed_bytes(text.as_bytes()).len());
    front
}

/// The piece at the front of a text, as it is written, and what follows it.
fn cut(text: &str) -> (Kind, &str, &str)
    ensures kind { result.0 ≡ (cut_of text.now).kind }
    ensures text { text_by result.0 result.1.now ≡ (cut_of text.now).text }
    ensures rest { result.2.now ≡ (cut_of text.now).rest }
{
    let (kind, rest) = after_piece(text.as_bytes());
    let (written, rest) = split_at_end(text, rest);
    (kind, written, rest)
}

/// The pieces of a text.
pub fn pieces(alloc: Global, text: &str) -> Result<Vec<Piece<'_>>, AllocError>
    ensures { IfOk result (λ found. map piece_of found.items ≡ pieces_of text.now) }
{
    let mut found = Vec::new(alloc);
    let mut before = Break::Same;
    let mut rest = text;
    'rest: while let Some((first, _)) = front(rest.as_bytes()) {
        if is_space(first) {
            before = before.with(first);
            rest = after_char(rest);
        } else {
            let (kind, text, more) = cut(rest);
            found.push(Piece { kind, text, before })?;
            before = Break::Same;
            rest = more;
        }
    }
    Ok(found)
}
