//! Errors, and the spans where their faults lie.
ghost use Rattle.std.specs.Prelude.{◌≡◌, ◌<◌, ◌+◌};

use crate::pos::Pos;
use crate::text::{Seq, Text};
use std::ops::Range;

/// A stretch of a source file, from its first byte to the byte after its last.
#[derive(Debug, Clone, Drop)]
pub struct Span {
    pub from: Pos,
    pub to: Pos,
}

impl Span {
    ghost use Rattle.isle_ast.specs.Errors.{span_at};

    /// The span of the byte at a position; at the greatest offset it holds no byte.
    pub fn at(pos: Pos) -> Span
        ensures { result ≡ span_at pos }
    {
        Span {
            from: pos,
            to: Pos::new(pos.file, pos.offset.saturating_add(1)),
        }
    }

    /// The stretch of one byte.
    pub fn new_single(pos: Pos) -> Span
        requires { pos.offset < usize.MAX }
        ensures { result
            ≡ record { from = pos; to = record { file = pos.file; offset = pos.offset + 1 } } }
    {
        Span {
            from: pos,
            to: Pos::new(pos.file, pos.offset + 1),
        }
    }
}

/// The two offsets of a stretch.
impl From<&Span> for Range<usize> {
    ghost from_gives = { λ s r. r ≡ record { start = s.now.from.offset; end = s.now.to.offset } };

    fn from(span: &Span) -> Range<usize> {
        span.from.offset..span.to.offset
    }
}

/// A fault of a list of source texts.
#[derive(Debug, Drop)]
pub enum Error {
    /// A text isn't spelt by the grammar.
    ParseError { msg: Text, span: Span },
    /// A rule of the typing is broken.
    TypeError { msg: Text, span: Span },
    /// A rule can never match.
    UnreachableError { msg: Text, span: Span },
    /// Rules of one priority may both match: the heading one first, then its partners.
    OverlapError { msg: Text, rules: Seq<Span> },
    /// Rules that another one masks.
    ShadowedError { shadowed: Seq<Span>, mask: Span },
    /// A bound on sizes is passed.
    SizeError { msg: Text, span: Span },
}
