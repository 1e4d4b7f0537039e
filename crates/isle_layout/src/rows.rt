//! Which lists stay on one line.
ghost use Rattle.std.specs.Prelude.{◌≡◌, ◌-◌, IfOk, map, length, take};
ghost use Rattle.isle_layout.specs.Keeping.Pieces.{piece_of, trimmed_lines};
ghost use Rattle.isle_layout.specs.Keeping.Rows.{and_one, are_few, empty_row, row_behind, has_newline, block_length, list_length, stays, last_row, rows_with, rows_of};
ghost use Rattle.isle_layout.specs.Inside.RowsSeen.{rows_seen};

use crate::pieces::{Kind, Piece};
use crate::printer::{at_most, sum_within, text_length};
use std::alloc::{AllocError, Global};

/// How many items a list has, as far as it matters.
#[derive(Clone, Copy, Debug, PartialEq, Eq)]
pub enum Count {
    Zero,
    One,
    More,
}

impl Count {
    /// One more.
    fn and_one(self) -> Count
        ensures { result ≡ and_one self }
    {
        match self {
            Count::Zero => Count::One,
            Count::One => Count::More,
            Count::More => Count::More,
        }
    }

    /// Whether there are fewer than two.
    fn are_few(self) -> bool
        ensures { result ≡ are_few self }
    {
        match self {
            Count::Zero => true,
            Count::One => true,
            Count::More => false,
        }
    }
}

/// What stands from a piece on, up to the end of the list that is open there.
#[derive(Clone, Copy, Debug, Drop)]
pub struct Row {
    /// The characters of its items and of a space behind each, or `None` where they are more than the width.
    pub length: Option<usize>,
    pub count: Count,
    /// Whether a comment in it keeps its list from staying on one line.
    pub is_broken: bool,
}

impl Row {
    /// A row of nothing.
    fn empty() -> Row
        ensures { result ≡ empty_row }
    {
        Row {
            length: Some(0),
            count: Count::Zero,
            is_broken: false,
        }
    }

    /// This row behind an item of this length and a space.
    fn behind(self, width: usize, item: Option<usize>, breaks: bool) -> Row
        ensures { result ≡ row_behind width item breaks self }
    {
        let item = sum_within(width, item, at_most(width, 1));
        Row {
            length: sum_within(width, item, self.length),
            count: self.count.and_one(),
            is_broken: breaks || self.is_broken,
        }
    }

    /// How long a list of this row is on one line.
    fn list_length(self, width: usize) -> Option<usize>
        ensures { result ≡ list_length width self }
    {
        match self.count {
            Count::Zero => at_most(width, 2),
            Count::One => sum_within(width, self.length, at_most(width, 1)),
            Count::More => sum_within(width, self.length, at_most(width, 1)),
        }
    }

    /// Whether a list of this row stays on one line.
    fn stays(self, width: usize) -> bool
        ensures { result ≡ stays width self }
    {
        !self.is_broken && (self.list_length(width).is_some() || self.count.are_few())
    }
}

/// Whether a newline is among the bytes of a text.
fn has_newline(text: &str) -> bool
    ensures { result ≡ has_newline text.now }
{
    text.as_bytes().iter().any(|b| *b == b'\n')
}

/// How long a comment between `(;` and `;)` is on one line, or `None` where it has more than one, or is longer than the width.
fn block_length(width: usize, text: &str) -> Option<usize>
    ensures { result ≡ block_length width (trimmed_lines text.now) }
{
    if has_newline(text) {
        None
    } else {
        text_length(width, text)
    }
}

/// What is known of the pieces from one on.
#[derive(Debug, Drop)]
struct Found {
    /// What stands in the list that is open there.
    here: Row,
    /// The same of those around it, the innermost last.
    outer: Vec<Row>,
    /// For each list that begins there, the first one last, whether it stays on one line.
    fits: Vec<bool>,
}

impl Found {
    /// One piece more before them.
    #[tactic(auto, using(crate::proofs::Keeping::BlockLines::newlines_same))]
    fn add(&mut self, piece: &Piece<'_>, width: usize) -> Result<(), AllocError>
        ensures { IfOk result (λ done. rows_seen self.new ≡ rows_with width piece.now.kind (piece_of piece.now).text (rows_seen self.old)) }
    {
        match piece.kind {
            Kind::Closing => {
                self.outer.push(self.here)?;
                self.here = Row::empty();
            }
            Kind::Opening => {
                let list = self.here;
                self.fits.push(list.stays(width))?;
                let around = last_or_empty(&mut self.outer);
                self.here = around.behind(width, list.list_length(width), list.is_broken);
            }
            Kind::AtSign => self.add_item(width, text_length(width, piece.text), false),
            Kind::Atom => self.add_item(width, text_length(width, piece.text), false),
            Kind::Line => self.add_item(width, None, true),
            Kind::Block => {
                let length = block_length(width, piece.text);
                self.add_item(width, length, has_newline(piece.text));
            }
        }
        Ok(())
    }

    /// One item more in the list that is open, of this length.
    fn add_item(&mut self, width: usize, item: Option<usize>, breaks: bool)
        ensures { rows_seen self.new ≡ record (rows_seen self.old) { here = row_behind width item breaks (rows_seen self.old).here } }
    {
        self.here = self.here.behind(width, item, breaks);
    }
}

/// Takes the last row, or an empty one where there is none.
fn last_or_empty(rows: &mut Vec<Row>) -> Row
    ensures row { result ≡ last_row rows.old.items }
    ensures rest { rows.new.items ≡ take (length rows.old.items - 1) rows.old.items }
{
    match rows.pop() {
        Some(row) => row,
        None => Row::empty(),
    }
}

/// For each list of the pieces, the first one last, whether it stays on one line.
#[tactic(auto, using(crate::proofs::Keeping::Measuring::measured_first, crate::proofs::Keeping::Measuring::measured_more, crate::proofs::Keeping::Measuring::measured_all))]
pub fn lists_that_fit(
    alloc: Global,
    pieces: &[Piece<'_>],
    width: usize,
) -> Result<Vec<bool>, AllocError>
    ensures { IfOk result (λ fits. fits.items ≡ (rows_of width (map piece_of pieces.now)).fits) }
{
    let mut found = Found {
        here: Row::empty(),
        outer: Vec::new(alloc),
        fits: Vec::new(alloc),
    };
    let mut left = pieces;
    'pieces: while let [front @ .., piece] = left {
        found.add(piece, width)?;
        left = front;
    }
    let Found { fits, .. } = found;
    Ok(fits)
}
