//! A text laid out anew: its pieces with other white space between them.
ghost use Rattle.std.specs.Prelude.{◌≡◌, ◌≤◌, ◌<◌, ◌+◌, ◌++◌, ◌∷◌, [], ℕ, Bool, false, true, List, IfOk, map, string_bytes};
ghost use Rattle.isle_syntax.specs.declared.lexer.Token.{Token};
ghost use Rattle.isle_layout.specs.Keeping.TokenValues.{HasTokens};
ghost use Rattle.isle_layout.specs.Keeping.Pieces.{text_by, trimmed_lines, piece_of, Fragment, pieces_of};
ghost use Rattle.isle_layout.specs.Keeping.Rows.{rows_of};
ghost use Rattle.isle_layout.specs.Keeping.LaidOut.{if_first, flat_habit, at_sign_habit, item_habit, broken_habit, habit_behind_line, habit_behind};
ghost use Rattle.isle_layout.specs.Keeping.LaidOut.{first_gap, item_gap, gap_by, margin, gap_text, is_flat, gap_at, levels_at, text_before, spot_behind};
ghost use Rattle.isle_layout.specs.Keeping.LaidOut.{next_spot, written, start, laid_out, texts_of};
ghost use Rattle.isle_layout.specs.Keeping.LineEnds.{ends_clean, is_spaced, HaveSpacedBlocks, IsEnded};

use crate::pieces::{Break, Kind, Piece, pieces, trimmed};
use crate::rows::lists_that_fit;
use std::alloc::{AllocError, Global};

/// The white space before a piece.
#[derive(Clone, Copy, Debug, PartialEq, Eq)]
pub enum Gap {
    Nothing,
    Space,
    /// A newline, and the margin.
    Line,
    /// The same behind a blank line.
    Blank,
}

/// How a piece stands behind the one before.
#[derive(Clone, Copy, Debug, PartialEq, Eq)]
pub enum Habit {
    /// With nothing between.
    Close,
    /// Behind a space.
    Apart,
    /// On a new line, with no blank one before it.
    Under,
    /// On a new line, behind a blank one where one was.
    Item,
    /// A comment: behind a space where it stood on the same line, else as an item.
    Behind,
    /// A comment up to the line's end behind `(`: behind a space where it stood on the same line, else on a new line.
    FirstLine,
    /// A comment between `(;` and `;)` behind `(`: close to it where it stood on the same line, else on a new line.
    FirstBlock,
}

impl Habit {
    /// The gap before a piece that stands so, by the newlines that were before it.
    fn gap(self, before: Break) -> Gap
        ensures { result ≡ gap_by self before }
    {
        match self {
            Habit::Close => Gap::Nothing,
            Habit::Apart => Gap::Space,
            Habit::Under => Gap::Line,
            Habit::Item => item_gap(Gap::Line, before),
            Habit::Behind => item_gap(Gap::Space, before),
            Habit::FirstLine => first_gap(Gap::Space, before),
            Habit::FirstBlock => first_gap(Gap::Nothing, before),
        }
    }
}

/// This gap where no newline was, else a new line.
fn first_gap(same: Gap, before: Break) -> Gap
    ensures { result ≡ first_gap same before }
{
    match before {
        Break::Same => same,
        Break::Line => Gap::Line,
        Break::Blank => Gap::Line,
    }
}

/// This gap where no newline was, else a new line, behind a blank one where one was.
fn item_gap(same: Gap, before: Break) -> Gap
    ensures { result ≡ item_gap same before }
{
    match before {
        Break::Same => same,
        Break::Line => Gap::Line,
        Break::Blank => Gap::Blank,
    }
}

/// The first where the piece before is `(`, else the second.
fn if_first(prev: Kind, first: Habit, other: Habit) -> Habit
    ensures { result ≡ if_first prev first other }
{
    match prev {
        Kind::Opening => first,
        Kind::Closing => other,
        Kind::AtSign => other,
        Kind::Atom => other,
        Kind::Line => other,
        Kind::Block => other,
    }
}

/// How a piece stands in a list on one line.
fn flat_habit(prev: Kind, kind: Kind) -> Habit
    ensures { result ≡ flat_habit prev kind }
{
    match kind {
        Kind::Closing => Habit::Close,
        Kind::Line => Habit::Apart,
        Kind::Opening => if_first(prev, Habit::Close, Habit::Apart),
        Kind::AtSign => if_first(prev, Habit::Close, Habit::Apart),
        Kind::Atom => if_first(prev, Habit::Close, Habit::Apart),
        Kind::Block => if_first(prev, Habit::Close, Habit::Apart),
    }
}

/// How an `@` stands behind a piece, in a broken list or in no list.
fn at_sign_habit(prev: Kind) -> Habit
    ensures { result ≡ at_sign_habit prev }
{
    match prev {
        Kind::Opening => Habit::Close,
        Kind::Closing => Habit::Apart,
        Kind::AtSign => Habit::Apart,
        Kind::Atom => Habit::Apart,
        Kind::Line => Habit::Item,
        Kind::Block => Habit::Item,
    }
}

/// How an item stands behind a piece, in a broken list or in no list.
fn item_habit(prev: Kind) -> Habit
    ensures { result ≡ item_habit prev }
{
    match prev {
        Kind::Opening => Habit::Close,
        Kind::Closing => Habit::Item,
        Kind::AtSign => Habit::Apart,
        Kind::Atom => Habit::Item,
        Kind::Line => Habit::Item,
        Kind::Block => Habit::Item,
    }
}

/// How a piece stands in a broken list, or in no list.
fn broken_habit(prev: Kind, kind: Kind) -> Habit
    ensures { result ≡ broken_habit prev kind }
{
    match kind {
        Kind::Closing => Habit::Under,
        Kind::Line => if_first(prev, Habit::FirstLine, Habit::Behind),
        Kind::Block => if_first(prev, Habit::FirstBlock, Habit::Behind),
        Kind::AtSign => at_sign_habit(prev),
        Kind::Opening => item_habit(prev),
        Kind::Atom => item_habit(prev),
    }
}

/// How a piece stands behind a comment up to the line's end.
fn habit_behind_line(kind: Kind) -> Habit
    ensures { result ≡ habit_behind_line kind }
{
    match kind {
        Kind::Closing => Habit::Under,
        Kind::Opening => Habit::Item,
        Kind::AtSign => Habit::Item,
        Kind::Atom => Habit::Item,
        Kind::Line => Habit::Item,
        Kind::Block => Habit::Item,
    }
}

/// How a piece stands behind another, in a list on one line or elsewhere.
fn habit_behind(flat: bool, prev: Kind, kind: Kind) -> Habit
    ensures { result ≡ habit_behind flat prev kind }
{
    if prev == Kind::Line {
        habit_behind_line(kind)
    } else if flat {
        flat_habit(prev, kind)
    } else {
        broken_habit(prev, kind)
    }
}

/// A place in what is written, behind some pieces.
#[derive(Clone, Copy, Debug)]
pub struct Spot {
    /// The open lists that are broken over lines.
    pub broken: usize,
    /// The open lists inside of them, which stay on one line.
    pub flat: usize,
    /// The piece before.
    pub prev: Option<Kind>,
}

impl Spot {
    /// The start of a text.
    fn start() -> Spot
        ensures { result ≡ start }
    {
        Spot {
            broken: 0,
            flat: 0,
            prev: None,
        }
    }

    /// Whether a list on one line is open.
    fn is_flat(&self) -> bool
        ensures { result ≡ is_flat self.now }
    {
        0 < self.flat
    }

    /// The gap before a piece.
    fn gap(&self, kind: Kind, before: Break) -> Gap
        ensures { result ≡ gap_at self.now kind before }
    {
        match self.prev {
            None => Habit::Close.gap(before),
            Some(prev) => habit_behind(self.is_flat(), prev, kind).gap(before),
        }
    }

    /// The levels at which a piece begins a line.
    fn levels(&self, kind: Kind) -> usize
        ensures { result ≡ levels_at self.now kind }
    {
        if kind == Kind::Closing && !self.is_flat() {
            self.broken.saturating_sub(1)
        } else {
            self.broken
        }
    }

    /// The spot behind a piece, which is a `(` whose list stays on one line, or doesn't.
    fn behind(&self, kind: Kind, stays: bool) -> Spot
        requires { self.now.broken + self.now.flat < usize.MAX }
        ensures { result ≡ spot_behind self.now kind stays }
    {
        let prev = Some(kind);
        let Spot { broken, flat, .. } = *self;
        match kind {
            Kind::Opening => {
                if self.is_flat() || stays {
                    Spot {
                        broken,
                        flat: flat + 1,
                        prev,
                    }
                } else {
                    Spot {
                        broken: broken + 1,
                        flat,
                        prev,
                    }
                }
            }
            Kind::Closing => {
                if self.is_flat() {
                    Spot {
                        broken,
                        flat: flat - 1,
                        prev,
                    }
                } else {
                    Spot {
                        broken: broken.saturating_sub(1),
                        flat,
                        prev,
                    }
                }
            }
            Kind::AtSign => Spot { broken, flat, prev },
            Kind::Atom => Spot { broken, flat, prev },
            Kind::Line => Spot { broken, flat, prev },
            Kind::Block => Spot { broken, flat, prev },
        }
    }
}

/// Writes four spaces for each level.
fn write_margin(out: &mut String, levels: usize) -> Result<(), AllocError>
    ensures { IfOk result (λ done. string_bytes out.new ≡ string_bytes out.old ++ margin levels) }
{
    for level in 0..levels {
        out.push_str("    ")?;
    }
    Ok(())
}

/// Writes a gap, at so many levels.
fn write_gap(out: &mut String, gap: Gap, levels: usize) -> Result<(), AllocError>
    ensures { IfOk result (λ done. string_bytes out.new ≡ string_bytes out.old ++ gap_text gap levels) }
{
    match gap {
        Gap::Nothing => Ok(()),
        Gap::Space => out.push(' '),
        Gap::Line => {
            out.push('\n')?;
            write_margin(out, levels)
        }
        Gap::Blank => {
            out.push_str("\n\n")?;
            write_margin(out, levels)
        }
    }
}

/// Writes a text without the white space directly before its newlines.
fn write_lines(out: &mut String, text: &str) -> Result<(), AllocError>
    ensures { IfOk result (λ done. string_bytes out.new ≡ string_bytes out.old ++ trimmed_lines text.now) }
{
    let mut left = text;
    'lines: while let Some((line, others)) = left.split_once('\n') {
        out.push_str(trimmed(line))?;
        out.push('\n')?;
        left = others;
    }
    out.push_str(left)
}

/// Writes a piece's text: a comment without the white space at its lines' ends.
fn write_text(out: &mut String, kind: Kind, text: &str) -> Result<(), AllocError>
    ensures { IfOk result (λ done. string_bytes out.new ≡ string_bytes out.old ++ text_by kind text.now) }
{
    match kind {
        Kind::Line => out.push_str(trimmed(text)),
        Kind::Block => write_lines(out, text),
        Kind::Opening => out.push_str(text),
        Kind::Closing => out.push_str(text),
        Kind::AtSign => out.push_str(text),
        Kind::Atom => out.push_str(text),
    }
}

/// Writes a piece, behind its gap.
fn write_piece(out: &mut String, spot: &Spot, piece: &Piece<'_>) -> Result<(), AllocError>
    ensures { IfOk result (λ done. string_bytes out.new
        ≡ string_bytes out.old ++ (text_before spot.now piece.now.kind piece.now.before ++ (piece_of piece.now).text)) }
{
    write_gap(
        out,
        spot.gap(piece.kind, piece.before),
        spot.levels(piece.kind),
    )?;
    write_text(out, piece.kind, piece.text)
}

/// Takes whether the next list stays on one line.
fn next_fit(fits: &mut Vec<bool>) -> bool
    ensures { (fit : Bool) (rest : List Bool) → fits.old.items ≡ rest ++ fit ∷ [] → (result ≡ fit) × (fits.new.items ≡ rest) }
{
    matches!(fits.pop(), Some(true))
}

/// The spot behind a piece, which takes from `fits` where it is a `(`.
fn move_on(spot: &Spot, piece: &Piece<'_>, fits: &mut Vec<bool>) -> Spot
    requires { spot.now.broken + spot.now.flat < usize.MAX }
    ensures within { result.broken + result.flat ≤ spot.now.broken + spot.now.flat + 1 }
    ensures spot { (width : ℕ) (others : List Fragment) → fits.old.items ≡ (rows_of width (piece_of piece.now ∷ others)).fits
        → (result ≡ next_spot width spot.now (piece_of piece.now) others) × (fits.new.items ≡ (rows_of width others).fits) }
{
    let stays = if piece.kind == Kind::Opening {
        next_fit(fits)
    } else {
        false
    };
    spot.behind(piece.kind, stays)
}

/// Pieces as they are laid out, where it is known which lists stay on one line.
fn write_pieces(
    alloc: Global,
    pieces: &[Piece<'_>],
    mut fits: Vec<bool>,
) -> Result<String, AllocError>
    ensures { IfOk result (λ out. (width : ℕ) → fits.items ≡ (rows_of width (map piece_of pieces.now)).fits
        → string_bytes out ≡ written width start (map piece_of pieces.now)) }
{
    let mut out = String::new(alloc);
    let mut spot = Spot::start();
    for piece in pieces {
        write_piece(&mut out, &spot, piece)?;
        spot = move_on(&spot, piece, &mut fits);
    }
    if spot.prev.is_some() {
        out.push('\n')?;
    }
    Ok(out)
}

/// A text laid out at a width, with its comments and its numbers as they are written.
pub fn lay_out(alloc: Global, text: &str, width: usize) -> Result<String, AllocError>
    ensures text { IfOk result (λ out. string_bytes out ≡ laid_out width text.now) }
    ensures same { IfOk result (λ out. texts_of (string_bytes out) ≡ texts_of text.now) }
    ensures tokens { IfOk result (λ out. (tokens : List Token) → HasTokens text.now tokens → HasTokens (string_bytes out) tokens) }
    ensures clean { IfOk result (λ out. ends_clean false (string_bytes out) ≡ true) }
    ensures spaced { IfOk result (λ out. HaveSpacedBlocks (pieces_of text.now) → is_spaced 0 (string_bytes out) ≡ true) }
    ensures ends { IfOk result (λ out. IsEnded (pieces_of text.now) (string_bytes out)) }
    ensures settled { IfOk result (λ out. laid_out width (string_bytes out) ≡ string_bytes out) }
{
    let pieces = pieces(alloc, text)?;
    let fits = lists_that_fit(alloc, pieces.as_slice(), width)?;
    write_pieces(alloc, pieces.as_slice(), fits)
}
