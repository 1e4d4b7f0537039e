//! Gaps between tokens, which are white space and comments, and what a text begins with.
ghost use Rattle.std.specs.Prelude.{◌≡◌, ◌≤◌, ◌-◌, ◌<◌, ◌==◌, [], ◌∷◌, length, drop, slice_index, not, MatchOption, option_map};
ghost use Rattle.std.specs.Str.{IsUtf8};
ghost use Rattle.isle_syntax.specs.Tokens.Ends.{IsEnd};
ghost use Rattle.isle_syntax.specs.Tokens.Names.{is_space, is_digit};
ghost use Rattle.isle_syntax.specs.Tokens.Gaps.{begins_semicolon, lead_of_parenthesis, lead_of_token, lead_of, after_first, after_run, in_line};
ghost use Rattle.isle_syntax.specs.Tokens.Gaps.{mark_of};
ghost use Rattle.isle_syntax.specs.Tokens.Finding.{after_comment, gap_of};

/// The first byte and the others.
pub fn front(bytes: &[u8]) -> Option<(u8, &[u8])>
    ensures { MatchOption result (bytes.now ≡ []) (λ x. bytes.now ≡ x.0 ∷ x.1.now) }
{
    match bytes {
        [] => None,
        [first, rest @ ..] => Some((*first, rest)),
    }
}

/// The bytes behind the first one.
pub fn after_first(bytes: &[u8]) -> &[u8]
    ensures { result.now ≡ after_first bytes.now }
{
    match front(bytes) {
        None => bytes,
        Some((_, rest)) => rest,
    }
}

/// What a text begins with.
#[derive(Clone, Copy, PartialEq, Eq)]
pub enum Lead {
    End,
    Space,
    /// `;`, which begins a comment up to the line's end.
    Line,
    /// `(;`, which begins a comment.
    Comment,
    Opening,
    Closing,
    AtSign,
    Number,
    Word,
}

/// Whether a byte is white space.
pub fn is_space(b: u8) -> bool
    ensures { result ≡ is_space b }
{
    b == b'\t' || b == b'\n' || b == b'\x0c' || b == b'\r' || b == b' '
}

fn begins_semicolon(bytes: &[u8]) -> bool
    ensures { result ≡ begins_semicolon bytes.now }
{
    match front(bytes) {
        None => false,
        Some((first, _)) => first == b';',
    }
}

/// What a `(` before these bytes begins.
fn lead_of_parenthesis(bytes: &[u8]) -> Lead
    ensures { result ≡ lead_of_parenthesis bytes.now }
{
    if begins_semicolon(bytes) {
        Lead::Comment
    } else {
        Lead::Opening
    }
}

/// What a byte begins that is no white space, `;` or `(`.
fn lead_of_token(b: u8) -> Lead
    ensures { result ≡ lead_of_token b }
{
    if b == b')' {
        Lead::Closing
    } else if b == b'@' {
        Lead::AtSign
    } else if b == b'-' || b.is_ascii_digit() {
        Lead::Number
    } else {
        Lead::Word
    }
}

/// What a text begins with.
pub fn lead_of(bytes: &[u8]) -> Lead
    ensures { result ≡ lead_of bytes.now }
{
    let Some((first, rest)) = front(bytes) else {
        return Lead::End;
    };
    if is_space(first) {
        Lead::Space
    } else if first == b';' {
        Lead::Line
    } else if first == b'(' {
        lead_of_parenthesis(rest)
    } else {
        lead_of_token(first)
    }
}

/// From the newline on that ends the line, or from the end on.
#[tactic(auto, unfolding(crate::specs::Tokens::Gaps::after_run))]
pub fn after_line(bytes: &[u8]) -> &[u8]
    ensures { result.now ≡ after_run in_line bytes.now }
{
    let mut rest = bytes;
    'bytes: while let Some((first, more)) = front(rest) {
        if first == b'\n' {
            return rest;
        }
        rest = more;
    }
    rest
}

/// What two bytes are to a comment.
#[derive(Clone, Copy, PartialEq, Eq)]
enum Mark {
    Opens,
    Closes,
    Neither,
}

fn mark_of(first: u8, second: u8) -> Mark
    ensures { result ≡ mark_of first second }
{
    if first == b';' && second == b')' {
        Mark::Closes
    } else if first == b'(' && second == b';' {
        Mark::Opens
    } else {
        Mark::Neither
    }
}

/// What follows the comment whose inside begins here, or `None` where it isn't closed. Comments nest.
#[tactic(auto, unfolding(crate::specs::Tokens::Finding::after_comment))]
pub fn after_comment(bytes: &[u8]) -> Option<&[u8]>
    ensures { option_map (λ r. r.now) result ≡ after_comment 0 bytes.now }
{
    let mut rest = bytes;
    let mut open: usize = 0;
    'bytes: loop {
        let Some((first, tail)) = front(rest) else {
            return None;
        };
        let Some((second, more)) = front(tail) else {
            return None;
        };
        match mark_of(first, second) {
            Mark::Closes => {
                if open == 0 {
                    return Some(more);
                }
                open -= 1;
                rest = more;
            }
            Mark::Opens => {
                open += 1;
                rest = more;
            }
            Mark::Neither => rest = tail,
        }
    }
}

/// What follows the white space and the comments at the front of bytes.
fn after_byte_gap(bytes: &[u8]) -> &[u8]
    ensures { result.now ≡ gap_of bytes.now }
{
    let mut rest = bytes;
    'gaps: loop {
        match lead_of(rest) {
            Lead::Space => rest = after_first(rest),
            Lead::Line => rest = after_line(after_first(rest)),
            Lead::Comment => match after_comment(after_first(after_first(rest))) {
                None => return rest,
                Some(more) => rest = more,
            },
            Lead::End => return rest,
            Lead::Opening => return rest,
            Lead::Closing => return rest,
            Lead::AtSign => return rest,
            Lead::Number => return rest,
            Lead::Word => return rest,
        }
    }
}

/// The end of a text that these bytes are.
pub fn end_of<'a>(text: &'a str, end: &[u8]) -> &'a str
    requires end { IsEnd text.now end.now }
    requires text { IsUtf8 end.now }
    ensures { result.now ≡ end.now }
{
    let (_, end) = text.split_at(text.len() - end.len());
    end
}

/// What follows the white space and the comments at the front of a text: the end, a token, a comment that isn't closed,
/// or no token.
pub fn after_gap(text: &str) -> &str
    ensures { result.now ≡ gap_of text.now }
{
    end_of(text, after_byte_gap(text.as_bytes()))
}

/// What follows the first byte of a text, which is ASCII.
pub fn after_char(text: &str) -> &str
    requires { slice_index text.now 0 < 128 }
    ensures { result.now ≡ after_first text.now }
{
    end_of(text, after_first(text.as_bytes()))
}
