//! Symbols at the front of a text, and which texts are symbols, identifiers, or names of variables and constants.
ghost use Rattle.std.specs.Prelude.{◌≡◌, ◌==◌, not};
ghost use Rattle.std.specs.List.{list_all};
ghost use Rattle.std.specs.Str.{chars};
ghost use Rattle.isle_syntax.specs.Tokens.Names.{ends_symbol, begins_symbol, is_symbol, begins_ident, is_numeric, continues_ident, is_ident};
ghost use Rattle.isle_syntax.specs.Tokens.Names.{begins_dollar, is_word, is_name, is_pname, is_const_name};
ghost use Rattle.isle_syntax.specs.Tokens.Gaps.{after_run, run_of};
ghost use Rattle.isle_syntax.specs.Tokens.TokensOf.{continues_symbol};

use crate::gap::{front, is_space};
use unicode::properties::{GeneralCategory, is_alphabetic};

/// Whether a byte ends a symbol.
fn ends_symbol(b: u8) -> bool
    ensures { result ≡ ends_symbol b }
{
    is_space(b) || b == b'(' || b == b')' || b == b';' || b == b'@'
}

/// From the byte on that ends the symbol, or from the end on.
#[tactic(auto, unfolding(crate::specs::Tokens::Gaps::after_run))]
pub fn after_symbol(bytes: &[u8]) -> &[u8]
    ensures { result.now ≡ after_run continues_symbol bytes.now }
{
    let mut rest = bytes;
    'bytes: while let Some((first, more)) = front(rest) {
        if ends_symbol(first) {
            return rest;
        }
        rest = more;
    }
    rest
}

/// The longest symbol at the front of a text, and what follows it.
pub fn symbol(text: &str) -> (&str, &str)
    ensures word { result.0.now ≡ run_of continues_symbol text.now }
    ensures rest { result.1.now ≡ after_run continues_symbol text.now }
{
    let rest = after_symbol(text.as_bytes());
    text.split_at(text.len() - rest.len())
}

/// Whether a byte begins a symbol.
fn begins_symbol(b: u8) -> bool
    ensures { result ≡ begins_symbol b }
{
    !ends_symbol(b) && b != b'-' && !b.is_ascii_digit()
}

/// Whether each byte goes on with a symbol.
fn each_continues_symbol(bytes: &[u8]) -> bool
    ensures { result ≡ list_all (λ b. not (ends_symbol b)) bytes.now }
{
    bytes.iter().all(|b| !ends_symbol(*b))
}

/// Whether a text is a symbol.
pub fn is_symbol(text: &str) -> bool
    ensures { result ≡ is_symbol text.now }
{
    match front(text.as_bytes()) {
        None => false,
        Some((first, rest)) => begins_symbol(first) && each_continues_symbol(rest),
    }
}

/// Whether a character begins an identifier: an alphabetic one, `_` or `$`.
fn begins_ident(c: char) -> bool
    ensures { result ≡ begins_ident c }
{
    c == '_' || c == '$' || is_alphabetic(c)
}

/// Whether a character is a decimal digit, a letter or another number.
fn is_numeric(c: char) -> bool
    ensures { result ≡ is_numeric c }
{
    matches!(
        GeneralCategory::for_char(c),
        GeneralCategory::DecimalNumber
            | GeneralCategory::LetterNumber
            | GeneralCategory::OtherNumber
    )
}

/// Whether a character goes on with an identifier: also a number, `.` or `-`.
fn continues_ident(c: char) -> bool
    ensures { result ≡ continues_ident c }
{
    begins_ident(c) || c == '.' || c == '-' || is_numeric(c)
}

/// Whether each character goes on with an identifier.
fn each_continues_ident(text: &str) -> bool
    ensures { result ≡ list_all continues_ident (chars text.now) }
{
    text.chars().all(continues_ident)
}

/// Whether a text is an identifier.
#[tactic(auto, unfolding(crate::specs::Tokens::Names::is_ident))]
pub fn is_ident(text: &str) -> bool
    ensures { result ≡ is_ident text.now }
{
    let mut chars = text.chars();
    match chars.next() {
        Some(first) => begins_ident(first) && each_continues_ident(chars.as_str()),
        None => false,
    }
}

/// Whether a text begins with `$`.
pub fn begins_dollar(text: &str) -> bool
    ensures { result ≡ begins_dollar text.now }
{
    match front(text.as_bytes()) {
        None => false,
        Some((first, _)) => first == b'$',
    }
}

/// Whether a text is this word.
fn is_word(word: &str, text: &str) -> bool
    ensures { result ≡ is_word word.now text.now }
{
    text == word
}

/// Whether a text names a variable in an expression: an identifier that doesn't begin with `$` and isn't `true` or
/// `false`.
#[tactic(auto, unfolding(crate::specs::Tokens::Names::is_name))]
pub fn is_name(text: &str) -> bool
    ensures { result ≡ is_name text.now }
{
    is_ident(text) && !begins_dollar(text) && !is_word("true", text) && !is_word("false", text)
}

/// Whether a text names a variable in a pattern: a name that isn't `_`.
#[tactic(auto, unfolding(crate::specs::Tokens::Names::is_pname))]
pub fn is_pname(text: &str) -> bool
    ensures { result ≡ is_pname text.now }
{
    is_name(text) && !is_word("_", text)
}

/// Whether a text stands behind the `$` of a constant: both together are an identifier of at least two characters.
#[tactic(auto, unfolding(crate::specs::Tokens::Names::is_const_name))]
pub fn is_const_name(text: &str) -> bool
    ensures { result ≡ is_const_name text.now }
{
    !text.is_empty() && each_continues_ident(text)
}
