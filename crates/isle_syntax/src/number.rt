//! Integers at the front of a text: sign, radix and digits, and the token that they make.
ghost use Rattle.std.specs.Prelude.{◌≡◌, ◌≤◌, ◌<◌, ◌^◌, ◌++◌, length, cond, ◌==◌, ◌+◌, ◌*◌, SomeIff, MatchOption, None, Some};
ghost use Rattle.std.specs.Char.{digit_value};
ghost use Rattle.isle_syntax.specs.Tokens.Gaps.{after_run, run_of};
ghost use Rattle.isle_syntax.specs.Tokens.Integers.{is_negative, unsigned_of, radix_named, radix_of, behind_prefix, continues_digits, has_digit};
ghost use Rattle.isle_syntax.specs.Tokens.Integers.{spelt, spelt_with, integer_token, digits_token, integer_of, after_integer};

use crate::gap::{after_first, end_of, front};
use crate::lexer::Token;

/// The greatest magnitude of an `Int` without a minus.
const GREATEST_INT: u128 = 0x7fff_ffff_ffff_ffff_ffff_ffff_ffff_ffff;

/// Whether an integer has a minus.
fn is_negative(text: &[u8]) -> bool
    ensures { result ≡ is_negative text.now }
{
    match front(text) {
        None => false,
        Some((first, _)) => first == b'-',
    }
}

/// An integer's text without its minus.
fn unsigned_of(text: &[u8]) -> &[u8]
    ensures { result.now ≡ unsigned_of text.now }
{
    if is_negative(text) {
        after_first(text)
    } else {
        text
    }
}

/// The radix that `0` and this letter name.
fn radix_named(b: u8) -> u32
    ensures { result ≡ radix_named b }
{
    if b == b'x' || b == b'X' {
        16
    } else if b == b'o' || b == b'O' {
        8
    } else if b == b'b' || b == b'B' {
        2
    } else {
        10
    }
}

/// The radix of an unsigned integer.
fn radix_of(text: &[u8]) -> u32
    ensures { result ≡ radix_of text.now }
{
    let Some((first, rest)) = front(text) else {
        return 10;
    };
    let Some((letter, _)) = front(rest) else {
        return 10;
    };
    if first == b'0' {
        radix_named(letter)
    } else {
        10
    }
}

/// An unsigned integer's text behind the prefix of its radix.
fn behind_prefix(text: &[u8]) -> &[u8]
    ensures { result.now ≡ behind_prefix text.now }
{
    if radix_of(text) == 10 {
        text
    } else {
        after_first(after_first(text))
    }
}

/// The value of a byte as a digit of any radix, or 36.
fn digit_value(b: u8) -> u32
    ensures { result ≡ digit_value b }
{
    match char::from(b).to_digit(36) {
        Some(value) => value,
        None => 36,
    }
}

/// Whether a byte goes on with the digits of a radix.
fn continues_digits(radix: u32, b: u8) -> bool
    ensures { result ≡ continues_digits radix b }
{
    b == b'_' || digit_value(b) < radix
}

/// What follows the digits of a radix and `_`.
#[tactic(auto, unfolding(crate::specs::Tokens::Gaps::after_run))]
fn after_digits(bytes: &[u8], radix: u32) -> &[u8]
    ensures { result.now ≡ after_run (continues_digits radix) bytes.now }
{
    let mut rest = bytes;
    'bytes: while let Some((first, more)) = front(rest) {
        if !continues_digits(radix, first) {
            return rest;
        }
        rest = more;
    }
    rest
}

/// Whether a digit is among digits and `_`.
fn has_digit(digits: &[u8]) -> bool
    ensures { result ≡ has_digit digits.now }
{
    digits.iter().any(|b| *b != b'_')
}

/// A number with one more digit, or with `_`, which says nothing; `None` where it passes 2^128 - 1.
fn spelt_with(radix: u32, value: u128, b: u8) -> Option<u128>
    ensures { SomeIff result (spelt_with radix value b < 2 ^ 128) (spelt_with radix value b) }
{
    if b == b'_' {
        return Some(value);
    }
    value
        .checked_mul(u128::from(radix))?
        .checked_add(u128::from(digit_value(b)))
}

/// The number that digits and `_` spell, or `None` where it passes 2^128 - 1.
fn magnitude(digits: &[u8], radix: u32) -> Option<u128>
    requires { 2 ≤ radix }
    ensures { SomeIff result (spelt radix digits.now < 2 ^ 128) (spelt radix digits.now) }
{
    let mut rest = digits;
    let mut value: u128 = 0;
    'digits: while let Some((first, more)) = front(rest) {
        let Some(next) = spelt_with(radix, value, first) else {
            return None;
        };
        value = next;
        rest = more;
    }
    Some(value)
}

/// The token of a sign and a magnitude, or `None` where it is below -2^127.
fn integer_token(negative: bool, magnitude: u128) -> Option<Token>
    ensures { result ≡ integer_token negative magnitude }
{
    if !negative && magnitude <= GREATEST_INT {
        Some(Token::Int(magnitude as i128))
    } else if !negative {
        Some(Token::Big(magnitude))
    } else if magnitude <= GREATEST_INT {
        Some(Token::Int(-(magnitude as i128)))
    } else if magnitude == GREATEST_INT + 1 {
        Some(Token::Int(i128::MIN))
    } else {
        None
    }
}

/// The token of a sign and digits of a radix, or `None` where there is no digit or the number is too great.
fn digits_token(negative: bool, radix: u32, digits: &[u8]) -> Option<Token>
    requires { 2 ≤ radix }
    ensures { result ≡ digits_token negative radix digits.now }
{
    if !has_digit(digits) {
        return None;
    }
    match magnitude(digits, radix) {
        Some(magnitude) => integer_token(negative, magnitude),
        None => None,
    }
}

/// The longest run of digits of a radix and `_`, and what follows it.
fn digits_of(bytes: &[u8], radix: u32) -> (&[u8], &[u8])
    ensures run { result.0.now ≡ run_of (continues_digits radix) bytes.now }
    ensures rest { result.1.now ≡ after_run (continues_digits radix) bytes.now }
{
    let rest = after_digits(bytes, radix);
    bytes.split_at(bytes.len() - rest.len())
}

/// What follows the sign, the radix and the digits at the front of a text, whether or not they spell an integer.
pub fn after_integer(text: &[u8]) -> &[u8]
    ensures { result.now ≡ after_integer text.now }
{
    let unsigned = unsigned_of(text);
    after_digits(behind_prefix(unsigned), radix_of(unsigned))
}

/// The integer at the front of a text and what follows it, or `None` where no integer is spelt.
pub fn number(text: &str) -> Option<(Token, &str)>
    ensures { MatchOption result (integer_of text.now ≡ None) (λ r. (integer_of text.now ≡ Some r.0) × (r.1.now ≡ after_integer text.now)) }
{
    let unsigned = unsigned_of(text.as_bytes());
    let radix = radix_of(unsigned);
    let (digits, rest) = digits_of(behind_prefix(unsigned), radix);
    match digits_token(is_negative(text.as_bytes()), radix, digits) {
        Some(token) => Some((token, end_of(text, rest))),
        None => None,
    }
}
