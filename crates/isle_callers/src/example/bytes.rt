//! Numbers from 0 to 255 as values, and the host's functions of them.
ghost use Rattle.std.specs.Prelude.{◌≡◌, ◌↔◌, IfOk, IsTrue};
ghost use Rattle.isle_callers.specs.Bytes.{byte_in, byte_value, combined, combined_values, taken_apart};

use isle_run::Value;
use std::alloc::{AllocError, Global};

/// A number as a value.
pub fn byte_value(alloc: Global, byte: u8) -> Result<Value, AllocError>
    ensures { IfOk result (λ value. value ≡ byte_value byte) }
{
    Value::int(alloc, byte as i128)
}

/// The number that a value is, where it is one from 0 to 255. It is read from the value's text.
pub fn byte_in(alloc: Global, value: &Value) -> Result<Option<u8>, AllocError>
    ensures { IfOk result (λ byte. byte ≡ byte_in value.now) }
{
    let text = value.print(alloc)?;
    let Ok(byte) = text.as_str().parse::<u8>() else {
        return Ok(None);
    };
    let number = byte_value(alloc, byte)?;
    if are_same(value, &number) {
        Ok(Some(byte))
    } else {
        Ok(None)
    }
}

/// Whether two values are one.
fn are_same(one: &Value, other: &Value) -> bool
    ensures { IsTrue result ↔ (one.now ≡ other.now) }
{
    *one == *other
}

/// What a constructor gives of two numbers. A comparison gives the first of them, so that `if` and `if-let` tell whether it holds.
pub fn combined(term: &str, first: u8, second: u8) -> Option<u8>
    ensures { result ≡ combined term.now first second }
{
    match term {
        "checked_add" => first.checked_add(second),
        "less_than" => (first < second).then_some(first),
        "at_most" => (first <= second).then_some(first),
        _ => None,
    }
}

/// What a constructor gives of two values, where both are numbers from 0 to 255.
pub fn combined_values(
    alloc: Global,
    term: &str,
    first: &Value,
    second: &Value,
) -> Result<Option<Value>, AllocError>
    ensures { IfOk result (λ answer. answer ≡ combined_values term.now (byte_in first.now) (byte_in second.now)) }
{
    let Some(first) = byte_in(alloc, first)? else {
        return Ok(None);
    };
    let Some(second) = byte_in(alloc, second)? else {
        return Ok(None);
    };
    match combined(term, first, second) {
        Some(byte) => Ok(Some(byte_value(alloc, byte)?)),
        None => Ok(None),
    }
}

/// What an extractor takes a number apart into.
pub fn taken_apart(term: &str, number: u8) -> Option<u8>
    ensures { result ≡ taken_apart term.now number }
{
    match term {
        "half" => (number % 2 == 0).then_some(number / 2),
        _ => None,
    }
}
