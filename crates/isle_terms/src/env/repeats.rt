//! Type errors at one place that begin with the same line, of which the first alone is told.
ghost use Rattle.std.specs.Prelude.{◌≡◌, ◌++◌, ◌∷◌, [], eqb, IfOk, OnOk, MatchBool};
ghost use Rattle.std.specs.List.{before_first};
ghost use Rattle.isle_ast.specs.Errors.{IfFault, IsFaultAnd};
ghost use Rattle.isle_terms.specs.Inside.Collecting.Repeats.{fault_key, MeetsKey, AreToldOf};

use isle_ast::error::Error;
use isle_ast::pos::Pos;
use isle_ast::{Refusal, Text};
use isle_types::StableSet;
use std::alloc::{AllocError, Global};

/// The first line of a text.
fn first_line(text: &str) -> &str
    ensures { result.now ≡ before_first (λ b. eqb b 10) text.now }
{
    match text.split_once('\n') {
        Some((line, _)) => line,
        None => text,
    }
}

/// Where a type error stands, and the first line of its message.
fn fault_key(alloc: Global, error: &Error) -> Result<Option<(Pos, Text)>, AllocError>
    ensures { IfOk result (λ key. key ≡ fault_key error.now) }
{
    match error {
        Error::TypeError { msg, span } => {
            let line = Text::from_str(alloc, first_line(msg.as_str()))?;
            Ok(Some((span.from, line)))
        }
        _ => Ok(None),
    }
}

/// Puts a key, if there is one, among those that were met, and tells whether it is new; what has none is new.
fn meet(met: &mut StableSet<(Pos, Text)>, key: Option<(Pos, Text)>) -> Result<bool, AllocError>
    ensures { IfOk result (λ is_new. MeetsKey key met.old is_new met.new) }
{
    match key {
        Some(key) => Ok(met.insert(key)?),
        None => Ok(true),
    }
}

/// Adds an error to those that are told, if it tells something new.
fn tell(told: &mut Vec<Error>, error: Error, is_new: bool) -> Result<(), AllocError>
    ensures { OnOk result (MatchBool is_new (told.new.items ≡ told.old.items ++ error ∷ []) (told.new.items ≡ told.old.items)) }
{
    if is_new {
        told.push(error)?;
    }
    Ok(())
}

/// Of errors those that are told: of type errors at one place whose messages begin with the same line the first alone.
fn told_of(alloc: Global, errors: Vec<Error>) -> Result<Vec<Error>, AllocError>
    ensures { IfOk result (λ told. AreToldOf errors.items told.items) }
{
    let mut told = Vec::new(alloc);
    let mut met = StableSet::new(alloc);
    for error in errors {
        let key = fault_key(alloc, &error)?;
        let is_new = meet(&mut met, key)?;
        tell(&mut told, error, is_new)?;
    }
    Ok(told)
}

/// What a refusal tells of its errors: a fault of an extractor's body that many rules meet is told once.
pub fn told_once(alloc: Global, refusal: Refusal<Vec<Error>>) -> Refusal<Vec<Error>>
    ensures { IfFault result (λ told. IsFaultAnd refusal (λ errors. AreToldOf errors.items told.items)) }
{
    match refusal {
        Refusal::Memory(e) => Refusal::Memory(e),
        Refusal::Fault(errors) => match told_of(alloc, errors) {
            Ok(told) => Refusal::Fault(told),
            Err(e) => Refusal::Memory(e),
        },
    }
}
