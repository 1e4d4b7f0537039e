//! Copies of trees and values.
use crate::refused::calls::a_value;
use crate::refused::environments::parsed;
use crate::refused::tried::{Tried, compared};
use isle_run::Value;
use isle_syntax::ast::{Def, Rule};
use std::alloc::{AllocError, Global};

/// Copies a rule.
pub fn of_rule(alloc: Global) -> Result<Tried, AllocError> {
    match parsed(
        alloc,
        "(rule (f x @ (and y (T.B 1 $C)) _) (let ((z T (g y))) z))",
    )?
    .pop()
    {
        Some(Def::Rule(rule)) => {
            let copy: Result<Rule, AllocError> = rule.clone();
            compared(alloc, copy, &rule)
        }
        _ => Err(AllocError),
    }
}

/// Copies a value.
pub fn of_value(alloc: Global) -> Result<Tried, AllocError> {
    let value = a_value(alloc)?;
    let copy: Result<Value, AllocError> = value.clone();
    compared(alloc, copy, &value)
}
