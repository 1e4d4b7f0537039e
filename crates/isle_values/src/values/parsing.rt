//! Values of types, read from texts.
ghost use Rattle.std.specs.Prelude.{IfOk, IfErr, List};
ghost use Rattle.isle_syntax.specs.declared.lexer.Token.{Token};
ghost use Rattle.isle_program.specs.Programs.{value_facts};
ghost use Rattle.isle_values.specs.Values.Settled.{SpellTyped};
ghost use Rattle.isle_values.specs.Values.TextTokens.{AreTokensOf};
ghost use Rattle.isle_values.specs.Values.Faults.{RefusesValue};

use super::{Value, read_front};
use crate::values::tokens::tokens_of;
use isle_program::Program;
use isle_syntax::Refusal;
use isle_types::TypeId;
use std::alloc::{AllocError, Global};

/// Why a text isn't a value of a type. They are checked in the order `V1`, `V2`, `V4`, `V3`.
#[derive(Debug, Drop)]
pub enum ValueFault {
    /// The text has a token fault.
    V1,
    /// No value stands at its front.
    V2,
    /// The value isn't of the type.
    V3,
    /// Something stands behind the value.
    V4,
    Memory(AllocError),
}

impl From<AllocError> for ValueFault {
    ghost use Rattle.std.specs.Prelude.{◌≡◌, alloc_error};
    ghost use Rattle.isle_values.specs.declared.values.parsing.ValueFault.TheVariants.{Memory};

    ghost from_gives = { λ _ fault. fault ≡ Memory alloc_error };

    fn from(e: AllocError) -> ValueFault {
        ValueFault::Memory(e)
    }
}

impl Value {
    /// The value of a type that a text spells.
    pub fn read(
        alloc: Global,
        text: &str,
        ty: TypeId,
        program: &Program,
    ) -> Result<Value, ValueFault>
        ensures spelt { IfOk result (λ v. (tokens : List Token) × AreTokensOf text.now tokens × SpellTyped (value_facts program.now) tokens v ty.0) }
        ensures refused { IfErr result (RefusesValue program.now text.now ty) }
    {
        let tokens = match tokens_of(alloc, text) {
            Ok(tokens) => tokens,
            Err(Refusal::Fault(_)) => return Err(ValueFault::V1),
            Err(Refusal::Memory(e)) => return Err(ValueFault::Memory(e)),
        };
        let Some((value, count)) = read_front(alloc, tokens.as_slice())? else {
            return Err(ValueFault::V2);
        };
        if count < tokens.len() {
            return Err(ValueFault::V4);
        }
        match value.settle(alloc, program, ty)? {
            Some(value) => Ok(value),
            None => Err(ValueFault::V3),
        }
    }
}
