//! Texts laid out anew.
ghost use Rattle.std.specs.Prelude.{IfErr, IfOk, length, string_bytes};
ghost use Rattle.isle_ast.specs.Errors.{IfFault, RefusalAt};
ghost use Rattle.isle_syntax.specs.Tokens.RemainingTokens.{IsIn};
ghost use Rattle.isle_syntax.specs.Grammar.Verdict.{IsFaultIn};
ghost use Rattle.isle_layout.specs.Formats.{Formats, IsSettled, IsFaultless};

use crate::printer::print;
use isle_syntax::Refusal;
use isle_syntax::error::Error;
use isle_syntax::lexer::Lexer;
use isle_syntax::parser::parse;
use std::alloc::Global;

/// The definitions of a text, that of file number `file`, laid out at a width. Comments are dropped.
pub fn format(
    alloc: Global,
    file: usize,
    text: &str,
    width: usize,
) -> Result<String, Refusal<Error>>
    ensures text { IfOk result (λ once. Formats file width text.now (string_bytes once)) }
    ensures settled { IfOk result (λ once. IsSettled width (string_bytes once)) }
    ensures accepted_again { IfOk result (λ once. IsFaultless (string_bytes once)) }
    ensures fault { IfErr result (λ refusal. IfFault refusal (IsFaultIn file text.now)) }
    ensures refused { IfErr result (RefusalAt (IsIn (record { file = file; size = length text.now }))) }
{
    let defs = parse(Lexer::new(alloc, file, text))?;
    match print(alloc, defs.as_slice(), width) {
        Ok(text) => Ok(text),
        // The parser makes no numbered argument of a template.
        Err(Refusal::Fault(_)) => unreachable!(),
        Err(Refusal::Memory(e)) => Err(Refusal::Memory(e)),
    }
}
