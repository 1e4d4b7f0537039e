//! Texts laid out with their comments and their numbers as they are written.
ghost use Rattle.std.specs.Prelude.{◌≡◌, IfErr, IfOk, List, false, true, length, string_bytes};
ghost use Rattle.isle_ast.specs.declared.ast.Def.{Def};
ghost use Rattle.isle_ast.specs.Errors.{IfFault, RefusalAt};
ghost use Rattle.isle_syntax.specs.declared.lexer.Token.{Token};
ghost use Rattle.isle_syntax.specs.Tokens.RemainingTokens.{IsIn};
ghost use Rattle.isle_syntax.specs.Grammar.Verdict.{Spells, IsFaultIn};
ghost use Rattle.isle_layout.specs.Formats.{IsFaultless};
ghost use Rattle.isle_layout.specs.ReadsBack.{IsReadAs};
ghost use Rattle.isle_layout.specs.Keeping.TokenValues.{HasTokens};
ghost use Rattle.isle_layout.specs.Keeping.Pieces.{pieces_of};
ghost use Rattle.isle_layout.specs.Keeping.LaidOut.{laid_out, texts_of};
ghost use Rattle.isle_layout.specs.Keeping.Keeps.{IsKept};
ghost use Rattle.isle_layout.specs.Keeping.LineEnds.{ends_clean, is_spaced, HaveSpacedBlocks, IsEnded};

use crate::layout::lay_out;
use isle_syntax::Refusal;
use isle_syntax::error::Error;
use isle_syntax::lexer::Lexer;
use isle_syntax::parser::parse;
use std::alloc::Global;

/// A text, that of file number `file`, laid out at a width. White space alone changes: numbers stay as they are written, and
/// comments but for the white space at their lines' ends. It is refused where `parse` refuses it.
pub fn keep(alloc: Global, file: usize, text: &str, width: usize) -> Result<String, Refusal<Error>>
    ensures text { IfOk result (λ out. string_bytes out ≡ laid_out width text.now) }
    ensures same { IfOk result (λ out. texts_of (string_bytes out) ≡ texts_of text.now) }
    ensures tokens { IfOk result (λ out. (tokens : List Token) → HasTokens text.now tokens → HasTokens (string_bytes out) tokens) }
    ensures clean { IfOk result (λ out. ends_clean false (string_bytes out) ≡ true) }
    ensures spaced { IfOk result (λ out. HaveSpacedBlocks (pieces_of text.now) → is_spaced 0 (string_bytes out) ≡ true) }
    ensures ends { IfOk result (λ out. IsEnded (pieces_of text.now) (string_bytes out)) }
    ensures settled { IfOk result (λ out. laid_out width (string_bytes out) ≡ string_bytes out) }
    ensures accepted { IfOk result (λ out. (defs : List Def) × Spells file text.now defs) }
    ensures same_definitions { IfOk result (λ out. (defs : List Def) × Spells file text.now defs × IsReadAs (string_bytes out) defs) }
    ensures accepted_again { IfOk result (λ out. IsFaultless (string_bytes out)) }
    ensures kept_again { IfOk result (λ out. IsKept width (string_bytes out)) }
    ensures fault { IfErr result (λ refusal. IfFault refusal (IsFaultIn file text.now)) }
    ensures refused { IfErr result (RefusalAt (IsIn (record { file = file; size = length text.now }))) }
{
    let _defs = parse(Lexer::new(alloc, file, text))?;
    Ok(lay_out(alloc, text, width)?)
}
