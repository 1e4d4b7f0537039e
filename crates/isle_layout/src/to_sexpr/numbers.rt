//! Atoms of truth values and of integers.
ghost use Rattle.std.specs.Prelude.{◌≡◌, IfOk};
ghost use Rattle.std.specs.Fmt.{decimal, signed_decimal};
ghost use Rattle.isle_syntax.specs.Grammar.TreeGrammar.{truth_word};
ghost use Rattle.isle_layout.specs.SExprTree.{sexpr_atom};
ghost use Rattle.isle_layout.specs.SExprShape.{sexpr_of};
ghost use Rattle.isle_layout.specs.Spellings.{integer_text};

use crate::sexpr::SExpr;
use crate::to_sexpr::list::atom;
use isle_syntax::Text;
use std::alloc::{AllocError, Global};

/// `true` or `false`.
pub(crate) fn truth(alloc: Global, val: bool) -> Result<SExpr, AllocError>
    ensures { IfOk result (λ sexpr. sexpr_of sexpr ≡ sexpr_atom (truth_word val)) }
{
    atom(alloc, if val { "true" } else { "false" })
}

/// A literal; where `big` is set the number from 2^127 on of which `val` keeps the 128 bits.
pub(crate) fn integer(alloc: Global, val: i128, big: bool) -> Result<SExpr, AllocError>
    ensures { IfOk result (λ sexpr. sexpr_of sexpr ≡ sexpr_atom (integer_text val big)) }
{
    if big {
        natural(alloc, val.cast_unsigned())
    } else {
        signed(alloc, val)
    }
}

/// A number with its minus.
pub(crate) fn signed(alloc: Global, number: i128) -> Result<SExpr, AllocError>
    ensures { IfOk result (λ sexpr. sexpr_of sexpr ≡ sexpr_atom (signed_decimal number)) }
{
    Ok(SExpr::Atom(Text::new(number.to_string(alloc)?)))
}

/// A number without a sign.
pub(crate) fn natural(alloc: Global, number: u128) -> Result<SExpr, AllocError>
    ensures { IfOk result (λ sexpr. sexpr_of sexpr ≡ sexpr_atom (decimal number)) }
{
    Ok(SExpr::Atom(Text::new(number.to_string(alloc)?)))
}
