//! A type error with its position and message, added to a list of errors.
ghost use Rattle.std.specs.Prelude.{◌≡◌, ℕ, List, [], ◌∷◌, ◌++◌, OnOk};
ghost use Rattle.isle_ast.specs.declared.error.Error.TheVariants.{TypeError};
ghost use Rattle.isle_ast.specs.Errors.{span_at};

use isle_ast::Text;
use isle_ast::error::{Error, Span};
use isle_ast::pos::Pos;
use std::alloc::AllocError;

/// Adds a type error at a position, with a message that is made.
pub fn report(
    errors: &mut Vec<Error>,
    pos: Pos,
    msg: Result<String, AllocError>,
) -> Result<(), AllocError>
    ensures { OnOk result ((text : List ℕ) × (errors.new.items ≡ errors.old.items ++ TypeError text (span_at pos) ∷ [])) }
{
    let msg = Text::new(msg?);
    errors.push(Error::TypeError {
        msg,
        span: Span::at(pos),
    })?;
    Ok(())
}
