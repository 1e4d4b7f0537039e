//! The tokens of a text of its own.
ghost use Rattle.std.specs.Prelude.{IfOk, IfErr};
ghost use Rattle.isle_ast.specs.Errors.{IfFault};
ghost use Rattle.isle_values.specs.Values.TextTokens.{AreTokensOf, HasTokenFault};

use isle_syntax::Refusal;
use isle_syntax::error::Error;
use isle_syntax::lexer::{Lexer, Token};
use std::alloc::Global;

/// The tokens of a text, or the fault of the first place where none begins.
pub fn tokens_of(alloc: Global, text: &str) -> Result<Vec<Token>, Refusal<Error>>
    ensures tokens { IfOk result (λ tokens. AreTokensOf text.now tokens.items) }
    ensures fault { IfErr result (λ refusal. IfFault refusal (λ _. HasTokenFault text.now)) }
{
    let mut lexer = Lexer::new(alloc, 0, text);
    let mut tokens = Vec::new(alloc);
    'tokens: while let Some((_, token)) = lexer.next()? {
        tokens.push(token)?;
    }
    Ok(tokens)
}
