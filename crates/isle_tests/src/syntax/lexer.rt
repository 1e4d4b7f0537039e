//! Tokens of texts.
use isle_syntax::Refusal;
use isle_syntax::error::Error;
use isle_syntax::lexer::{
    Lexer, Pos, Token, is_const_name, is_ident, is_name, is_pname, is_symbol,
};
use std::alloc::Global;
use std::test::Fail;

type Answer = Result<Option<(Pos, Token)>, Refusal<Error>>;

/// Whether an answer is this fault, with a message or with none.
fn is_fault(answer: &Answer, has_message: bool) -> bool {
    match answer {
        Err(Refusal::Fault(Error::ParseError { msg, span })) => {
            span.from == Pos::new(3, 1) && msg.as_str().is_empty() != has_message
        }
        _ => false,
    }
}

/// Whether a lexer stands at a fault and shows no token, and tells its message once.
pub fn tells_once(alloc: Global) -> bool {
    let mut lexer = Lexer::new(alloc, 3, " 0x");
    let first = is_fault(&lexer.next(), true);
    let second = is_fault(&lexer.next(), false);
    first && second && lexer.pos() == Pos::new(3, 1) && lexer.peek().is_none()
}

// Whether a text is a symbol, an identifier, a variable's name in an expression, one in a pattern, and what stands behind
// the `$` of a constant. Numbers of each category are there (²: No, Ⅷ: Nl, ٣: Nd), of which Ⅷ alone is alphabetic. An
// accent by itself is neither.
pub const CLASSES: &str = "
|  → false false false false false
| a-b → true true true true true
| a.b → true true true true true
| => → true false false false false
| -a → false false false false true
| a; → false false false false false
| Op.Add → true true true true true
| $x-1 → true true false false true
| $a → true true false false true
| $² → true true false false true
| 1 → false false false false true
| _ → true true true false true
| _a → true true true true true
| truex → true true true true true
| true → true true false false true
| false → true true false false true
| é٣ → true true true true true
| a² → true true true true true
| x² → true true true true true
| aⅧ → true true true true true
| a٣ → true true true true true
| Ⅷ → true true true true true
| ² → true false false false true
| ٣ → true false false false true
| a\u{301} → true false false false false
| \x0b → true false false false false";

pub fn classes(alloc: Global, text: &str) -> Result<String, Fail> {
    let symbol = is_symbol(text);
    let ident = is_ident(text);
    let name = is_name(text);
    let pname = is_pname(text);
    let const_name = is_const_name(text);
    Ok(format!(in alloc; "{symbol} {ident} {name} {pname} {const_name}")?)
}
