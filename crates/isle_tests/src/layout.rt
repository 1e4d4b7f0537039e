//! Tests of `isle_layout`: parts of definitions that are printed by themselves, and definitions that can't be printed.
pub mod changes;

use crate::syntax::trees::chain;
use isle_layout::keep::keep;
use isle_layout::printer::print_node;
use isle_layout::to_sexpr::ToSExpr;
use isle_layout::writable::writable;
use isle_syntax::ast::{Def, Expr, Extractor, Ident, IfLet, KeptItem, Pattern};
use isle_syntax::lexer::Pos;
use isle_syntax::{Refusal, Seq, Text};
use std::alloc::{AllocError, Global};
use std::test::Fail;

/// What prints of a tree on one line, or that it is refused.
fn shown<T: ToSExpr>(alloc: Global, tree: &T) -> Result<String, Fail> {
    match print_node(alloc, tree, 1_000_000) {
        Ok(text) => Ok(text),
        Err(Refusal::Fault(fault)) => Ok(fault.to_string(alloc)?),
        Err(Refusal::Memory(e)) => Err(Fail::from(e)),
    }
}

/// What prints of a condition of a rule: the pattern matches 1.
fn shown_clause(alloc: Global, pattern: Pattern) -> Result<String, Fail> {
    let pos = Pos::default();
    let clause = IfLet {
        pattern,
        expr: Expr::ConstInt {
            val: 1,
            big: false,
            pos,
        },
        pos,
    };
    shown(alloc, &clause)
}

/// Parts of definitions, by their names.
pub const PARTS: &str = "
| name → Op
| item → @
| wildcard → (if-let _ 1)
| argument → a numbered argument of a template can't be printed";

/// What is printed of a part by itself.
pub fn part(alloc: Global, name: &str) -> Result<String, Fail> {
    let pos = Pos::default();
    match name {
        "name" => shown(alloc, &Ident(Text::from_str(alloc, "Op")?, pos)),
        "item" => shown(alloc, &KeptItem::At { pos }),
        "wildcard" => shown_clause(alloc, Pattern::Wildcard { pos }),
        _ => shown_clause(alloc, Pattern::MacroArg { index: 0, pos }),
    }
}

/// Texts with the width before them.
pub const KEPT: &str = "
| 80: \n\n ; a  \n(; b ;)\n\n\n(decl a () T) → ; a\n(; b ;)\n\n(decl a () T)
| 80: (; b ;) (decl a () T) → (; b ;)\n(decl a () T)
| 80: (attr a)(attr b)\n\n\n\n; c\n(attr d)\n(attr e) → (attr a)\n(attr b)\n\n; c\n(attr d)\n(attr e)
| 80: (attr a)   ; b\n(attr c)(; d ;)(; e ;) ; f\n\n; g → (attr a) ; b\n(attr c) (; d ;) (; e ;) ; f\n\n; g
| 80: ( ; a\nattr b) → ( ; a\n    attr\n    b\n)
| 80: (\n\n ; a\n attr b) → (\n    ; a\n    attr\n    b\n)
| 80: ((; a ;)attr b) → ((; a ;) attr b)
| 80: (rule (f x ; why\n (; y ;) y)\n\n\n ; z\n z) → (rule\n    (f\n        x ; why\n        (; y ;)\n        y\n    )\n\n    ; z\n    z\n)
| 80: (attr\n (; a ;)\n\n b) → (attr (; a ;) b)
| 8: (attr\n (; a ;)\n\n b) → (attr\n    (; a ;)\n\n    b\n)
| 80: (attr a ; b\n) → (attr\n    a ; b\n)
| 80: (attr x@(g 0x1F)) → (attr x @ (g 0x1F))
| 80: (rule (f x ; a\n @ ; b\n y) z) → (rule\n    (f\n        x ; a\n        @ ; b\n        y\n    )\n    z\n)
| 4: (attr x @ y @ z) → (attr\n    x @ y @ z\n)
| 80: (attr a) ; b\r\n\r\n\r\n(attr\r\n d)\r\n → (attr a) ; b\n\n(attr d)
| 12: (attr a b) ; a comment that is longer → (attr a b) ; a comment that is longer
| 80: (attr (; a\n   b ;) c) → (attr (; a\n   b ;)\n    c\n)
| 80: (attr (; a \t\r\n   b\t ;) c) → (attr (; a\n   b\t ;)\n    c\n)
| 80: (; a (; b ;) \r\n c ;)(attr d) → (; a (; b ;)\n c ;)\n(attr d)
| 80: (attr a) (; b\r\n \t\r\n;) → (attr a) (; b\n\n;)
| 80: (attr -0b1_0 0X_fF 12abc \"é\") → (attr -0b1_0 0X_fF 12 abc \"é\")
| 80: (attr a → refused
| 80: (attr a) (; b → refused";

/// What a text is laid out as with its comments, at the width before it; `refused` where it has a fault.
pub fn kept(alloc: Global, row: &str) -> Result<String, Fail> {
    let (width, text) = row.split_once(": ").ok_or("a width")?;
    let width = match width {
        "4" => 4,
        "8" => 8,
        "12" => 12,
        _ => 80,
    };
    match keep(alloc, 0, text, width) {
        Ok(text) => Ok(text),
        Err(Refusal::Fault(_)) => Ok(String::from_str(alloc, "refused")?),
        Err(Refusal::Memory(e)) => Err(Fail::from(e)),
    }
}

/// The internal extractor `e` with this template.
fn extractor_of(alloc: Global, template: Pattern) -> Result<Def, AllocError> {
    let pos = Pos::default();
    let term = Ident(Text::from_str(alloc, "e")?, pos);
    let args = Seq::new(Vec::new(alloc));
    Ok(Def::Extractor(Extractor {
        term,
        args,
        template,
        pos,
    }))
}

/// Whether an internal extractor with this template is writable.
fn is_writable(alloc: Global, template: Pattern) -> Result<bool, AllocError> {
    let def = extractor_of(alloc, template)?;
    Ok(writable(&def))
}

/// A long chain of bindings is writable, which is walked within the stack, and a numbered argument isn't.
#[test]
fn definitions_are_writable(rt: HostRuntime) -> Result<(), Fail> {
    let alloc = rt.alloc();
    let pos = Pos::default();
    let is_long = is_writable(alloc, chain(alloc, 100_000)?)?;
    let is_numbered = is_writable(alloc, Pattern::MacroArg { index: 0, pos })?;
    if is_long && !is_numbered {
        Ok(())
    } else {
        Err(Fail::from("what is writable"))
    }
}
