//! Trees of texts: where each node stands, and calls that copy and walk them.
use isle_syntax::Text;
use isle_syntax::ast::{BoxedPattern, Def, Ident, Pattern, Rule};
use isle_syntax::lexer::{Lexer, Pos};
use isle_syntax::parser::{parse, parse_without_pos};
use isle_syntax::without_pos::{def_without_pos, pattern_without_pos};
use std::alloc::{AllocError, Global};
use std::test::Fail;

/// The definitions of a text.
pub fn placed(alloc: Global, text: &str) -> Result<Vec<Def>, Fail> {
    match parse(Lexer::new(alloc, 0, text)) {
        Ok(defs) => Ok(defs),
        Err(_refusal) => Err(Fail::from("a spelt text")),
    }
}

// The offsets of all nodes and names, in the order of the trees' fields. A definition stands at the token after its
// keyword, any other node at its first token.
pub const OFFSETS: &str = "
| (type A (primitive B)) → 6 19 8 6
| ( type A extern (enum B C)) → 7 22 22 24 24 16 7
| (type A nodebug (struct (f u8))) → 6 25 27 24 16 6
| (type A (enum B (C) (D u8) (E (f u8)))) → 6 14 14 17 16 21 23 23 20 28 31 33 30 27 8 6
| (decl pure f (u8) u16) → 11 14 18 6
| (extractor (e x) (f x)) → 12 14 18 20 20 17 11
| (extern constructor f g) → 20 22 8
| (extern extractor infallible f g) → 29 31 8
| (extern const $X u8) → 14 17 8
| (convert u8 u16 f) → 16 9 12 9
| (attr a b) → 1 6 8 6
| (rule n 2 (f) 0) → 11 10 14 6 6
| (rule (and x y @ z true -1 $C (f) (and) _ 340282366920938463463374607431768211455) 0) → 11 11 13 17 17 13 19 24 27 27 31 30 34 40 42 6 83 6
| (rule (f) (let ((x u8 (g 1)) (y u8 x)) $C)) → 7 6 17 19 23 25 22 16 30 32 35 35 29 39 39 10 6
| (rule (f x) (if-let y x) (if (g x)) y) → 7 9 9 6 20 20 22 22 12 26 30 32 32 29 25 36 36 6
| (spec 5 a @ (b) 170141183460469231731687303715884105728) → 1 6 8 10 13 12 16 6
| (rule a (f x) (if (g x)) (let () x)) → 9 11 11 8 15 19 21 21 18 14 33 33 25 6 6";

/// The offsets in the definitions of a text, as they are printed for debugging.
pub fn offsets(alloc: Global, text: &str) -> Result<String, Fail> {
    let defs = placed(alloc, text)?;
    let shown = format!(in alloc; "{defs:?}")?;
    let mut found = String::new(alloc);
    for part in shown.split("offset: ").skip(1) {
        let (offset, _) = part.split_once(" }").ok_or("an end")?;
        found.push_str(offset)?;
        found.push_str(" ")?;
    }
    Ok(found)
}

const EVERY_FORM: &str = "(type Imm (primitive u64))
(type Pair extern (struct (a u8) (b u8)))
(type Op nodebug (enum Nop (Add (a u8) (b u8)) (Neg u8)))
(decl pure partial small (u64) u8)
(extern constructor small to_small)
(extern extractor infallible small of_small)
(extern const $LIMIT u64)
(extractor (two x) (Op.Add x 2))
(rule named 2 (simp (and (two n) $LIMIT) true z @ _) (if-let 0 n) (if n) (let ((m u8 n)) (simp m $LIMIT false -3)))
(convert u8 u64 widen)
(attr simp (veri chain) @ 5 340282366920938463463374607431768211455)
";

fn without_pos(alloc: Global, defs: Vec<Def>) -> Result<Vec<Def>, AllocError> {
    let mut without = Vec::new(alloc);
    for def in defs {
        without.push(def_without_pos(alloc, def)?)?;
    }
    Ok(without)
}

/// Whether definitions are without their positions what is read of a text without them.
fn are_read(alloc: Global, defs: Vec<Def>, text: &str) -> Result<bool, Fail> {
    let without = without_pos(alloc, defs)?;
    match parse_without_pos(Lexer::new(alloc, 0, text)) {
        Ok(read) => Ok(without == read),
        Err(_refusal) => Err(Fail::from("a spelt text")),
    }
}

/// Whether the clones of definitions of every form are the same, and what they are without their positions is read without them.
pub fn are_copied(alloc: Global) -> Result<bool, Fail> {
    let defs = placed(alloc, EVERY_FORM)?;
    let are_same = defs.clone()? == defs && defs.len() == 11;
    Ok(are_same && are_read(alloc, defs, EVERY_FORM)?)
}

/// The offsets of the terms at both sides of a rule, two digits each.
fn terms_at(rule: &Rule) -> (u64, u64) {
    let mut left: u64 = 0;
    rule.pattern.terms(&mut |pos: Pos, _: &Ident| left = left
        .wrapping_mul(100)
        .wrapping_add(pos.offset as u64));
    let mut right: u64 = 0;
    rule.expr.terms(&mut |pos: Pos, _: &Ident| right = right
        .wrapping_mul(100)
        .wrapping_add(pos.offset as u64));
    (left, right)
}

/// The same of the rule that a text is.
pub fn terms_of(alloc: Global, text: &str) -> Result<(u64, u64), Fail> {
    let defs = placed(alloc, text)?;
    match defs.first() {
        Some(Def::Rule(rule)) => Ok(terms_at(rule)),
        _ => Err(Fail::from("a rule")),
    }
}

/// A name bound to a pattern.
fn bound(alloc: Global, subpat: Pattern) -> Result<Pattern, AllocError> {
    let pos = Pos::default();
    let subpat = BoxedPattern::new(alloc, subpat)?;
    let var = Ident(Text::from_str(alloc, "x")?, pos);
    Ok(Pattern::BindPattern { var, subpat, pos })
}

/// The pattern `x @ x @ .. @ _` with so many bindings, which nest without parentheses.
pub fn chain(alloc: Global, bindings: usize) -> Result<Pattern, AllocError> {
    let pos = Pos::default();
    let mut chain = Pattern::Wildcard { pos };
    for _ in 0..bindings {
        chain = bound(alloc, chain)?;
    }
    Ok(chain)
}

/// Whether the template of a chain without arguments is filled, with nothing, and the chain has no term.
fn is_filled(alloc: Global, chain: &Pattern) -> Result<bool, AllocError> {
    if chain.has_macro_arg() {
        return Ok(false);
    }
    let template = chain.make_macro_template(alloc, &[])?;
    let filled = template.subst_macro_args(alloc, &[])?;
    Ok(filled.is_some() && !template.has_macro_arg() && chain.count_terms() == 0)
}

/// Whether the clone of a pattern without positions is the same, also without them.
fn is_copied(alloc: Global, chain: &Pattern) -> Result<bool, AllocError> {
    let copy = chain.clone()?;
    let is_same = copy == *chain;
    Ok(is_same && pattern_without_pos(alloc, copy)? == *chain)
}

/// Whether calls walk down a long chain within the stack.
pub fn is_walked(alloc: Global) -> Result<bool, AllocError> {
    let chains = vec![in alloc; chain(alloc, 200_000)?]?;
    match chains.first() {
        Some(chain) => Ok(is_copied(alloc, chain)? && is_filled(alloc, chain)?),
        None => Ok(false),
    }
}
