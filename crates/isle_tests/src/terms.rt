//! Tests of `isle_rules`: the functions of the host that stand for terms, what rules are called, and copies of types.
ghost use Rattle.std.specs.Prelude.{◌≡◌, IfOk};
ghost use Rattle.isle_blocks.specs.DefinedSets.{AreDefined};

use crate::syntax::errors::file;
use isle_rules::{ExternalSig, Rule, Term};
use isle_syntax::files::Files;
use isle_syntax::lexer::Lexer;
use isle_syntax::parser::parse;
use isle_terms::{FromAst, TermEnv};
use isle_types::{Type, TypeEnv, TypeId};
use std::alloc::{AllocError, Global};
use std::test::Fail;

/// The environments of the definitions of a text.
pub fn environments(alloc: Global, text: &str) -> Result<(TypeEnv, TermEnv), AllocError>
    ensures defined { IfOk result (λ made. AreDefined made.1) }
    ensures known { IfOk result (λ made. (d : AreDefined made.1) × (d.tyenv ≡ made.0)) }
{
    let Ok(parsed) = parse(Lexer::new(alloc, 0, text)) else {
        return Err(AllocError);
    };
    let defs = parsed.as_slice();
    let Ok(mut tyenv) = TypeEnv::from_ast(alloc, defs) else {
        return Err(AllocError);
    };
    let Ok(termenv) = TermEnv::from_ast(alloc, &mut tyenv, defs, true) else {
        return Err(AllocError);
    };
    // each name is interned once
    let _names = tyenv.syms();
    Ok((tyenv, termenv))
}

// Of the term that each text declares the constructor and the extractor; the types `bool`, `u8` and `u16` have the numbers 0, 1 and 2.
pub const FUNCTIONS: &str = "
| (decl partial f (u8 bool) u16) (extern constructor f host_f) → host_f C::host_f: [TypeId(1), TypeId(0)] [TypeId(2)] Option; none
| (decl multi g (u8) u16) (extern extractor g host_g) → none; host_g C::host_g: [TypeId(2)] [TypeId(1)] Iterator
| (decl h (u8) u8) (rule (h x) x) (extern extractor infallible h host_h) → constructor_h constructor_h: [TypeId(1)] [TypeId(1)] Plain; \
  host_h C::host_h: [TypeId(1)] [TypeId(1)] Plain";

/// The names of a function, the types that it takes and gives, and how many answers it gives.
fn shown(alloc: Global, sig: Option<ExternalSig>) -> Result<String, AllocError> {
    match &sig {
        Some(sig) => format!(in alloc;
            "{} {}: {:?} {:?} {:?}",
            sig.func_name.as_str(),
            sig.full_name.as_str(),
            sig.param_tys.as_slice(),
            sig.ret_tys.as_slice(),
            sig.ret_kind
        ),
        None => String::from_str(alloc, "none"),
    }
}

fn functions_of(alloc: Global, tyenv: &TypeEnv, term: &Term) -> Result<String, AllocError> {
    let constructor = shown(alloc, term.constructor_sig(alloc, tyenv)?)?;
    let extractor = shown(alloc, term.extractor_sig(alloc, tyenv)?)?;
    format!(in alloc; "{}; {}", constructor.as_str(), extractor.as_str())
}

/// The functions of the first term of a text.
pub fn functions(alloc: Global, text: &str) -> Result<String, Fail> {
    let (tyenv, termenv) = environments(alloc, text)?;
    let term = termenv.terms().first().ok_or("a term")?;
    Ok(functions_of(alloc, &tyenv, term)?)
}

// What each rule is called, by its name, or else by the line that it stands at.
pub const IDENTIFIERS: &str = "
| (type A (enum (V (a u8)))) (decl f (u8) A)
    (rule first 3 (f x) (A.V x)) (rule (f 2) (A.V 1))
    (rule last (f 3) (A.V 1)) → first;a.isle line 2;last;";

/// What each rule is called that stands in the file, which is `a.isle` with this text.
fn called(
    alloc: Global,
    tyenv: &TypeEnv,
    rules: &[Rule],
    text: &str,
) -> Result<String, AllocError> {
    let names = vec![in alloc; file(alloc, "a.isle", text)?]?;
    let files = Files::from_names_and_contents(alloc, names)?;
    let mut out = String::new(alloc);
    for rule in rules {
        if rule.pos.file < files.len() {
            out.push_str(rule.identifier(alloc, tyenv, &files)?.as_str())?;
            out.push_str(";")?;
        }
    }
    Ok(out)
}

/// Whether the tables of the environments have an entry for each name, and a type has a copy that is the same.
fn are_known(tyenv: &TypeEnv, termenv: &TermEnv, ty: &Type) -> Result<bool, AllocError> {
    let copy = ty.clone()?;
    Ok(
        copy == *ty
            && !ty.is_prim()
            && tyenv.type_map().len() == 14
            && tyenv.sym_map().len() == tyenv.syms().len()
            && termenv.term_map().len() == 2
            && termenv.rule_map().len() == 2,
    )
}

/// What the rules of a text are called that defines the type 13 and two terms, and names two rules.
pub fn identifiers(alloc: Global, text: &str) -> Result<String, Fail> {
    let (tyenv, termenv) = environments(alloc, text)?;
    let ty = tyenv.get_type(TypeId(13)).ok_or("a type")?;
    if are_known(&tyenv, &termenv, ty)? {
        Ok(called(alloc, &tyenv, termenv.rules(), text)?)
    } else {
        Err(Fail::from("other tables"))
    }
}
