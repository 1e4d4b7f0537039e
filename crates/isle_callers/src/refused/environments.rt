//! Calls of environments.
ghost use Rattle.std.specs.Prelude.{All, IfOk};
ghost use Rattle.isle_ast.specs.Trees.MacroArgs.{HasNoMacroArgs};
ghost use Rattle.isle_types.specs.TypeEnvs.{IsEnvironmentOf};

use crate::refused::tried::Tried;
use isle_syntax::Text;
use isle_syntax::ast::{Def, Ident};
use isle_syntax::error::Error;
use isle_syntax::lexer::{Lexer, Pos};
use isle_syntax::parser::parse;
use isle_terms::{FromAst, TermEnv};
use isle_types::TypeEnv;
use std::alloc::{AllocError, Global};

/// The definitions of a text that spells some.
pub fn parsed(alloc: Global, text: &str) -> Result<Vec<Def>, AllocError>
    ensures { IfOk result (λ defs. All HasNoMacroArgs defs.items) }
{
    match parse(Lexer::new(alloc, 0, text)) {
        Ok(defs) => Ok(defs),
        Err(_) => Err(AllocError),
    }
}

/// A name with a number.
fn numbered(alloc: Global, number: u64) -> Result<Ident, AllocError> {
    let name = format!(in alloc; "name{number}")?;
    Ok(Ident(Text::new(name), Pos::new(0, 0)))
}

/// The names of an environment that begin with `name`.
fn told_names(alloc: Global, types: &TypeEnv) -> Result<String, AllocError> {
    let mut state = String::from_str(alloc, "names")?;
    for name in types.syms() {
        if name.as_str().starts_with("name") {
            state.push(' ')?;
            state.push_str(name.as_str())?;
        }
    }
    Ok(state)
}

/// Gives an environment the name of a number.
fn intern_name(alloc: Global, types: &mut TypeEnv, number: u64) -> Result<(), AllocError> {
    let name = numbered(alloc, number)?;
    let _sym = types.intern_mut(&name)?;
    Ok(())
}

/// An environment with so many names gets the next one.
pub fn intern(alloc: Global, size: u64) -> Result<Tried, AllocError> {
    let mut types = TypeEnv::new(alloc)?;
    for number in 0..size {
        intern_name(alloc, &mut types, number)?;
    }
    let interned = intern_name(alloc, &mut types, size);
    Ok(Tried {
        is_answered: interned.is_ok(),
        state: told_names(alloc, &types)?,
    })
}

/// The messages of the errors that an environment keeps.
fn told_errors(alloc: Global, types: &TypeEnv) -> Result<String, AllocError> {
    let mut state = String::from_str(alloc, "errors")?;
    for error in types.errors() {
        if let Error::TypeError { msg, .. } = error {
            state.push(' ')?;
            state.push_str(msg.as_str())?;
        }
    }
    Ok(state)
}

/// Tells an environment the error of a number.
fn report_numbered(alloc: Global, types: &mut TypeEnv, number: u64) -> Result<(), AllocError> {
    let message = format!(in alloc; "error{number}")?;
    types.report_error(Pos::new(0, 0), message.as_str())
}

/// An environment with so many errors is told the next one.
pub fn report(alloc: Global, size: u64) -> Result<Tried, AllocError> {
    let mut types = TypeEnv::new(alloc)?;
    for number in 0..size {
        report_numbered(alloc, &mut types, number)?;
    }
    let reported = types.report_error(Pos::new(0, 0), "last");
    Ok(Tried {
        is_answered: reported.is_ok(),
        state: told_errors(alloc, &types)?,
    })
}

// `g` is declared behind `f`, and the rules' variables are names too.
const TERMS: &str = "(type T (enum A (B (x u8)))) (decl f (u8) T) (decl g (T) u8) (rule (f 1) (T.A))
    (rule (f x) (T.B x)) (rule (g (T.B y)) y)";

/// How many names of an environment stand at the same place in another one.
fn kept_names(before: &TypeEnv, types: &TypeEnv) -> usize {
    let pairs = before.syms().iter().zip(types.syms().iter());
    pairs.filter(|(one, other)| one == other).count()
}

/// How an environment stands behind another one that is read of the same types.
fn told_kept(alloc: Global, before: &TypeEnv, after: &TypeEnv) -> Result<String, AllocError> {
    let is_kept = kept_names(before, after) == before.syms().len();
    let (types, errors) = (after.types().len(), after.errors().len());
    format!(in alloc; "{types} types, {errors} errors, names kept: {is_kept}")
}

/// The types of definitions, or want of memory.
fn types_of(alloc: Global, defs: &[Def]) -> Result<TypeEnv, AllocError>
    ensures { IfOk result (IsEnvironmentOf defs.now) }
{
    match TypeEnv::from_ast(alloc, defs) {
        Ok(types) => Ok(types),
        Err(_) => Err(AllocError),
    }
}

/// Reads terms over the types of definitions, and tells how these stand behind that.
fn read_over(alloc: Global, defs: &[Def], before: &TypeEnv) -> Result<Tried, AllocError>
    requires { All HasNoMacroArgs defs.now }
{
    let mut types = types_of(alloc, defs)?;
    let is_answered = TermEnv::from_ast(alloc, &mut types, defs, true).is_ok();
    Ok(Tried {
        is_answered,
        state: told_kept(alloc, before, &types)?,
    })
}

/// Reads terms over an environment of types, which may get more names by that, and nothing else.
pub fn read_terms(alloc: Global) -> Result<Tried, AllocError> {
    let defs = parsed(alloc, TERMS)?;
    let before = types_of(alloc, defs.as_slice())?;
    read_over(alloc, defs.as_slice(), &before)
}

/// How many terms and rules there are.
fn counted(alloc: Global, terms: &TermEnv, is_answered: bool) -> Result<Tried, AllocError> {
    let (count, rules) = (terms.terms().len(), terms.rules().len());
    Ok(Tried {
        is_answered,
        state: format!(in alloc; "{count} terms, {rules} rules")?,
    })
}

/// Copies terms and rules, and tells of how many the copy has; those that were to be copied where there is none.
fn copied(alloc: Global, terms: &TermEnv) -> Result<Tried, AllocError> {
    let copy: Result<TermEnv, AllocError> = terms.clone();
    match &copy {
        Ok(copy) => counted(alloc, copy, true),
        Err(_) => counted(alloc, terms, false),
    }
}

/// Copies the terms and rules of definitions.
fn copy_terms_of(alloc: Global, defs: &[Def]) -> Result<Tried, AllocError>
    requires { All HasNoMacroArgs defs.now }
{
    let mut types = types_of(alloc, defs)?;
    match TermEnv::from_ast(alloc, &mut types, defs, true) {
        Ok(terms) => copied(alloc, &terms),
        Err(_) => Err(AllocError),
    }
}

/// Copies terms and rules.
pub fn copy_terms(alloc: Global) -> Result<Tried, AllocError> {
    let defs = parsed(alloc, TERMS)?;
    copy_terms_of(alloc, defs.as_slice())
}
