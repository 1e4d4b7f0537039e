//! Tells what a text holds, for `make bench`: how many definitions it spells; at the word `types` how many types there are, builtin ones too; at
//! `sets` and `trees` how many rule sets its rules make, and how many trees these; at `keys` how many different numbers stand on its lines.
ghost use Rattle.std.specs.Prelude.{◌≡◌, All, IfOk};
ghost use Rattle.isle_types.specs.declared.ids.TermId.{TermId};
ghost use Rattle.isle_blocks.specs.DefinedSets.{AreDefined};
ghost use Rattle.isle_blocks.specs.RuleSets.{RulesOverSites};
ghost use Rattle.isle_blocks.specs.Trees.Promises.{IsCheckedSet};

use isle_blocks::{Block, RuleSet, check, serialize};
use isle_syntax::Refusal;
use isle_syntax::lexer::Lexer;
use isle_syntax::parser::parse;
use isle_terms::{FromAst, TermEnv};
use isle_types::{SortedMap, TermId, TypeEnv};
use std::alloc::{AllocError, Global};
use std::env::Args;
use std::io::{self, Write};
use std::process::ExitCode;

/// How many definitions a text spells; none where it isn't spelt or memory ran out.
fn count(alloc: Global, text: &str) -> Option<usize> {
    match parse(Lexer::new(alloc, 0, text)) {
        Ok(defs) => Some(defs.len()),
        Err(_) => None,
    }
}

/// How many types the definitions of a text make; none where it is refused or memory ran out.
fn count_types(alloc: Global, text: &str) -> Option<usize> {
    let defs = match parse(Lexer::new(alloc, 0, text)) {
        Ok(defs) => defs,
        Err(_) => return None,
    };
    match TypeEnv::from_ast(alloc, defs.as_slice()) {
        Ok(env) => Some(env.types().len()),
        Err(_) => None,
    }
}

/// How many different numbers stand on the lines of a text.
fn count_keys(alloc: Global, text: &str) -> Result<usize, AllocError> {
    let mut map: SortedMap<u64, usize> = SortedMap::new(alloc);
    for line in text.lines() {
        if let Ok(key) = line.parse::<u64>() {
            map.insert(key, line.len())?;
        }
    }
    Ok(map.len())
}

/// The environments of the definitions of a text; an error where it is refused or memory ran out.
fn environments(alloc: Global, text: &str) -> Result<(TypeEnv, TermEnv), AllocError>
    ensures defined { IfOk result (λ made. AreDefined made.1) }
    ensures known { IfOk result (λ made. (d : AreDefined made.1) × (d.tyenv ≡ made.0)) }
{
    let Ok(parsed) = parse(Lexer::new(alloc, 0, text)) else {
        return Err(AllocError);
    };
    let defs = parsed.as_slice();
    let Ok(mut tyenv) = TypeEnv::from_ast(alloc, defs) else {
        return Err(AllocError);
    };
    let Ok(termenv) = TermEnv::from_ast(alloc, &mut tyenv, defs, true) else {
        return Err(AllocError);
    };
    // each name is interned once
    let _names = tyenv.syms();
    Ok((tyenv, termenv))
}

/// The trees of rule sets.
fn trees(alloc: Global, sets: &[(TermId, RuleSet)]) -> Result<Vec<Block>, AllocError>
    requires { All (λ (set : TermId × RulesOverSites). IsCheckedSet set.1) sets.now }
{
    let mut trees = Vec::new(alloc);
    for set in sets {
        trees.push(serialize(alloc, &set.1)?)?;
    }
    Ok(trees)
}

/// How many rule sets rules make, or how many trees these.
fn count_in(alloc: Global, termenv: &TermEnv, of_trees: bool) -> Result<usize, AllocError>
    requires { AreDefined termenv.now }
{
    let Ok(sets) = check(alloc, termenv) else {
        return Err(AllocError);
    };
    if !of_trees {
        return Ok(sets.len());
    }
    let trees = trees(alloc, sets.as_slice())?;
    Ok(trees.len())
}

/// How many rule sets the rules of a text make, or how many trees these.
fn count_sets(alloc: Global, text: &str, of_trees: bool) -> Result<usize, AllocError> {
    let (_, termenv) = environments(alloc, text)?;
    count_in(alloc, &termenv, of_trees)
}

/// Writes the line of a word.
fn tell<W: Write>(alloc: Global, word: &str, text: &str, output: &mut W) -> io::Result<()> {
    let counted = match word {
        "types" => count_types(alloc, text),
        "sets" => count_sets(alloc, text, false).ok(),
        "trees" => count_sets(alloc, text, true).ok(),
        "keys" => count_keys(alloc, text).ok(),
        _ => count(alloc, text),
    };
    match counted {
        Some(number) => writeln!(output, "{number}"),
        None => writeln!(output, "refused"),
    }
}

/// Writes the line of the first word, or of none.
pub fn run<R: Print + AllocGlobal>(rt: &R, text: String, mut words: Args) -> io::Result<ExitCode> {
    let word = words.next().unwrap_or(String::new(rt.alloc()));
    tell(
        rt.alloc(),
        word.as_str(),
        text.as_str(),
        &mut io::writer(rt),
    )?;
    Ok(ExitCode::SUCCESS)
}

/// Writes the line of each word.
pub fn tell_each<W: Write>(alloc: Global, text: &str, output: &mut W) -> io::Result<()> {
    for word in ["definitions", "types", "sets", "trees", "keys"] {
        tell(alloc, word, text, output)?;
    }
    Ok(())
}
