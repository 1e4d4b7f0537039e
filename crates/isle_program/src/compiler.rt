//! The compiler: from the texts of files to a program, or to the faults of the first layer that has any.
ghost use Rattle.std.specs.Prelude.{◌≡◌, ◌<◌, ◌++◌, [], ◌∷◌, List, All, IfOk, IfErr, IfSome, OnOk, length, slice_get};
ghost use Rattle.isle_ast.specs.Positions.Files.{SourceFile};
ghost use Rattle.isle_ast.specs.Positions.Printable.{IsPrintablePos};
ghost use Rattle.isle_ast.specs.Positions.DefPositions.{DefAt};
ghost use Rattle.isle_ast.specs.Errors.{IfFault, IsFaultAnd, RefusalAt, RefusalsAt};
ghost use Rattle.isle_ast.specs.Trees.MacroArgs.{HasNoMacroArgs};
ghost use Rattle.isle_syntax.specs.Grammar.Verdict.{Spells, IsFaultIn};
ghost use Rattle.isle_ast.specs.declared.error.Error.{Error};
ghost use Rattle.isle_types.specs.declared.ids.TermId.{TermId as TermNumber};
ghost use Rattle.isle_rules.specs.TypedTrees.{TypedRuleAt};
ghost use Rattle.isle_blocks.specs.RuleSets.{RulesOverSites};
ghost use Rattle.isle_blocks.specs.Trees.Promises.{IsCheckedSet};
ghost use Rattle.isle_program.specs.Trees.{AreSetTrees};
ghost use Rattle.isle_program.specs.ShownFiles.{ShowFiles};
ghost use Rattle.isle_program.specs.Compiled.{AreSpelt, AreAccepted, IsProgramOf, IsFirstFault, AreFaults, IfFaults};

use crate::program::Program;
use isle_blocks::{Block, RuleSet, check, serialize};
use isle_syntax::Refusal;
use isle_syntax::ast::Def;
use isle_syntax::error::{Error, Errors};
use isle_syntax::files::Files;
use isle_syntax::lexer::Lexer;
use isle_syntax::parser::parse;
use isle_terms::{FromAst, TermEnv};
use isle_types::{TermId, TypeEnv};
use std::alloc::{AllocError, Global};
use std::rc::Rc;

/// Why texts were not compiled.
#[derive(Debug, Drop)]
pub enum Refused {
    /// The faults of the first layer that has any: the first faulty text, the types, the terms, the rules.
    Faults(Errors),
    Memory,
}

/// The program of texts, which are joined in the order of the files. Of accepted files it comes, memory aside; of others comes
/// a report of what is wrong with them.
pub fn compile(alloc: Global, files: Rc<Files>) -> Result<Program, Refused>
    ensures accepted { OnOk result (AreAccepted files.value) }
    ensures compiled { IfOk result (IsProgramOf files.value) }
    ensures refused { IfErr result (λ refused. IfFaults refused (λ report. ¬ AreAccepted files.value)) }
    ensures faults { IfErr result (λ refused. IfFaults refused (λ report. AreFaults files.value report.errors)) }
    ensures of_files { IfErr result (λ refused. IfFaults refused (λ report. report.files ≡ files.value)) }
{
    let Ok(kept) = files.clone() else {
        return Err(Refused::Memory);
    };
    match compile_files(alloc, &files, kept) {
        Ok(program) => Ok(program),
        Err(Refusal::Fault(errors)) => Err(Refused::Faults(Errors::new(errors, files))),
        Err(Refusal::Memory(_)) => Err(Refused::Memory),
    }
}

/// What the definitions of files make.
#[derive(Drop)]
pub struct Definitions {
    pub types: TypeEnv,
    pub terms: TermEnv,
}

/// What the definitions of files make, which messages of faults name.
pub fn definitions_of(
    alloc: Global,
    files: &Files,
    named: Rc<Files>,
) -> Result<Definitions, Refusal<Vec<Error>>>
    ensures shown { IfOk result (λ made. ShowFiles files.now made.types made.terms) }
    ensures placed { IfOk result (λ made. All (TypedRuleAt (IsPrintablePos files.now)) made.terms.rules) }
    ensures faults { IfErr result (λ r. IfFault r (λ errors. AreFaults files.now errors.items)) }
    ensures printable { IfErr result (RefusalsAt (IsPrintablePos files.now)) }
{
    let parsed = parse_files(alloc, files)?;
    let defs = parsed.as_slice();
    let mut tyenv = TypeEnv::from_files(alloc, named, defs)?;
    let termenv = TermEnv::from_ast(alloc, &mut tyenv, defs, true)?;
    let _names = tyenv.syms();
    Ok(Definitions {
        types: tyenv,
        terms: termenv,
    })
}

/// The program of files, which messages of faults name.
fn compile_files(
    alloc: Global,
    files: &Files,
    named: Rc<Files>,
) -> Result<Program, Refusal<Vec<Error>>>
    ensures accepted { OnOk result (AreAccepted files.now) }
    ensures compiled { IfOk result (IsProgramOf files.now) }
    ensures faults { IfErr result (λ r. IfFault r (λ errors. AreFaults files.now errors.items)) }
    ensures printable { IfErr result (RefusalsAt (IsPrintablePos files.now)) }
{
    let Definitions { types, terms } = definitions_of(alloc, files, named)?;
    let rule_sets = check(alloc, &terms)?;
    let trees = trees_of_sets(alloc, rule_sets.as_slice())?;
    Ok(Program::new(alloc, types, terms, rule_sets, trees)?)
}

/// The trees of rule sets.
fn trees_of_sets(alloc: Global, sets: &[(TermId, RuleSet)]) -> Result<Vec<Block>, AllocError>
    requires { All (λ (set : TermNumber × RulesOverSites). IsCheckedSet set.1) sets.now }
    ensures { IfOk result (λ trees. AreSetTrees sets.now trees.items) }
{
    let mut trees = Vec::with_capacity(alloc, sets.len())?;
    for set in sets {
        trees.push(serialize(alloc, &set.1)?)?;
    }
    Ok(trees)
}

/// The definitions of all texts, or the fault of the first one that has one.
pub(crate) fn parse_files(alloc: Global, files: &Files) -> Result<Vec<Def>, Refusal<Vec<Error>>>
    ensures spelt { IfOk result (λ defs. AreSpelt 0 files.now defs.items) }
    ensures fault { IfErr result (λ r. IfFault r (λ errors. (error : Error)
        × (errors.items ≡ error ∷ []) × IsFirstFault files.now error)) }
    ensures placed { IfOk result (λ defs. All (DefAt (IsPrintablePos files.now)) defs.items) }
    ensures no_macro_args { IfOk result (λ defs. All HasNoMacroArgs defs.items) }
    ensures printable { IfErr result (RefusalsAt (IsPrintablePos files.now)) }
{
    let mut defs = Vec::new(alloc);
    for file in 0..files.len() {
        let parsed = parse_file(alloc, files, file)?;
        append(&mut defs, parsed)?;
    }
    Ok(defs)
}

/// The definitions of the text of one file.
fn parse_file(alloc: Global, files: &Files, file: usize) -> Result<Vec<Def>, Refusal<Vec<Error>>>
    requires { file < length files.now }
    ensures spelt { IfSome (slice_get files.now file) (λ from. IfOk result
        (λ defs. Spells file from.text defs.items)) }
    ensures fault { IfSome (slice_get files.now file) (λ from. IfErr result (λ r. IfFault r
        (λ errors. (error : Error) × (errors.items ≡ error ∷ []) × IsFaultIn file from.text error))) }
    ensures placed { IfOk result (λ defs. All (DefAt (IsPrintablePos files.now)) defs.items) }
    ensures no_macro_args { IfOk result (λ defs. All HasNoMacroArgs defs.items) }
    ensures printable { IfErr result (RefusalsAt (IsPrintablePos files.now)) }
{
    let Some(text) = files.file_text(file) else {
        return Ok(Vec::new(alloc));
    };
    match parse(Lexer::new(alloc, file, text)) {
        Ok(defs) => Ok(defs),
        Err(refusal) => Err(alone(alloc, refusal)),
    }
}

/// Moves definitions behind others.
fn append(defs: &mut Vec<Def>, parsed: Vec<Def>) -> Result<(), AllocError>
    ensures { OnOk result (defs.new.items ≡ defs.old.items ++ parsed.items) }
{
    for def in parsed {
        defs.push(def)?;
    }
    Ok(())
}

/// A fault as the only one of its list.
fn alone(alloc: Global, refusal: Refusal<Error>) -> Refusal<Vec<Error>>
    ensures fault { IfFault result (λ errors. IsFaultAnd refusal (λ error. errors.items ≡ error ∷ [])) }
    ensures placed { (files : List SourceFile) → RefusalAt (IsPrintablePos files) refusal → RefusalsAt (IsPrintablePos files) result }
{
    match refusal {
        Refusal::Fault(error) => {
            let mut errors = Vec::new(alloc);
            match errors.push(error) {
                Ok(()) => Refusal::Fault(errors),
                Err(e) => Refusal::from(e),
            }
        }
        Refusal::Memory(e) => Refusal::Memory(e),
    }
}
