//! The environment of terms and rules that definitions make, stage by stage, or their faults.
ghost use Rattle.std.specs.Prelude.{◌≡◌, ◌<◌, ◌≤◌, ℕ, Bool, List, [], map, length, All, IfOk, IfErr, OnOk};
ghost use Rattle.isle_ast.specs.declared.ast.Def.{Def};
ghost use Rattle.isle_ast.specs.Errors.{IfFault, RefusalsAt};
ghost use Rattle.isle_ast.specs.Positions.Files.{SourceFile};
ghost use Rattle.isle_ast.specs.Positions.Printable.{IsPrintablePos};
ghost use Rattle.isle_ast.specs.Positions.DefPositions.{DefAt};
ghost use Rattle.isle_types.specs.Environment.{Environment};
ghost use Rattle.isle_types.specs.TypeEnvs.{Shows, HasMoreNames, IsEnvironmentOf};
ghost use Rattle.isle_rules.specs.Definitions.{extractors_in, rules_in, name_of, HaveTerms};
ghost use Rattle.isle_terms.specs.Inside.Collecting.NamedItems.{name_shown};
ghost use Rattle.isle_rules.specs.TypedTrees.{TypedRuleAt};
ghost use Rattle.isle_terms.specs.TypingFaults.{AreTypingFaults};
ghost use Rattle.isle_terms.specs.Inside.Collecting.Parts.{ArePartsOf};
ghost use Rattle.isle_rules.specs.Definitions.{HasPlainTemplates};
ghost use Rattle.isle_terms.specs.Inside.Collecting.Environments.{ShowsDeclaredOf};
ghost use Rattle.isle_rules.specs.Shown.RulesShown.{ShowsTerms};

use crate::env::names::name_parts;
use crate::env::parts::{Parts, parts_of};
use crate::env::repeats::told_once;
use crate::env::rule_names::{NamedRules, check_rule_names, name_rules, names_of_rules};
use crate::env::rules::collect_rules;
use crate::env::stages::{check_terms, make_terms, refuse};
use crate::env::term_numbers::numbers;
use isle_ast::Refusal;
use isle_ast::ast::{Def, Ident};
use isle_ast::error::Error;
use isle_rules::TermEnv;
use isle_types::TypeEnv;
use std::alloc::Global;

/// How many levels a rule's trees may nest.
pub const MAX_LEVELS: usize = 4_096;

/// How many nodes a rule may have, templates put in.
pub const MAX_NODES: usize = 1_048_576;

/// The terms and converters that definitions make, and as yet no rules. All is checked but the typing of rules.
fn declare(
    alloc: Global,
    tyenv: &mut TypeEnv,
    parts: &Parts<'_>,
    rule_names: &[Option<&Ident>],
    expand: bool,
) -> Result<TermEnv, Refusal<Vec<Error>>>
    requires types { (types : Environment) × Shows tyenv.old types }
    requires plain { HasPlainTemplates (map (λ extractor. extractor.now) parts.now.extractors.items) }
    ensures made { (types : Environment) (defs : List Def) → Shows tyenv.old types → ArePartsOf defs parts.now
        → map name_shown rule_names.now ≡ map (name_of defs) (rules_in defs)
        → IfOk result (λ env. ShowsDeclaredOf tyenv.new env types defs) }
    ensures expands { IfOk result (λ env. env.expands ≡ expand) }
    ensures faults { (types : Environment) (levels : ℕ) (max : ℕ) (defs : List Def) → Shows tyenv.old types → ArePartsOf defs parts.now
        → map name_shown rule_names.now ≡ map (name_of defs) (rules_in defs)
        → IfErr result (λ r. IfFault r (λ errors. AreTypingFaults types expand levels max defs errors.items)) }
    ensures more { HasMoreNames tyenv.old tyenv.new }
    ensures shown { (types : Environment) → Shows tyenv.old types → Shows tyenv.new types }
{
    let mut errors = Vec::new(alloc);
    let mut later = Vec::new(alloc);
    let names = name_parts(alloc, tyenv, parts, &mut errors, &mut later)?;
    let made = match make_terms(alloc, tyenv, parts, &names, errors) {
        Ok(made) => made,
        Err(refusal) => return Err(refusal),
    };
    let converters = check_terms(alloc, tyenv, parts, &names, &made.table, &mut later)?;
    check_rule_names(alloc, tyenv, parts.rules.as_slice(), rule_names, &mut later)?;
    match refuse(later) {
        Ok(()) => {}
        Err(refusal) => return Err(refusal),
    }
    // each name is interned once, which tells the terms apart
    let _names = tyenv.syms();
    let numbers = numbers(alloc, made.terms.as_slice())?;
    Ok(TermEnv::of_terms(alloc, made.terms, numbers, converters, expand)?)
}

/// The typed rules of definitions with their names, where these are the terms and converters that the definitions make.
fn typed_rules(
    alloc: Global,
    env: &TermEnv,
    tyenv: &mut TypeEnv,
    parts: &Parts<'_>,
    rule_names: &[Option<&Ident>],
) -> Result<NamedRules, Refusal<Vec<Error>>>
    ensures made { (types : Environment) (defs : List Def) → ArePartsOf defs parts.now → ShowsDeclaredOf tyenv.old env.now types defs
        → map name_shown rule_names.now ≡ map (name_of defs) (rules_in defs) → IfOk result (λ named. ShowsTerms tyenv.new
        (record env.now { rules = named.rules.items; rule_numbers = named.numbers }) types MAX_LEVELS MAX_NODES defs) }
    ensures faults { (types : Environment) (defs : List Def) → ArePartsOf defs parts.now → ShowsDeclaredOf tyenv.old env.now types defs
        → IfErr result (λ r. IfFault r (λ errors. AreTypingFaults types env.now.expands MAX_LEVELS MAX_NODES defs errors.items)) }
    ensures more { HasMoreNames tyenv.old tyenv.new }
{
    let mut errors = Vec::new(alloc);
    let rules = parts.rules.as_slice();
    let all = collect_rules(alloc, tyenv, env, MAX_LEVELS, MAX_NODES, rules, &mut errors);
    let typed = match all {
        Ok(typed) => typed,
        Err(refusal) => return Err(refusal),
    };
    match refuse(errors) {
        Ok(()) => {}
        Err(refusal) => return Err(told_once(alloc, refusal)),
    }
    match name_rules(alloc, tyenv, rule_names, typed) {
        Ok(named) => Ok(named),
        Err(e) => Err(Refusal::Memory(e)),
    }
}

/// The terms and rules of definitions.
fn collect(
    alloc: Global,
    tyenv: &mut TypeEnv,
    defs: &[Def],
    expand: bool,
) -> Result<TermEnv, Refusal<Vec<Error>>>
    requires types { (types : Environment) × Shows tyenv.old types }
    requires plain { HasPlainTemplates (extractors_in defs.now) }
    ensures made { (types : Environment) → Shows tyenv.old types
        → IfOk result (λ env. ShowsTerms tyenv.new env types MAX_LEVELS MAX_NODES defs.now) }
    ensures expands { IfOk result (λ env. env.expands ≡ expand) }
    ensures faults { (types : Environment) → Shows tyenv.old types → IfErr result (λ r. IfFault r
        (λ errors. AreTypingFaults types expand MAX_LEVELS MAX_NODES defs.now errors.items)) }
    ensures more { HasMoreNames tyenv.old tyenv.new }
{
    let parts = parts_of(alloc, defs)?;
    let rule_names = names_of_rules(alloc, parts.rules.as_slice())?;
    let names = rule_names.as_slice();
    let env = match declare(alloc, tyenv, &parts, names, expand) {
        Ok(env) => env,
        Err(refusal) => return Err(refusal),
    };
    match typed_rules(alloc, &env, tyenv, &parts, names) {
        Ok(named) => Ok(env.set_rules(named.rules, named.numbers)),
        Err(refusal) => Err(refusal),
    }
}

/// What definitions make, under the environment of their types.
pub trait FromAst: Sized {
    /// What these definitions make, or their faults. Conditions: `tyenv` is the environment of the definitions' types, and no body of an
    /// extractor has a `MacroArg` in it.
    fn from_ast(
        alloc: Global,
        tyenv: &mut TypeEnv,
        defs: &[Def],
        expand_internal_extractors: bool,
    ) -> Result<Self, Refusal<Vec<Error>>>
        requires environment { IsEnvironmentOf defs.now tyenv.old }
        requires plain { HasPlainTemplates (extractors_in defs.now) };
}

impl FromAst for TermEnv {
    /// The terms and rules of these definitions: `cranelift_isle::sema::TermEnv::from_ast`. Conditions: `tyenv` is the environment of
    /// the definitions' types, and no body of an extractor has a `MacroArg` in it. With `expand_internal_extractors` internal
    /// extractors are put in where they are used. A refusal lists type errors, or one size error alone; it leaves `tyenv` with at
    /// most more symbols.
    fn from_ast(
        alloc: Global,
        tyenv: &mut TypeEnv,
        defs: &[Def],
        expand_internal_extractors: bool,
    ) -> Result<TermEnv, Refusal<Vec<Error>>>
        requires environment { IsEnvironmentOf defs.now tyenv.old }
        requires plain { HasPlainTemplates (extractors_in defs.now) }
        ensures made { (types : Environment) → Shows tyenv.old types
            → IfOk result (λ env. ShowsTerms tyenv.new env types MAX_LEVELS MAX_NODES defs.now) }
        ensures expands { IfOk result (λ env. env.expands ≡ expand_internal_extractors) }
        ensures faults { (types : Environment) → Shows tyenv.old types → IfErr result (λ r. IfFault r
            (λ errors. AreTypingFaults types expand_internal_extractors MAX_LEVELS MAX_NODES defs.now errors.items)) }
        ensures refused { (types : Environment) → Shows tyenv.old types → IfErr result (λ r. IfFault r
            (λ _. ¬ HaveTerms types expand_internal_extractors MAX_LEVELS MAX_NODES defs.now)) }
        ensures more { HasMoreNames tyenv.old tyenv.new }
        ensures placed { (files : List SourceFile) → All (DefAt (IsPrintablePos files)) defs.now
            → IfOk result (λ env. All (TypedRuleAt (IsPrintablePos files)) env.rules) }
        ensures printable { (files : List SourceFile) → All (DefAt (IsPrintablePos files)) defs.now
            → IfErr result (RefusalsAt (IsPrintablePos files)) }
    {
        collect(alloc, tyenv, defs, expand_internal_extractors)
    }
}
