//! Names of rules, written or taken from a term with one rule alone, and the check that each is given once.
ghost use Rattle.std.specs.Prelude.{◌≡◌, ◌++◌, List, [], ◌∷◌, map, length, IfOk, OnOk};
ghost use Rattle.std.specs.List.{AllZip};
ghost use Rattle.isle_ast.specs.declared.ast.Def.{Def};
ghost use Rattle.isle_types.specs.Names.{AreDistinct};
ghost use Rattle.isle_types.specs.TypeEnvs.{HasMoreNames, CountUp};
ghost use Rattle.isle_rules.specs.declared.rules.Rule.{Rule as RuleRecord};
ghost use Rattle.isle_rules.specs.TypedRules.{TypedRule};
ghost use Rattle.isle_rules.specs.Definitions.{rules_in, roots_of, name_of};
ghost use Rattle.isle_terms.specs.TermFaults.{IsTaken, names_of};
ghost use Rattle.isle_terms.specs.TypingFaults.{named_rules};
ghost use Rattle.isle_terms.specs.Inside.Collecting.Checks.{Checks};
ghost use Rattle.isle_terms.specs.Inside.Collecting.NamedItems.{name_shown, named_shown};
ghost use Rattle.isle_terms.specs.Inside.Collecting.RuleNames.{with_names, AreNamedRules, MarksLone, IsNumbering};
ghost use Rattle.isle_rules.specs.Shown.RulesShown.{IsShownRule};

use crate::env::checks::root_name;
use crate::env::naming::{Named, name_all};
use isle_ast::ast::{self, Ident};
use isle_ast::error::Error;
use isle_rules::Rule;
use isle_types::{RuleId, StableMap, Sym, TypeEnv};
use std::alloc::{AllocError, Global};

/// Typed rules, each at the place of its id, and the id of each name.
#[derive(Drop)]
pub struct NamedRules {
    pub rules: Vec<Rule>,
    pub numbers: StableMap<Sym, RuleId>,
}

/// For the name of each term that is a root of rules, whether it is the root of one rule alone.
fn lone_roots(alloc: Global, rules: &[&ast::Rule]) -> Result<StableMap<String, bool>, AllocError>
    ensures { IfOk result (λ lone. MarksLone (roots_of (map (λ rule. rule.now) rules.now)) lone) }
{
    let mut lone: StableMap<String, bool> = StableMap::new(alloc);
    for rule in rules {
        if let Some(root) = root_name(rule) {
            let name = root.0.as_str();
            let again = lone.get_text(name).is_some();
            lone.insert(String::from_str(alloc, name)?, !again)?;
        }
    }
    Ok(lone)
}

/// The name of a rule: that which is written, or its term's where it is the term's only rule.
fn name_of_rule<'a>(rule: &'a ast::Rule, lone: &StableMap<String, bool>) -> Option<&'a Ident>
    ensures { (defs : List Def) → MarksLone (roots_of (rules_in defs)) lone.now → name_shown result ≡ name_of defs rule.now }
{
    if let Some(name) = &rule.name {
        return Some(name);
    }
    let root = root_name(rule)?;
    if lone.get_text(root.0.as_str()).copied() == Some(true) {
        Some(root)
    } else {
        None
    }
}

/// The names of rules, in order.
pub fn names_of_rules<'a>(
    alloc: Global,
    rules: &[&'a ast::Rule],
) -> Result<Vec<Option<&'a Ident>>, AllocError>
    ensures { (defs : List Def) → map (λ rule. rule.now) rules.now ≡ rules_in defs
        → IfOk result (λ names. map name_shown names.items ≡ map (name_of defs) (rules_in defs)) }
{
    let lone = lone_roots(alloc, rules)?;
    let mut names = Vec::new(alloc);
    for rule in rules {
        names.push(name_of_rule(rule, &lone))?;
    }
    Ok(names)
}

/// The names of the rules that have one, each with the position of its rule.
fn placed_names<'a>(
    alloc: Global,
    rules: &[&ast::Rule],
    names: &[Option<&'a Ident>],
) -> Result<Vec<Named<'a>>, AllocError>
    ensures { (defs : List Def) → map (λ rule. rule.now) rules.now ≡ rules_in defs
        → map name_shown names.now ≡ map (name_of defs) (rules_in defs)
        → IfOk result (λ placed. map named_shown placed.items ≡ named_rules defs) }
{
    let mut placed = Vec::new(alloc);
    for i in 0..rules.len() {
        let rule = rules[i];
        if i < names.len() {
            let own = names[i];
            if let Some(name) = own {
                placed.push(Named {
                    name: name.0.as_str(),
                    pos: rule.pos,
                })?;
            }
        }
    }
    Ok(placed)
}

/// Reports each rule whose name an earlier one has.
pub fn check_rule_names(
    alloc: Global,
    tyenv: &TypeEnv,
    rules: &[&ast::Rule],
    names: &[Option<&Ident>],
    errors: &mut Vec<Error>,
) -> Result<(), AllocError>
    ensures { (defs : List Def) → map (λ rule. rule.now) rules.now ≡ rules_in defs
        → map name_shown names.now ≡ map (name_of defs) (rules_in defs)
        → OnOk result (Checks (IsTaken (named_rules defs)) (AreDistinct (names_of (named_rules defs))) errors.old.items errors.new.items) }
{
    let placed = placed_names(alloc, rules, names)?;
    name_all(
        alloc,
        tyenv,
        placed.as_slice(),
        "is the name of a rule already",
        errors,
    )?;
    Ok(())
}

/// Gives a rule its name, and adds its number to the table.
fn name_rule(
    tyenv: &mut TypeEnv,
    numbers: &mut StableMap<Sym, RuleId>,
    name: Option<&Ident>,
    rule: Rule,
) -> Result<Rule, AllocError>
    ensures shown { (typed : TypedRule) → IsShownRule tyenv.old.names typed rule
        → IfOk result (IsShownRule tyenv.new.names (record typed { name = name_shown name.entry })) }
    ensures id { IfOk result (λ named. named.id ≡ rule.id) }
    ensures numbered { (before : List TypedRule) (typed : TypedRule) → IsNumbering tyenv.old.names before numbers.old
        → length before ≡ rule.id.0
        → OnOk result (IsNumbering tyenv.new.names (before ++ record typed { name = name_shown name.entry } ∷ []) numbers.new) }
    ensures same { HasMoreNames tyenv.old tyenv.new }
{
    let mut rule = rule;
    rule.name = None;
    if let Some(name) = name {
        let sym = match tyenv.intern_mut(name) {
            Ok(sym) => sym,
            Err(refusal) => return Err(refusal),
        };
        let _ = tyenv.syms();
        numbers.insert(sym, rule.id)?;
        rule.name = Some(sym);
    }
    Ok(rule)
}

/// Gives each rule its name.
pub fn name_rules(
    alloc: Global,
    tyenv: &mut TypeEnv,
    names: &[Option<&Ident>],
    rules: Vec<Rule>,
) -> Result<NamedRules, AllocError>
    ensures named { (typed : List TypedRule) → AllZip (IsShownRule tyenv.old.names) typed rules.items
        → CountUp (λ (rule : RuleRecord). rule.id.0) 0 rules.items → length names.now ≡ length rules.items
        → IfOk result (AreNamedRules tyenv.new.names (with_names typed (map name_shown names.now))) }
    ensures same { HasMoreNames tyenv.old tyenv.new }
{
    let mut numbers = StableMap::new(alloc);
    let mut named = Vec::new(alloc);
    for rule in rules {
        let place = named.len();
        let name = if place < names.len() {
            names[place]
        } else {
            None
        };
        match name_rule(&mut *tyenv, &mut numbers, name, rule) {
            Ok(rule) => named.push(rule)?,
            Err(refusal) => return Err(refusal),
        }
    }
    Ok(NamedRules {
        rules: named,
        numbers,
    })
}
