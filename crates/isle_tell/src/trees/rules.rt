//! What is printed of the rules of a rule set.
ghost use Rattle.std.specs.Prelude.{◌≡◌, IfOk, string_bytes};
ghost use Rattle.std.specs.List.{flat_map};
ghost use Rattle.isle_tell.specs.TreeTexts.Names.{AreTexts};
ghost use Rattle.isle_tell.specs.TreeTexts.Rules.{IsRuleText, equal_line, heading_line, rule_name, sites_line, test_line};

use crate::trees::names::{place_text, spaced, symbol_name};
use crate::trees::sites::test_text;
use isle_ast::Seq;
use isle_ast::files::Files;
use isle_blocks::{BindingId, Constraint, Rule};
use isle_program::Program;
use isle_types::{SortedMap, Sym};
use std::alloc::{AllocError, Global};

/// The name of a rule, or `-` where it has none.
fn rule_name(program: &Program, name: Option<Sym>) -> &str
    ensures { result.now ≡ rule_name program.now name }
{
    match name {
        Some(sym) => symbol_name(program, sym),
        None => "-",
    }
}

/// The line that heads a rule.
fn heading(
    alloc: Global,
    program: &Program,
    files: &Files,
    rule: &Rule,
) -> Result<String, AllocError>
    ensures { IfOk result (λ text. string_bytes text ≡ heading_line program.now files.now rule.now) }
{
    let number = rule.id.index();
    let place = place_text(alloc, files, rule.pos)?;
    let name = rule_name(program, rule.name);
    let prio = rule.prio;
    let constraints = rule.total_constraints();
    format!(in alloc;
        "  rule {number} at {place} name {name} prio {prio} constraints {constraints}\n"
    )
}

/// A line for each test of a rule.
fn tests_text(
    alloc: Global,
    program: &Program,
    tests: &SortedMap<BindingId, Constraint>,
) -> Result<String, AllocError>
    ensures { IfOk result (λ text. string_bytes text ≡ flat_map (test_line program.now) tests.now) }
{
    let mut text = String::new(alloc);
    for place in 0..tests.len() {
        let (site, test) = tests.entry(place).unwrap();
        let line = test_line(alloc, program, *site, test)?;
        text.push_str(line.as_str())?;
    }
    Ok(text)
}

/// The line of a site and its test.
fn test_line(
    alloc: Global,
    program: &Program,
    site: BindingId,
    test: &Constraint,
) -> Result<String, AllocError>
    ensures { IfOk result (λ text. string_bytes text ≡ test_line program.now (site, test.now)) }
{
    let number = site.index();
    let test = test_text(alloc, program, test)?;
    format!(in alloc; "    {number} is {test}\n")
}

/// A line for each set of sites that must be equal.
fn equals_text(alloc: Global, sets: &[Seq<BindingId>]) -> Result<String, AllocError>
    ensures { IfOk result (λ text. string_bytes text ≡ flat_map equal_line sets.now) }
{
    let mut text = String::new(alloc);
    for set in sets {
        let line = equal_line(alloc, set.as_slice())?;
        text.push_str(line.as_str())?;
    }
    Ok(text)
}

/// The line of sites that must be equal.
fn equal_line(alloc: Global, set: &[BindingId]) -> Result<String, AllocError>
    ensures { IfOk result (λ text. string_bytes text ≡ equal_line set.now) }
{
    let sites = spaced(alloc, set)?;
    format!(in alloc; "    equal {sites}\n")
}

/// A line of a word and sites, and nothing where there are none.
fn sites_line(alloc: Global, word: &str, sites: &[BindingId]) -> Result<String, AllocError>
    ensures { IfOk result (λ text. string_bytes text ≡ sites_line word.now sites.now) }
{
    if sites.is_empty() {
        return Ok(String::new(alloc));
    }
    let sites = spaced(alloc, sites)?;
    format!(in alloc; "    {word} {sites}\n")
}

/// The lines of a rule.
fn rule_text(
    alloc: Global,
    program: &Program,
    files: &Files,
    rule: &Rule,
) -> Result<String, AllocError>
    ensures { IfOk result (λ text. IsRuleText program.now files.now rule.now (string_bytes text)) }
{
    let heading = heading(alloc, program, files, rule)?;
    let tests = tests_text(alloc, program, &rule.constraints)?;
    let sets = rule.equal_sites(alloc)?;
    let equals = equals_text(alloc, sets.as_slice())?;
    let iterators = sites_line(alloc, "iterators", rule.iterators.as_slice())?;
    let impure = sites_line(alloc, "impure", rule.impure.as_slice())?;
    let result = rule.result.index();
    format!(in alloc; "{heading}{tests}{equals}{iterators}{impure}    result {result}\n")
}

/// The lines of rules.
pub(crate) fn rules_text(
    alloc: Global,
    program: &Program,
    files: &Files,
    rules: &[Rule],
) -> Result<String, AllocError>
    ensures { IfOk result (λ text. AreTexts (IsRuleText program.now files.now) rules.now (string_bytes text)) }
{
    let mut text = String::new(alloc);
    for rule in rules {
        let one = rule_text(alloc, program, files, rule)?;
        text.push_str(one.as_str())?;
    }
    Ok(text)
}
