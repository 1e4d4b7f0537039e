//! Checks of declarations, roots of rules, constructors and extractors one by one, which report each fault.
ghost use Rattle.std.specs.Prelude.{◌≡◌, ℕ, List, map, length, MatchOption, Some, None, OnOk, IfOk};
ghost use Rattle.isle_ast.specs.declared.ast.Rule.{Rule as RuleTree};
ghost use Rattle.isle_ast.specs.declared.ast.Decl.{Decl as DeclTree};
ghost use Rattle.isle_ast.specs.declared.ast.Extractor.{Extractor as ExtractorTree};
ghost use Rattle.isle_ast.specs.Trees.PatternShape.{pattern_of};
ghost use Rattle.isle_rules.specs.Definitions.{root_name, roots_of, ExternalExtractor};
ghost use Rattle.isle_terms.specs.Inside.Collecting.Checks.{ChecksEach};
ghost use Rattle.isle_terms.specs.Inside.Collecting.NameTables.{IsTableOf};
ghost use Rattle.isle_terms.specs.Inside.Collecting.DefinitionLists.{host_constructor_shown, host_extractor_shown};
ghost use Rattle.isle_terms.specs.Inside.Collecting.DefinitionChecks.{is_ill_root, is_ill_host, is_ill_extractor, is_ill_name, is_unused, is_ill_marked};

use crate::env::definitions::{HostConstructor, HostExtractor};
use crate::env::messages;
use crate::env::name_table::NameTable;
use crate::env::report::report;
use isle_ast::ast::{Decl, Extractor, Ident, Pattern, Rule};
use isle_ast::error::Error;
use isle_types::TypeEnv;
use std::alloc::{AllocError, Global};

/// The name of the term at the root of a rule.
pub fn root_name(rule: &Rule) -> Option<&Ident>
    ensures { MatchOption result (root_name (pattern_of rule.now.pattern) ≡ None)
        (λ name. root_name (pattern_of rule.now.pattern) ≡ Some name.now.0) }
{
    match &rule.pattern {
        Pattern::Term { sym, .. } => Some(sym),
        _ => None,
    }
}

/// The table of the names of the terms that are roots of rules.
pub fn name_roots(alloc: Global, rules: &[&Rule]) -> Result<NameTable, AllocError>
    ensures { IfOk result (IsTableOf (roots_of (map (λ rule. rule.now) rules.now))) }
{
    let mut roots = NameTable::new(alloc);
    let mut count = 0usize;
    for rule in rules {
        if let Some(name) = root_name(rule) {
            roots.add(name.0.as_str(), count)?;
            count += 1;
        }
    }
    Ok(roots)
}

fn is_ill_root(rule: &Rule, declared: &NameTable) -> bool
    ensures { (names : List (List ℕ)) → IsTableOf names declared.now → result ≡ is_ill_root names rule.now }
{
    match root_name(rule) {
        Some(name) => !declared.has(name.0.as_str()),
        None => true,
    }
}

/// Reports each rule whose root is no declared term.
pub fn check_roots(
    tyenv: &TypeEnv,
    rules: &[&Rule],
    declared: &NameTable,
    errors: &mut Vec<Error>,
) -> Result<(), AllocError>
    ensures { (names : List (List ℕ)) → IsTableOf names declared.now → OnOk result
        (ChecksEach (map (λ rule. rule.now) rules.now) (is_ill_root names) (λ (rule : RuleTree). rule.pos) errors.old.items errors.new.items) }
{
    for rule in rules {
        if is_ill_root(rule, declared) {
            report(&mut *errors, rule.pos, messages::ill_root(tyenv, rule))?;
        }
    }
    Ok(())
}

fn is_ill_host(host: &HostConstructor<'_>, declared: &NameTable, roots: &NameTable) -> bool
    ensures { (names : List (List ℕ)) → (ruled : List (List ℕ)) → IsTableOf names declared.now → IsTableOf ruled roots.now → result
        ≡ is_ill_host names ruled (host_constructor_shown host.now) }
{
    !declared.has(host.term.0.as_str()) || roots.has(host.term.0.as_str())
}

/// Reports each external constructor of no declared term, or of a term with rules, at the term's name.
pub fn check_host_constructors(
    tyenv: &TypeEnv,
    hosts: &[HostConstructor<'_>],
    declared: &NameTable,
    roots: &NameTable,
    errors: &mut Vec<Error>,
) -> Result<(), AllocError>
    ensures { (names : List (List ℕ)) → (ruled : List (List ℕ)) → IsTableOf names declared.now → IsTableOf ruled roots.now → OnOk result
        (ChecksEach (map host_constructor_shown hosts.now) (is_ill_host names ruled) (λ host. host.0.1) errors.old.items errors.new.items) }
{
    for host in hosts {
        if is_ill_host(host, declared, roots) {
            report(
                &mut *errors,
                host.term.1,
                messages::ill_host(tyenv, host.term, declared),
            )?;
        }
    }
    Ok(())
}

fn is_ill_extractor(extractor: &Extractor, decls: &[&Decl], declared: &NameTable) -> bool
    ensures { (names : List (List ℕ)) → IsTableOf names declared.now → result
        ≡ is_ill_extractor names (map (λ decl. decl.now) decls.now) extractor.now }
{
    match declared.place(extractor.term.0.as_str()) {
        Some(place) => match decls.get(place) {
            Some(decl) => decl.multi,
            None => false,
        },
        None => true,
    }
}

/// Reports each internal extractor of no declared term, or of a `multi` one.
pub fn check_extractors(
    tyenv: &TypeEnv,
    extractors: &[&Extractor],
    decls: &[&Decl],
    declared: &NameTable,
    errors: &mut Vec<Error>,
) -> Result<(), AllocError>
    ensures { (names : List (List ℕ)) → IsTableOf names declared.now → OnOk result
        (ChecksEach (map (λ extractor. extractor.now) extractors.now) (is_ill_extractor names (map (λ decl. decl.now) decls.now)) (λ (extractor :
        ExtractorTree). extractor.pos) errors.old.items errors.new.items) }
{
    for extractor in extractors {
        if is_ill_extractor(extractor, decls, declared) {
            report(
                &mut *errors,
                extractor.pos,
                messages::ill_extractor(tyenv, &extractor.term, declared),
            )?;
        }
    }
    Ok(())
}

fn is_ill_name(host: &HostExtractor<'_>, declared: &NameTable) -> bool
    ensures { (names : List (List ℕ)) → IsTableOf names declared.now → result ≡ is_ill_name names (host_extractor_shown host.now) }
{
    !declared.has(host.term.0.as_str())
}

/// Reports each external extractor of no declared term.
pub fn check_host_extractors(
    tyenv: &TypeEnv,
    hosts: &[HostExtractor<'_>],
    declared: &NameTable,
    errors: &mut Vec<Error>,
) -> Result<(), AllocError>
    ensures { (names : List (List ℕ)) → IsTableOf names declared.now → OnOk result
        (ChecksEach (map host_extractor_shown hosts.now) (is_ill_name names) (λ (host : ExternalExtractor). host.pos) errors.old.items
        errors.new.items) }
{
    for host in hosts {
        if is_ill_name(host, declared) {
            report(
                &mut *errors,
                host.pos,
                messages::undeclared(tyenv, host.term),
            )?;
        }
    }
    Ok(())
}

fn is_unused(decl: &Decl, roots: &NameTable, hosts: &NameTable, extractors: &NameTable) -> bool
    ensures { (ruled : List (List ℕ)) → (hosted : List (List ℕ)) → (extracted : List (List ℕ)) → IsTableOf ruled roots.now
        → IsTableOf hosted hosts.now → IsTableOf extracted extractors.now → result ≡ is_unused ruled hosted extracted decl.now }
{
    let name = decl.term.0.as_str();
    !roots.has(name) && !hosts.has(name) && !extractors.has(name)
}

/// Reports each declared term without a rule, an external constructor and an extractor.
pub fn check_defined(
    tyenv: &TypeEnv,
    decls: &[&Decl],
    roots: &NameTable,
    hosts: &NameTable,
    extractors: &NameTable,
    errors: &mut Vec<Error>,
) -> Result<(), AllocError>
    ensures { (ruled : List (List ℕ)) → (hosted : List (List ℕ)) → (extracted : List (List ℕ)) → IsTableOf ruled roots.now
        → IsTableOf hosted hosts.now → IsTableOf extracted extractors.now → OnOk result
        (ChecksEach (map (λ decl. decl.now) decls.now) (is_unused ruled hosted extracted) (λ (decl : DeclTree). decl.pos) errors.old.items
        errors.new.items) }
{
    for decl in decls {
        if is_unused(decl, roots, hosts, extractors) {
            report(&mut *errors, decl.pos, messages::unused(tyenv, decl))?;
        }
    }
    Ok(())
}

fn is_ill_marked(decl: &Decl) -> bool
    ensures { result ≡ is_ill_marked decl.now }
{
    decl.multi && decl.partial
}

/// Reports each declaration that is `multi` and `partial`.
pub fn check_marks(
    tyenv: &TypeEnv,
    decls: &[&Decl],
    errors: &mut Vec<Error>,
) -> Result<(), AllocError>
    ensures { OnOk result
        (ChecksEach (map (λ decl. decl.now) decls.now) (is_ill_marked) (λ (decl : DeclTree). decl.pos) errors.old.items errors.new.items) }
{
    for decl in decls {
        if is_ill_marked(decl) {
            report(&mut *errors, decl.pos, messages::ill_marked(tyenv, decl))?;
        }
    }
    Ok(())
}
