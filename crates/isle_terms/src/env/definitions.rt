//! Definitions listed by kind: declarations, rules, extractors, converters, and the host's constructors and extractors.
ghost use Rattle.std.specs.Prelude.{◌≡◌, IfOk, map};
ghost use Rattle.std.specs.Option.{option_copied, option_map};
ghost use Rattle.isle_rules.specs.Definitions.{as_declaration, as_rule, as_extractor, as_converter, declarations, rules_in, extractors_in};
ghost use Rattle.isle_rules.specs.Definitions.{converters_in, external_constructors, external_extractors};
ghost use Rattle.isle_terms.specs.Inside.Collecting.DefinitionLists.{constructor_in, extractor_in, host_constructor_shown, host_extractor_shown};

use isle_ast::ast::{Converter, Decl, Def, Extern, Extractor, Ident, Rule};
use isle_ast::pos::Pos;
use std::alloc::{AllocError, Global};

/// The host's function that makes a term's values.
#[derive(Clone, Copy)]
pub struct HostConstructor<'a> {
    pub term: &'a Ident,
    pub function: &'a Ident,
}

/// The host's function that takes a term's values apart, and where it is given.
#[derive(Clone, Copy)]
pub struct HostExtractor<'a> {
    pub term: &'a Ident,
    pub function: &'a Ident,
    pub infallible: bool,
    pub pos: Pos,
}

/// The declarations of a list of definitions, in order.
pub fn declarations(alloc: Global, defs: &[Def]) -> Result<Vec<&Decl>, AllocError>
    ensures { IfOk result (λ all. map (λ decl. decl.now) all.items ≡ declarations defs.now) }
{
    let mut all = Vec::new(alloc);
    for def in defs {
        if let Some(decl) = declaration(def) {
            all.push(decl)?;
        }
    }
    Ok(all)
}

fn declaration(def: &Def) -> Option<&Decl>
    ensures { option_copied result ≡ as_declaration def.now }
{
    match def {
        Def::Decl(decl) => Some(decl),
        _ => None,
    }
}

/// The rules of a list of definitions, in order.
pub fn rules(alloc: Global, defs: &[Def]) -> Result<Vec<&Rule>, AllocError>
    ensures { IfOk result (λ all. map (λ rule. rule.now) all.items ≡ rules_in defs.now) }
{
    let mut all = Vec::new(alloc);
    for def in defs {
        if let Some(rule) = rule(def) {
            all.push(rule)?;
        }
    }
    Ok(all)
}

fn rule(def: &Def) -> Option<&Rule>
    ensures { option_copied result ≡ as_rule def.now }
{
    match def {
        Def::Rule(rule) => Some(rule),
        _ => None,
    }
}

/// The internal extractors of a list of definitions, in order.
pub fn extractors(alloc: Global, defs: &[Def]) -> Result<Vec<&Extractor>, AllocError>
    ensures { IfOk result (λ all. map (λ extractor. extractor.now) all.items ≡ extractors_in defs.now) }
{
    let mut all = Vec::new(alloc);
    for def in defs {
        if let Some(extractor) = extractor(def) {
            all.push(extractor)?;
        }
    }
    Ok(all)
}

fn extractor(def: &Def) -> Option<&Extractor>
    ensures { option_copied result ≡ as_extractor def.now }
{
    match def {
        Def::Extractor(extractor) => Some(extractor),
        _ => None,
    }
}

/// The converters of a list of definitions, in order.
pub fn converters(alloc: Global, defs: &[Def]) -> Result<Vec<&Converter>, AllocError>
    ensures { IfOk result (λ all. map (λ converter. converter.now) all.items ≡ converters_in defs.now) }
{
    let mut all = Vec::new(alloc);
    for def in defs {
        if let Some(converter) = converter(def) {
            all.push(converter)?;
        }
    }
    Ok(all)
}

fn converter(def: &Def) -> Option<&Converter>
    ensures { option_copied result ≡ as_converter def.now }
{
    match def {
        Def::Converter(converter) => Some(converter),
        _ => None,
    }
}

/// The host's constructors of a list of definitions, in order.
pub fn host_constructors(
    alloc: Global,
    defs: &[Def],
) -> Result<Vec<HostConstructor<'_>>, AllocError>
    ensures { IfOk result (λ all. map host_constructor_shown all.items ≡ external_constructors defs.now) }
{
    let mut all = Vec::new(alloc);
    for def in defs {
        if let Some(host) = host_constructor(def) {
            all.push(host)?;
        }
    }
    Ok(all)
}

fn host_constructor(def: &Def) -> Option<HostConstructor<'_>>
    ensures { option_map host_constructor_shown result ≡ constructor_in def.now }
{
    match def {
        Def::Extern(Extern::Constructor { term, func, .. }) => Some(HostConstructor {
            term,
            function: func,
        }),
        _ => None,
    }
}

/// The host's extractors of a list of definitions, in order.
pub fn host_extractors(alloc: Global, defs: &[Def]) -> Result<Vec<HostExtractor<'_>>, AllocError>
    ensures { IfOk result (λ all. map host_extractor_shown all.items ≡ external_extractors defs.now) }
{
    let mut all = Vec::new(alloc);
    for def in defs {
        if let Some(host) = host_extractor(def) {
            all.push(host)?;
        }
    }
    Ok(all)
}

fn host_extractor(def: &Def) -> Option<HostExtractor<'_>>
    ensures { option_map host_extractor_shown result ≡ extractor_in def.now }
{
    match def {
        Def::Extern(
            Extern::Extractor {
                term,
                func,
                pos,
                infallible,
            },
        ) => Some(HostExtractor {
            term,
            function: func,
            infallible: *infallible,
            pos: *pos,
        }),
        _ => None,
    }
}
