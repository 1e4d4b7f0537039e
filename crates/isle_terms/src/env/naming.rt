//! Names with the positions where they are given, and tables of names, with a report of each that is taken.
ghost use Rattle.std.specs.Prelude.{◌≡◌, ◌++◌, List, map, IfOk, OnOk};
ghost use Rattle.std.specs.List.{AllZip};
ghost use Rattle.isle_ast.specs.declared.ast.Decl.{Decl as DeclTree};
ghost use Rattle.isle_ast.specs.declared.ast.Extractor.{Extractor as ExtractorTree};
ghost use Rattle.isle_types.specs.Names.{AreDistinct};
ghost use Rattle.isle_terms.specs.TermFaults.{names_of, IsTaken};
ghost use Rattle.isle_terms.specs.Inside.Collecting.Checks.{Checks};
ghost use Rattle.isle_terms.specs.Inside.Collecting.NameTables.{IsTableOf};
ghost use Rattle.isle_terms.specs.Inside.Collecting.NamedItems.{named_shown, named_declaration, named_extractor, named_host_constructor};
ghost use Rattle.isle_terms.specs.Inside.Collecting.NamedItems.{named_host_extractor, named_term};
ghost use Rattle.isle_terms.specs.Inside.Collecting.DeclaredTerms.{IsShownTerm};
ghost use Rattle.isle_rules.specs.Signatures.{Signature};

use crate::env::definitions::{HostConstructor, HostExtractor};
use crate::env::messages;
use crate::env::name_table::NameTable;
use crate::env::report::report;
use isle_ast::ast::{Decl, Extractor};
use isle_ast::error::Error;
use isle_ast::pos::Pos;
use isle_rules::Term;
use isle_types::TypeEnv;
use std::alloc::{AllocError, Global};

/// A name, and where it is given.
#[derive(Clone, Copy)]
pub struct Named<'a> {
    pub name: &'a str,
    pub pos: Pos,
}

/// The names of declarations.
pub fn declared_names<'a>(alloc: Global, decls: &[&'a Decl]) -> Result<Vec<Named<'a>>, AllocError>
    ensures { IfOk result (λ all. map named_shown all.items ≡ map (λ decl. named_declaration decl.now) decls.now) }
{
    let mut all = Vec::new(alloc);
    for decl in decls {
        all.push(Named {
            name: decl.term.0.as_str(),
            pos: decl.pos,
        })?;
    }
    Ok(all)
}

/// The names of the terms of internal extractors.
pub fn extractor_names<'a>(
    alloc: Global,
    extractors: &[&'a Extractor],
) -> Result<Vec<Named<'a>>, AllocError>
    ensures { IfOk result (λ all. map named_shown all.items ≡ map (λ extractor. named_extractor extractor.now) extractors.now) }
{
    let mut all = Vec::new(alloc);
    for extractor in extractors {
        all.push(Named {
            name: extractor.term.0.as_str(),
            pos: extractor.pos,
        })?;
    }
    Ok(all)
}

/// The names of the terms of the host's constructors, each where it stands.
pub fn host_constructor_names<'a>(
    alloc: Global,
    hosts: &[HostConstructor<'a>],
) -> Result<Vec<Named<'a>>, AllocError>
    ensures { IfOk result (λ all. map named_shown all.items ≡ map named_host_constructor hosts.now) }
{
    let mut all = Vec::new(alloc);
    for host in hosts {
        all.push(Named {
            name: host.term.0.as_str(),
            pos: host.term.1,
        })?;
    }
    Ok(all)
}

/// Adds the names of the terms of the host's extractors.
pub fn add_host_extractor_names<'a>(
    all: &mut Vec<Named<'a>>,
    hosts: &[HostExtractor<'a>],
) -> Result<(), AllocError>
    ensures { OnOk result (map named_shown all.new.items ≡ map named_shown all.old.items ++ map named_host_extractor hosts.now) }
{
    for host in hosts {
        all.push(Named {
            name: host.term.0.as_str(),
            pos: host.pos,
        })?;
    }
    Ok(())
}

/// The names of terms, each where what makes the term stands.
pub fn term_names<'a>(
    alloc: Global,
    tyenv: &'a TypeEnv,
    terms: &[Term],
) -> Result<Vec<Named<'a>>, AllocError>
    ensures { (signatures : List Signature) → AllZip (IsShownTerm tyenv.now.names) signatures terms.now
        → IfOk result (λ all. map named_shown all.items ≡ map named_term signatures) }
{
    let mut all = Vec::new(alloc);
    for term in terms {
        all.push(Named {
            name: tyenv.sym_name(term.name),
            pos: term.decl_pos,
        })?;
    }
    Ok(all)
}

/// The table of names, each of which is reported where it occurs already; `msg` says of what.
pub fn name_all(
    alloc: Global,
    tyenv: &TypeEnv,
    named: &[Named<'_>],
    msg: &str,
    errors: &mut Vec<Error>,
) -> Result<NameTable, AllocError>
    ensures table { IfOk result (IsTableOf (names_of (map named_shown named.now))) }
    ensures checked { OnOk result (Checks (IsTaken (map named_shown named.now)) (AreDistinct (names_of (map named_shown named.now)))
        errors.old.items errors.new.items) }
{
    let mut table = NameTable::new(alloc);
    for i in 0..named.len() {
        if !table.add(named[i].name, i)? {
            report(
                &mut *errors,
                named[i].pos,
                messages::taken(tyenv, named, &table, i, msg),
            )?;
        }
    }
    Ok(table)
}
