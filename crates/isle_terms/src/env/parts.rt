//! The definitions of terms and rules, with a list for each kind.
ghost use Rattle.std.specs.Prelude.{IfOk};
ghost use Rattle.isle_terms.specs.Inside.Collecting.Parts.{ArePartsOf};

use crate::env::definitions::{
    HostConstructor, HostExtractor, converters, declarations, extractors, host_constructors,
    host_extractors, rules,
};
use isle_ast::ast::{Converter, Decl, Def, Extractor, Rule};
use std::alloc::{AllocError, Global};

/// The definitions of terms and rules by kind, each in order.
#[derive(Drop)]
pub struct Parts<'a> {
    pub decls: Vec<&'a Decl>,
    pub rules: Vec<&'a Rule>,
    pub extractors: Vec<&'a Extractor>,
    pub converters: Vec<&'a Converter>,
    pub host_constructors: Vec<HostConstructor<'a>>,
    pub host_extractors: Vec<HostExtractor<'a>>,
}

/// The definitions of each kind.
pub fn parts_of(alloc: Global, defs: &[Def]) -> Result<Parts<'_>, AllocError>
    ensures { IfOk result (ArePartsOf defs.now) }
{
    Ok(Parts {
        decls: declarations(alloc, defs)?,
        rules: rules(alloc, defs)?,
        extractors: extractors(alloc, defs)?,
        converters: converters(alloc, defs)?,
        host_constructors: host_constructors(alloc, defs)?,
        host_extractors: host_extractors(alloc, defs)?,
    })
}
