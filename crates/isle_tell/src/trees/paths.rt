//! Sites as expressions: of what a site comes, each behind ` of `, and at the end an argument, a constant or a call. No expression is written
//! past twelve levels, and a call in a call in a call has no parts, so that an expression is short however deep its site is.
ghost use Rattle.std.specs.Prelude.{◌≡◌, IfOk, slice_get, string_bytes};
ghost use Rattle.std.specs.Option.{option_copied};
ghost use Rattle.isle_tell.specs.TreeTexts.DotSites.{call_text, cut, end_text, expression, inner, link_words, outline, part_words, source_of, sources_at};
ghost use Rattle.isle_tell.specs.TreeTexts.DotSites.{finished, type_known, way_end, way_words};

use crate::trees::fields::{struct_field, variant_field};
use crate::trees::names::{symbol_name, type_name, variant_name};
use isle_blocks::{Binding, BindingId};
use isle_program::Program;
use isle_types::TypeId;
use std::alloc::{AllocError, Global};

/// What expressions of sites are written from: the program, the sites of a rule set, and the types that its tests tell of them.
#[derive(Clone, Copy)]
pub(crate) struct Table<'a> {
    pub program: &'a Program,
    pub sites: &'a [Binding],
    pub types: &'a [Option<TypeId>],
}

/// The one site from which a site comes.
fn source_of(site: &Binding) -> Option<BindingId>
    ensures { result ≡ source_of site.now }
{
    match site {
        Binding::ConstBool { .. } => None,
        Binding::ConstInt { .. } => None,
        Binding::ConstPrim { .. } => None,
        Binding::Argument { .. } => None,
        Binding::Extractor { parameter, .. } => Some(*parameter),
        Binding::Constructor { .. } => None,
        Binding::Iterator { source } => Some(*source),
        Binding::MakeVariant { .. } => None,
        Binding::MatchVariant { source, .. } => Some(*source),
        Binding::MakeStruct { .. } => None,
        Binding::ExtractStruct { source, .. } => Some(*source),
        Binding::MakeSome { .. } => None,
        Binding::MatchSome { source } => Some(*source),
        Binding::MatchTuple { source, .. } => Some(*source),
    }
}

/// The type of a site that tests tell.
fn type_known(types: &[Option<TypeId>], site: BindingId) -> Option<TypeId>
    ensures { result ≡ type_known types.now site }
{
    match types.get(site.index()) {
        Some(known) => *known,
        None => None,
    }
}

/// What a site is of the one from which it comes.
fn link_words(alloc: Global, table: &Table<'_>, site: &Binding) -> Result<String, AllocError>
    ensures { IfOk result (λ text. string_bytes text ≡ link_words table.now.program.now table.now.types.now site.now) }
{
    match site {
        Binding::Extractor { term, .. } => String::from_str(alloc, table.program.name(*term)),
        Binding::Iterator { .. } => String::from_str(alloc, "each"),
        Binding::MatchVariant {
            source,
            variant,
            field,
        } => {
            let ty = type_known(table.types, *source);
            variant_field(alloc, table.program, ty, *variant, field.index())
        }
        Binding::ExtractStruct { source, field } => {
            let ty = type_known(table.types, *source);
            struct_field(alloc, table.program, ty, field.index())
        }
        Binding::MatchSome { .. } => String::from_str(alloc, "value"),
        Binding::MatchTuple { field, .. } => {
            let field = field.0;
            format!(in alloc; "output {field}")
        }
        _ => Ok(String::new(alloc)),
    }
}

/// The site of a number.
fn site_at<'a>(table: &Table<'a>, site: BindingId) -> Option<&'a Binding>
    ensures { option_copied result ≡ slice_get table.now.sites.now site.0 }
{
    table.sites.get(site.index())
}

/// What a site is of others, each behind ` of `, and the site at which that ends; none where it goes on past twelve levels.
fn way<'a>(
    alloc: Global,
    table: &Table<'a>,
    site: BindingId,
) -> Result<(String, Option<&'a Binding>), AllocError>
    ensures words { IfOk result (λ way. string_bytes way.0
        ≡ way_words table.now.program.now table.now.types.now table.now.sites.now 12 site) }
    ensures end { IfOk result (λ way. option_copied way.1 ≡ way_end table.now.sites.now 12 site) }
{
    let mut words = String::new(alloc);
    let mut at = site;
    for _ in 0..12u8 {
        let Some(found) = site_at(table, at) else {
            return Ok((words, None));
        };
        let Some(source) = source_of(found) else {
            return Ok((words, Some(found)));
        };
        let link = link_words(alloc, table, found)?;
        words.push_str(link.as_str())?;
        words.push_str(" of ")?;
        at = source;
    }
    Ok((words, None))
}

/// A call with its parts.
fn call_text(alloc: Global, name: &str, parts: &str) -> Result<String, AllocError>
    ensures { IfOk result (λ text. string_bytes text ≡ call_text name.now parts.now) }
{
    format!(in alloc; "({name}{parts})")
}

/// A site that comes from no one other, with its parts as they are given.
fn end_text(
    alloc: Global,
    program: &Program,
    site: &Binding,
    parts: &str,
) -> Result<String, AllocError>
    ensures { IfOk result (λ text. string_bytes text ≡ end_text program.now parts.now site.now) }
{
    match site {
        Binding::ConstBool { val, .. } => format!(in alloc; "{val}"),
        Binding::ConstInt { val, .. } => format!(in alloc; "{val}"),
        Binding::ConstPrim { val } => {
            let name = symbol_name(program, *val);
            format!(in alloc; "${name}")
        }
        Binding::Argument { index } => {
            let index = index.0;
            format!(in alloc; "arg {index}")
        }
        Binding::Constructor { term, .. } => call_text(alloc, program.name(*term), parts),
        Binding::MakeVariant { ty, variant, .. } => {
            call_text(alloc, variant_name(program, *ty, *variant), parts)
        }
        Binding::MakeStruct { ty, .. } => call_text(alloc, type_name(program, *ty), parts),
        Binding::MakeSome { .. } => call_text(alloc, "some", parts),
        _ => String::from_str(alloc, ".."),
    }
}

/// An expression of what a site is of others, and the site at which that ends.
fn finished(
    alloc: Global,
    program: &Program,
    words: &str,
    end: Option<&Binding>,
    parts: &str,
) -> Result<String, AllocError>
    ensures { IfOk result (λ text. string_bytes text ≡ finished program.now words.now parts.now (option_copied end.entry)) }
{
    let Some(site) = end else {
        return format!(in alloc; "{words}..");
    };
    let end = end_text(alloc, program, site, parts)?;
    format!(in alloc; "{words}{end}")
}

/// The parts of the site at which a way ends.
fn sources_at(end: Option<&Binding>) -> &[BindingId]
    ensures { result.now ≡ sources_at (option_copied end.entry) }
{
    match end {
        Some(site) => site.sources(),
        None => &[],
    }
}

/// Parts that aren't written.
fn cut(parts: &[BindingId]) -> &'static str
    ensures { result.now ≡ cut parts.now }
{
    if parts.is_empty() { "" } else { " .." }
}

/// A site as an expression, in which a call has no parts.
fn outline(alloc: Global, table: &Table<'_>, site: BindingId) -> Result<String, AllocError>
    ensures { IfOk result (λ text. string_bytes text ≡ outline table.now.program.now table.now.types.now table.now.sites.now site) }
{
    let (words, end) = way(alloc, table, site)?;
    let parts = cut(sources_at(end));
    finished(alloc, table.program, words.as_str(), end, parts)
}

/// Parts in outline, each behind a space.
fn outlines(alloc: Global, table: &Table<'_>, parts: &[BindingId]) -> Result<String, AllocError>
    ensures { IfOk result (λ text. string_bytes text
        ≡ part_words (outline table.now.program.now table.now.types.now table.now.sites.now) parts.now) }
{
    let mut text = String::new(alloc);
    for part in parts {
        let one = outline(alloc, table, *part)?;
        text.push_str(" ")?;
        text.push_str(one.as_str())?;
    }
    Ok(text)
}

/// A site as an expression, in which the parts of a call are in outline.
fn inner(alloc: Global, table: &Table<'_>, site: BindingId) -> Result<String, AllocError>
    ensures { IfOk result (λ text. string_bytes text ≡ inner table.now.program.now table.now.types.now table.now.sites.now site) }
{
    let (words, end) = way(alloc, table, site)?;
    let parts = outlines(alloc, table, sources_at(end))?;
    finished(alloc, table.program, words.as_str(), end, parts.as_str())
}

/// Parts, each behind a space, whose own parts are in outline.
fn inners(alloc: Global, table: &Table<'_>, parts: &[BindingId]) -> Result<String, AllocError>
    ensures { IfOk result (λ text. string_bytes text
        ≡ part_words (inner table.now.program.now table.now.types.now table.now.sites.now) parts.now) }
{
    let mut text = String::new(alloc);
    for part in parts {
        let one = inner(alloc, table, *part)?;
        text.push_str(" ")?;
        text.push_str(one.as_str())?;
    }
    Ok(text)
}

/// A site as an expression, in which calls are written in calls.
pub(crate) fn expression(
    alloc: Global,
    table: &Table<'_>,
    site: BindingId,
) -> Result<String, AllocError>
    ensures { IfOk result (λ text. string_bytes text ≡ expression table.now.program.now table.now.types.now table.now.sites.now site) }
{
    let (words, end) = way(alloc, table, site)?;
    let parts = inners(alloc, table, sources_at(end))?;
    finished(alloc, table.program, words.as_str(), end, parts.as_str())
}
