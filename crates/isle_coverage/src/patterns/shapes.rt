//! The patterns of sites.
use super::case::{Case, no_texts, put_text, text_at};
use super::kinds::{Kind, kind_at};
use super::words::{constant_text, number_text, type_name, variant_name};
use isle_blocks::{Binding, BindingId, Constraint, TupleIndex};
use std::alloc::{AllocError, Global};

/// The pattern of each used site. Fields stand behind what they are fields of.
pub(super) fn pattern_texts(
    alloc: Global,
    case: &Case<'_>,
    kinds: &[Option<Kind>],
    names: &[Option<String>],
) -> Result<Vec<Option<String>>, AllocError> {
    let mut patterns = no_texts(alloc, case.set.bindings().len())?;
    for site in case.used.iter().rev() {
        let name = text_at(names, *site);
        let text = match kind_at(kinds, *site) {
            Some(kind) => {
                let shape = shape_text(alloc, case, patterns.as_slice(), *site, kind)?;
                named_text(alloc, name, shape)?
            }
            None => String::from_str(alloc, name)?,
        };
        put_text(&mut patterns, *site, text);
    }
    Ok(patterns)
}

/// `NAME @ SHAPE`, or the shape alone where there is no name.
fn named_text(alloc: Global, name: &str, shape: String) -> Result<String, AllocError> {
    if name == "_" {
        return Ok(shape);
    }
    let shape = shape.as_str();
    format!(in alloc; "{name} @ {shape}")
}

/// The pattern of a kind of site, by those of its fields.
fn shape_text(
    alloc: Global,
    case: &Case<'_>,
    patterns: &[Option<String>],
    site: BindingId,
    kind: Kind,
) -> Result<String, AllocError> {
    match kind {
        Kind::Tuple(count) => tuple_text(alloc, case, patterns, site, count),
        Kind::Test(Constraint::Variant { fields, .. } | Constraint::Struct { fields, .. }) => {
            data_text(alloc, case, patterns, site, kind, fields)
        }
        Kind::Test(Constraint::Some) => {
            let content = field_text(case, patterns, site, kind, TupleIndex(0));
            String::from_str(alloc, content)
        }
        Kind::Test(Constraint::ConstBool { val, .. }) => format!(in alloc; "{val}"),
        Kind::Test(Constraint::ConstInt { val, ty }) => {
            number_text(alloc, case.program, val, ty)
        }
        Kind::Test(Constraint::ConstPrim { val }) => constant_text(alloc, case.program, val),
    }
}

/// `(NAME FIELD ..)` of a variant or a struct.
fn data_text(
    alloc: Global,
    case: &Case<'_>,
    patterns: &[Option<String>],
    site: BindingId,
    kind: Kind,
    count: TupleIndex,
) -> Result<String, AllocError> {
    let mut text = String::from_str(alloc, "(")?;
    text.push_str(data_name(case, kind))?;
    for place in 0..count.0 {
        text.push_str(" ")?;
        text.push_str(field_text(case, patterns, site, kind, TupleIndex(place)))?;
    }
    text.push_str(")")?;
    Ok(text)
}

/// `OUTPUT, ..` of what an extractor gives.
fn tuple_text(
    alloc: Global,
    case: &Case<'_>,
    patterns: &[Option<String>],
    site: BindingId,
    count: TupleIndex,
) -> Result<String, AllocError> {
    let kind = Kind::Tuple(count);
    let mut text = String::new(alloc);
    for place in 0..count.0 {
        if place > 0 {
            text.push_str(", ")?;
        }
        text.push_str(field_text(case, patterns, site, kind, TupleIndex(place)))?;
    }
    Ok(text)
}

/// The name of a variant or a struct.
fn data_name<'a>(case: &Case<'a>, kind: Kind) -> &'a str {
    match kind {
        Kind::Test(Constraint::Variant { ty, variant, .. }) => {
            variant_name(case.program, ty, variant)
        }
        Kind::Test(Constraint::Struct { ty, .. }) => type_name(case.program, ty),
        _ => "",
    }
}

/// The pattern of a field, and `_` where nothing is told of it.
fn field_text<'a>(
    case: &Case<'_>,
    patterns: &'a [Option<String>],
    site: BindingId,
    kind: Kind,
    field: TupleIndex,
) -> &'a str {
    let Some(binding) = field_of(site, kind, field) else {
        return "_";
    };
    match case.set.find_binding(&binding) {
        Some(part) => text_at(patterns, part),
        None => "_",
    }
}

/// A field of a site of a kind.
fn field_of(source: BindingId, kind: Kind, field: TupleIndex) -> Option<Binding> {
    match kind {
        Kind::Tuple(_) => Some(Binding::MatchTuple { source, field }),
        Kind::Test(Constraint::Variant { variant, .. }) => Some(Binding::MatchVariant {
            source,
            variant,
            field,
        }),
        Kind::Test(Constraint::Struct { .. }) => Some(Binding::ExtractStruct { source, field }),
        Kind::Test(Constraint::Some) => Some(Binding::MatchSome { source }),
        Kind::Test(_) => None,
    }
}
