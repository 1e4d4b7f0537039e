//! The texts of sites as expressions over the names that a pattern gives.
use super::case::{Case, no_texts, put_text, text_at};
use super::words::{constant_text, number_text, type_name, variant_name};
use isle_blocks::{Binding, BindingId};
use std::alloc::{AllocError, Global};

/// How many bytes a part of a text has at most.
const LONGEST: usize = 200;

/// The text of each used site: its name, or what it is made by. The parts of a site stand before it.
pub(super) fn expression_texts(
    alloc: Global,
    case: &Case<'_>,
    names: &[Option<String>],
) -> Result<Vec<Option<String>>, AllocError> {
    let mut texts = no_texts(alloc, case.set.bindings().len())?;
    for site in case.used {
        let name = text_at(names, *site);
        let text = match case.binding(*site) {
            Some(binding) if name == "_" => made_text(alloc, case, texts.as_slice(), binding)?,
            _ => String::from_str(alloc, name)?,
        };
        put_text(&mut texts, *site, text);
    }
    Ok(texts)
}

/// The text of a site without a name, by those of its parts.
fn made_text(
    alloc: Global,
    case: &Case<'_>,
    texts: &[Option<String>],
    binding: &Binding,
) -> Result<String, AllocError> {
    match binding {
        Binding::ConstBool { val, .. } => format!(in alloc; "{val}"),
        Binding::ConstInt { val, ty } => number_text(alloc, case.program, *val, *ty),
        Binding::ConstPrim { val } => constant_text(alloc, case.program, *val),
        Binding::Extractor { term, .. } | Binding::Constructor { term, .. } => {
            applied_text(alloc, case.program.name(*term), texts, binding.sources())
        }
        Binding::MakeVariant { ty, variant, .. } => {
            let name = variant_name(case.program, *ty, *variant);
            applied_text(alloc, name, texts, binding.sources())
        }
        Binding::MakeStruct { ty, .. } => {
            applied_text(
                alloc,
                type_name(case.program, *ty),
                texts,
                binding.sources(),
            )
        }
        Binding::MakeSome { inner: part }
        | Binding::MatchSome { source: part }
        | Binding::Iterator { source: part } => String::from_str(alloc, text_at(texts, *part)),
        Binding::Argument { .. }
        | Binding::MatchVariant { .. }
        | Binding::ExtractStruct { .. }
        | Binding::MatchTuple { .. } => String::from_str(alloc, "_"),
    }
}

/// `(NAME PART ..)`.
fn applied_text(
    alloc: Global,
    name: &str,
    texts: &[Option<String>],
    parts: &[BindingId],
) -> Result<String, AllocError> {
    let mut text = format!(in alloc; "({name}")?;
    for part in parts {
        text.push_str(" ")?;
        text.push_str(short_text(text_at(texts, *part)))?;
    }
    text.push_str(")")?;
    Ok(text)
}

/// A text, or two dots in the place of a long one. So calls of calls, of which each takes one twice, stay short.
fn short_text(text: &str) -> &str {
    if text.len() > LONGEST { ".." } else { text }
}
