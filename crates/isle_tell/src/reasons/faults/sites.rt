//! Sites and tests in words.

use crate::reasons::words::listed;
use isle_blocks::{Binding, BindingId, Constraint, TupleIndex};
use isle_program::faulty::Faulty;
use isle_types::{BuiltinType, Sym, TermId, Type, TypeId, VariantId};
use std::alloc::{AllocError, Global};

/// How many parts of parts are told.
const DEEPEST: usize = 8;

/// A site: `field 2 of argument 1`, `what f gives`.
pub(super) fn site_words(
    alloc: Global,
    faulty: &Faulty,
    sites: &[Binding],
    site: BindingId,
) -> Result<String, AllocError> {
    let mut words = String::new(alloc);
    let mut at = site;
    for _ in 0..DEEPEST {
        let Some(binding) = sites.get(at.index()) else {
            break;
        };
        let Some(source) = push_part(alloc, &mut words, binding)? else {
            let root = root_words(alloc, faulty, binding)?;
            words.push_str(root.as_str())?;
            return Ok(words);
        };
        at = source;
    }
    words.push_str("a value")?;
    Ok(words)
}

/// Writes which part of another site a site is, and gives that one; nothing of a site that is no part.
fn push_part(
    alloc: Global,
    words: &mut String,
    binding: &Binding,
) -> Result<Option<BindingId>, AllocError> {
    let (word, field, source) = match binding {
        Binding::MatchVariant { source, field, .. } => ("field", *field, *source),
        Binding::ExtractStruct { source, field } => ("field", *field, *source),
        Binding::MatchTuple { source, field } => ("value", *field, *source),
        Binding::MatchSome { source } | Binding::Iterator { source } => return Ok(Some(*source)),
        _ => return Ok(None),
    };
    let number = ordinal(field);
    let part = format!(in alloc; "{word} {number} of ")?;
    words.push_str(part.as_str())?;
    Ok(Some(source))
}

/// A place as it is counted from 1.
fn ordinal(place: TupleIndex) -> u32 {
    place.0 as u32 + 1
}

/// A site that is no part of another one.
fn root_words(alloc: Global, faulty: &Faulty, binding: &Binding) -> Result<String, AllocError> {
    match binding {
        Binding::Argument { index } => {
            let number = ordinal(*index);
            format!(in alloc; "argument {number}")
        }
        Binding::Extractor { term, .. } | Binding::Constructor { term, .. } => {
            let name = term_name(faulty, *term);
            format!(in alloc; "what {name} gives")
        }
        Binding::ConstBool { val, .. } => format!(in alloc; "{val}"),
        Binding::ConstInt { val, ty } => int_words(alloc, faulty, *val, *ty),
        Binding::ConstPrim { val } => const_words(alloc, faulty, *val),
        Binding::MakeVariant {
            ty,
            variant,
            fields,
        } => listed(
            alloc,
            variant_name(faulty, *ty, *variant),
            fields.as_slice().is_empty(),
        ),
        Binding::MakeStruct { ty, fields } => {
            listed(alloc, type_name(faulty, *ty), fields.as_slice().is_empty())
        }
        _ => String::from_str(alloc, "a value"),
    }
}

/// What a test wants: `5`, `(T.A ..)`.
pub(super) fn test_words(
    alloc: Global,
    faulty: &Faulty,
    test: &Constraint,
) -> Result<String, AllocError> {
    match test {
        Constraint::Variant {
            ty,
            variant,
            fields,
        } => listed(alloc, variant_name(faulty, *ty, *variant), fields.0 == 0),
        Constraint::Struct { ty, fields } => {
            listed(alloc, type_name(faulty, *ty), fields.0 == 0)
        }
        Constraint::ConstBool { val, .. } => format!(in alloc; "{val}"),
        Constraint::ConstInt { val, ty } => int_words(alloc, faulty, *val, *ty),
        Constraint::ConstPrim { val } => const_words(alloc, faulty, *val),
        Constraint::Some => String::from_str(alloc, "something"),
    }
}

/// An integer of a type.
pub(super) fn int_words(
    alloc: Global,
    faulty: &Faulty,
    val: i128,
    ty: TypeId,
) -> Result<String, AllocError> {
    if val < 0 && is_unsigned(faulty, ty) {
        let number = val.cast_unsigned();
        return format!(in alloc; "{number}");
    }
    format!(in alloc; "{val}")
}

/// Whether a type is an integer type without negative numbers.
fn is_unsigned(faulty: &Faulty, ty: TypeId) -> bool {
    match faulty.types.get_type(ty) {
        Some(Type::Builtin(BuiltinType::Int(int))) => !int.is_signed(),
        _ => false,
    }
}

/// A constant of the host.
pub(super) fn const_words(alloc: Global, faulty: &Faulty, val: Sym) -> Result<String, AllocError> {
    let name = faulty.types.sym_name(val);
    format!(in alloc; "${name}")
}

/// The name of a term; empty where there is none.
pub(super) fn term_name(faulty: &Faulty, term: TermId) -> &str {
    match faulty.terms.get_term(term) {
        Some(known) => faulty.types.sym_name(known.name),
        None => "",
    }
}

/// The name of a type; empty where there is none.
pub(super) fn type_name(faulty: &Faulty, ty: TypeId) -> &str {
    match faulty.types.get_type(ty) {
        Some(known) => known.name(&faulty.types),
        None => "",
    }
}

/// The full name of a variant; empty where there is none.
pub(super) fn variant_name(faulty: &Faulty, ty: TypeId, variant: VariantId) -> &str {
    match faulty.types.get_type(ty) {
        Some(Type::Enum { variants, .. }) => match variants.as_slice().get(variant.index()) {
            Some(known) => faulty.types.sym_name(known.fullname),
            None => "",
        },
        _ => "",
    }
}
