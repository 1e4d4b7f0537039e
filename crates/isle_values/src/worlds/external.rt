//! The external terms that a world answers.
ghost use Rattle.std.specs.Prelude.{◌≡◌, map, IfOk, IfSome, IfNone, Some, None};
ghost use Rattle.std.specs.Option.{option_map};
ghost use Rattle.isle_rules.specs.Values.{value_list};
ghost use Rattle.isle_rules.specs.Terms.{is_host_constructor};
ghost use Rattle.isle_meaning.specs.ValueTypes.{AreOfTypes};
ghost use Rattle.isle_program.specs.Programs.{number_of, value_facts};
ghost use Rattle.isle_values.specs.Values.Settled.{settled_all};
ghost use Rattle.isle_values.specs.Worlds.Entries.{part_shown, entry_shown};
ghost use Rattle.isle_values.specs.Worlds.Externals.{IfOfTypes, IsTypedEntry, constructor_types, extractor_types, asked_of, asked_by, asked_named};
ghost use Rattle.isle_values.specs.Worlds.Externals.{settled_part, settled_entry, types_shown};

use super::entry::{Entry, Side};
use crate::queries::settle_values;
use crate::values::Value;
use isle_program::Program;
use isle_rules::{ConstructorKind, ExtractorKind, Term, TermKind};
use isle_types::{TermId, TypeId};
use std::alloc::{AllocError, Global};
use std::slice;

/// The types of the values that a call hands over and that its answer has, and whether it may answer none.
#[derive(Clone, Copy)]
pub struct External<'a> {
    pub takes: &'a [TypeId],
    pub gives: &'a [TypeId],
    pub may_fail: bool,
}

/// What a world may be asked of the constructor of a term.
fn constructor_of(term: &Term, kind: Option<ConstructorKind>, partial: bool) -> Option<External<'_>>
    ensures { option_map types_shown result
        ≡ constructor_types (is_host_constructor kind) partial term.now.ret_ty.0 (map number_of term.now.arg_tys) }
{
    match kind {
        Some(ConstructorKind::ExternalConstructor { .. }) => Some(External {
            takes: term.arg_tys.as_slice(),
            gives: slice::from_ref(&term.ret_ty),
            may_fail: partial,
        }),
        Some(ConstructorKind::InternalConstructor) => None,
        None => None,
    }
}

/// What a world may be asked of the extractor of a term.
fn extractor_of<'a>(term: &'a Term, kind: &Option<ExtractorKind>) -> Option<External<'a>>
    ensures { option_map types_shown result
        ≡ extractor_types kind.now term.now.ret_ty.0 (map number_of term.now.arg_tys) }
{
    match kind {
        Some(ExtractorKind::ExternalExtractor { infallible, .. }) => Some(External {
            takes: slice::from_ref(&term.ret_ty),
            gives: term.arg_tys.as_slice(),
            may_fail: !*infallible,
        }),
        Some(ExtractorKind::InternalExtractor { .. }) => None,
        None => None,
    }
}

/// What a world may be asked of a side of a term; nothing of one that isn't external there, or that is `multi`.
pub(crate) fn external_of(term: &Term, side: Side) -> Option<External<'_>>
    ensures { option_map types_shown result ≡ asked_of side term.now }
{
    let TermKind::Decl {
        flags,
        constructor_kind,
        extractor_kind,
    } = &term.kind
    else {
        return None;
    };
    if flags.multi {
        return None;
    }
    match side {
        Side::Constructor => constructor_of(term, *constructor_kind, flags.partial),
        Side::Extractor => extractor_of(term, extractor_kind),
    }
}

/// What a world may be asked of a side of the term of a name.
pub fn external_named<'a>(program: &'a Program, side: Side, name: &str) -> Option<External<'a>>
    ensures { option_map types_shown result ≡ asked_named program.now side name.now }
{
    let id = program.term(name)?;
    match program.terms().get_term(id) {
        Some(term) => external_of(term, side),
        None => None,
    }
}

/// A call or an answer, read at types, if its values are of these types.
fn settle_part(
    alloc: Global,
    program: &Program,
    part: Option<Vec<Value>>,
    types: &[TypeId],
) -> Result<Option<Option<Vec<Value>>>, AllocError>
    ensures some { IfOk result (λ r. IfSome r (λ read.
        (part_shown read ≡ settled_part (value_facts program.now) (part_shown part) (map number_of types.now))
        × IfOfTypes (value_facts program.now) (part_shown read) (map number_of types.now))) }
    ensures none { IfOk result (λ r. IfNone r (IfOfTypes (value_facts program.now)
        (settled_part (value_facts program.now) (part_shown part) (map number_of types.now)) (map number_of types.now) → ⊥)) }
{
    let Some(values) = part else {
        return Ok(Some(None));
    };
    match settle_values(alloc, program, values, types)? {
        Some(values) => Ok(Some(Some(values))),
        None => Ok(None),
    }
}

/// An entry, read at the types of its term, if it is of these types.
pub(crate) fn settle_entry(
    alloc: Global,
    program: &Program,
    entry: Entry,
    external: &External<'_>,
) -> Result<Option<Entry>, AllocError>
    ensures some { IfOk result (λ r. IfSome r (λ read.
        (entry_shown read ≡ settled_entry (value_facts program.now) (types_shown external.now) (entry_shown entry))
        × IsTypedEntry (value_facts program.now) (types_shown external.now) (entry_shown read))) }
    ensures none { IfOk result (λ r. IfNone r (IsTypedEntry (value_facts program.now) (types_shown external.now)
        (settled_entry (value_facts program.now) (types_shown external.now) (entry_shown entry)) → ⊥)) }
{
    let Entry {
        side,
        term,
        call,
        answer,
    } = entry;
    if answer.is_none() && !external.may_fail {
        return Ok(None);
    }
    let Some(call) = settle_part(alloc, program, call, external.takes)? else {
        return Ok(None);
    };
    let Some(answer) = settle_part(alloc, program, answer, external.gives)? else {
        return Ok(None);
    };
    Ok(Some(Entry {
        side,
        term,
        call,
        answer,
    }))
}
