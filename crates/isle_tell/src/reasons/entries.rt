//! Why a text isn't a world of a program.
ghost use Rattle.std.specs.Prelude.{◌≡◌, IfOk, IfSome, length};

use crate::reasons::misfits::value_reason;
use crate::reasons::words::{Counted, ill_count, no_term, numbered};
use isle_program::Program;
use isle_program::facts::hindrances::gives_many;
use isle_rules::Term;
use isle_syntax::lexer::Token;
use isle_types::{TermId, TypeId};
use isle_values::worlds::entry::{Entry, read_entry};
use isle_values::worlds::external::{External, external_named};
use isle_values::worlds::reading::{lacks_else_on, placed_tokens, read_entries};
use isle_values::{Side, TableWorld, Value, WorldFault};
use std::alloc::{AllocError, Global};

/// Why a text isn't a world of the program, whose fault is given: of `X3` to `X6`, in words; nothing of the others.
pub fn world_reason(
    alloc: Global,
    program: &Program,
    text: &str,
    fault: &WorldFault,
) -> Result<Option<String>, AllocError> {
    match fault {
        WorldFault::X3(offset) | WorldFault::X4(offset) | WorldFault::X5(offset) => {
            match entry_at(alloc, text, *offset)? {
                Some(entry) => entry_reason(alloc, program, &entry, fault),
                None => Ok(None),
            }
        }
        WorldFault::X6(term) => else_reason(alloc, program, text, *term),
        WorldFault::X1(_) | WorldFault::X2(_) | WorldFault::Memory(_) => Ok(None),
    }
}

/// The tokens of a text and the offset of each; nothing where it has a token fault.
fn placed(alloc: Global, text: &str) -> Result<Option<(Vec<Token>, Vec<usize>)>, AllocError>
    ensures { IfOk result (λ r. IfSome r (λ p. length p.1.items ≡ length p.0.items)) }
{
    match placed_tokens(alloc, text) {
        Ok(placed) => Ok(Some(placed)),
        Err(WorldFault::Memory(e)) => Err(e),
        Err(_) => Ok(None),
    }
}

/// The entry that begins at an offset of a text.
fn entry_at(alloc: Global, text: &str, offset: usize) -> Result<Option<Entry>, AllocError> {
    let Some((tokens, offsets)) = placed(alloc, text)? else {
        return Ok(None);
    };
    match offsets.binary_search(&offset) {
        Ok(place) if place < tokens.len() => entry_in_front(alloc, &tokens[place..]),
        _ => Ok(None),
    }
}

/// The entry at the front of tokens.
fn entry_in_front(alloc: Global, tokens: &[Token]) -> Result<Option<Entry>, AllocError> {
    match read_entry(alloc, tokens)? {
        Some((entry, _count)) => Ok(Some(entry)),
        None => Ok(None),
    }
}

/// Why an entry is refused for a fault.
fn entry_reason(
    alloc: Global,
    program: &Program,
    entry: &Entry,
    fault: &WorldFault,
) -> Result<Option<String>, AllocError> {
    match fault {
        WorldFault::X3(_) => unasked(alloc, program, entry.side, entry.term.as_str()),
        WorldFault::X4(_) => ill_typed(alloc, program, entry),
        WorldFault::X5(_) => Ok(Some(twice(alloc, entry)?)),
        WorldFault::X1(_) | WorldFault::X2(_) | WorldFault::X6(_) | WorldFault::Memory(_) => {
            Ok(None)
        }
    }
}

/// Why a world isn't asked for a side of the term of a name.
fn unasked(
    alloc: Global,
    program: &Program,
    side: Side,
    name: &str,
) -> Result<Option<String>, AllocError> {
    let Some(id) = program.term(name) else {
        return Ok(Some(no_term(alloc, program, name)?));
    };
    match program.terms().get_term(id) {
        Some(term) => {
            let lack = lack(term, side);
            Ok(Some(format!(in alloc; "{name} {lack}")?))
        }
        None => Ok(None),
    }
}

/// Why a world isn't asked for a side of a term, behind its name.
fn lack(term: &Term, side: Side) -> &'static str {
    if term.is_enum_variant() || term.is_struct() {
        return "is not external";
    }
    if gives_many(term) {
        return "is multi";
    }
    match side {
        Side::Constructor if term.has_internal_constructor() => {
            "has rules, and no external constructor"
        }
        Side::Constructor => "has no external constructor",
        Side::Extractor if term.has_extractor() => {
            "has an internal extractor, and no external one"
        }
        Side::Extractor => "has no external extractor",
    }
}

/// Why an entry isn't of the types of its term.
fn ill_typed(
    alloc: Global,
    program: &Program,
    entry: &Entry,
) -> Result<Option<String>, AllocError> {
    let name = entry.term.as_str();
    let Some(external) = external_named(program, entry.side, name) else {
        return Ok(None);
    };
    if entry.answer.is_none() && !external.may_fail {
        let told = format!(in alloc; "{name} must always be answered: none is no answer")?;
        return Ok(Some(told));
    }
    match parts_reason(alloc, program, entry, &external)? {
        Some(reason) => Ok(Some(reason)),
        None => {
            let told = format!(in alloc; "the entry is not of the types of {name}")?;
            Ok(Some(told))
        }
    }
}

/// Why the call of an entry isn't of the types that it should be of, or else the answer.
fn parts_reason(
    alloc: Global,
    program: &Program,
    entry: &Entry,
    external: &External<'_>,
) -> Result<Option<String>, AllocError> {
    let name = entry.term.as_str();
    let call = Part::called(entry.side);
    let types = external.takes;
    match part_reason(alloc, program, name, call, &entry.call, types)? {
        Some(reason) => Ok(Some(reason)),
        None => {
            let answer = Part::answered(entry.side);
            let types = external.gives;
            part_reason(alloc, program, name, answer, &entry.answer, types)
        }
    }
}

/// The call or the answer of an entry.
#[derive(Clone, Copy)]
struct Part {
    word: &'static str,
    /// Whether its values stand in parentheses.
    is_list: bool,
    counted: Counted,
}

impl Part {
    /// The call of an entry of a side.
    fn called(side: Side) -> Part {
        Part {
            word: "argument",
            is_list: side.lists_calls(),
            counted: Counted::Arguments,
        }
    }

    /// The answer of an entry of a side.
    fn answered(side: Side) -> Part {
        Part {
            word: "answer",
            is_list: side.lists_answers(),
            counted: Counted::Outputs,
        }
    }

    /// `argument 2: REASON`, of the value at a place, or `answer: REASON` of one that stands alone.
    fn told(self, alloc: Global, place: usize, reason: &str) -> Result<String, AllocError> {
        let word = self.word;
        if self.is_list {
            numbered(alloc, word, place, reason)
        } else {
            format!(in alloc; "{word}: {reason}")
        }
    }
}

/// Why the values of a part, if it has any, aren't of these types.
fn part_reason(
    alloc: Global,
    program: &Program,
    name: &str,
    part: Part,
    values: &Option<Vec<Value>>,
    types: &[TypeId],
) -> Result<Option<String>, AllocError> {
    let Some(values) = values else {
        return Ok(None);
    };
    if values.len() != types.len() {
        let told = ill_count(alloc, name, part.counted, types.len(), values.len())?;
        return Ok(Some(told));
    }
    first_reason(alloc, program, part, values.as_slice(), types)
}

/// Why the first of values that isn't of its type isn't.
fn first_reason(
    alloc: Global,
    program: &Program,
    part: Part,
    values: &[Value],
    types: &[TypeId],
) -> Result<Option<String>, AllocError> {
    for i in 0..values.len().min(types.len()) {
        if let Some(reason) = value_reason(alloc, program, &values[i], types[i])? {
            return Ok(Some(part.told(alloc, i, reason.as_str())?));
        }
    }
    Ok(None)
}

/// `this call has an entry already`.
fn twice(alloc: Global, entry: &Entry) -> Result<String, AllocError> {
    if entry.call.is_some() {
        return String::from_str(alloc, "this call has an entry already");
    }
    let name = entry.term.as_str();
    format!(in alloc; "{name} has an else already")
}

/// Which entry a term lacks that must always be answered.
fn else_reason(
    alloc: Global,
    program: &Program,
    text: &str,
    term: TermId,
) -> Result<Option<String>, AllocError> {
    let Some(world) = world_of(alloc, program, text)? else {
        return Ok(None);
    };
    let name = program.name(term);
    if lacks_else_on(alloc, program, &world, term, Side::Constructor)? {
        let entry = format!(in alloc; "(constructor {name} else VALUE)")?;
        return Ok(Some(wants_else(alloc, name, entry.as_str())?));
    }
    if lacks_else_on(alloc, program, &world, term, Side::Extractor)? {
        let values = values_of(program.arg_types(term));
        let entry = format!(in alloc; "(extractor {name} else ({values}))")?;
        return Ok(Some(wants_else(alloc, name, entry.as_str())?));
    }
    Ok(None)
}

/// The world of the entries of a text; nothing where one of them is refused.
fn world_of(
    alloc: Global,
    program: &Program,
    text: &str,
) -> Result<Option<TableWorld>, AllocError> {
    let Some((tokens, offsets)) = placed(alloc, text)? else {
        return Ok(None);
    };
    match read_entries(alloc, program, tokens.as_slice(), offsets.as_slice()) {
        Ok(world) => Ok(Some(world)),
        Err(WorldFault::Memory(e)) => Err(e),
        Err(_) => Ok(None),
    }
}

/// What stands for values of these types.
fn values_of(types: &[TypeId]) -> &'static str {
    match types {
        [] => "",
        [_] => "VALUE",
        _ => "VALUE ..",
    }
}

/// `f must always be answered: write an else of it, ENTRY`.
fn wants_else(alloc: Global, name: &str, entry: &str) -> Result<String, AllocError> {
    format!(in alloc; "{name} must always be answered: write an else of it, {entry}")
}
