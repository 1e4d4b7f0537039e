//! Table worlds read from texts.
ghost use Rattle.std.specs.Prelude.{◌≡◌, ◌<◌, List, IfOk, IfErr, IsTrue, ◌↔◌, MatchOption, length};
ghost use Rattle.isle_syntax.specs.Tokens.LexerCalls.{GivesToken, AnswersEnd};
ghost use Rattle.isle_values.specs.Worlds.Entries.{EntryTree};
ghost use Rattle.isle_values.specs.Worlds.Tables.{HasEntries};
ghost use Rattle.isle_values.specs.Worlds.Texts.{ArePlaced, SpellsWorld, RefusesWorld, SpellEntries};
ghost use Rattle.isle_values.specs.Worlds.Reading.{IsTokenFault, RefusedBehind, AddsEntry, RefusesEntry, LacksElseOn, MissesElse};
ghost use Rattle.isle_types.specs.declared.ids.TermId.{TermId as KnownTerm};
ghost use Rattle.isle_program.specs.declared.program.Program.{Program as KnownProgram};

use super::entry::{Side, read_entry};
use super::external::{external_named, external_of, settle_entry};
use super::table::TableWorld;
use isle_program::Program;
use isle_syntax::Refusal;
use isle_syntax::lexer::{Lexer, Pos, Token};
use isle_types::TermId;
use std::alloc::{AllocError, AllocFailed, Global};

/// Why a text isn't a table world, in the order of checking: of entries the first that is wrong is named, by an offset in bytes.
#[derive(Debug, Drop)]
pub enum WorldFault {
    /// No token begins at this offset.
    X1(usize),
    /// What begins at this offset is no entry.
    X2(usize),
    /// The entry at this offset is of a term that the program lacks, that isn't external in this way, or that is `multi`.
    X3(usize),
    /// The entry at this offset isn't of the types of its term.
    X4(usize),
    /// The entry at this offset is of a call that has one.
    X5(usize),
    /// This external term must always be answered, and has no `else`.
    X6(TermId),
    Memory(AllocError),
}

impl From<AllocError> for WorldFault {
    ghost use Rattle.std.specs.Prelude.{◌≡◌, alloc_error};
    ghost use Rattle.isle_values.specs.declared.worlds.reading.WorldFault.TheVariants.{Memory};

    ghost from_gives = { λ _ fault. fault ≡ Memory alloc_error };

    fn from(e: AllocError) -> WorldFault {
        WorldFault::Memory(e)
    }
}

impl<T: Drop> From<AllocFailed<T>> for WorldFault {
    ghost use Rattle.std.specs.Prelude.{◌≡◌, alloc_error};
    ghost use Rattle.isle_values.specs.declared.worlds.reading.WorldFault.TheVariants.{Memory};

    ghost from_gives = { λ _ fault. fault ≡ Memory alloc_error };

    fn from(_error: AllocFailed<T>) -> WorldFault {
        WorldFault::Memory(AllocError)
    }
}

/// The next token and its position.
fn next_token(lexer: &mut Lexer<'_>) -> Result<Option<(Pos, Token)>, WorldFault>
    ensures gives { IfOk result (λ t. MatchOption t (AnswersEnd lexer.old lexer.new) (GivesToken lexer.old lexer.new)) }
    ensures fault { IfErr result (IsTokenFault lexer.old) }
{
    match lexer.next() {
        Ok(token) => Ok(token),
        Err(Refusal::Fault(_)) => Err(WorldFault::X1(lexer.pos().offset)),
        Err(Refusal::Memory(e)) => Err(WorldFault::Memory(e)),
    }
}

/// The tokens of a text, and the offset of each.
pub fn placed_tokens(alloc: Global, text: &str) -> Result<(Vec<Token>, Vec<usize>), WorldFault>
    ensures placed { IfOk result (λ p. ArePlaced text.now p.0.items p.1.items) }
    ensures fault { IfErr result (λ fault. (program : KnownProgram) → RefusesWorld program text.now fault) }
{
    let mut lexer = Lexer::new(alloc, 0, text);
    let mut tokens = Vec::new(alloc);
    let mut offsets = Vec::new(alloc);
    'tokens: while let Some((pos, token)) = next_token(&mut lexer)? {
        tokens.push(token)?;
        offsets.push(pos.offset)?;
    }
    Ok((tokens, offsets))
}

/// Puts the entry at the front of tokens into a world, and gives the number of its tokens. A fault tells this offset.
fn add_entry(
    alloc: Global,
    program: &Program,
    tokens: &[Token],
    offset: usize,
    world: &mut TableWorld,
) -> Result<usize, WorldFault>
    ensures added { IfOk result (λ count. AddsEntry program.now tokens.now count world.old world.new) }
    ensures refused { IfErr result (RefusesEntry program.now tokens.now offset world.old) }
{
    let Some((entry, count)) = read_entry(alloc, tokens)? else {
        return Err(WorldFault::X2(offset));
    };
    let Some(external) = external_named(program, entry.side, entry.term.as_str()) else {
        return Err(WorldFault::X3(offset));
    };
    let Some(entry) = settle_entry(alloc, program, entry, &external)? else {
        return Err(WorldFault::X4(offset));
    };
    if world.add(alloc, entry)? {
        Ok(count)
    } else {
        Err(WorldFault::X5(offset))
    }
}

/// The world of entries that tokens spell.
pub fn read_entries(
    alloc: Global,
    program: &Program,
    tokens: &[Token],
    offsets: &[usize],
) -> Result<TableWorld, WorldFault>
    requires { length offsets.now ≡ length tokens.now }
    ensures read { IfOk result (λ world. (entries : List EntryTree) × SpellEntries program.now tokens.now entries × HasEntries world entries) }
    ensures refused { IfErr result (RefusedBehind program.now tokens.now offsets.now) }
{
    let mut world = TableWorld::empty(alloc);
    let mut at = 0;
    while at < tokens.len() {
        let count = add_entry(alloc, program, &tokens[at..], offsets[at], &mut world)?;
        at += count;
    }
    Ok(world)
}

/// Whether a term must always be answered on a side, and has no `else` there.
pub fn lacks_else_on(
    alloc: Global,
    program: &Program,
    world: &TableWorld,
    term: TermId,
    side: Side,
) -> Result<bool, AllocError>
    ensures { IfOk result (λ lacks. IsTrue lacks ↔ LacksElseOn program.now world.now term side) }
{
    let Some(known) = program.terms().get_term(term) else {
        return Ok(false);
    };
    let Some(external) = external_of(known, side) else {
        return Ok(false);
    };
    if external.may_fail {
        return Ok(false);
    }
    let found = world.has_else(alloc, side, program.name(term))?;
    Ok(!found)
}

/// Whether a term must always be answered on some side, and has no `else` there.
fn lacks_else(
    alloc: Global,
    program: &Program,
    world: &TableWorld,
    term: TermId,
) -> Result<bool, AllocError>
    ensures { IfOk result (λ lacks. IsTrue lacks ↔ MissesElse program.now world.now term) }
{
    let makes = lacks_else_on(alloc, program, world, term, Side::Constructor)?;
    let takes_apart = lacks_else_on(alloc, program, world, term, Side::Extractor)?;
    Ok(makes || takes_apart)
}

/// The first term that must always be answered and has no `else`.
fn first_without_else(
    alloc: Global,
    program: &Program,
    world: &TableWorld,
) -> Result<Option<TermId>, AllocError>
    ensures { IfOk result (λ found. MatchOption found ((term : KnownTerm) → MissesElse program.now world.now term → ⊥)
        (λ term. MissesElse program.now world.now term × ((other : KnownTerm) → other.0 < term.0 → MissesElse program.now world.now other → ⊥))) }
{
    for i in 0..program.terms().terms().len() {
        if lacks_else(alloc, program, world, TermId(i))? {
            return Ok(Some(TermId(i)));
        }
    }
    Ok(None)
}

impl TableWorld {
    /// The world of a text: a list of entries `(constructor IDENT (value*) ANSWER)`, where the answer is a value or `none`,
    /// `(extractor IDENT value ANSWER)`, where it is `(value*)` or `none`, and both with `else` for all other calls.
    pub fn read(alloc: Global, text: &str, program: &Program) -> Result<TableWorld, WorldFault>
        ensures spelt { IfOk result (λ world. (entries : List EntryTree) × SpellsWorld program.now text.now entries × HasEntries world entries) }
        ensures refused { IfErr result (RefusesWorld program.now text.now) }
    {
        let (tokens, offsets) = placed_tokens(alloc, text)?;
        let world = read_entries(alloc, program, tokens.as_slice(), offsets.as_slice())?;
        match first_without_else(alloc, program, &world)? {
            Some(term) => Err(WorldFault::X6(term)),
            None => Ok(world),
        }
    }
}
