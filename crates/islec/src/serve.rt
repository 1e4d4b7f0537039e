//! Queries from a reader, answered to a writer.
ghost use Rattle.std.specs.Prelude.{◌≡◌, ◌≢◌, ◌↔◌, ◌++◌, ◌||◌, ℕ, Bool, List, [], ◌∷◌, OnOk, OnErr, IfOk, IfErr, IfSome, IfNone, IsTrue, codes, string_bytes};
ghost use Rattle.std.specs.Io.KnownBytes.{Appends, Consumes, Keeps, IsAtEnd};
ghost use Rattle.std.specs.Io.{StopsAt};
ghost use Rattle.isle_calls.specs.TreeCalls.{IsCompiled};
ghost use Rattle.islec.specs.Replies.{IsReply, setting_in};
ghost use Rattle.islec.specs.Serving.{AreLinesOf, AnswersAll, AnswersFirst, AnswersCut, KeepsBack, KeepsFirst, WritesFirst, GivesLines, TakesLine, LosesNewline, IsCutShort, BreaksOff, some_refused};
ghost use Rattle.islec.specs.Writing.{AppendsBeginning, ContinuesBy};
ghost use Rattle.islec.specs.declared.serve.ServeFault.TheVariants.{Memory};

use crate::answer::{Manner, reply_to};
use crate::watch::Watch;
use isle_run::{Program, World};
use std::alloc::{AllocError, AllocFailed, Global};
use std::io::{BufRead, ErrorKind, Write};

/// How the lines of an input that was read to its end were answered.
#[derive(Clone, Copy)]
pub enum Served {
    AllWell,
    /// Some line was refused, stuck, spent or ill-typed.
    SomeRefused,
}

impl Served {
    // How the lines were answered with one more, which counts as refused or not.
    fn after(self, refused: bool) -> Served
        ensures { some_refused result ≡ (some_refused self || refused) }
    {
        if refused { Served::SomeRefused } else { self }
    }
}

/// Why an input was not answered to its end.
#[derive(Drop)]
pub enum ServeFault {
    /// Reading failed.
    Read,
    /// Writing failed.
    Write,
    /// Memory ran out.
    Memory,
}

impl From<AllocError> for ServeFault {
    ghost from_gives = { λ _ fault. fault ≡ Memory };

    fn from(_error: AllocError) -> ServeFault {
        ServeFault::Memory
    }
}

impl<T: Drop> From<AllocFailed<T>> for ServeFault {
    ghost from_gives = { λ _ fault. fault ≡ Memory };

    fn from(_error: AllocFailed<T>) -> ServeFault {
        ServeFault::Memory
    }
}

// How many bytes of answers are kept back at most before they are written.
const FULL: usize = 8192;

/// Answers each line of `reader`, any bytes up to a newline or the end, by lines to `writer`. The
/// lines of a query are written whole or, where memory runs out within it, not at all. They are written before the reader is waited for. Before a
/// fault of reading or of memory is reported, the lines of all earlier queries are written: after a failed read of
/// all lines that had ended. Each query is answered in the world that the one before leaves. The program is a
/// compiled one (its condition). `watch` keeps which rules are chosen, where that is asked for.
pub fn serve<V: World, R: BufRead, W: Write>(
    alloc: Global,
    program: &Program,
    world: &mut V,
    manner: Manner,
    watch: &mut Watch<'_>,
    reader: &mut R,
    writer: &mut W,
) -> Result<Served, ServeFault>
    requires { IsCompiled program.now }
    ensures continues { ContinuesBy (W.contents writer.old) (W.contents writer.new) }
    ensures answered { IfOk result (λ served. AnswersAll
        (setting_in V.step program.now watch.old.files.now (V.constructs world.old) (V.extracts world.old) manner) world.old (R.remaining reader.old)
        (some_refused served) (W.contents writer.old) (W.contents writer.new) world.new) }
    ensures stopped { IfErr result (λ fault. fault ≢ ServeFault.Write → AnswersFirst
        (setting_in V.step program.now watch.old.files.now (V.constructs world.old) (V.extracts world.old) manner) fault
        world.old (R.remaining reader.old) (R.remaining reader.new) (W.contents writer.old) (W.contents writer.new) world.new) }
    ensures cut { IfErr result (λ fault. fault ≡ ServeFault.Write → AnswersCut
        (setting_in V.step program.now watch.old.files.now (V.constructs world.old) (V.extracts world.old) manner)
        world.old (R.remaining reader.old) (W.contents writer.old) (W.contents writer.new) world.new) }
{
    let mut unwritten = String::new(alloc);
    let outcome = serve_lines(
        alloc,
        program,
        world,
        manner,
        watch,
        reader,
        &mut unwritten,
        writer,
    );
    if is_unwritable(&outcome) {
        return Err(ServeFault::Write);
    }
    write_text(writer, unwritten.as_str())?;
    flush(writer)?;
    outcome
}

// Whether a write has failed.
fn is_unwritable(outcome: &Result<Served, ServeFault>) -> bool
    ensures { IsTrue result ↔ (outcome.now ≡ Err ServeFault.Write) }
{
    match outcome {
        Err(ServeFault::Write) => true,
        Ok(_) | Err(ServeFault::Read) | Err(ServeFault::Memory) => false,
    }
}

// What is left in `unwritten` is still to be written, unless a write has failed.
fn serve_lines<V: World, B: BufRead, W: Write>(
    alloc: Global,
    program: &Program,
    world: &mut V,
    manner: Manner,
    watch: &mut Watch<'_>,
    input: &mut B,
    unwritten: &mut String,
    writer: &mut W,
) -> Result<Served, ServeFault>
    requires compiled { IsCompiled program.now }
    requires empty { string_bytes unwritten.old ≡ [] }
    ensures answered { IfOk result (λ served. (lines : List (List ℕ))
        × AreLinesOf (B.remaining input.old) lines
        × KeepsBack
        (setting_in V.step program.now watch.old.files.now (V.constructs world.old) (V.extracts world.old) manner)
        world.old lines (some_refused served) (W.contents writer.old) (W.contents writer.new) (string_bytes unwritten.new) world.new) }
    ensures stopped { IfErr result (λ fault. fault ≢ ServeFault.Write → KeepsFirst
        (setting_in V.step program.now watch.old.files.now (V.constructs world.old) (V.extracts world.old) manner) fault
        world.old (B.remaining input.old) (B.remaining input.new) (W.contents writer.old) (W.contents writer.new) (string_bytes unwritten.new)
        world.new) }
    ensures cut { IfErr result (λ fault. fault ≡ ServeFault.Write → AnswersCut
        (setting_in V.step program.now watch.old.files.now (V.constructs world.old) (V.extracts world.old) manner)
        world.old (B.remaining input.old) (W.contents writer.old) (W.contents writer.new) world.new) }
{
    let mut served = Served::AllWell;
    let mut ready = 0;
    for _ in 0..u64::MAX {
        let Some(lines) = await_lines(ready, input, unwritten, writer)? else {
            return Ok(served);
        };
        let Some(refused) = answer_next(alloc, program, world, manner, watch, input, unwritten)?
        else {
            return Ok(served);
        };
        ready = lines.saturating_sub(1);
        served = served.after(refused);
        write_full(unwritten, writer)?;
    }
    Err(ServeFault::Read)
}

// How many whole lines the reader can give without waiting, of which `ready` are known; `None` at the end. What is kept back is
// written before the reader is waited for.
fn await_lines<B: BufRead, W: Write>(
    ready: usize,
    input: &mut B,
    unwritten: &mut String,
    writer: &mut W,
) -> Result<Option<usize>, ServeFault>
    ensures kept { Keeps (B.remaining input.old) (B.remaining input.new) }
    ensures end { IfOk result (λ ready. IfNone ready (IsAtEnd (B.remaining input.old))) }
    ensures written { OnOk result (WritesFirst (string_bytes unwritten.old) (string_bytes unwritten.new)
        (W.contents writer.old) (W.contents writer.new)) }
    ensures shown { OnOk result (ready ≡ 0 → string_bytes unwritten.new ≡ []) }
    ensures unread { IfErr result (λ fault. fault ≢ ServeFault.Write → WritesFirst (string_bytes unwritten.old) (string_bytes unwritten.new)
        (W.contents writer.old) (W.contents writer.new)) }
    ensures cut { IfErr result (λ fault. fault ≡ ServeFault.Write → AppendsBeginning (W.contents writer.old) (W.contents writer.new)
        (string_bytes unwritten.old)) }
{
    if ready > 0 {
        return Ok(Some(ready));
    }
    write_out(unwritten, writer)?;
    count_lines(input)
}

// How many whole lines stand in the reader's buffer, which is filled where it is empty; `None` at the end.
fn count_lines<B: BufRead>(input: &mut B) -> Result<Option<usize>, ServeFault>
    ensures kept { Keeps (B.remaining input.old) (B.remaining input.new) }
    ensures end { IfOk result (λ ready. IfNone ready (IsAtEnd (B.remaining input.old))) }
    ensures fault { IfErr result (λ fault. fault ≢ ServeFault.Write) }
{
    match input.fill_buf() {
        Ok(bytes) if bytes.is_empty() => Ok(None),
        Ok(bytes) => Ok(Some(bytes.iter().filter(|byte| **byte == b'\n').count())),
        Err(error) if error.kind() == ErrorKind::Interrupted => Ok(Some(0)),
        Err(error) if error.kind() == ErrorKind::OutOfMemory => Err(ServeFault::Memory),
        Err(_) => Err(ServeFault::Read),
    }
}

// Puts the reply to the next line behind what is unwritten, and tells whether it counts as
// refused; `None` at the end.
fn answer_next<V: World, B: BufRead>(
    alloc: Global,
    program: &Program,
    world: &mut V,
    manner: Manner,
    watch: &mut Watch<'_>,
    input: &mut B,
    unwritten: &mut String,
) -> Result<Option<bool>, ServeFault>
    requires { IsCompiled program.now }
    ensures answered { IfOk result (λ next. IfSome next (λ refused. (line one : List ℕ)
        × IsReply
        (setting_in V.step program.now watch.old.files.now (V.constructs world.old) (V.extracts world.old) manner)
        world.old line one refused world.new
        × (string_bytes unwritten.new ≡ string_bytes unwritten.old ++ one)
        × GivesLines (B.remaining input.old) (B.remaining input.new) (line ∷ [])
        × ((took : List ℕ) × Consumes (B.remaining input.old) (B.remaining input.new) took))) }
    ensures same { (V.constructs world.new ≡ V.constructs world.old) × (V.extracts world.new ≡ V.extracts world.old) }
    ensures files { watch.new.files.now ≡ watch.old.files.now }
    ensures end { IfOk result (λ next. IfNone next (IsAtEnd (B.remaining input.old))) }
    ensures none { IfOk result (λ next. IfNone next
        ((string_bytes unwritten.new ≡ string_bytes unwritten.old) × (world.new ≡ world.old))) }
    ensures err { OnErr result (string_bytes unwritten.new ≡ string_bytes unwritten.old) }
    ensures lost { IfErr result (λ fault. (part : List ℕ) × Consumes (B.remaining input.old) (B.remaining input.new) part × BreaksOff
        (setting_in V.step program.now watch.old.files.now (V.constructs world.old) (V.extracts world.old) manner) fault (B.remaining input.old)
        (B.remaining input.new) part world.old world.new) }
{
    let Some(line) = read_line(alloc, input)? else {
        return Ok(None);
    };
    let bare = without_newline(line.as_slice());
    let reply = reply_to(alloc, program, world, manner, watch, bare)?;
    unwritten.push_str(reply.lines.as_str())?;
    Ok(Some(reply.refused))
}

// The bytes of a line with the newline that ends it, or `None` at the end. A reader that is out of
// memory counts as running out of memory; a line that has ended is given, though the reader fails behind it.
fn read_line<B: BufRead>(alloc: Global, input: &mut B) -> Result<Option<Vec<u8>>, ServeFault>
    ensures line { IfOk result (λ read. IfSome read
        (λ line. TakesLine (B.remaining input.old) (B.remaining input.new) line.items)) }
    ensures took { IfOk result (λ read. IfSome read (λ line. Consumes (B.remaining input.old) (B.remaining input.new) line.items
        × StopsAt line.items 10)) }
    ensures end { IfOk result (λ read. IfNone read (IsAtEnd (B.remaining input.old))) }
    ensures lost { IfErr result (λ fault. (part : List ℕ) × Consumes (B.remaining input.old) (B.remaining input.new) part × IsCutShort fault part) }
{
    let mut line = Vec::new(alloc);
    match input.read_until(b'\n', &mut line) {
        Ok(0) => Ok(None),
        Ok(_) => Ok(Some(line)),
        Err(_) if has_ended(line.as_slice()) => Ok(Some(line)),
        Err(error) if error.kind() == ErrorKind::OutOfMemory => Err(ServeFault::Memory),
        Err(_) => Err(ServeFault::Read),
    }
}

// Whether a line's newline has been read.
fn has_ended(line: &[u8]) -> bool
    ensures { IsTrue result ↔ ((front : List ℕ) × (line.now ≡ front ++ codes "\n")) }
{
    match line.split_last() {
        Some((last, _front)) => *last == b'\n',
        None => false,
    }
}

// A line without the newline that ends it, if it has one.
fn without_newline(line: &[u8]) -> &[u8]
    ensures { LosesNewline line.now result.now }
{
    let Some((last, front)) = line.split_last() else {
        return line;
    };
    if *last == b'\n' { front } else { line }
}

// Writes all that is kept back, so that it is seen.
fn write_out<W: Write>(unwritten: &mut String, writer: &mut W) -> Result<(), ServeFault>
    ensures ok { OnOk result (Appends (W.contents writer.old) (W.contents writer.new) (string_bytes unwritten.old)) }
    ensures empty { OnOk result (string_bytes unwritten.new ≡ []) }
    ensures err { OnErr result (AppendsBeginning (W.contents writer.old) (W.contents writer.new)
        (string_bytes unwritten.old)) }
    ensures fault { IfErr result (λ fault. fault ≡ ServeFault.Write) }
{
    write_text(writer, unwritten.as_str())?;
    unwritten.clear();
    flush(writer)
}

// Writes what is kept back once it is long.
fn write_full<W: Write>(unwritten: &mut String, writer: &mut W) -> Result<(), ServeFault>
    ensures ok { OnOk result ((some : List ℕ)
        × Appends (W.contents writer.old) (W.contents writer.new) some
        × (string_bytes unwritten.old ≡ some ++ string_bytes unwritten.new)) }
    ensures err { OnErr result (AppendsBeginning (W.contents writer.old) (W.contents writer.new)
        (string_bytes unwritten.old)) }
    ensures fault { IfErr result (λ fault. fault ≡ ServeFault.Write) }
{
    if unwritten.len() >= FULL {
        write_text(writer, unwritten.as_str())?;
        unwritten.clear();
    }
    Ok(())
}

/// Writes a text, or a beginning of it where a write fails or takes nothing.
pub fn write_text<W: Write>(writer: &mut W, text: &str) -> Result<(), ServeFault>
    ensures ok { OnOk result (Appends (W.contents writer.old) (W.contents writer.new) text.now) }
    ensures err { OnErr result
        (AppendsBeginning (W.contents writer.old) (W.contents writer.new) text.now) }
    ensures fault { IfErr result (λ fault. fault ≡ ServeFault.Write) }
{
    let bytes = text.as_bytes();
    let mut written = 0;
    for _ in 0..u64::MAX {
        if written >= bytes.len() {
            return Ok(());
        }
        match writer.write(&bytes[written..]) {
            Ok(0) => return Err(ServeFault::Write),
            Ok(count) => written += count,
            Err(error) if error.kind() == ErrorKind::Interrupted => {}
            Err(_) => return Err(ServeFault::Write),
        }
    }
    Err(ServeFault::Write)
}

fn flush<W: Write>(writer: &mut W) -> Result<(), ServeFault>
    ensures kept { Keeps (W.contents writer.old) (W.contents writer.new) }
    ensures fault { IfErr result (λ fault. fault ≡ ServeFault.Write) }
{
    match writer.flush() {
        Ok(()) => Ok(()),
        Err(_) => Err(ServeFault::Write),
    }
}
