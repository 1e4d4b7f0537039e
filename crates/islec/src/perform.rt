//! A whole command on texts.
ghost use Rattle.std.specs.Prelude.{◌≡◌, ◌≢◌, ◌⊎◌, ℕ, List, true, false, map, IfOk, IfErr, OnOk, string_bytes};
ghost use Rattle.std.specs.Io.KnownBytes.{Appends, Keeps};
ghost use Rattle.isle_syntax.specs.Errors.{report_text};
ghost use Rattle.isle_ast.specs.Positions.Files.{source_file};
ghost use Rattle.isle_program.specs.Compiled.{AreAccepted};
ghost use Rattle.isle_calls.specs.TreeCalls.{IsCompiled};
ghost use Rattle.islec.specs.Endings.{EndsJob};
ghost use Rattle.islec.specs.Replies.{setting_in};
ghost use Rattle.islec.specs.Running.{TellsChecked, WritesFaults, WritesAccepted, WritesAnswers, WritesRefusal, CutsCheck, CutsRun, AnswersSome, AnswersIn, TellsWorld, CutsIn, StopsIn, in_entries};
ghost use Rattle.islec.specs.Reasons.{ReportsFaults, TellsFault};
ghost use Rattle.islec.specs.Worlds.{world_file};
ghost use Rattle.islec.specs.Serving.{AnswersAll, AnswersFirst, AnswersCut, AnswersAndTells, AnswersOrTellsCut, AnswersUntilMemory, IsSummary};
ghost use Rattle.islec.specs.Writing.{AppendsBeginning};
ghost use Rattle.islec.specs.Statuses.{code_of, IsEnd, EndsAs};
ghost use Rattle.islec.specs.declared.status.Status.{Status};

use crate::answer::Manner;
use crate::blocks::blocks;
use crate::explain::faults_text;
use crate::format::format;
use crate::line::Job;
use crate::serve::{ServeFault, Served, serve, write_text};
use crate::sources::Targets;
use crate::status::{Status, out_of_memory};
use crate::terms::{Telling, program_text};
use crate::warn::warnings_text;
use crate::watch::Watch;
use crate::watched::WatchedTable;
use crate::world::fault_text;
use isle_run::{Program, Refused, TableWorld, World, WorldFault, compile};
use isle_syntax::error::Errors;
use isle_syntax::files::Files;
use std::alloc::{AllocError, Global};
use std::io::{BufRead, Write};
use std::rc::Rc;

/// Does a command on texts, each with its name, and gives the exit status: 0 all well, 1 texts or
/// world refused, 2 no term has a name that was asked for, 3 some query refused, stuck, spent or ill-typed, 4 reading or
/// writing failed, 5 out of memory. Where no world is given its text is empty and its name is `world`.
pub fn perform<T: Targets, R: BufRead, W: Write>(
    alloc: Global,
    job: Job,
    texts: Vec<(String, String)>,
    world: Option<(String, String)>,
    targets: &mut T,
    reader: &mut R,
    writer: &mut W,
) -> u8
    ensures ends { (status : Status) × (result ≡ code_of status) × EndsJob job (map source_file texts.items) (world_file world)
        (R.remaining reader.old) (R.remaining reader.new) (W.contents writer.old) (W.contents writer.new)
        (T.replaced targets.old) (T.replaced targets.new) status }
{
    let status = match job {
        Job::Run(manner) => {
            let done = run(alloc, manner, texts, world, reader, writer);
            conclude(done, writer)
        }
        Job::Check(telling) => {
            let done = check(alloc, telling, texts, writer);
            conclude(done, writer)
        }
        Job::Blocks { terms, dot } => {
            let done = blocks(alloc, terms.as_slice(), dot, texts, writer);
            conclude(done, writer)
        }
        Job::Fmt(printing) => {
            let done = format(alloc, printing, texts, targets, writer);
            conclude(done, writer)
        }
    };
    status.code()
}

/// The status by which a command ends. Where memory ran out, that is written.
fn conclude<W: Write>(done: Result<Status, ServeFault>, writer: &mut W) -> Status
    ensures { EndsAs done result (W.contents writer.old) (W.contents writer.new) }
{
    match done {
        Ok(status) => status,
        Err(ServeFault::Read) => Status::InputOutput,
        Err(ServeFault::Write) => Status::InputOutput,
        Err(ServeFault::Memory) => out_of_memory(writer),
    }
}

/// Answers the queries of an input by the program of texts in a world, or writes why the texts or the world are refused.
fn run<R: BufRead, W: Write>(
    alloc: Global,
    manner: Manner,
    texts: Vec<(String, String)>,
    world: Option<(String, String)>,
    reader: &mut R,
    writer: &mut W,
) -> Result<Status, ServeFault>
    ensures answered { IfOk result (λ status. (status ≡ Status.AllWell) ⊎ (status ≡ Status.SomeRefused)
        → AreAccepted (map source_file texts.items)) }
    ensures all_well { IfOk result (λ status. status ≡ Status.AllWell
        → WritesAnswers (map source_file texts.items) (world_file world) manner (R.remaining reader.old) false
        (W.contents writer.old) (W.contents writer.new)) }
    ensures some_refused { IfOk result (λ status. status ≡ Status.SomeRefused
        → WritesAnswers (map source_file texts.items) (world_file world) manner (R.remaining reader.old) true
        (W.contents writer.old) (W.contents writer.new)) }
    ensures refused { IfOk result (λ status. status ≡ Status.TextsRefused → WritesRefusal
        (map source_file texts.items) (world_file world) manner (W.contents writer.old) (W.contents writer.new)) }
    ensures other { IfOk result IsEnd }
    ensures cut { IfErr result (λ fault. fault ≢ ServeFault.Memory
        → CutsRun (map source_file texts.items) (world_file world) manner (R.remaining reader.old)
        (W.contents writer.old) (W.contents writer.new)) }
    ensures memory { IfErr result (λ fault. fault ≡ ServeFault.Memory
        → AnswersSome (map source_file texts.items) (world_file world) manner (R.remaining reader.old) (R.remaining reader.new)
        (W.contents writer.old) (W.contents writer.new)) }
{
    let files = Rc::new(alloc, Files::from_names_and_contents(alloc, texts)?)?;
    match compile(alloc, files.clone()?) {
        Ok(program) => {
            let ended = run_program(alloc, &program, &files, world, manner, reader, writer);
            program.release();
            ended
        }
        Err(Refused::Faults(errors)) => refuse(alloc, manner.explain, &errors, writer),
        Err(Refused::Memory) => Err(ServeFault::Memory),
    }
}

/// The name and the text of a world's file; an empty text named `world` where none is given.
fn world_parts(
    alloc: Global,
    world: Option<(String, String)>,
) -> Result<(String, String), AllocError>
    ensures { IfOk result (λ parts. source_file parts ≡ world_file world) }
{
    match world {
        Some(parts) => Ok(parts),
        None => Ok((String::from_str(alloc, "world")?, String::new(alloc))),
    }
}

/// Answers the queries of an input by a program in a world, or writes why the world is refused.
fn run_program<R: BufRead, W: Write>(
    alloc: Global,
    program: &Program,
    files: &Files,
    world: Option<(String, String)>,
    manner: Manner,
    reader: &mut R,
    writer: &mut W,
) -> Result<Status, ServeFault>
    requires { IsCompiled program.now }
    ensures all_well { IfOk result (λ status. status ≡ Status.AllWell → AnswersIn program.now files.now
        (world_file world) manner (R.remaining reader.old) false (W.contents writer.old) (W.contents writer.new)) }
    ensures some_refused { IfOk result (λ status. status ≡ Status.SomeRefused → AnswersIn program.now files.now
        (world_file world) manner (R.remaining reader.old) true (W.contents writer.old) (W.contents writer.new)) }
    ensures refused { IfOk result (λ status. status ≡ Status.TextsRefused → TellsWorld manner.explain
        program.now (world_file world) (W.contents writer.old) (W.contents writer.new)) }
    ensures other { IfOk result IsEnd }
    ensures cut { IfErr result (λ fault. fault ≢ ServeFault.Memory → CutsIn program.now files.now
        (world_file world) manner (R.remaining reader.old) (W.contents writer.old) (W.contents writer.new)) }
    ensures memory { IfErr result (λ fault. fault ≡ ServeFault.Memory → StopsIn program.now files.now
        (world_file world) manner (R.remaining reader.old) (R.remaining reader.new) (W.contents writer.old) (W.contents writer.new)) }
{
    let (name, text) = world_parts(alloc, world)?;
    match TableWorld::read(alloc, text.as_str(), program) {
        Ok(table) => {
            let mut world = WatchedTable::new(alloc, table, manner.unanswered);
            answer_all(alloc, program, files, &mut world, manner, reader, writer)
        }
        Err(WorldFault::Memory(_)) => Err(ServeFault::Memory),
        Err(fault) => refuse_world(
            alloc,
            program,
            manner.explain,
            name.as_str(),
            text.as_str(),
            &fault,
            writer,
        ),
    }
}

/// Answers the queries of an input by a program in the world of a table, and tells behind them what of rules and calls is asked for.
fn answer_all<R: BufRead, W: Write>(
    alloc: Global,
    program: &Program,
    files: &Files,
    world: &mut WatchedTable,
    manner: Manner,
    reader: &mut R,
    writer: &mut W,
) -> Result<Status, ServeFault>
    requires { IsCompiled program.now }
    ensures all_well { IfOk result (λ status. status ≡ Status.AllWell → AnswersAndTells
        (in_entries program.now files.now world.old manner) world.old (R.remaining reader.old) false
        (W.contents writer.old) (W.contents writer.new) world.new) }
    ensures some_refused { IfOk result (λ status. status ≡ Status.SomeRefused → AnswersAndTells
        (in_entries program.now files.now world.old manner) world.old (R.remaining reader.old) true
        (W.contents writer.old) (W.contents writer.new) world.new) }
    ensures other { IfOk result (λ status. (status ≡ Status.AllWell) ⊎ (status ≡ Status.SomeRefused)) }
    ensures cut { IfErr result (λ fault. fault ≢ ServeFault.Memory → AnswersOrTellsCut
        (in_entries program.now files.now world.old manner) world.old (R.remaining reader.old)
        (W.contents writer.old) (W.contents writer.new) world.new) }
    ensures memory { IfErr result (λ fault. fault ≡ ServeFault.Memory → AnswersUntilMemory
        (in_entries program.now files.now world.old manner) world.old (R.remaining reader.old) (R.remaining reader.new)
        (W.contents writer.old) (W.contents writer.new) world.new) }
{
    let mut watch = Watch::new(alloc, files);
    match answer(alloc, program, world, manner, &mut watch, reader, writer) {
        Ok(status) => tell_summary(alloc, program, manner, &watch, world, status, writer),
        Err(fault) => Err(fault),
    }
}

/// Writes what is told behind all answers, which gave this status.
fn tell_summary<W: Write>(
    alloc: Global,
    program: &Program,
    manner: Manner,
    watch: &Watch<'_>,
    world: &WatchedTable,
    status: Status,
    writer: &mut W,
) -> Result<Status, ServeFault>
    ensures status { IfOk result (λ given. given ≡ status) }
    ensures written { OnOk result ((lines : List ℕ) × IsSummary manner lines × Appends (W.contents writer.old) (W.contents writer.new) lines) }
    ensures cut { IfErr result (λ fault. fault ≢ ServeFault.Memory → (lines : List ℕ)
        × IsSummary manner lines × AppendsBeginning (W.contents writer.old) (W.contents writer.new) lines) }
    ensures memory { IfErr result (λ fault. fault ≡ ServeFault.Memory → Keeps
        (W.contents writer.old) (W.contents writer.new)) }
    ensures fault { IfErr result (λ fault. fault ≢ ServeFault.Read) }
{
    let text = summary(alloc, program, manner, watch, world)?;
    write_text(writer, text.as_str())?;
    Ok(status)
}

/// What is told behind all answers.
fn summary(
    alloc: Global,
    program: &Program,
    manner: Manner,
    watch: &Watch<'_>,
    world: &WatchedTable,
) -> Result<String, AllocError>
    ensures { IfOk result (λ text. IsSummary manner (string_bytes text)) }
{
    if manner.coverage || manner.unanswered {
        return summary_lines(alloc, program, manner, watch, world);
    }
    Ok(String::new(alloc))
}

/// The lines of rules that were not chosen, where these are asked for, and of calls without an entry, where these are.
fn summary_lines(
    alloc: Global,
    program: &Program,
    manner: Manner,
    watch: &Watch<'_>,
    world: &WatchedTable,
) -> Result<String, AllocError> {
    let mut text = String::new(alloc);
    if manner.coverage {
        text.push_str(watch.unchosen(alloc, program)?.as_str())?;
    }
    if manner.unanswered {
        text.push_str(world.unanswered(alloc)?.as_str())?;
    }
    Ok(text)
}

/// Answers the queries of an input by a program.
fn answer<V: World, R: BufRead, W: Write>(
    alloc: Global,
    program: &Program,
    world: &mut V,
    manner: Manner,
    watch: &mut Watch<'_>,
    reader: &mut R,
    writer: &mut W,
) -> Result<Status, ServeFault>
    requires { IsCompiled program.now }
    ensures all_well { IfOk result (λ status. status ≡ Status.AllWell → AnswersAll
        (setting_in V.step program.now watch.old.files.now (V.constructs world.old) (V.extracts world.old) manner)
        world.old (R.remaining reader.old) false (W.contents writer.old) (W.contents writer.new) world.new) }
    ensures some_refused { IfOk result (λ status. status ≡ Status.SomeRefused → AnswersAll
        (setting_in V.step program.now watch.old.files.now (V.constructs world.old) (V.extracts world.old) manner)
        world.old (R.remaining reader.old) true (W.contents writer.old) (W.contents writer.new) world.new) }
    ensures other { IfOk result (λ status. (status ≡ Status.AllWell) ⊎ (status ≡ Status.SomeRefused)) }
    ensures cut { IfErr result (λ fault. fault ≢ ServeFault.Memory → AnswersCut
        (setting_in V.step program.now watch.old.files.now (V.constructs world.old) (V.extracts world.old) manner)
        world.old (R.remaining reader.old) (W.contents writer.old) (W.contents writer.new) world.new) }
    ensures memory { IfErr result (λ fault. fault ≡ ServeFault.Memory → AnswersFirst
        (setting_in V.step program.now watch.old.files.now (V.constructs world.old) (V.extracts world.old) manner) fault
        world.old (R.remaining reader.old) (R.remaining reader.new) (W.contents writer.old) (W.contents writer.new) world.new) }
{
    match serve(alloc, program, world, manner, watch, reader, writer) {
        Ok(Served::AllWell) => Ok(Status::AllWell),
        Ok(Served::SomeRefused) => Ok(Status::SomeRefused),
        Err(fault) => Err(fault),
    }
}

/// Writes what tells why a world is refused.
fn refuse_world<W: Write>(
    alloc: Global,
    program: &Program,
    explain: bool,
    name: &str,
    text: &str,
    fault: &WorldFault,
    writer: &mut W,
) -> Result<Status, ServeFault>
    ensures status { IfOk result (λ status. status ≡ Status.TextsRefused) }
    ensures written { OnOk result ((line : List ℕ) × TellsFault explain program.now (record { name = name.now; text = text.now }) fault.now line
        × Appends (W.contents writer.old) (W.contents writer.new) line) }
    ensures cut { IfErr result (λ why. why ≢ ServeFault.Memory → (line : List ℕ)
        × TellsFault explain program.now (record { name = name.now; text = text.now }) fault.now line
        × AppendsBeginning (W.contents writer.old) (W.contents writer.new) line) }
    ensures memory { IfErr result (λ why. why ≡ ServeFault.Memory → Keeps
        (W.contents writer.old) (W.contents writer.new)) }
    ensures fault { IfErr result (λ why. why ≢ ServeFault.Read) }
{
    let line = fault_text(alloc, program, explain, name, text, fault)?;
    write_text(writer, line.as_str())?;
    Ok(Status::TextsRefused)
}

/// Writes what is printed of faults, for which texts are refused, with their reasons where these are asked for.
pub(crate) fn refuse<W: Write>(
    alloc: Global,
    explain: bool,
    errors: &Errors,
    writer: &mut W,
) -> Result<Status, ServeFault>
    ensures status { IfOk result (λ status. status ≡ Status.TextsRefused) }
    ensures written { OnOk result ((text : List ℕ) × ReportsFaults explain errors.now text
        × Appends (W.contents writer.old) (W.contents writer.new) text) }
    ensures cut { IfErr result (λ fault. fault ≢ ServeFault.Memory → (text : List ℕ)
        × ReportsFaults explain errors.now text × AppendsBeginning (W.contents writer.old) (W.contents writer.new) text) }
    ensures memory { IfErr result (λ fault. fault ≡ ServeFault.Memory → Keeps
        (W.contents writer.old) (W.contents writer.new)) }
    ensures fault { IfErr result (λ fault. fault ≢ ServeFault.Read) }
{
    let text = faults_text(alloc, explain, errors)?;
    write_text(writer, text.as_str())?;
    Ok(Status::TextsRefused)
}

/// Writes what is told of the texts' program, or what is printed of their faults.
fn check<W: Write>(
    alloc: Global,
    telling: Telling,
    texts: Vec<(String, String)>,
    writer: &mut W,
) -> Result<Status, ServeFault>
    ensures accepted { IfOk result (λ status. status ≡ Status.AllWell → WritesAccepted
        (map source_file texts.items) telling (W.contents writer.old) (W.contents writer.new)) }
    ensures refused { IfOk result (λ status. status ≡ Status.TextsRefused → WritesFaults telling.explain
        (map source_file texts.items) (W.contents writer.old) (W.contents writer.new)) }
    ensures other { IfOk result (λ status. (status ≡ Status.AllWell) ⊎ (status ≡ Status.TextsRefused)) }
    ensures cut { IfErr result (λ fault. fault ≢ ServeFault.Memory → CutsCheck
        (map source_file texts.items) telling (W.contents writer.old) (W.contents writer.new)) }
    ensures memory { IfErr result (λ fault. fault ≡ ServeFault.Memory → Keeps
        (W.contents writer.old) (W.contents writer.new)) }
    ensures fault { IfErr result (λ fault. fault ≢ ServeFault.Read) }
{
    let files = Rc::new(alloc, Files::from_names_and_contents(alloc, texts)?)?;
    match compile(alloc, files.clone()?) {
        Ok(program) => {
            let ended = tell(alloc, telling, &program, &files, writer);
            program.release();
            ended
        }
        Err(Refused::Faults(errors)) => refuse(alloc, telling.explain, &errors, writer),
        Err(Refused::Memory) => Err(ServeFault::Memory),
    }
}

/// Writes what is told of an accepted program.
fn tell<W: Write>(
    alloc: Global,
    telling: Telling,
    program: &Program,
    files: &Files,
    writer: &mut W,
) -> Result<Status, ServeFault>
    requires { IsCompiled program.now }
    ensures status { IfOk result (λ status. status ≡ Status.AllWell) }
    ensures written { OnOk result ((text : List ℕ) × TellsChecked files.now program.now telling text
        × Appends (W.contents writer.old) (W.contents writer.new) text) }
    ensures cut { IfErr result (λ fault. fault ≢ ServeFault.Memory → (text : List ℕ)
        × TellsChecked files.now program.now telling text × AppendsBeginning (W.contents writer.old) (W.contents writer.new) text) }
    ensures memory { IfErr result (λ fault. fault ≡ ServeFault.Memory → Keeps
        (W.contents writer.old) (W.contents writer.new)) }
    ensures fault { IfErr result (λ fault. fault ≢ ServeFault.Read) }
{
    let text = checked_text(alloc, telling, program, files)?;
    write_text(writer, text.as_str())?;
    Ok(Status::AllWell)
}

/// What is told of an accepted program, and behind it the warnings where they are asked for.
fn checked_text(
    alloc: Global,
    telling: Telling,
    program: &Program,
    files: &Files,
) -> Result<String, AllocError>
    requires { IsCompiled program.now }
    ensures { IfOk result (λ text. TellsChecked files.now program.now telling (string_bytes text)) }
{
    let mut text = program_text(alloc, program, files, telling)?;
    if !telling.warn {
        return Ok(text);
    }
    let warnings = warnings_text(alloc, program, files)?;
    text.push_str(warnings.as_str())?;
    Ok(text)
}

/// Writes what is printed of faults.
pub(crate) fn write_faults<W: Write>(
    alloc: Global,
    errors: &Errors,
    writer: &mut W,
) -> Result<(), ServeFault>
    ensures written { OnOk result
        (Appends (W.contents writer.old) (W.contents writer.new) (report_text errors.now)) }
    ensures cut { IfErr result (λ fault. fault ≢ ServeFault.Memory → AppendsBeginning
        (W.contents writer.old) (W.contents writer.new) (report_text errors.now)) }
    ensures memory { IfErr result (λ fault. fault ≡ ServeFault.Memory → Keeps
        (W.contents writer.old) (W.contents writer.new)) }
    ensures fault { IfErr result (λ fault. fault ≢ ServeFault.Read) }
{
    let text = errors.to_string(alloc)?;
    write_text(writer, text.as_str())
}
