//! The program: words, files, and the command on them.
ghost use Rattle.std.specs.Prelude.{◌≡◌, ◌⊎◌, Ok, IfOk, IfErr, map, string_bytes};
ghost use Rattle.std.specs.Io.KnownBytes.{Appends, Consumes, IsAtEnd};
ghost use Rattle.islec.specs.Beginnings.{BecomesUnbegun, TellsUnbegun, IsNoText, IsUnread, IsUnreadFile, IsUnreadFor, IsUnreadWorld, misuse_text};
ghost use Rattle.islec.specs.Causes.{unread_lines};
ghost use Rattle.islec.specs.Endings.{Begins, EndsCommand, HoldsBack, IsWorld};
ghost use Rattle.isle_ast.specs.Positions.Files.{source_file};
ghost use Rattle.islec.specs.Inputs.{GivesFile, GivesInput, ReadsFile, ReadsFiles, ReadsText, is_input as the_input};
ghost use Rattle.islec.specs.Statuses.{code_of};
ghost use Rattle.islec.specs.Worlds.{world_file};
ghost use Rattle.islec.specs.Writing.{AppendsBeginning};
ghost use Rattle.islec.specs.declared.status.Status.{Status};
ghost use Rattle.islec.specs.declared.program.Unbegun.TheVariants.{Memory};

use crate::cause::{Cause, cause_words, write_unread};
use crate::disk::Disk;
use crate::line::{Job, Line, LineFault, Misuse, line_of};
use crate::perform::perform;
use crate::serve::write_text;
use crate::sources::{FileFault, Sources, Targets};
use crate::status::{Status, out_of_memory};
use std::alloc::{AllocError, AllocFailed, Global};
use std::env::Env;
use std::io::{BufRead, BufReader, ErrorKind, Write};
use std::rt::Files;
use std::{env, io};

/// Why the command was not begun.
#[derive(Drop)]
enum Unbegun {
    /// The words are no command, or ask for help or the version.
    Usage(clap::Error),
    /// Options that don't go together.
    Misused(Misuse),
    /// A word isn't UTF-8.
    NotText,
    /// The file of this name can't be read or isn't UTF-8, for a cause in these words.
    CannotRead(String, String),
    Memory,
}

impl From<AllocError> for Unbegun {
    ghost from_gives = { λ _ unbegun. unbegun ≡ Memory };

    fn from(_error: AllocError) -> Unbegun {
        Unbegun::Memory
    }
}

impl<T: Drop> From<AllocFailed<T>> for Unbegun {
    ghost from_gives = { λ _ unbegun. unbegun ≡ Memory };

    fn from(_error: AllocFailed<T>) -> Unbegun {
        Unbegun::Memory
    }
}

impl From<LineFault> for Unbegun {
    ghost from_gives = { BecomesUnbegun };

    fn from(fault: LineFault) -> Unbegun {
        match fault {
            LineFault::Usage(error) => Unbegun::Usage(error),
            LineFault::Misuse(misuse) => Unbegun::Misused(misuse),
            LineFault::Memory(_) => Unbegun::Memory,
        }
    }
}

/// What a command begins with.
#[derive(Drop)]
struct Begun {
    job: Job,
    // The names and the texts of its files.
    texts: Vec<(String, String)>,
    // Those of its world's file.
    world: Option<(String, String)>,
}

/// Does what the words of the command line say, and gives the exit status.
pub fn run<R: Env + Files + Input + Print + AllocGlobal>(rt: &R) -> u8
    ensures ends { (status : Status) × (result ≡ code_of status) }
{
    let mut output = io::writer(rt);
    let Ok(mut input) = BufReader::new(rt.alloc(), rt.reader()) else {
        return out_of_memory(&mut output).code();
    };
    match read_words(rt) {
        Ok(words) => {
            let mut disk = Disk { rt };
            command(
                rt.alloc(),
                &mut disk,
                words.as_slice(),
                &mut input,
                &mut output,
            )
        }
        Err(unbegun) => tell(unbegun, &mut output).code(),
    }
}

/// Reads the files that words name, all before anything is compiled, does the job that they say, and gives the exit status; or tells why it can't
/// begin. A file named `-` is the input, where that has no queries.
pub fn command<D: Sources + Targets, I: BufRead, W: Write>(
    alloc: Global,
    disk: &mut D,
    words: &[String],
    input: &mut I,
    output: &mut W,
) -> u8
    ensures ends { EndsCommand (D.gives disk.old) (map string_bytes words.now) (I.remaining input.old) (I.remaining input.new)
        (W.contents output.old) (W.contents output.new) (D.replaced disk.old) (D.replaced disk.new) result }
{
    match begin(alloc, disk, words, input) {
        Ok(Begun { job, texts, world }) => perform(alloc, job, texts, world, disk, input, output),
        Err(unbegun) => tell(unbegun, output).code(),
    }
}

// Reads the files that words name.
fn begin<S: Sources, I: BufRead>(
    alloc: Global,
    sources: &S,
    words: &[String],
    input: &mut I,
) -> Result<Begun, Unbegun>
    ensures begun { IfOk result (Begins (S.gives sources.now) (map string_bytes words.now)
        (I.remaining input.old) (I.remaining input.new)) }
    ensures refused { IfErr result (HoldsBack (S.gives sources.now) (map string_bytes words.now) (I.remaining input.old)) }
{
    let Line { job, files, world } = line_of(alloc, words)?;
    let texts = read_texts(alloc, sources, files, job.reads_input(), input)?;
    let world = read_world(alloc, sources, world)?;
    Ok(Begun { job, texts, world })
}

// The words of the command line.
fn read_words<R: Env + AllocGlobal>(rt: &R) -> Result<Vec<String>, Unbegun>
    ensures refused { IfErr result (λ unbegun. (unbegun ≡ Unbegun.Memory) ⊎ (unbegun ≡ Unbegun.NotText)) }
{
    match env::args(rt) {
        Ok(words) => Ok(words.collect(rt.alloc())?),
        Err(error) if error.kind() == ErrorKind::OutOfMemory => Err(Unbegun::Memory),
        Err(_) => Err(Unbegun::NotText),
    }
}

// The files of these names, in order, of which those named `-` may be standard input.
fn read_texts<S: Sources, I: BufRead>(
    alloc: Global,
    sources: &S,
    names: Vec<String>,
    reads_input: bool,
    input: &mut I,
) -> Result<Vec<(String, String)>, Unbegun>
    ensures named { IfOk result (λ texts. map (λ text. text.0) texts.items ≡ names.items) }
    ensures inputs { IfOk result (λ texts. ReadsFiles (S.gives sources.now) reads_input (map source_file texts.items)
        (I.remaining input.old) (I.remaining input.new)) }
    ensures refused { IfErr result (IsUnread (S.gives sources.now) reads_input (I.remaining input.old) names.items) }
{
    let mut texts = Vec::new(alloc);
    for name in names {
        texts.push(read_file(alloc, sources, name, reads_input, input)?)?;
    }
    Ok(texts)
}

// The name and the contents of a file, which may be standard input.
fn read_file<S: Sources, I: BufRead>(
    alloc: Global,
    sources: &S,
    name: String,
    reads_input: bool,
    input: &mut I,
) -> Result<(String, String), Unbegun>
    ensures named { IfOk result (λ text. text.0 ≡ name) }
    ensures inputs { IfOk result (λ text. ReadsFile (S.gives sources.now) reads_input (source_file text)
        (I.remaining input.old) (I.remaining input.new)) }
    ensures refused { IfErr result (IsUnreadFile (GivesFile (the_input reads_input (string_bytes name))
        (S.gives sources.now (string_bytes name)) (I.remaining input.old)) name) }
{
    if is_input(reads_input, name.as_str()) {
        read_input(alloc, name, input)
    } else {
        read_text(alloc, sources, name)
    }
}

// Whether a file of this name is standard input.
fn is_input(reads_input: bool, name: &str) -> bool
    ensures { result ≡ the_input reads_input name.now }
{
    reads_input && name == "-"
}

// The name and all that is left of standard input.
fn read_input<I: BufRead>(
    alloc: Global,
    name: String,
    input: &mut I,
) -> Result<(String, String), Unbegun>
    ensures named { IfOk result (λ text. text.0 ≡ name) }
    ensures taken { IfOk result (λ text. Consumes (I.remaining input.old) (I.remaining input.new) (string_bytes text.1)) }
    ensures whole { IfOk result (λ text. IsAtEnd (I.remaining input.new)) }
    ensures refused { IfErr result (IsUnreadFile (GivesInput (I.remaining input.old)) name) }
{
    let mut bytes = Vec::new(alloc);
    match input.read_to_end(&mut bytes) {
        Ok(_) => text_of(alloc, name, bytes),
        Err(error) if error.kind() == ErrorKind::OutOfMemory => Err(Unbegun::Memory),
        Err(error) => Err(unread(alloc, name, Cause::Fails(error.kind()))),
    }
}

// The world's file, where one is named.
fn read_world<S: Sources>(
    alloc: Global,
    sources: &S,
    name: Option<String>,
) -> Result<Option<(String, String)>, Unbegun>
    ensures world { IfOk result (λ world. IsWorld (S.gives sources.now) name (world_file world)) }
    ensures refused { IfErr result (IsUnreadWorld (S.gives sources.now) name) }
{
    match name {
        Some(name) => Ok(Some(read_text(alloc, sources, name)?)),
        None => Ok(None),
    }
}

// The name and the contents of a file.
fn read_text<S: Sources>(
    alloc: Global,
    sources: &S,
    name: String,
) -> Result<(String, String), Unbegun>
    ensures named { IfOk result (λ text. text.0 ≡ name) }
    ensures given { IfOk result (λ text. S.gives sources.now (string_bytes name) (Ok (string_bytes text.1))) }
    ensures refused { IfErr result (IsUnreadFile (S.gives sources.now (string_bytes name)) name) }
{
    match sources.read(alloc, name.as_str()) {
        Ok(bytes) => text_of(alloc, name, bytes),
        Err(FileFault::Fails(kind)) => Err(unread(alloc, name, Cause::Fails(kind))),
        Err(FileFault::Memory) => Err(Unbegun::Memory),
    }
}

// The name and the text of a file that has these bytes.
fn text_of(alloc: Global, name: String, bytes: Vec<u8>) -> Result<(String, String), Unbegun>
    ensures named { IfOk result (λ text. text.0 ≡ name) }
    ensures text { IfOk result (λ text. string_bytes text.1 ≡ bytes.items) }
    ensures refused { IfErr result (IsNoText name bytes.items) }
{
    match String::from_utf8(bytes) {
        Ok(text) => Ok((name, text)),
        Err(error) => {
            let at = error.utf8_error().valid_up_to();
            Err(unread(alloc, name, Cause::NotUtf8(at)))
        }
    }
}

// That the file of a name can't be read, with its cause in words; or that memory ran out.
fn unread(alloc: Global, name: String, cause: Cause) -> Unbegun
    ensures { IsUnreadFor name cause result }
{
    match cause_words(alloc, &cause) {
        Ok(words) => Unbegun::CannotRead(name, words),
        Err(_) => Unbegun::Memory,
    }
}

// Writes why the command was not begun, and gives the exit status.
fn tell<W: Write>(unbegun: Unbegun, output: &mut W) -> Status
    ensures { TellsUnbegun unbegun result (W.contents output.old) (W.contents output.new) }
{
    let (written, status) = match unbegun {
        Unbegun::Usage(error) if error.use_stderr() => (write!(output, "{error}"), Status::Usage),
        Unbegun::Usage(error) => (write!(output, "{error}"), Status::AllWell),
        Unbegun::Misused(misuse) => return tell_misuse(misuse, output),
        Unbegun::NotText => {
            let written = output.write_all(b"error: a word of the command line isn't UTF-8\n");
            (written, Status::Usage)
        }
        Unbegun::CannotRead(name, cause) => {
            return cannot_read(name.as_str(), cause.as_str(), output);
        }
        Unbegun::Memory => return out_of_memory(output),
    };
    match written {
        Ok(()) => status,
        Err(_) => Status::InputOutput,
    }
}

// Tells which file can't be read, and why, and gives that status.
fn cannot_read<W: Write>(name: &str, cause: &str, output: &mut W) -> Status
    ensures status { result ≡ Status.InputOutput }
    ensures written { AppendsBeginning (W.contents output.old) (W.contents output.new) (unread_lines name.now cause.now) }
{
    let _ = write_unread(name, cause, output);
    Status::InputOutput
}

// Tells why options don't go together, and gives the exit status.
fn tell_misuse<W: Write>(misuse: Misuse, output: &mut W) -> Status
    ensures told { (result ≡ Status.InputOutput)
        ⊎ ((result ≡ Status.Usage) × Appends (W.contents output.old) (W.contents output.new) (misuse_text misuse)) }
{
    match write_text(output, misuse_line(misuse)) {
        Ok(()) => Status::Usage,
        Err(_) => Status::InputOutput,
    }
}

// The line that tells it.
fn misuse_line(misuse: Misuse) -> &'static str
    ensures { result.now ≡ misuse_text misuse }
{
    match misuse {
        Misuse::Loses => "error: --diff and --write need --keep, so that nothing is lost\n",
        Misuse::WritesAndTells => "error: --write can't be used with --check or --diff\n",
        Misuse::WritesInput => "error: standard input can't be written in place\n",
        Misuse::JudgesNothing => "error: --partial and --steps-at-most need --missing\n",
    }
}
