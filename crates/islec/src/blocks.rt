//! The trees of a program's rules.
ghost use Rattle.std.specs.Prelude.{◌≡◌, ◌≢◌, ◌⊎◌, ℕ, List, false, IfOk, IfErr, map, string_bytes};
ghost use Rattle.std.specs.Io.KnownBytes.{Appends, Keeps};
ghost use Rattle.isle_ast.specs.Positions.Files.{source_file};
ghost use Rattle.isle_program.specs.Compiled.{IsProgramOf};
ghost use Rattle.islec.specs.Drawing.{AreAsked, CutsTrees, DrawsTrees, IsUnknown, TellsAs, TellsTreesOf, WritesTrees, WritesUnknown, unknown_line};
ghost use Rattle.islec.specs.Running.{WritesFaults};
ghost use Rattle.islec.specs.Writing.{AppendsBeginning};
ghost use Rattle.islec.specs.declared.status.Status.{Status};

use crate::perform::refuse;
use crate::serve::{ServeFault, write_text};
use crate::status::Status;
use isle_run::{Program, Refused, TermId, compile, trees_graph, trees_text};
use isle_syntax::files::Files;
use std::alloc::{AllocError, Global};
use std::io::Write;
use std::rc::Rc;

/// Writes the trees of the texts' rules, of the terms of these names or of all, as one graph where that is asked for, or why there are none.
pub fn blocks<W: Write>(
    alloc: Global,
    names: &[String],
    dot: bool,
    texts: Vec<(String, String)>,
    writer: &mut W,
) -> Result<Status, ServeFault>
    ensures drawn { IfOk result (λ status. status ≡ Status.AllWell → WritesTrees
        (map source_file texts.items) (map string_bytes names.now) dot (W.contents writer.old) (W.contents writer.new)) }
    ensures unknown { IfOk result (λ status. status ≡ Status.Usage → WritesUnknown
        (map source_file texts.items) (map string_bytes names.now) (W.contents writer.old) (W.contents writer.new)) }
    ensures refused { IfOk result (λ status. status ≡ Status.TextsRefused → WritesFaults false
        (map source_file texts.items) (W.contents writer.old) (W.contents writer.new)) }
    ensures other { IfOk result (λ status. (status ≡ Status.AllWell) ⊎ ((status ≡ Status.Usage) ⊎ (status ≡ Status.TextsRefused))) }
    ensures cut { IfErr result (λ fault. fault ≢ ServeFault.Memory → CutsTrees
        (map source_file texts.items) (map string_bytes names.now) dot (W.contents writer.old) (W.contents writer.new)) }
    ensures memory { IfErr result (λ fault. fault ≡ ServeFault.Memory → Keeps
        (W.contents writer.old) (W.contents writer.new)) }
    ensures fault { IfErr result (λ fault. fault ≢ ServeFault.Read) }
{
    let files = Rc::new(alloc, Files::from_names_and_contents(alloc, texts)?)?;
    match compile(alloc, files.clone()?) {
        Ok(program) => {
            let ended = draw(alloc, names, dot, &files, &program, writer);
            program.release();
            ended
        }
        Err(Refused::Faults(errors)) => refuse(alloc, false, &errors, writer),
        Err(Refused::Memory) => Err(ServeFault::Memory),
    }
}

/// What names ask for: terms, or the first name that is that of none.
enum Asked<'a> {
    Terms(Vec<TermId>),
    Unknown(&'a str),
}

/// Writes the trees of an accepted program, or which name is that of no term.
fn draw<W: Write>(
    alloc: Global,
    names: &[String],
    dot: bool,
    files: &Files,
    program: &Program,
    writer: &mut W,
) -> Result<Status, ServeFault>
    requires { IsProgramOf files.now program.now }
    ensures drawn { IfOk result (λ status. status ≡ Status.AllWell → (text : List ℕ)
        × DrawsTrees program.now files.now (map string_bytes names.now) dot text × Appends (W.contents writer.old) (W.contents writer.new) text) }
    ensures unknown { IfOk result (λ status. status ≡ Status.Usage → (name : List ℕ)
        × IsUnknown program.now (map string_bytes names.now) name × Appends (W.contents writer.old) (W.contents writer.new) (unknown_line name)) }
    ensures other { IfOk result (λ status. (status ≡ Status.AllWell) ⊎ (status ≡ Status.Usage)) }
    ensures cut { IfErr result (λ fault. fault ≢ ServeFault.Memory → (text : List ℕ)
        × TellsTreesOf program.now files.now (map string_bytes names.now) dot text
        × AppendsBeginning (W.contents writer.old) (W.contents writer.new) text) }
    ensures memory { IfErr result (λ fault. fault ≡ ServeFault.Memory → Keeps
        (W.contents writer.old) (W.contents writer.new)) }
    ensures fault { IfErr result (λ fault. fault ≢ ServeFault.Read) }
{
    match asked_terms(alloc, names, program)? {
        Asked::Terms(terms) => {
            let text = trees(alloc, files, program, dot, terms.as_slice())?;
            write_text(writer, text.as_str())?;
            Ok(Status::AllWell)
        }
        Asked::Unknown(name) => {
            let line = format!(in alloc; "error: no term is named {name}\n")?;
            write_text(writer, line.as_str())?;
            Ok(Status::Usage)
        }
    }
}

/// The trees of these terms or of all, in words or as one graph.
fn trees(
    alloc: Global,
    files: &Files,
    program: &Program,
    dot: bool,
    terms: &[TermId],
) -> Result<String, AllocError>
    requires { IsProgramOf files.now program.now }
    ensures { IfOk result (λ text. TellsAs dot program.now files.now terms.now (string_bytes text)) }
{
    if dot {
        trees_graph(alloc, program, files, terms)
    } else {
        trees_text(alloc, program, files, terms)
    }
}

/// The terms of these names, or the first name that is that of none.
fn asked_terms<'a>(
    alloc: Global,
    names: &'a [String],
    program: &Program,
) -> Result<Asked<'a>, AllocError>
    ensures { IfOk result (AreAsked program.now (map string_bytes names.now)) }
{
    let mut terms = Vec::new(alloc);
    for name in names {
        match program.term(name.as_str()) {
            Some(term) => terms.push(term)?,
            None => return Ok(Asked::Unknown(name.as_str())),
        }
    }
    Ok(Asked::Terms(terms))
}
