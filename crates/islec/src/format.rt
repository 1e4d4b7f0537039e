//! Files laid out, and what becomes of them then.
ghost use Rattle.std.specs.Prelude.{◌≡◌, ◌<◌, ◌≢◌, ◌⊎◌, ◌++◌, ℕ, List, [], ◌∷◌, length, map, slice_get, string_bytes, IfErr, IfOk, IfSome, OnOk, OnErr};
ghost use Rattle.std.specs.declared.io.ErrorKind.{ErrorKind};
ghost use Rattle.isle_ast.specs.Errors.{IfFault, RefusalAt};
ghost use Rattle.isle_ast.specs.Positions.Files.{source_file};
ghost use Rattle.isle_ast.specs.Positions.Printable.{IsPrintablePos};
ghost use Rattle.isle_syntax.specs.Grammar.Verdict.{IsFaultIn};
ghost use Rattle.isle_program.specs.Compiled.{IsFirstFault};
ghost use Rattle.islec.specs.Causes.{unwritten_lines};
ghost use Rattle.islec.specs.Formatting.{IsPrint, HavePrints, Tells, TellsEach, WritesTold, CutsTold, PlacesSome, PlacesUpTo};
ghost use Rattle.islec.specs.Formatting.{IsFormatted, status_behind as the_status_behind};
ghost use Rattle.islec.specs.Outputs.{Puts, changed_of};
ghost use Rattle.islec.specs.Writing.{AppendsBeginning};
ghost use Rattle.islec.specs.declared.status.Status.{Status};

use crate::cause::write_unwritten;
use crate::perform::write_faults;
use crate::serve::{ServeFault, write_text};
use crate::sources::{FileFault, Targets};
use crate::status::Status;
use isle_layout::changes::changes;
use isle_layout::keep::keep;
use isle_syntax::Refusal;
use isle_syntax::error::{Error, Errors};
use isle_syntax::files::Files;
use std::alloc::{AllocError, Global};
use std::io::Write;
use std::rc::Rc;

/// How files are laid out, and what becomes of them then.
#[derive(Clone, Copy)]
pub struct Printing {
    /// From 0 to 1,000,000.
    pub width: u32,
    /// Whether comments, the radix of numbers and single blank lines stay.
    pub keep: bool,
    pub output: Output,
}

/// What becomes of files that are laid out.
#[derive(Clone, Copy)]
pub enum Output {
    /// They are printed so.
    Prints,
    /// The names of those that aren't laid out so are told.
    Names,
    /// What would change in these is told.
    Changes,
    /// These are put in their place.
    Places,
}

/// Lays files out, and prints them, tells which aren't laid out so or what would change in them, or puts them in their place; or writes the
/// fault of the first text that has one and nothing else.
pub fn format<T: Targets, W: Write>(
    alloc: Global,
    printing: Printing,
    texts: Vec<(String, String)>,
    targets: &mut T,
    writer: &mut W,
) -> Result<Status, ServeFault>
    ensures ends { IsFormatted printing (map source_file texts.items) (W.contents writer.old) (W.contents writer.new)
        (T.replaced targets.old) (T.replaced targets.new) result }
{
    let files = Rc::new(alloc, Files::from_names_and_contents(alloc, texts)?)?;
    match prints_of(alloc, &files, printing) {
        Ok(prints) => finish(alloc, printing, &files, prints.as_slice(), targets, writer),
        Err(Refusal::Fault(error)) => {
            let mut errors = Vec::new(alloc);
            errors.push(error)?;
            write_faults(alloc, &Errors::new(errors, files), writer)?;
            Ok(Status::TextsRefused)
        }
        Err(Refusal::Memory(_)) => Err(ServeFault::Memory),
    }
}

// The prints of files.
fn prints_of(
    alloc: Global,
    files: &Files,
    printing: Printing,
) -> Result<Vec<String>, Refusal<Error>>
    ensures prints { IfOk result (λ prints. HavePrints printing files.now (map string_bytes prints.items)) }
    ensures fault { IfErr result (λ refusal. IfFault refusal (IsFirstFault files.now)) }
    ensures printable { IfErr result (RefusalAt (IsPrintablePos files.now)) }
{
    let mut prints = Vec::new(alloc);
    for file in 0..files.len() {
        let print = print_file(alloc, files, file, printing)?;
        prints.push(print)?;
    }
    Ok(prints)
}

// One file laid out.
fn print_file(
    alloc: Global,
    files: &Files,
    file: usize,
    printing: Printing,
) -> Result<String, Refusal<Error>>
    requires { file < length files.now }
    ensures text { IfSome (slice_get files.now file) (λ from. IfOk result
        (λ print. IsPrint printing.keep printing.width file from.text (string_bytes print))) }
    ensures fault { IfSome (slice_get files.now file) (λ from. IfErr result
        (λ r. IfFault r (IsFaultIn file from.text))) }
    ensures printable { IfErr result (RefusalAt (IsPrintablePos files.now)) }
{
    let Some(text) = files.file_text(file) else {
        return Ok(String::new(alloc));
    };
    let width = printing.width as usize;
    if printing.keep {
        keep(alloc, file, text, width)
    } else {
        isle_layout::format::format(alloc, file, text, width)
    }
}

// Does with files that have prints what is asked for.
fn finish<T: Targets, W: Write>(
    alloc: Global,
    printing: Printing,
    files: &Files,
    prints: &[String],
    targets: &mut T,
    writer: &mut W,
) -> Result<Status, ServeFault>
    requires { HavePrints printing files.now (map string_bytes prints.now) }
    ensures ends { IsFormatted printing files.now (W.contents writer.old) (W.contents writer.new)
        (T.replaced targets.old) (T.replaced targets.new) result }
{
    match printing.output {
        Output::Places => {
            place(alloc, files, prints, targets, writer)?;
            Ok(Status::AllWell)
        }
        Output::Prints | Output::Names | Output::Changes => {
            tell(alloc, printing, files, prints, writer)
        }
    }
}

// Writes what is told of files that have prints.
fn tell<W: Write>(
    alloc: Global,
    printing: Printing,
    files: &Files,
    prints: &[String],
    writer: &mut W,
) -> Result<Status, ServeFault>
    requires prints { HavePrints printing files.now (map string_bytes prints.now) }
    requires output { printing.output ≢ Output.Places }
    ensures told { IfOk result (WritesTold printing files.now (W.contents writer.old) (W.contents writer.new)) }
    ensures other { IfOk result (λ status. (status ≡ Status.AllWell) ⊎ (status ≡ Status.TextsRefused)) }
    ensures cut { IfErr result (λ fault. fault ≢ ServeFault.Memory → CutsTold printing files.now (W.contents writer.old) (W.contents writer.new)) }
    ensures memory { IfErr result (λ fault. fault ≡ ServeFault.Memory → W.contents writer.new ≡ W.contents writer.old) }
{
    let told = told_of(alloc, printing.output, files, prints)?;
    write_text(writer, told.as_str())?;
    Ok(status_behind(printing.output, told.as_str()))
}

// What is told of files one after another.
fn told_of(
    alloc: Global,
    output: Output,
    files: &Files,
    prints: &[String],
) -> Result<String, AllocError>
    requires { length prints.now ≡ length files.now }
    ensures { IfOk result (λ told. TellsEach output files.now (map string_bytes prints.now) (string_bytes told)) }
{
    let mut told = String::new(alloc);
    for file in 0..files.len() {
        push_file(alloc, &mut told, output, files, prints, file)?;
    }
    Ok(told)
}

// Writes what is told of one file behind others.
fn push_file(
    alloc: Global,
    told: &mut String,
    output: Output,
    files: &Files,
    prints: &[String],
    file: usize,
) -> Result<(), AllocError>
    ensures { OnOk result (IfSome (slice_get files.now file) (λ from. IfSome (slice_get prints.now file) (λ print.
        (own : List ℕ) × Tells output from (string_bytes print) own × (string_bytes told.new ≡ string_bytes told.old ++ own)))) }
{
    let Some(name) = files.file_name(file) else {
        return Ok(());
    };
    let Some(text) = files.file_text(file) else {
        return Ok(());
    };
    let Some(print) = prints.get(file) else {
        return Ok(());
    };
    push_told(alloc, told, output, name, text, print.as_str())
}

// Writes what is told of a text that has this print behind others.
fn push_told(
    alloc: Global,
    told: &mut String,
    output: Output,
    name: &str,
    text: &str,
    print: &str,
) -> Result<(), AllocError>
    ensures { OnOk result ((own : List ℕ) × Tells output (record { name = name.now; text = text.now }) print.now own
        × (string_bytes told.new ≡ string_bytes told.old ++ own)) }
{
    match output {
        Output::Prints => told.push_str(print),
        Output::Names => push_unformatted(told, name, text, print),
        Output::Changes => told.push_str(changes(alloc, name, text, print)?.as_str()),
        Output::Places => Ok(()),
    }
}

// Writes the name of a text that isn't its print behind others, as a line.
fn push_unformatted(
    told: &mut String,
    name: &str,
    text: &str,
    print: &str,
) -> Result<(), AllocError>
    ensures { OnOk result ((own : List ℕ) × Tells Output.Names (record { name = name.now; text = text.now }) print.now own
        × (string_bytes told.new ≡ string_bytes told.old ++ own)) }
{
    if print == text {
        return Ok(());
    }
    told.push_str(name)?;
    told.push_str("\n")
}

// The status behind what is told of files.
fn status_behind(output: Output, told: &str) -> Status
    ensures { result ≡ the_status_behind output told.now }
{
    match output {
        Output::Names | Output::Changes if !told.is_empty() => Status::TextsRefused,
        _ => Status::AllWell,
    }
}

// Puts the prints of files that aren't theirs in the place of these, one after another.
fn place<T: Targets, W: Write>(
    alloc: Global,
    files: &Files,
    prints: &[String],
    targets: &mut T,
    writer: &mut W,
) -> Result<(), ServeFault>
    requires { length prints.now ≡ length files.now }
    ensures placed { OnOk result (Puts (T.replaced targets.old) (T.replaced targets.new) (changed_of files.now (map string_bytes prints.now))) }
    ensures unwritten { OnOk result (W.contents writer.new ≡ W.contents writer.old) }
    ensures cut { IfErr result (λ fault. fault ≢ ServeFault.Memory → PlacesUpTo files.now (map string_bytes prints.now)
        (W.contents writer.old) (W.contents writer.new) (T.replaced targets.old) (T.replaced targets.new)) }
    ensures memory { IfErr result (λ fault. fault ≡ ServeFault.Memory → PlacesSome files.now (map string_bytes prints.now)
        (T.replaced targets.old) (T.replaced targets.new)) }
    ensures silent { IfErr result (λ fault. fault ≡ ServeFault.Memory → W.contents writer.new ≡ W.contents writer.old) }
{
    for file in 0..files.len() {
        place_file(alloc, files, prints, file, targets, writer)?;
    }
    Ok(())
}

// Puts the print of one file in its place, where it isn't its print.
fn place_file<T: Targets, W: Write>(
    alloc: Global,
    files: &Files,
    prints: &[String],
    file: usize,
    targets: &mut T,
    writer: &mut W,
) -> Result<(), ServeFault>
    ensures placed { OnOk result (IfSome (slice_get files.now file) (λ from. IfSome (slice_get prints.now file) (λ print.
        Puts (T.replaced targets.old) (T.replaced targets.new) (changed_of (from ∷ []) (string_bytes print ∷ []))))) }
    ensures unwritten { OnOk result (W.contents writer.new ≡ W.contents writer.old) }
    ensures stays { OnErr result (T.replaced targets.new ≡ T.replaced targets.old) }
    ensures changed { OnErr result (IfSome (slice_get files.now file) (λ from. IfSome (slice_get prints.now file) (λ print.
        changed_of (from ∷ []) (string_bytes print ∷ []) ≡ record { name = from.name; text = string_bytes print } ∷ []))) }
    ensures cut { IfErr result (λ fault. fault ≢ ServeFault.Memory → IfSome (slice_get files.now file) (λ from.
        (kind : ErrorKind) × AppendsBeginning (W.contents writer.old) (W.contents writer.new) (unwritten_lines from.name kind))) }
    ensures silent { IfErr result (λ fault. fault ≡ ServeFault.Memory → W.contents writer.new ≡ W.contents writer.old) }
{
    let Some(name) = files.file_name(file) else {
        return Ok(());
    };
    let Some(text) = files.file_text(file) else {
        return Ok(());
    };
    let Some(print) = prints.get(file) else {
        return Ok(());
    };
    place_print(alloc, name, text, print.as_str(), targets, writer)
}

// Puts a print in the place of a text that isn't it.
fn place_print<T: Targets, W: Write>(
    alloc: Global,
    name: &str,
    text: &str,
    print: &str,
    targets: &mut T,
    writer: &mut W,
) -> Result<(), ServeFault>
    ensures placed { OnOk result (Puts (T.replaced targets.old) (T.replaced targets.new)
        (changed_of (record { name = name.now; text = text.now } ∷ []) (print.now ∷ []))) }
    ensures unwritten { OnOk result (W.contents writer.new ≡ W.contents writer.old) }
    ensures stays { OnErr result (T.replaced targets.new ≡ T.replaced targets.old) }
    ensures changed { OnErr result (changed_of (record { name = name.now; text = text.now } ∷ []) (print.now ∷ [])
        ≡ record { name = name.now; text = print.now } ∷ []) }
    ensures cut { IfErr result (λ fault. fault ≢ ServeFault.Memory → (kind : ErrorKind)
        × AppendsBeginning (W.contents writer.old) (W.contents writer.new) (unwritten_lines name.now kind)) }
    ensures silent { IfErr result (λ fault. fault ≡ ServeFault.Memory → W.contents writer.new ≡ W.contents writer.old) }
{
    if print == text {
        return Ok(());
    }
    match targets.replace(alloc, name, print) {
        Ok(()) => Ok(()),
        Err(FileFault::Memory) => Err(ServeFault::Memory),
        Err(FileFault::Fails(kind)) => {
            write_unwritten(name, kind, writer)?;
            Err(ServeFault::Write)
        }
    }
}
