//! Why a file can't be read or written, in words, and how that is told.
ghost use Rattle.std.specs.Prelude.{◌≡◌, ◌++◌, IfOk, IfErr, OnOk, OnErr, codes, string_bytes};
ghost use Rattle.std.specs.Io.KnownBytes.{Appends};
ghost use Rattle.islec.specs.Causes.{cause_text, kind_text, written_kind_text, line_of_two, unread_lines, unwritten_lines};
ghost use Rattle.islec.specs.Writing.{AppendsBeginning};

use crate::serve::{ServeFault, write_text};
use std::alloc::{AllocError, Global};
use std::io::{ErrorKind, Write};

/// Why a file can't be read.
#[derive(Clone, Copy)]
pub enum Cause {
    /// Its bytes are UTF-8 only up to this one, counted from 0.
    NotUtf8(usize),
    /// Opening or reading it fails with an error of this kind.
    Fails(ErrorKind),
}

/// A cause in words.
pub fn cause_words(alloc: Global, cause: &Cause) -> Result<String, AllocError>
    ensures { IfOk result (λ words. string_bytes words ≡ cause_text cause.now) }
{
    match cause {
        Cause::NotUtf8(at) => {
            let place = *at as u128 + 1;
            format!(in alloc; "not UTF-8 at byte {place}")
        }
        Cause::Fails(kind) => String::from_str(alloc, kind_words(*kind)),
    }
}

/// The kind of an error in words, as far as files are concerned.
fn kind_words(kind: ErrorKind) -> &'static str
    ensures { result.now ≡ kind_text kind }
{
    match kind {
        ErrorKind::NotFound => "not found",
        ErrorKind::PermissionDenied => "permission denied",
        ErrorKind::IsADirectory => "a directory",
        ErrorKind::NotADirectory => "below a file",
        ErrorKind::FilesystemLoop => "too many links",
        ErrorKind::InvalidFilename => "too long a name",
        ErrorKind::InvalidInput => "no name of a file",
        ErrorKind::ConnectionReset => "connection reset",
        ErrorKind::TimedOut => "timed out",
        ErrorKind::ResourceBusy => "busy",
        _ => "an error of reading",
    }
}

/// The kind of an error in words, as far as files that are written are concerned.
fn written_kind_words(kind: ErrorKind) -> &'static str
    ensures { result.now ≡ written_kind_text kind }
{
    match kind {
        ErrorKind::NotFound => "not found",
        ErrorKind::PermissionDenied => "permission denied",
        ErrorKind::AlreadyExists => "a file of this name and .islec-new is there",
        ErrorKind::StorageFull => "no space",
        ErrorKind::FileTooLarge => "too large",
        ErrorKind::QuotaExceeded => "no space for this user",
        ErrorKind::ReadOnlyFilesystem => "where nothing may be written",
        ErrorKind::InvalidFilename => "too long a name",
        _ => "an error of writing",
    }
}

/// Writes the lines that tell which file can't be read, and why, or a beginning of them where a write fails.
pub fn write_unread<W: Write>(name: &str, cause: &str, output: &mut W) -> Result<(), ServeFault>
    ensures ok { OnOk result (Appends (W.contents output.old) (W.contents output.new) (unread_lines name.now cause.now)) }
    ensures err { OnErr result (AppendsBeginning (W.contents output.old) (W.contents output.new) (unread_lines name.now cause.now)) }
    ensures fault { IfErr result (λ fault. fault ≡ ServeFault.Write) }
{
    write_cause("cannot read ", name, cause, output)
}

/// Writes the lines that tell which file can't be written, and why, or a beginning of them where a write fails.
pub fn write_unwritten<W: Write>(
    name: &str,
    kind: ErrorKind,
    output: &mut W,
) -> Result<(), ServeFault>
    ensures ok { OnOk result (Appends (W.contents output.old) (W.contents output.new) (unwritten_lines name.now kind)) }
    ensures err { OnErr result (AppendsBeginning (W.contents output.old) (W.contents output.new) (unwritten_lines name.now kind)) }
    ensures fault { IfErr result (λ fault. fault ≡ ServeFault.Write) }
{
    write_cause("cannot write ", name, written_kind_words(kind), output)
}

// Writes a line of two parts, and a cause below it, or a beginning of both where a write fails.
fn write_cause<W: Write>(
    first: &str,
    name: &str,
    cause: &str,
    output: &mut W,
) -> Result<(), ServeFault>
    ensures ok { OnOk result (Appends (W.contents output.old) (W.contents output.new)
        (line_of_two first.now name.now ++ line_of_two (codes "  ") cause.now)) }
    ensures err { OnErr result (AppendsBeginning (W.contents output.old) (W.contents output.new)
        (line_of_two first.now name.now ++ line_of_two (codes "  ") cause.now)) }
    ensures fault { IfErr result (λ fault. fault ≡ ServeFault.Write) }
{
    write_line(output, first, name)?;
    write_line(output, "  ", cause)
}

// Writes a line of two parts, or a beginning of it where a write fails.
fn write_line<W: Write>(output: &mut W, first: &str, second: &str) -> Result<(), ServeFault>
    ensures ok { OnOk result (Appends (W.contents output.old) (W.contents output.new) (line_of_two first.now second.now)) }
    ensures err { OnErr result (AppendsBeginning (W.contents output.old) (W.contents output.new) (line_of_two first.now second.now)) }
    ensures fault { IfErr result (λ fault. fault ≡ ServeFault.Write) }
{
    write_text(output, first)?;
    write_text(output, second)?;
    write_text(output, "\n")
}
