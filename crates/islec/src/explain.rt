//! Why something is refused, on a line below it.
ghost use Rattle.std.specs.Prelude.{◌≡◌, [], true, All, IfOk, string_bytes};
ghost use Rattle.isle_ast.specs.Errors.{IsPrintable};
ghost use Rattle.isle_syntax.specs.Errors.{error_text};
ghost use Rattle.isle_program.specs.Facts.Reach.{IsRunnable};
ghost use Rattle.isle_program.specs.Programs.{types_of, terms_of};
ghost use Rattle.islec.specs.Reasons.{AreOnOneLine, ExplainEach, ExplainsFault, IsReason, ReportsFaults};
ghost use Rattle.islec.specs.Terms.{TellsReason};

use isle_run::reasons::{fault_reasons, query_reason, term_reason, world_reason};
use isle_run::{Program, TermId, WorldFault};
use isle_syntax::error::{Error, Errors};
use isle_syntax::files::Files;
use std::alloc::{AllocError, Global};
use std::rc::Rc;

/// The first line of words.
fn first_line(words: &str) -> &str
    ensures { AreOnOneLine result.now }
{
    match words.split_once('\n') {
        Some((line, _others)) => line,
        None => words,
    }
}

/// Words on a line behind two spaces.
fn line_of(alloc: Global, words: &str) -> Result<String, AllocError>
    ensures { IfOk result (λ line. IsReason true (string_bytes line)) }
{
    let words = first_line(words);
    format!(in alloc; "  {words}\n")
}

/// A reason on a line behind two spaces, or nothing.
fn some_line(alloc: Global, reason: Option<String>) -> Result<String, AllocError>
    ensures { IfOk result (λ line. IsReason true (string_bytes line)) }
{
    match reason {
        Some(words) => line_of(alloc, words.as_str()),
        None => Ok(String::new(alloc)),
    }
}

/// Why a line of input is no text, where reasons are asked for.
pub fn no_text_line(alloc: Global, asked: bool) -> Result<String, AllocError>
    ensures { IfOk result (λ line. IsReason asked (string_bytes line)) }
{
    if asked {
        line_of(alloc, "the line isn't UTF-8")
    } else {
        Ok(String::new(alloc))
    }
}

/// Why a text is no call, where reasons are asked for.
pub fn query_line(
    alloc: Global,
    program: &Program,
    asked: bool,
    text: &str,
) -> Result<String, AllocError>
    ensures { IfOk result (λ line. IsReason asked (string_bytes line)) }
{
    if asked {
        some_line(alloc, query_reason(alloc, program, text)?)
    } else {
        Ok(String::new(alloc))
    }
}

/// Why a world is refused, where reasons are asked for.
pub fn world_line(
    alloc: Global,
    program: &Program,
    asked: bool,
    text: &str,
    fault: &WorldFault,
) -> Result<String, AllocError>
    ensures { IfOk result (λ line. IsReason asked (string_bytes line)) }
{
    if asked {
        some_line(alloc, world_reason(alloc, program, text, fault)?)
    } else {
        Ok(String::new(alloc))
    }
}

/// Why a term can't be run, where it can't and reasons are asked for.
pub fn term_line(
    alloc: Global,
    program: &Program,
    asked: bool,
    term: TermId,
) -> Result<String, AllocError>
    ensures { IfOk result (λ line. TellsReason asked program.now term (string_bytes line)) }
{
    if asked && !program.runnable(term) {
        some_line(alloc, term_reason(alloc, program, term)?)
    } else {
        Ok(String::new(alloc))
    }
}

/// What is printed of faults: their report, or each fault with its reason below it where reasons are asked for.
pub fn faults_text(alloc: Global, asked: bool, errors: &Errors) -> Result<String, AllocError>
    ensures { IfOk result (λ text. ReportsFaults asked errors.now (string_bytes text)) }
{
    if asked {
        let reasons = fault_reasons(alloc, errors)?;
        fault_lines(alloc, errors.files(), errors.errors(), reasons.as_slice())
    } else {
        errors.to_string(alloc)
    }
}

/// The lines of faults, each with its reason below it.
fn fault_lines(
    alloc: Global,
    files: &Rc<Files>,
    faults: &[Error],
    reasons: &[Option<String>],
) -> Result<String, AllocError>
    requires { All (IsPrintable files.now.value) faults.now }
    ensures { IfOk result (λ lines. ExplainEach files.now.value faults.now (string_bytes lines)) }
{
    let mut lines = String::new(alloc);
    for place in 0..faults.len() {
        let line = fault_line(alloc, files, &faults[place], reasons.get(place))?;
        lines.push_str(line.as_str())?;
    }
    Ok(lines)
}

/// The lines of a fault, and its reason below them.
fn fault_line(
    alloc: Global,
    files: &Rc<Files>,
    fault: &Error,
    reason: Option<&Option<String>>,
) -> Result<String, AllocError>
    requires { IsPrintable files.now.value fault.now }
    ensures { IfOk result (λ line. ExplainsFault files.now.value fault.now (string_bytes line)) }
{
    let mut line = fault_report(alloc, files, fault)?;
    let below = reason_line(alloc, reason)?;
    line.push_str(below.as_str())?;
    Ok(line)
}

/// The lines of a fault alone.
fn fault_report(alloc: Global, files: &Rc<Files>, fault: &Error) -> Result<String, AllocError>
    requires { IsPrintable files.now.value fault.now }
    ensures { IfOk result (λ lines. string_bytes lines ≡ error_text files.now.value fault.now) }
{
    let alone = vec![in alloc; copy_of(fault)?]?;
    let report = Errors::new(alone, files.clone()?);
    report.to_string(alloc)
}

/// A copy of a fault.
fn copy_of(fault: &Error) -> Result<Error, AllocError>
    ensures { IfOk result (λ copy. copy ≡ fault.now) }
{
    match fault {
        Error::ParseError { msg, span } => Ok(Error::ParseError {
            msg: msg.clone()?,
            span: span.clone()?,
        }),
        Error::TypeError { msg, span } => Ok(Error::TypeError {
            msg: msg.clone()?,
            span: span.clone()?,
        }),
        Error::UnreachableError { msg, span } => Ok(Error::UnreachableError {
            msg: msg.clone()?,
            span: span.clone()?,
        }),
        Error::OverlapError { msg, rules } => Ok(Error::OverlapError {
            msg: msg.clone()?,
            rules: rules.clone()?,
        }),
        Error::ShadowedError { shadowed, mask } => Ok(Error::ShadowedError {
            shadowed: shadowed.clone()?,
            mask: mask.clone()?,
        }),
        Error::SizeError { msg, span } => Ok(Error::SizeError {
            msg: msg.clone()?,
            span: span.clone()?,
        }),
    }
}

/// A reason on a line behind two spaces, where there is one.
fn reason_line(alloc: Global, reason: Option<&Option<String>>) -> Result<String, AllocError>
    ensures { IfOk result (λ line. IsReason true (string_bytes line)) }
{
    match reason {
        Some(Some(words)) => line_of(alloc, words.as_str()),
        _ => Ok(String::new(alloc)),
    }
}
