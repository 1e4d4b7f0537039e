//! The text of one error.
ghost use Rattle.std.specs.Prelude.{All};
ghost use Rattle.std.specs.Fmt.{WritesOnOk};
ghost use Rattle.isle_ast.specs.Errors.{IsPrintableSpan, IsPrintable};
ghost use Rattle.isle_syntax.specs.Errors.{place_text, indented_lines, heading, fault_text, rules_text, error_text};

use isle_ast::Text;
use isle_ast::error::{Error, Span};
use isle_ast::files::Files;
use std::fmt;
use std::fmt::Formatter;

// What is printed of an error.
pub fn write_error<W: fmt::Write>(f: &mut Formatter<W>, files: &Files, error: &Error) -> fmt::Result
    requires { IsPrintable files.now error.now }
    ensures { WritesOnOk W.write_str_gives f.old result (error_text files.now error.now) f.new }
{
    match error {
        Error::ParseError { msg, span } => write_fault(f, files, span, "parse error", msg),
        Error::TypeError { msg, span } => write_fault(f, files, span, "type error", msg),
        Error::UnreachableError { msg, span } => {
            write_fault(f, files, span, "unreachable rule", msg)
        }
        Error::OverlapError { msg: _, rules } => {
            let rules = rules.as_slice();
            write_rules(f, files, &rules[0], "overlapping rules", &rules[1..])
        }
        Error::ShadowedError { shadowed, mask } => {
            write_rules(f, files, mask, "shadowing rule", shadowed.as_slice())
        }
        Error::SizeError { msg, span } => write_fault(f, files, span, "too large", msg),
    }
}

// The heading, and the message below it.
fn write_fault<W: fmt::Write>(
    f: &mut Formatter<W>,
    files: &Files,
    span: &Span,
    kind: &str,
    msg: &Text,
) -> fmt::Result
    requires { IsPrintableSpan files.now span.now }
    ensures { WritesOnOk W.write_str_gives f.old result
        (fault_text files.now span.now kind.now msg.now) f.new }
{
    write_heading(f, files, span, kind)?;
    write_lines(f, msg.as_str())
}

// Each line of a text on a line of its own, after two spaces.
fn write_lines<W: fmt::Write>(f: &mut Formatter<W>, text: &str) -> fmt::Result
    ensures { WritesOnOk W.write_str_gives f.old result (indented_lines text.now) f.new }
{
    let mut left = text;
    'lines: while let Some((line, others)) = left.split_once('\n') {
        writeln!(f, "  {line}")?;
        left = others;
    }
    writeln!(f, "  {left}")
}

// The heading, and the places of further rules below it.
fn write_rules<W: fmt::Write>(
    f: &mut Formatter<W>,
    files: &Files,
    span: &Span,
    kind: &str,
    others: &[Span],
) -> fmt::Result
    requires here { IsPrintableSpan files.now span.now }
    requires there { All (IsPrintableSpan files.now) others.now }
    ensures { WritesOnOk W.write_str_gives f.old result
        (rules_text files.now span.now kind.now others.now) f.new }
{
    write_heading(f, files, span, kind)?;
    for rule in others {
        f.write_str("  ")?;
        write_place(f, files, rule)?;
        f.write_str("\n")?;
    }
    Ok(())
}

// The line `FILE:LINE:COLUMN: KIND`.
fn write_heading<W: fmt::Write>(
    f: &mut Formatter<W>,
    files: &Files,
    span: &Span,
    kind: &str,
) -> fmt::Result
    requires { IsPrintableSpan files.now span.now }
    ensures { WritesOnOk W.write_str_gives f.old result
        (heading files.now span.now kind.now) f.new }
{
    write_place(f, files, span)?;
    writeln!(f, ": {kind}")
}

// `FILE:LINE:COLUMN` of the start of a span.
fn write_place<W: fmt::Write>(f: &mut Formatter<W>, files: &Files, span: &Span) -> fmt::Result
    requires { IsPrintableSpan files.now span.now }
    ensures { WritesOnOk W.write_str_gives f.old result (place_text files.now span.now) f.new }
{
    let file = files.file(span.from.file).unwrap();
    let name = file.name();
    let line = file.line(span.from.offset);
    let column = file.column(span.from.offset);
    write!(f, "{name}:{line}:{column}")
}
