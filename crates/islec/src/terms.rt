//! What a check writes of an accepted program.
ghost use Rattle.std.specs.Prelude.{IfOk, string_bytes};
ghost use Rattle.isle_calls.specs.TreeCalls.{IsCompiled};
ghost use Rattle.islec.specs.Terms.{TellsRuns, IsTermLine, AreTermLines, TellsProgram, TellsTerms, NotesTypes};

use crate::explain;
use crate::missing::{Judging, calls_text};
use isle_run::{Program, TermId};
use isle_syntax::files::Files;
use std::alloc::{AllocError, Global};

/// What a check tells of accepted files, beside that they are.
#[derive(Clone, Copy)]
pub struct Telling {
    /// Of each term with rules whether it can be run, and its most steps.
    pub terms: bool,
    /// What is likely to be a slip.
    pub warn: bool,
    /// Below a term that can't be run, why.
    pub explain: bool,
    /// Calls that no rule matches, where they are looked for, so.
    pub missing: Option<Judging>,
}

/// Whether a term can be run, in words.
fn runs_word(program: &Program, term: TermId) -> &str
    ensures { TellsRuns program.now term result.now }
{
    if program.runnable(term) {
        " runnable "
    } else {
        " not-runnable "
    }
}

/// The line of a term: its name, whether it can be run, and how many steps its rules take at most; below it why it can't be run, where
/// reasons are asked for.
fn term_line(
    alloc: Global,
    program: &Program,
    explain: bool,
    term: TermId,
) -> Result<String, AllocError>
    ensures { IfOk result (λ line. IsTermLine explain program.now term (string_bytes line)) }
{
    let name = program.name(term);
    let runs = runs_word(program, term);
    let steps = program.steps_at_most(term);
    let mut line = format!(in alloc; "{name}{runs}{steps}\n")?;
    let reason = explain::term_line(alloc, program, explain, term)?;
    line.push_str(reason.as_str())?;
    Ok(line)
}

/// The lines of these terms.
fn term_lines(
    alloc: Global,
    program: &Program,
    explain: bool,
    terms: &[TermId],
) -> Result<String, AllocError>
    ensures { IfOk result (λ lines. AreTermLines explain program.now terms.now (string_bytes lines)) }
{
    let mut lines = String::new(alloc);
    for term in terms {
        let line = term_line(alloc, program, explain, *term)?;
        lines.push_str(line.as_str())?;
    }
    Ok(lines)
}

/// Whether some type has no value, as a line.
fn types_note(program: &Program) -> &str
    ensures { NotesTypes program.now result.now }
{
    if program.inhabited() {
        ""
    } else {
        "some type has no value\n"
    }
}

/// The lines of the terms with rules, where they are asked for.
fn asked_lines(
    alloc: Global,
    program: &Program,
    asked: bool,
    explain: bool,
) -> Result<String, AllocError>
    ensures { IfOk result (λ lines. TellsTerms program.now asked explain (string_bytes lines)) }
{
    if asked {
        term_lines(alloc, program, explain, program.terms_with_rules())
    } else {
        Ok(String::new(alloc))
    }
}

/// What a check writes of an accepted program, with its terms and with calls that no rule matches, where they are asked for.
pub fn program_text(
    alloc: Global,
    program: &Program,
    files: &Files,
    telling: Telling,
) -> Result<String, AllocError>
    requires { IsCompiled program.now }
    ensures { IfOk result (λ text. TellsProgram files.now program.now telling (string_bytes text)) }
{
    let lines = asked_lines(alloc, program, telling.terms, telling.explain)?;
    let calls = calls_text(alloc, program, files, telling.missing)?;
    let mut text = String::from_str(alloc, "accepted\n")?;
    text.push_str(types_note(program))?;
    text.push_str(lines.as_str())?;
    text.push_str(calls.as_str())?;
    Ok(text)
}
