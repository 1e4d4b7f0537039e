//! Which rules are chosen while queries are answered, and which are not.
ghost use Rattle.std.specs.Prelude.{◌≡◌, ◌++◌, IfOk, OnOk, string_bytes};
ghost use Rattle.islec.specs.Replies.{choice_line, chosen_text, level_of, trace_lines};

use crate::answer::{Manner, push_call};
use isle_run::{Choice, Program, place_text, spaces};
use isle_syntax::files::Files;
use isle_syntax::lexer::Pos;
use std::alloc::{AllocError, Global};
use std::collections::BTreeSet;

/// The most levels that a line is indented.
const DEEPEST: u32 = 40;

/// The files of a program, and where the rules stand that were chosen so far.
#[derive(Drop)]
pub struct Watch<'a> {
    pub files: &'a Files,
    chosen: BTreeSet<Pos>,
}

impl<'a> Watch<'a> {
    /// No rule was chosen.
    pub fn new(alloc: Global, files: &'a Files) -> Watch<'a>
        ensures { result.files.now ≡ files.now }
    {
        Watch {
            files,
            chosen: BTreeSet::new(alloc),
        }
    }

    /// Keeps the rules of choices, where coverage is asked for.
    pub fn keep(&mut self, manner: Manner, choices: &[Choice]) -> Result<(), AllocError>
        ensures { self.new.files.now ≡ self.old.files.now }
    {
        if !manner.coverage {
            return Ok(());
        }
        for choice in choices {
            if let Some(pos) = choice.rule {
                let _new = self.chosen.insert(pos)?;
            }
        }
        Ok(())
    }

    /// A line `# not chosen FILE:LINE:COLUMN` for each rule of a program that was not chosen, in the order of the texts.
    pub fn unchosen(&self, alloc: Global, program: &Program) -> Result<String, AllocError> {
        let mut text = String::new(alloc);
        for rule in program.rules() {
            if !self.chosen.contains(&rule.pos) {
                push_unchosen(alloc, &mut text, self.files, rule.pos)?;
            }
        }
        Ok(text)
    }
}

/// Writes the line of a rule that was not chosen behind others.
fn push_unchosen(
    alloc: Global,
    lines: &mut String,
    files: &Files,
    pos: Pos,
) -> Result<(), AllocError> {
    let place = place_text(alloc, files, pos)?;
    lines.push_str("# not chosen ")?;
    lines.push_str(place.as_str())?;
    lines.push_str("\n")
}

/// The lines of choices, where a trace is asked for.
pub fn trace_text(
    alloc: Global,
    program: &Program,
    files: &Files,
    manner: Manner,
    choices: &[Choice],
) -> Result<String, AllocError>
    ensures { IfOk result (λ text. string_bytes text ≡ trace_lines program.now files.now manner choices.now) }
{
    let mut lines = String::new(alloc);
    if !manner.trace {
        return Ok(lines);
    }
    for choice in choices {
        push_choice(alloc, &mut lines, program, files, manner.depth, choice)?;
    }
    Ok(lines)
}

/// Writes the line of a choice behind others.
fn push_choice(
    alloc: Global,
    lines: &mut String,
    program: &Program,
    files: &Files,
    depth: u32,
    choice: &Choice,
) -> Result<(), AllocError>
    ensures { OnOk result (string_bytes lines.new ≡ string_bytes lines.old ++ choice_line program.now files.now depth choice.now) }
{
    let margin = spaces(alloc, level_of(depth, choice.depth))?;
    lines.push_str(margin.as_str())?;
    lines.push_str(". ")?;
    push_call(
        alloc,
        lines,
        program.name(choice.term),
        choice.args.as_slice(),
    )?;
    lines.push_str(" -> ")?;
    lines.push_str(chosen_text(alloc, files, choice.rule)?.as_str())?;
    lines.push_str("\n")
}

/// How many levels the line of a call is indented below which so many calls may be open: one for each call around it, but no more than 40.
fn level_of(depth: u32, below: u32) -> usize
    ensures { result ≡ level_of depth below }
{
    let around = depth.saturating_sub(1).saturating_sub(below);
    around.min(DEEPEST) as usize
}

/// Where a rule stands, or `no rule`.
fn chosen_text(alloc: Global, files: &Files, rule: Option<Pos>) -> Result<String, AllocError>
    ensures { IfOk result (λ text. string_bytes text ≡ chosen_text files.now rule) }
{
    match rule {
        Some(pos) => place_text(alloc, files, pos),
        None => String::from_str(alloc, "no rule"),
    }
}
