//! What is printed of a tree. Its lines are written one after another, so that no stack is needed for how deep it nests.
ghost use Rattle.std.specs.Prelude.{◌≡◌, ◌++◌, ◌+◌, [], List, IfOk, OnOk, string_bytes};
ghost use Rattle.std.specs.Option.{option_map_or};
ghost use Rattle.isle_blocks.specs.Rows.{numbers_of};
ghost use Rattle.isle_blocks.specs.Trees.Nodes.{fields_of};
ghost use Rattle.isle_blocks.specs.Trees.Views.{shown_steps};
ghost use Rattle.isle_tell.specs.TreeTexts.Steps.{arm_line, bind_line, result_text, steps_text};
ghost use Rattle.isle_ast.specs.Positions.Files.{SourceFile};
ghost use Rattle.isle_blocks.specs.declared.rule.Rule.{Rule as RuleShown};
ghost use Rattle.isle_program.specs.declared.program.Program.{Program as ProgramShown};
ghost use Rattle.isle_tell.specs.declared.trees.steps.Part.TheVariants.{Arms as parts_of_arms, Steps as parts_of_steps};
ghost use Rattle.isle_tell.specs.Inside.TreeTexts.Parts.{PrintsPiece, behind_text, check_line, part_pieces, part_text, pieces_behind};

use crate::trees::names::{place_text, spaced, spaced_fields, spaces};
use crate::trees::sites::test_text;
use isle_ast::files::Files;
use isle_blocks::{Arms, BindingId, ControlFlow, EvalStep, MatchArm, Rule, Steps};
use isle_program::Program;
use std::alloc::{AllocError, Global};

/// What is still to be printed, each at a level of its own.
#[derive(Clone, Copy)]
pub(crate) enum Part<'a> {
    Steps(usize, Steps<'a>),
    Arms(usize, Arms<'a>),
}

/// The line of the sites that a step binds.
fn bind_line(alloc: Global, level: usize, binds: &[BindingId]) -> Result<String, AllocError>
    ensures { IfOk result (λ text. string_bytes text ≡ bind_line level (numbers_of binds.now)) }
{
    let indent = spaces(alloc, level)?;
    let sites = spaced(alloc, binds)?;
    format!(in alloc; "{indent}step bind [{sites}]\n")
}

/// The line of a check.
fn check_line(
    alloc: Global,
    files: &Files,
    rules: &[Rule],
    level: usize,
    check: ControlFlow<'_>,
) -> Result<String, AllocError>
    ensures { IfOk result (λ text. string_bytes text ≡ check_line files.now rules.now level check.entry) }
{
    let indent = spaces(alloc, level)?;
    match check {
        ControlFlow::Match { source, .. } => {
            let source = source.index();
            format!(in alloc; "{indent}match {source}\n")
        }
        ControlFlow::Equal { a, b, .. } => {
            let (a, b) = (a.index(), b.index());
            format!(in alloc; "{indent}equal {a} {b}\n")
        }
        ControlFlow::Loop { result, .. } => {
            let result = result.index();
            format!(in alloc; "{indent}loop {result}\n")
        }
        ControlFlow::Return { rule, .. } => {
            let returned = return_text(alloc, files, rules.get(rule))?;
            format!(in alloc; "{indent}return {returned}\n")
        }
    }
}

/// The result and the place of a rule that returns.
fn return_text(alloc: Global, files: &Files, rule: Option<&Rule>) -> Result<String, AllocError>
    ensures { IfOk result (λ text. string_bytes text ≡ option_map_or (λ found. result_text files.now found.now) rule.entry []) }
{
    let Some(rule) = rule else {
        return Ok(String::new(alloc));
    };
    let result = rule.result.index();
    let place = place_text(alloc, files, rule.pos)?;
    format!(in alloc; "{result} from {place}")
}

/// The line of an arm.
fn arm_line(
    alloc: Global,
    program: &Program,
    level: usize,
    arm: MatchArm<'_>,
) -> Result<String, AllocError>
    ensures { IfOk result (λ text. string_bytes text ≡ arm_line program.now level arm.entry.constraint (fields_of arm.entry.bindings.now)) }
{
    let indent = spaces(alloc, level)?;
    let test = test_text(alloc, program, &arm.constraint)?;
    let fields = spaced_fields(alloc, arm.bindings)?;
    format!(in alloc; "{indent}arm {test} [{fields}]\n")
}

/// What is behind a check, if anything is.
fn part_behind<'a>(level: usize, check: ControlFlow<'a>) -> Option<Part<'a>>
    ensures text { (program : ProgramShown) (files : List SourceFile) (rules : List RuleShown)
        → option_map_or (part_text program files rules) result [] ≡ behind_text program files rules level check.entry }
    ensures pieces { option_map_or part_pieces result 0 ≡ pieces_behind check.entry }
{
    match check {
        ControlFlow::Match { arms, .. } => Some(Part::Arms(level, arms)),
        ControlFlow::Equal { body, .. } => Some(Part::Steps(level, body)),
        ControlFlow::Loop { body, .. } => Some(Part::Steps(level, body)),
        ControlFlow::Return { .. } => None,
    }
}

/// Prints the two lines of a step.
fn push_step(
    alloc: Global,
    files: &Files,
    rules: &[Rule],
    level: usize,
    step: EvalStep<'_>,
    text: &mut String,
) -> Result<(), AllocError>
    ensures { OnOk result (string_bytes text.new ≡ string_bytes text.old
        ++ (bind_line level (numbers_of step.entry.bind_order.now) ++ check_line files.now rules.now (level + 1) step.entry.check)) }
{
    let below = level.checked_add(1).ok_or(AllocError)?;
    let binds = bind_line(alloc, level, step.bind_order)?;
    let check = check_line(alloc, files, rules, below, step.check)?;
    text.push_str(binds.as_str())?;
    text.push_str(check.as_str())
}

/// Prints the first step of steps. What is behind its check is left, and the steps after it.
fn advance_steps<'a>(
    alloc: Global,
    files: &Files,
    rules: &[Rule],
    level: usize,
    steps: Steps<'a>,
    parts: &mut Vec<Part<'a>>,
    text: &mut String,
) -> Result<(), AllocError>
    ensures { (program : ProgramShown) → OnOk result (PrintsPiece program files.now rules.now (parts_of_steps level steps.entry)
        parts.old.items parts.new.items text.old text.new) }
{
    let Some((step, rest)) = steps.next() else {
        return Ok(());
    };
    let below = level.checked_add(2).ok_or(AllocError)?;
    push_step(alloc, files, rules, level, step, text)?;
    parts.push(Part::Steps(level, rest))?;
    if let Some(behind) = part_behind(below, step.check) {
        parts.push(behind)?;
    }
    Ok(())
}

/// Prints the line of the first arm of arms. Its steps are left, and the arms after it.
fn advance_arms<'a>(
    alloc: Global,
    program: &Program,
    level: usize,
    arms: Arms<'a>,
    parts: &mut Vec<Part<'a>>,
    text: &mut String,
) -> Result<(), AllocError>
    ensures { (files : List SourceFile) (rules : List RuleShown) → OnOk result (PrintsPiece program.now files rules (parts_of_arms level arms.entry)
        parts.old.items parts.new.items text.old text.new) }
{
    let Some((arm, rest)) = arms.next() else {
        return Ok(());
    };
    let below = level.checked_add(1).ok_or(AllocError)?;
    let line = arm_line(alloc, program, level, arm)?;
    text.push_str(line.as_str())?;
    parts.push(Part::Arms(level, rest))?;
    parts.push(Part::Steps(below, arm.body))?;
    Ok(())
}

/// Prints a piece of a part; the rest of it is left.
fn advance<'a>(
    alloc: Global,
    program: &Program,
    files: &Files,
    rules: &[Rule],
    part: Part<'a>,
    parts: &mut Vec<Part<'a>>,
    text: &mut String,
) -> Result<(), AllocError>
    ensures { OnOk result (PrintsPiece program.now files.now rules.now part.entry parts.old.items parts.new.items text.old text.new) }
{
    match part {
        Part::Steps(level, steps) => advance_steps(alloc, files, rules, level, steps, parts, text),
        Part::Arms(level, arms) => advance_arms(alloc, program, level, arms, parts, text),
    }
}

/// The lines of steps, and of what is behind them.
pub(crate) fn steps_text(
    alloc: Global,
    program: &Program,
    files: &Files,
    rules: &[Rule],
    steps: Steps<'_>,
) -> Result<String, AllocError>
    ensures { IfOk result (λ text. string_bytes text ≡ steps_text program.now files.now rules.now 2 (shown_steps steps.entry).tree) }
{
    let mut text = String::new(alloc);
    let mut parts = Vec::new(alloc);
    parts.push(Part::Steps(2, steps))?;
    'parts: while let Some(part) = parts.pop() {
        advance(alloc, program, files, rules, part, &mut parts, &mut text)?;
    }
    Ok(text)
}
