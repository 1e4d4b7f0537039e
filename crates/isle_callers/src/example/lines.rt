//! The lines that tell what a query is answered.
ghost use Rattle.std.specs.Prelude.{◌≡◌, ◌++◌, IfOk, OnOk, codes, flat_map, string_bytes};
ghost use Rattle.isle_values.specs.Values.Text.{value_text};
ghost use Rattle.isle_callers.specs.Lines.{answer_text, call_text, effect_line, given_text, reply_text};

use crate::example::query::Reply;
use isle_run::{Answer, Effect, Program, Value};
use std::alloc::{AllocError, Global};

/// The lines of a reply, each ended by a newline.
pub fn lines_of(alloc: Global, program: &Program, reply: &Reply) -> Result<String, AllocError>
    ensures { IfOk result (λ lines. string_bytes lines ≡ reply_text program.now reply.now) }
{
    match reply {
        Reply::Refused(cause) => format!(in alloc; "refused {cause}\n"),
        Reply::Answered(effects, answer) => {
            lines_of_call(alloc, program, effects.as_slice(), answer)
        }
    }
}

/// A line for each effect of a call, and one for its answer.
fn lines_of_call(
    alloc: Global,
    program: &Program,
    effects: &[Effect],
    answer: &Answer,
) -> Result<String, AllocError>
    ensures { IfOk result (λ lines. string_bytes lines
        ≡ flat_map effect_line effects.now ++ (answer_text program.now answer.now ++ codes "\n")) }
{
    let mut lines = String::new(alloc);
    for effect in effects {
        push_effect(alloc, &mut lines, effect)?;
    }
    push_answer(alloc, &mut lines, program, answer)?;
    lines.push_str("\n")?;
    Ok(lines)
}

/// Writes the line `! (TERM ARG ..) ANSWER` behind others.
fn push_effect(alloc: Global, lines: &mut String, effect: &Effect) -> Result<(), AllocError>
    ensures { OnOk result (string_bytes lines.new ≡ string_bytes lines.old ++ effect_line effect.now) }
{
    lines.push_str("! ")?;
    push_call(alloc, lines, effect.term.as_str(), effect.args.as_slice())?;
    lines.push_str(" ")?;
    push_given(alloc, lines, &effect.answer)?;
    lines.push_str("\n")
}

/// Writes what the host answered an effect, `none` where it is nothing.
fn push_given(alloc: Global, lines: &mut String, given: &Option<Value>) -> Result<(), AllocError>
    ensures { OnOk result (string_bytes lines.new ≡ string_bytes lines.old ++ given_text given.now) }
{
    match given {
        Some(value) => push_value(alloc, lines, value),
        None => lines.push_str("none"),
    }
}

/// Writes an answer: a value, `none`, `spent`, or the call at which it is stuck or ill-typed.
fn push_answer(
    alloc: Global,
    lines: &mut String,
    program: &Program,
    answer: &Answer,
) -> Result<(), AllocError>
    ensures { OnOk result (string_bytes lines.new ≡ string_bytes lines.old ++ answer_text program.now answer.now) }
{
    match answer {
        Answer::Value(value) => push_value(alloc, lines, value),
        Answer::None => lines.push_str("none"),
        Answer::Stuck(term, args) => {
            lines.push_str("stuck ")?;
            push_call(alloc, lines, program.name(*term), args.as_slice())
        }
        Answer::Spent => lines.push_str("spent"),
        Answer::IllTyped(term, args) => {
            lines.push_str("ill-typed ")?;
            push_call(alloc, lines, program.name(*term), args.as_slice())
        }
    }
}

/// Writes a call, as `(TERM ARG ..)`, behind a text.
fn push_call(
    alloc: Global,
    lines: &mut String,
    name: &str,
    args: &[Value],
) -> Result<(), AllocError>
    ensures { OnOk result (string_bytes lines.new ≡ string_bytes lines.old ++ call_text name.now args.now) }
{
    lines.push_str("(")?;
    lines.push_str(name)?;
    for arg in args {
        lines.push_str(" ")?;
        push_value(alloc, lines, arg)?;
    }
    lines.push_str(")")
}

/// Writes a value behind a text.
fn push_value(alloc: Global, lines: &mut String, value: &Value) -> Result<(), AllocError>
    ensures { OnOk result (string_bytes lines.new ≡ string_bytes lines.old ++ value_text value.now) }
{
    lines.push_str(value.print(alloc)?.as_str())
}
