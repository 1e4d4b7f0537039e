//! The lines that answer a query.
ghost use Rattle.std.specs.Prelude.{◌≡◌, ◌++◌, ℕ, Bool, List, Some, IfOk, OnOk, OnErr, IsUtf8, string_bytes};
ghost use Rattle.std.specs.List.{flat_map};
ghost use Rattle.isle_meaning.specs.GroundValues.{values_of};
ghost use Rattle.isle_meaning.specs.ValueTypes.{AreOfTypes};
ghost use Rattle.isle_meaning.specs.Worlds.{Event};
ghost use Rattle.isle_rules.specs.Values.{value_list};
ghost use Rattle.isle_calls.specs.Calls.Answers.{answers_in, HasMade};
ghost use Rattle.isle_program.specs.Facts.Reach.{IsRunnable};
ghost use Rattle.isle_program.specs.Meanings.{checked};
ghost use Rattle.isle_program.specs.Programs.{types_of, terms_of, types_taken, value_facts};
ghost use Rattle.isle_calls.specs.TreeCalls.{IsCompiled};
ghost use Rattle.isle_values.specs.Values.Text.{value_text};
ghost use Rattle.islec.specs.Reasons.{IsReason, depth_line};
ghost use Rattle.islec.specs.Replies.{BeginsBy, TellsBy, steps_line, setting_in, Refuses, IsReply, AnswersCall, BeginsCall, LosesReply, effect_line, answer_line, answer_text, call_text, given_text, cause_number, counts_as_refused};

use crate::explain::{no_text_line, query_line};
use crate::watch::{Watch, trace_text};
use isle_run::{
    Answer, Called, Choice, Effect, Program, QueryFault, TermId, Value, World, call, call_plain,
    is_blank, query, trace, trace_plain,
};
use std::alloc::{AllocError, Global};

/// How queries are answered.
#[derive(Clone, Copy)]
pub struct Manner {
    /// How many calls of terms with rules may be open at once.
    pub depth: u32,
    /// Whether a term's rules are tried one by one. Else the term's tree is walked.
    pub plain: bool,
    /// Whether each answer is followed by a line that tells how many steps its call took.
    pub steps: bool,
    /// Whether before each answer a line tells which rule was chosen for its call, and one for each call below it.
    pub trace: bool,
    /// Whether behind all answers the rules are told that no call chose.
    pub coverage: bool,
    /// Whether behind all answers the calls are told for which the world has no entry of their own.
    pub unanswered: bool,
    /// Whether below what is refused or spent a line tells why.
    pub explain: bool,
}

/// What a line of input is answered.
#[derive(Drop)]
pub struct Reply {
    /// The lines to write, each ended by a newline.
    pub lines: String,
    /// Whether the line was refused, stuck, spent or ill-typed.
    pub refused: bool,
}

/// Answers a line of input, given without its newline, by a compiled program (its condition). It has no lines where it has no tokens.
pub fn reply_to<V: World>(
    alloc: Global,
    program: &Program,
    world: &mut V,
    manner: Manner,
    watch: &mut Watch<'_>,
    line: &[u8],
) -> Result<Reply, AllocError>
    requires { IsCompiled program.now }
    ensures not_text { ¬ (IsUtf8 line.now) → IfOk result (Refuses manner.explain 4) }
    ensures reply { IfOk result (λ reply. IsReply
        (setting_in V.step program.now watch.old.files.now (V.constructs world.old) (V.extracts world.old) manner)
        world.old line.now (string_bytes reply.lines) reply.refused world.new) }
    ensures lost { OnErr result (LosesReply (setting_in V.step program.now watch.old.files.now (V.constructs world.old) (V.extracts world.old) manner)
        world.old line.now world.new) }
    ensures same { (V.constructs world.new ≡ V.constructs world.old) × (V.extracts world.new ≡ V.extracts world.old) }
    ensures files { watch.new.files.now ≡ watch.old.files.now }
{
    let Ok(text) = str::from_utf8(line) else {
        return refused(alloc, 4, no_text_line(alloc, manner.explain)?.as_str());
    };
    if is_blank(alloc, text)? {
        return Ok(Reply {
            lines: String::new(alloc),
            refused: false,
        });
    }
    match query(alloc, program, text) {
        Ok((term, args)) => reply_to_call(alloc, program, world, manner, watch, term, args),
        Err(fault) => refuse_query(alloc, program, manner.explain, text, &fault),
    }
}

/// Refuses a text for a fault, with its reason where reasons are asked for.
fn refuse_query(
    alloc: Global,
    program: &Program,
    explain: bool,
    text: &str,
    fault: &QueryFault,
) -> Result<Reply, AllocError>
    ensures { IfOk result (λ reply. (cause : ℕ) × (cause_number fault.now ≡ Some cause) × Refuses explain cause reply) }
{
    let Some(cause) = cause_of(fault) else {
        return Err(AllocError);
    };
    let reason = query_line(alloc, program, explain, text)?;
    refused(alloc, cause, reason.as_str())
}

/// The number of a cause; none where memory ran out.
fn cause_of(fault: &QueryFault) -> Option<u8>
    ensures { result ≡ cause_number fault.now }
{
    match fault {
        QueryFault::Q1 => Some(1),
        QueryFault::Q2 => Some(2),
        QueryFault::Q3 => Some(3),
        QueryFault::Q4 => Some(4),
        QueryFault::Memory(_) => None,
    }
}

/// Refuses for a cause, and tells a reason below that.
fn refused(alloc: Global, cause: u8, reason: &str) -> Result<Reply, AllocError>
    ensures { (asked : Bool) → IsReason asked reason.now → IfOk result (Refuses asked cause) }
{
    Ok(Reply {
        lines: format!(in alloc; "refused {cause}\n{reason}")?,
        refused: true,
    })
}

fn reply_to_call<V: World>(
    alloc: Global,
    program: &Program,
    world: &mut V,
    manner: Manner,
    watch: &mut Watch<'_>,
    term: TermId,
    args: Vec<Value>,
) -> Result<Reply, AllocError>
    requires compiled { IsCompiled program.now }
    requires callable { IsRunnable (types_of program.now) (terms_of program.now) term.0 }
    requires typed { AreOfTypes (value_facts program.now) (value_list args.items) (types_taken program.now term) }
    ensures answers { IfOk result (λ reply. AnswersCall
        (setting_in V.step program.now watch.old.files.now (V.constructs world.old) (V.extracts world.old) manner)
        world.old term (value_list args.items) (string_bytes reply.lines) reply.refused world.new) }
    ensures lost { OnErr result (BeginsCall (setting_in V.step program.now watch.old.files.now (V.constructs world.old) (V.extracts world.old) manner)
        world.old term (value_list args.items) world.new) }
    ensures same { (V.constructs world.new ≡ V.constructs world.old) × (V.extracts world.new ≡ V.extracts world.old) }
    ensures files { watch.new.files.now ≡ watch.old.files.now }
{
    let mut effects = Vec::new(alloc);
    let told = answer_by(alloc, program, world, manner, term, args, &mut effects)?;
    let choices = told.1.as_slice();
    watch.keep(manner, choices)?;
    let mut lines = trace_text(alloc, program, watch.files, manner, choices)?;
    push_reply(
        alloc,
        &mut lines,
        program,
        manner,
        effects.as_slice(),
        &told.0,
    )?;
    Ok(Reply {
        lines,
        refused: is_refused(&told.0.answer),
    })
}

/// Writes the lines of effects and of the answer behind them, and those of its depth and its steps where they are asked for.
fn push_reply(
    alloc: Global,
    lines: &mut String,
    program: &Program,
    manner: Manner,
    effects: &[Effect],
    called: &Called,
) -> Result<(), AllocError>
    ensures { OnOk result (string_bytes lines.new ≡ string_bytes lines.old ++ (flat_map effect_line effects.now
        ++ (answer_line program.now called.now.answer ++ (depth_line manner called.now.answer ++ steps_line manner.steps called.now.steps)))) }
{
    for effect in effects {
        push_effect(alloc, lines, effect)?;
    }
    push_answer(alloc, lines, program, &called.answer)?;
    push_depth(alloc, lines, manner, &called.answer)?;
    push_steps(alloc, lines, manner.steps, called.steps)?;
    Ok(())
}

/// Answers a call by the road that is asked for, with the rules that are chosen where these are asked for.
fn answer_by<V: World>(
    alloc: Global,
    program: &Program,
    world: &mut V,
    manner: Manner,
    term: TermId,
    args: Vec<Value>,
    effects: &mut Vec<Effect>,
) -> Result<(Called, Vec<Choice>), AllocError>
    requires compiled { IsCompiled program.now }
    requires callable { IsRunnable (types_of program.now) (terms_of program.now) term.0 }
    requires typed { AreOfTypes (checked program.now).values (value_list args.items) ((checked program.now).terms.inputs term.0) }
    ensures ran { IfOk result (λ told. (made : List Event)
        × HasMade V.step program.now world.old effects.old.items world.new effects.new.items made
        × TellsBy manner.plain program.now (answers_in program.now (V.constructs world.old) (V.extracts world.old)) manner.depth term.0
        (values_of (checked program.now).values (value_list args.items)) told.0 made) }
    ensures lost { OnErr result ((made : List Event)
        × HasMade V.step program.now world.old effects.old.items world.new effects.new.items made
        × BeginsBy manner.plain program.now (answers_in program.now (V.constructs world.old) (V.extracts world.old)) manner.depth term.0
        (values_of (checked program.now).values (value_list args.items)) made) }
    ensures same { (V.constructs world.new ≡ V.constructs world.old) × (V.extracts world.new ≡ V.extracts world.old) }
{
    if manner.trace || manner.coverage {
        return trace_by(alloc, program, world, manner, term, args, effects);
    }
    let called = call_by(alloc, program, world, manner, term, args, effects)?;
    Ok((called, Vec::new(alloc)))
}

/// Answers a call by the road that is asked for, with the rules that are chosen.
fn trace_by<V: World>(
    alloc: Global,
    program: &Program,
    world: &mut V,
    manner: Manner,
    term: TermId,
    args: Vec<Value>,
    effects: &mut Vec<Effect>,
) -> Result<(Called, Vec<Choice>), AllocError>
    requires compiled { IsCompiled program.now }
    requires callable { IsRunnable (types_of program.now) (terms_of program.now) term.0 }
    requires typed { AreOfTypes (checked program.now).values (value_list args.items) ((checked program.now).terms.inputs term.0) }
    ensures ran { IfOk result (λ told. (made : List Event)
        × HasMade V.step program.now world.old effects.old.items world.new effects.new.items made
        × TellsBy manner.plain program.now (answers_in program.now (V.constructs world.old) (V.extracts world.old)) manner.depth term.0
        (values_of (checked program.now).values (value_list args.items)) told.0 made) }
    ensures lost { OnErr result ((made : List Event)
        × HasMade V.step program.now world.old effects.old.items world.new effects.new.items made
        × BeginsBy manner.plain program.now (answers_in program.now (V.constructs world.old) (V.extracts world.old)) manner.depth term.0
        (values_of (checked program.now).values (value_list args.items)) made) }
    ensures same { (V.constructs world.new ≡ V.constructs world.old) × (V.extracts world.new ≡ V.extracts world.old) }
{
    if manner.plain {
        trace_plain(alloc, program, term, args, manner.depth, world, effects)
    } else {
        trace(alloc, program, term, args, manner.depth, world, effects)
    }
}

/// Answers a call by the road that is asked for.
fn call_by<V: World>(
    alloc: Global,
    program: &Program,
    world: &mut V,
    manner: Manner,
    term: TermId,
    args: Vec<Value>,
    effects: &mut Vec<Effect>,
) -> Result<Called, AllocError>
    requires compiled { IsCompiled program.now }
    requires callable { IsRunnable (types_of program.now) (terms_of program.now) term.0 }
    requires typed { AreOfTypes (checked program.now).values (value_list args.items) ((checked program.now).terms.inputs term.0) }
    ensures ran { IfOk result (λ called. (made : List Event)
        × HasMade V.step program.now world.old effects.old.items world.new effects.new.items made
        × TellsBy manner.plain program.now (answers_in program.now (V.constructs world.old) (V.extracts world.old)) manner.depth term.0
        (values_of (checked program.now).values (value_list args.items)) called made) }
    ensures lost { OnErr result ((made : List Event)
        × HasMade V.step program.now world.old effects.old.items world.new effects.new.items made
        × BeginsBy manner.plain program.now (answers_in program.now (V.constructs world.old) (V.extracts world.old)) manner.depth term.0
        (values_of (checked program.now).values (value_list args.items)) made) }
    ensures same { (V.constructs world.new ≡ V.constructs world.old) × (V.extracts world.new ≡ V.extracts world.old) }
{
    if manner.plain {
        call_plain(alloc, program, term, args, manner.depth, world, effects)
    } else {
        call(alloc, program, term, args, manner.depth, world, effects)
    }
}

/// Whether an answer counts as refused.
fn is_refused(answer: &Answer) -> bool
    ensures { result ≡ counts_as_refused answer.now }
{
    match answer {
        Answer::Value(_) | Answer::None => false,
        Answer::Stuck(_, _) | Answer::Spent | Answer::IllTyped(_, _) => true,
    }
}

/// Writes the line `! (TERM ARG ..) ANSWER` behind others.
fn push_effect(alloc: Global, lines: &mut String, effect: &Effect) -> Result<(), AllocError>
    ensures { OnOk result (string_bytes lines.new ≡ string_bytes lines.old ++ effect_line effect.now) }
{
    lines.push_str("! ")?;
    push_call(alloc, lines, effect.term.as_str(), effect.args.as_slice())?;
    lines.push_str(" ")?;
    push_given(alloc, lines, &effect.answer)?;
    lines.push_str("\n")
}

/// Writes what an external function answered, `none` where it is nothing.
fn push_given(alloc: Global, lines: &mut String, given: &Option<Value>) -> Result<(), AllocError>
    ensures { OnOk result (string_bytes lines.new ≡ string_bytes lines.old ++ given_text given.now) }
{
    match given {
        Some(value) => push_value(alloc, lines, value),
        None => lines.push_str("none"),
    }
}

/// Writes the line of an answer behind others.
fn push_answer(
    alloc: Global,
    lines: &mut String,
    program: &Program,
    answer: &Answer,
) -> Result<(), AllocError>
    ensures { OnOk result (string_bytes lines.new ≡ string_bytes lines.old ++ answer_line program.now answer.now) }
{
    push_answer_text(alloc, lines, program, answer)?;
    lines.push_str("\n")
}

/// Writes the line that tells the depth behind others, where the answer is spent and reasons are asked for.
fn push_depth(
    alloc: Global,
    lines: &mut String,
    manner: Manner,
    answer: &Answer,
) -> Result<(), AllocError>
    ensures { OnOk result (string_bytes lines.new ≡ string_bytes lines.old ++ depth_line manner answer.now) }
{
    match answer {
        Answer::Spent if manner.explain => {
            let depth = manner.depth;
            let line = format!(in alloc;
                "  --depth is {depth}: so many calls may be open at once\n"
            )?;
            lines.push_str(line.as_str())
        }
        Answer::Value(_)
        | Answer::None
        | Answer::Stuck(_, _)
        | Answer::Spent
        | Answer::IllTyped(_, _) => Ok(()),
    }
}

/// Writes the line `# steps N` behind others where it is asked for.
fn push_steps(alloc: Global, lines: &mut String, asked: bool, steps: u128) -> Result<(), AllocError>
    ensures { OnOk result (string_bytes lines.new ≡ string_bytes lines.old ++ steps_line asked steps) }
{
    if asked {
        let line = format!(in alloc; "# steps {steps}\n")?;
        lines.push_str(line.as_str())
    } else {
        Ok(())
    }
}

fn push_answer_text(
    alloc: Global,
    lines: &mut String,
    program: &Program,
    answer: &Answer,
) -> Result<(), AllocError>
    ensures { OnOk result (string_bytes lines.new ≡ string_bytes lines.old ++ answer_text program.now answer.now) }
{
    match answer {
        Answer::Value(value) => push_value(alloc, lines, value),
        Answer::None => lines.push_str("none"),
        Answer::Stuck(term, args) => {
            lines.push_str("stuck ")?;
            push_call(alloc, lines, program.name(*term), args.as_slice())
        }
        Answer::Spent => lines.push_str("spent"),
        Answer::IllTyped(term, args) => {
            lines.push_str("ill-typed ")?;
            push_call(alloc, lines, program.name(*term), args.as_slice())
        }
    }
}

/// Writes a call, as `(TERM ARG ..)`, behind a text.
pub(crate) fn push_call(
    alloc: Global,
    lines: &mut String,
    name: &str,
    args: &[Value],
) -> Result<(), AllocError>
    ensures { OnOk result (string_bytes lines.new ≡ string_bytes lines.old ++ call_text name.now args.now) }
{
    lines.push_str("(")?;
    lines.push_str(name)?;
    for arg in args {
        lines.push_str(" ")?;
        push_value(alloc, lines, arg)?;
    }
    lines.push_str(")")
}

/// Writes a value behind a text.
pub(crate) fn push_value(alloc: Global, lines: &mut String, value: &Value) -> Result<(), AllocError>
    ensures { OnOk result (string_bytes lines.new ≡ string_bytes lines.old ++ value_text value.now) }
{
    lines.push_str(value.print(alloc)?.as_str())
}
