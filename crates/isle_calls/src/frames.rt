//! Calls of terms with rules that are open: one runs, and each of the others waits for the next.
ghost use Rattle.std.specs.Prelude.{◌≡◌, ◌++◌, List, IfOk, OnErr, reverse};
ghost use Rattle.isle_types.specs.declared.ids.TermId.{TermId as TermNumber};
ghost use Rattle.isle_meaning.specs.GroundValues.{AreValuesOf};
ghost use Rattle.isle_meaning.specs.Outcomes.{Outcome, given, missing};
ghost use Rattle.isle_meaning.specs.Values.{Value as MeantValue, Values};
ghost use Rattle.isle_meaning.specs.Worlds.{Event};
ghost use Rattle.isle_calls.specs.declared.frames.Advanced.TheVariants.{Is};
ghost use Rattle.isle_calls.specs.declared.store.Stored.{Stored};
ghost use Rattle.isle_calls.specs.Calls.Answers.{TellsOutcome};
ghost use Rattle.isle_calls.specs.Calls.Open.{CallOf};
ghost use Rattle.isle_calls.specs.Inside.Calls.Stacks.{AreStacked, GoesOn, first_steps};
ghost use Rattle.isle_calls.specs.Calls.States.{host, state, answers_of, Makes, IsOpenIn, HasGoneOn};
ghost use Rattle.isle_calls.specs.Calls.Ways.{Below, Comes, HasBegun, IsReady, AdvancesBy, UnmatchedIs};
ghost use Rattle.isle_program.specs.Meanings.{checked};
ghost use Rattle.isle_calls.specs.Stores.Values.{Stands, StandEach};

use crate::answer::{Answer, Called, Effect};
use crate::roads::Road;
use crate::store::Store;
use isle_program::Program;
use isle_types::TermId;
use isle_values::{Value, World};
use std::alloc::{AllocError, Global};

/// What the frame of a call comes to.
#[derive(Drop)]
pub enum Advanced {
    /// The value of a number.
    Is(usize),
    Missing,
    Ends(Answer),
    /// It waits for the call of a term with rules on the values of numbers.
    Calls(TermId, Vec<usize>),
}

/// What a frame that may go on comes to.
#[derive(Drop)]
pub enum Turn {
    On,
    Comes(Advanced),
}

/// What follows when the innermost call has come to something.
#[derive(Drop)]
pub enum Next<F: Drop> {
    /// This call runs on, or begins.
    Runs(F),
    /// The first call is answered.
    Answers(Called),
}

/// Answers a call of a term on the values of numbers. At most `depth` calls of terms with rules are open at once; `effects` is
/// only appended to. A call that goes on for 2^64 - 1 changes of the running call ends as one for which memory is refused.
pub fn answer_call<R: Road, W: World>(
    alloc: Global,
    road: &mut R,
    term: TermId,
    args: Vec<usize>,
    depth: u32,
    world: &mut W,
    effects: &mut Vec<Effect>,
) -> Result<Called, AllocError>
    ensures ran { IfOk result (λ called. (vs : Values) → StandEach (R.stored road.old) vs args.items
        → IsReady R.way.holds (R.compiled road.old) term.0 vs
        → (made : List Event)
        × Makes (host W.step W.constructs W.extracts) (state (R.compiled road.old) world.old effects.old.items (R.stored road.old))
        (state (R.compiled road.new) world.new effects.new.items (R.stored road.new)) made
        × (r : Outcome MeantValue) × TellsOutcome (R.compiled road.old) term.0 called.answer r
        × R.way.run (R.compiled road.old)
        (answers_of (host W.step W.constructs W.extracts) (state (R.compiled road.old) world.old effects.old.items (R.stored road.old)))
        depth term.0 vs called.steps made r) }
    ensures lost { OnErr result ((vs : Values) → StandEach (R.stored road.old) vs args.items → IsReady R.way.holds (R.compiled road.old) term.0 vs
        → (made : List Event)
        × Makes (host W.step W.constructs W.extracts) (state (R.compiled road.old) world.old effects.old.items (R.stored road.old))
        (state (R.compiled road.new) world.new effects.new.items (R.stored road.new)) made
        × R.way.begins (R.compiled road.old)
        (answers_of (host W.step W.constructs W.extracts) (state (R.compiled road.old) world.old effects.old.items (R.stored road.old)))
        depth term.0 vs made) }
    ensures goes_on { HasGoneOn (host W.step W.constructs W.extracts)
        (state (R.compiled road.old) world.old effects.old.items (R.stored road.old))
        (state (R.compiled road.new) world.new effects.new.items (R.stored road.new)) }
{
    road.laws();
    if depth == 0 {
        return Ok(Called {
            answer: Answer::Spent,
            steps: 0,
        });
    }
    let mut waiting: Vec<R::Frame> = Vec::new(alloc);
    let mut top = road.begin(term, args, depth - 1);
    for _ in 0..usize::MAX {
        let advanced = advance(road, &mut top, world, effects)?;
        match next_frame(alloc, &*road, term, advanced, &mut waiting, top)? {
            Next::Runs(frame) => top = frame,
            Next::Answers(called) => return Ok(called),
        }
    }
    Err(AllocError)
}

/// Runs a frame up to the next call of a term with rules, or to its end.
fn advance<R: Road, W: World>(
    road: &mut R,
    frame: &mut R::Frame,
    world: &mut W,
    effects: &mut Vec<Effect>,
) -> Result<Advanced, AllocError>
    ensures advanced { IfOk result (λ advanced. (k : CallOf) (since : List Event)
        → IsOpenIn (host W.step W.constructs W.extracts) k (state (R.compiled road.old) world.old effects.old.items (R.stored road.old))
        → R.way.is_frame k (R.stored road.old) frame.old since → (made : List Event)
        × Makes (host W.step W.constructs W.extracts) (state (R.compiled road.old) world.old effects.old.items (R.stored road.old))
        (state (R.compiled road.new) world.new effects.new.items (R.stored road.new)) made
        × AdvancesBy R.way k (R.stored road.new) frame.new (since ++ made) advanced) }
    ensures lost { OnErr result ((k : CallOf) (since : List Event)
        → IsOpenIn (host W.step W.constructs W.extracts) k (state (R.compiled road.old) world.old effects.old.items (R.stored road.old))
        → R.way.is_frame k (R.stored road.old) frame.old since → HasBegun (host W.step W.constructs W.extracts) R.way
        (state (R.compiled road.old) world.old effects.old.items (R.stored road.old))
        (state (R.compiled road.new) world.new effects.new.items (R.stored road.new)) k since) }
    ensures goes_on { HasGoneOn (host W.step W.constructs W.extracts)
        (state (R.compiled road.old) world.old effects.old.items (R.stored road.old))
        (state (R.compiled road.new) world.new effects.new.items (R.stored road.new)) }
{
    road.laws();
    for _ in 0..usize::MAX {
        match road.go(frame, world, effects)? {
            Turn::On => {}
            Turn::Comes(advanced) => return Ok(advanced),
        }
    }
    Err(AllocError)
}

/// What follows when the innermost call has come to something.
fn next_frame<R: Road>(
    alloc: Global,
    road: &R,
    term: TermId,
    advanced: Advanced,
    waiting: &mut Vec<R::Frame>,
    top: R::Frame,
) -> Result<Next<R::Frame>, AllocError>
    ensures { IfOk result (λ next. (goal k : CallOf) (start since : List Event) → goal.program ≡ R.compiled road.now → goal.term ≡ term.0
        → IsReady R.way.holds goal.program goal.term goal.args → AreStacked R.way goal (R.stored road.now) (reverse waiting.old.items) k start
        → AdvancesBy R.way k (R.stored road.now) top since advanced
        → GoesOn R.way goal (R.stored road.now) (reverse waiting.new.items) (start ++ since) next) }
{
    road.laws();
    match advanced {
        Advanced::Calls(callee, numbers) => enter(road, callee, numbers, waiting, top),
        Advanced::Ends(answer) => Ok(Next::Answers(Called {
            answer,
            steps: first_steps(road, waiting.as_slice(), &top),
        })),
        Advanced::Is(number) => match waiting.pop() {
            Some(frame) => Ok(Next::Runs(answered(road, frame, number))),
            None => Ok(Next::Answers(value_answer(alloc, road, term, number, &top)?)),
        },
        Advanced::Missing => match waiting.pop() {
            Some(frame) => Ok(Next::Runs(missed(road, frame))),
            None => Ok(Next::Answers(Called {
                answer: Answer::None,
                steps: road.steps(&top),
            })),
        },
    }
}

/// Begins a call below another, or ends it where no call may be open below.
fn enter<R: Road>(
    road: &R,
    callee: TermId,
    numbers: Vec<usize>,
    waiting: &mut Vec<R::Frame>,
    top: R::Frame,
) -> Result<Next<R::Frame>, AllocError>
    ensures { IfOk result (λ next. (goal k : CallOf) (stored : List Stored) (start since : List Event) (args : Values)
        → goal.program ≡ R.compiled road.now → AreStacked R.way goal stored (reverse waiting.old.items) k start
        → StandEach stored args numbers.items → R.way.is_waiting k stored top since callee args
        → GoesOn R.way goal stored (reverse waiting.new.items) (start ++ since) next) }
{
    road.laws();
    let depth = road.depth(&top);
    let steps = first_steps(road, waiting.as_slice(), &top);
    waiting.push(top)?;
    if depth == 0 {
        return Ok(Next::Answers(Called {
            answer: Answer::Spent,
            steps,
        }));
    }
    Ok(Next::Runs(road.begin(callee, numbers, depth - 1)))
}

/// The value of the first call.
fn value_answer<R: Road>(
    alloc: Global,
    road: &R,
    term: TermId,
    number: usize,
    top: &R::Frame,
) -> Result<Called, AllocError>
    ensures { IfOk result (λ called. (goal : CallOf) (since : List Event) → goal.program ≡ R.compiled road.now → goal.term ≡ term.0
        → IsReady R.way.holds goal.program goal.term goal.args → AdvancesBy R.way goal (R.stored road.now) top.now since (Is number)
        → (r : Outcome MeantValue) × TellsOutcome goal.program goal.term called.answer r × Comes R.way goal called.steps since r) }
{
    road.laws();
    let program = road.program();
    let value = road
        .store()
        .print(alloc, program, number, program.type_of(term))?;
    Ok(Called {
        answer: Answer::Value(value),
        steps: road.steps(top),
    })
}

/// A frame that has been answered a value.
fn answered<R: Road>(road: &R, frame: R::Frame, number: usize) -> R::Frame
    ensures { (k : CallOf) (stored : List Stored) (since trace : List Event) (term : TermNumber) (args : Values) (v : MeantValue)
        → R.way.is_waiting k stored frame since term args → Below R.way k term.0 args trace (given v) → Stands stored v number
        → R.way.is_frame k stored result (since ++ trace) }
{
    let mut frame = frame;
    road.answer(&mut frame, number);
    frame
}

/// A frame that has been answered none.
fn missed<R: Road>(road: &R, frame: R::Frame) -> R::Frame
    ensures { (k : CallOf) (stored : List Stored) (since trace : List Event) (term : TermNumber) (args : Values)
        → R.way.is_waiting k stored frame since term args → Below R.way k term.0 args trace missing
        → R.way.is_frame k stored result (since ++ trace) }
{
    let mut frame = frame;
    road.miss(&mut frame);
    frame
}

/// The number of steps that the first call has taken.
fn first_steps<R: Road>(road: &R, waiting: &[R::Frame], top: &R::Frame) -> u128
    ensures { result ≡ first_steps R.way (reverse waiting.now) (R.way.steps_of top.now) }
{
    match waiting {
        [first, _rest @ ..] => road.steps(first),
        [] => road.steps(top),
    }
}

/// What a call comes to of which no rule is left: none, where its term may fail; else it is stuck.
pub fn unmatched(
    alloc: Global,
    program: &Program,
    store: &Store,
    term: TermId,
    args: &[usize],
) -> Result<Advanced, AllocError>
    ensures { IfOk result (λ advanced. (k : CallOf) → k.program ≡ program.now → k.term ≡ term.0 → StandEach store.now k.args args.now
        → AreValuesOf (checked k.program).values k.args ((checked k.program).terms.inputs k.term) → UnmatchedIs k advanced) }
{
    if program.is_partial(term) {
        return Ok(Advanced::Missing);
    }
    let args = store.print_all(alloc, program, args, program.arg_types(term))?;
    Ok(Advanced::Ends(Answer::Stuck(term, args)))
}
