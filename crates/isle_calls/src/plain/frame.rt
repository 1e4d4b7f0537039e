//! One call of a term with rules, as far as it has come.
ghost use Rattle.std.specs.Prelude.{◌≡◌, ◌++◌, ℕ, List, [], None, IfOk, OnErr};
ghost use Rattle.isle_meaning.specs.GroundValues.{AreValuesOf};
ghost use Rattle.isle_meaning.specs.Values.{Value as MeantValue, Values};
ghost use Rattle.isle_meaning.specs.Worlds.{Event};
ghost use Rattle.isle_calls.specs.declared.answer.Answer.TheVariants.{IllTyped as IllTypedAnswer};
ghost use Rattle.isle_calls.specs.declared.plain.frame.current.Current.{Current as CurrentRule};
ghost use Rattle.isle_calls.specs.declared.frames.Advanced.TheVariants.{Missing, Ends};
ghost use Rattle.isle_calls.specs.declared.plain.frame.current.At.TheVariants.{IfLet, Right};
ghost use Rattle.isle_calls.specs.declared.plain.frame.Ending.TheVariants.{On, Leaves, Comes};
ghost use Rattle.isle_calls.specs.declared.store.Stored.{Stored as StoredValue};
ghost use Rattle.isle_calls.specs.Calls.Open.{CallOf};
ghost use Rattle.isle_calls.specs.Inside.Plain.Frames.{IsFrameOf, IsWaitingFor, below_call, plain_way};
ghost use Rattle.isle_calls.specs.Calls.Ways.{HasBegun};
ghost use Rattle.isle_calls.specs.Calls.States.{host, IsOpenIn, HasGoneOn, Makes};
ghost use Rattle.isle_calls.specs.Inside.Plain.Frames.{driven, IsTrying, awaited, IsHeldUp, FrameEnds, RuleEnds, laid_at, root_there, root_at, at_missing};
ghost use Rattle.isle_calls.specs.Inside.Plain.Frames.{IsFrameFor, IsOnWay, IsFirstAt, IsBegun, IsBegunAt, ending_missing, IsEndingOf};
ghost use Rattle.isle_program.specs.Plain.Laid.{AllStandBehind};
ghost use Rattle.isle_program.specs.Meanings.{checked};
ghost use Rattle.isle_meaning.specs.Outcomes.{given, missing};
ghost use Rattle.isle_calls.specs.Stores.Values.{Stands, StandEach, Extends};
ghost use Rattle.isle_program.specs.Meanings.{may_run};

mod current;

use crate::frames::{Advanced, unmatched};
use crate::host::{Told, make_effect};
use crate::plain::evaluation::{Evaluated, Evaluating, Evaluation};
use crate::plain::fitting::{Fitted, Fitting};
use crate::plain::variables::Variables;
use crate::store::{Store, Stored};
use crate::{Answer, Effect};
pub use current::{At, Current};
use isle_program::Program;
use isle_program::laid::{Laid, LaidRule};
use isle_rules::Rule;
use isle_types::TermId;
use isle_values::{Value, World};
use std::alloc::{AllocError, Global};

/// A call that runs, or waits for another.
#[derive(Drop)]
pub struct Frame<'a> {
    pub term: TermId,
    pub args: Vec<usize>,
    /// How many calls may be open below this one.
    pub depth: u32,
    /// The rules that weren't tried, by their places.
    pub others: &'a [usize],
    /// How many rules were tried.
    pub tried: u128,
    /// The rule that is being tried, or was chosen.
    pub current: Option<Current<'a>>,
}

/// What a rule, and a frame, that may go on comes to.
#[derive(Drop)]
pub enum Ending {
    /// It goes on.
    On,
    /// The rule is left.
    Leaves,
    Comes(Advanced),
}

impl<'a> Frame<'a> {
    /// A call of which no rule was tried.
    pub fn new(program: &'a Program, term: TermId, args: Vec<usize>, depth: u32) -> Frame<'a>
        ensures { (k : CallOf) (stored : List StoredValue) → k.program ≡ program.now → k.depth ≡ depth → k.term ≡ term.0
            → StandEach stored k.args args.items → AreValuesOf (checked k.program).values k.args ((checked k.program).terms.inputs k.term)
            → may_run k.program k.term → IsFrameOf k stored result [] }
    {
        Frame {
            term,
            args,
            depth,
            others: program.rules_of(term),
            tried: 0,
            current: None,
        }
    }

    /// The call that it waits for has this value.
    pub fn answer(&mut self, number: usize)
        ensures { (k : CallOf) (stored : List StoredValue) (since trace : List Event) (term : TermId) (args : Values) (v : MeantValue)
            → IsWaitingFor k stored self.old since term args → below_call k term.0 args trace (given v)
            → Stands stored v number → IsFrameOf k stored self.new (since ++ trace) }
    {
        if let Some(current) = &mut self.current {
            current.evaluation.answer(number);
        }
    }

    /// The call that it waits for was answered none.
    pub fn miss(&mut self)
        ensures { (k : CallOf) (stored : List StoredValue) (since trace : List Event) (term : TermId) (args : Values)
            → IsWaitingFor k stored self.old since term args → below_call k term.0 args trace missing
            → IsFrameOf k stored self.new (since ++ trace) }
    {
        if let Some(current) = &mut self.current {
            current.at = missed(current.at);
        }
    }
}

/// What frames run over: the program, and the values that were met.
#[derive(Drop)]
pub struct Driver<'a> {
    pub alloc: Global,
    pub program: &'a Program,
    pub store: Store,
}

impl<'a> Driver<'a> {
    /// Goes on with a frame's rule, or tries the next.
    pub fn turn<W: World>(
        &mut self,
        frame: &mut Frame<'a>,
        world: &mut W,
        effects: &mut Vec<Effect>,
    ) -> Result<Ending, AllocError>
        ensures ending { IfOk result (λ ending. (k : CallOf) (since : List Event)
            → IsOpenIn (host W.step W.constructs W.extracts) k (driven self.old world.old effects.old.items)
            → IsFrameOf k self.old.store frame.old since → (made : List Event)
            × Makes (host W.step W.constructs W.extracts) (driven self.old world.old effects.old.items)
            (driven self.new world.new effects.new.items) made
            × FrameEnds k self.new.store frame.new (since ++ made) ending) }
        ensures lost { OnErr result ((k : CallOf) (since : List Event)
            → IsOpenIn (host W.step W.constructs W.extracts) k (driven self.old world.old effects.old.items)
            → IsFrameOf k self.old.store frame.old since → HasBegun (host W.step W.constructs W.extracts) plain_way
            (driven self.old world.old effects.old.items)
            (driven self.new world.new effects.new.items) k since) }
        ensures goes_on { HasGoneOn (host W.step W.constructs W.extracts) (driven self.old world.old effects.old.items)
            (driven self.new world.new effects.new.items) }
    {
        match &mut frame.current {
            Some(current) => self.run(current, world, effects),
            None => self.next_rule(frame, world),
        }
    }

    /// Tries the next rule: its patterns.
    fn next_rule<W: World>(
        &mut self,
        frame: &mut Frame<'a>,
        world: &W,
    ) -> Result<Ending, AllocError>
        ensures ending { IfOk result (λ ending. (k : CallOf) (since : List Event)
            → IsOpenIn (host W.step W.constructs W.extracts) k (driven self.old world.now [])
            → IsFrameOf k self.old.store frame.old since → frame.old.current ≡ None → FrameEnds k self.new.store frame.new since ending) }
        ensures kept { Extends self.old.store self.new.store }
        ensures program { self.new.program.now ≡ self.old.program.now }
    {
        let Some((place, others)) = frame.others.split_first() else {
            let comes = unmatched(
                self.alloc,
                self.program,
                &self.store,
                frame.term,
                frame.args.as_slice(),
            )?;
            return Ok(Ending::Comes(comes));
        };
        let Some((rule, laid)) = self.program.laid_rule(*place) else {
            frame.others = others;
            return Ok(Ending::On);
        };
        frame.others = others;
        frame.tried = frame.tried.saturating_add(1);
        let unset = self.store.intern(Stored::Bool(false))?;
        let mut variables = Variables::new(self.alloc, unset);
        let fitting = Fitting {
            alloc: self.alloc,
            program: self.program,
            world,
        };
        match fitting.fit_all(
            &mut self.store,
            &mut variables,
            rule.args.as_slice(),
            frame.args.as_slice(),
        )? {
            Fitted::Fits => {
                frame.current = Some(begin(self.alloc, rule, laid, variables)?);
                Ok(Ending::On)
            }
            Fitted::Leaves => Ok(Ending::On),
            Fitted::IllTyped(term, args) => Ok(ill_typed(term, args)),
        }
    }

    /// Goes on with the rule that is being tried, or was chosen.
    fn run<W: World>(
        &mut self,
        current: &mut Current<'a>,
        world: &mut W,
        effects: &mut Vec<Effect>,
    ) -> Result<Ending, AllocError>
        ensures ending { IfOk result (λ ending. (k : CallOf) (others : List ℕ) (tried : ℕ) (since : List Event)
            → IsOpenIn (host W.step W.constructs W.extracts) k (driven self.old world.old effects.old.items)
            → IsTrying k self.old.store current.old others tried since → (made : List Event)
            × Makes (host W.step W.constructs W.extracts) (driven self.old world.old effects.old.items)
            (driven self.new world.new effects.new.items) made
            × RuleEnds k self.new.store current.new others tried (since ++ made) ending) }
        ensures lost { OnErr result ((k : CallOf) (others : List ℕ) (tried : ℕ) (since : List Event)
            → IsOpenIn (host W.step W.constructs W.extracts) k (driven self.old world.old effects.old.items)
            → IsTrying k self.old.store current.old others tried since → HasBegun (host W.step W.constructs W.extracts) plain_way
            (driven self.old world.old effects.old.items)
            (driven self.new world.new effects.new.items) k since) }
        ensures goes_on { HasGoneOn (host W.step W.constructs W.extracts) (driven self.old world.old effects.old.items)
            (driven self.new world.new effects.new.items) }
    {
        match current.at {
            At::Left => Ok(Ending::Leaves),
            At::Missed => Ok(Ending::Comes(Advanced::Missing)),
            At::IfLet(_) | At::Right(_) => self.evaluate(current, world, effects),
        }
    }

    /// Evaluates what is asked for at a condition or on the right side.
    fn evaluate<W: World>(
        &mut self,
        current: &mut Current<'a>,
        world: &mut W,
        effects: &mut Vec<Effect>,
    ) -> Result<Ending, AllocError>
        ensures ending { IfOk result (λ ending. (k : CallOf) (others : List ℕ) (tried : ℕ) (since : List Event)
            → IsOpenIn (host W.step W.constructs W.extracts) k (driven self.old world.old effects.old.items)
            → IsOnWay current.old.at → IsTrying k self.old.store current.old others tried since → (made : List Event)
            × Makes (host W.step W.constructs W.extracts) (driven self.old world.old effects.old.items)
            (driven self.new world.new effects.new.items) made
            × RuleEnds k self.new.store current.new others tried (since ++ made) ending) }
        ensures lost { OnErr result ((k : CallOf) (others : List ℕ) (tried : ℕ) (since : List Event)
            → IsOpenIn (host W.step W.constructs W.extracts) k (driven self.old world.old effects.old.items)
            → IsOnWay current.old.at → IsTrying k self.old.store current.old others tried since
            → HasBegun (host W.step W.constructs W.extracts) plain_way (driven self.old world.old effects.old.items)
            (driven self.new world.new effects.new.items) k since) }
        ensures goes_on { HasGoneOn (host W.step W.constructs W.extracts) (driven self.old world.old effects.old.items)
            (driven self.new world.new effects.new.items) }
    {
        let laid = laid_at(current.laid, current.at);
        if current.evaluation.len() != laid.parts.len() {
            return Ok(Ending::Leaves);
        }
        let evaluating = Evaluating {
            alloc: self.alloc,
            program: self.program,
            world: &*world,
        };
        match evaluating.evaluate(
            &mut self.store,
            &current.variables,
            laid.parts.as_slice(),
            &mut current.evaluation,
        )? {
            Evaluated::Done => self.go_on(current, &*world),
            Evaluated::Missing => Ok(without_value(current.at)),
            Evaluated::IllTyped(term, args) => Ok(ill_typed(term, args)),
            Evaluated::Waits(term, args) => self.call(
                &mut current.evaluation,
                world,
                effects,
                term,
                args,
            ),
        }
    }

    /// Makes a call that is waited for: one of a term with rules is the caller's, any other is an effect.
    fn call<W: World>(
        &mut self,
        evaluation: &mut Evaluation,
        world: &mut W,
        effects: &mut Vec<Effect>,
        term: TermId,
        args: Vec<usize>,
    ) -> Result<Ending, AllocError>
        ensures ending { IfOk result (λ ending. (k : CallOf) (current : CurrentRule) (others : List ℕ) (tried : ℕ) (since : List Event) (vs : Values)
            → IsOpenIn (host W.step W.constructs W.extracts) k (driven self.old world.old effects.old.items)
            → IsHeldUp k self.old.store (record current { evaluation = evaluation.old }) others tried since (awaited term args.items vs)
            → (made : List Event)
            × Makes (host W.step W.constructs W.extracts) (driven self.old world.old effects.old.items)
            (driven self.new world.new effects.new.items) made
            × RuleEnds k self.new.store (record current { evaluation = evaluation.new }) others tried (since ++ made) ending) }
        ensures lost { OnErr result ((k : CallOf) (current : CurrentRule) (others : List ℕ) (tried : ℕ) (since : List Event) (vs : Values)
            → IsOpenIn (host W.step W.constructs W.extracts) k (driven self.old world.old effects.old.items)
            → IsHeldUp k self.old.store (record current { evaluation = evaluation.old }) others tried since (awaited term args.items vs)
            → HasBegun (host W.step W.constructs W.extracts) plain_way (driven self.old world.old effects.old.items)
            (driven self.new world.new effects.new.items) k since) }
        ensures goes_on { HasGoneOn (host W.step W.constructs W.extracts) (driven self.old world.old effects.old.items)
            (driven self.new world.new effects.new.items) }
    {
        if self.program.has_rules(term) {
            return Ok(Ending::Comes(Advanced::Calls(term, args)));
        }
        let told = make_effect(
            self.alloc,
            self.program,
            world,
            &mut self.store,
            effects,
            term,
            args.as_slice(),
        )?;
        Ok(effect_made(evaluation, told))
    }

    /// Goes on where an expression has its value, or an impure call its answer.
    fn go_on<W: World>(
        &mut self,
        current: &mut Current<'a>,
        world: &W,
    ) -> Result<Ending, AllocError>
        ensures ending { IfOk result (λ ending. (k : CallOf) (others : List ℕ) (tried : ℕ) (since : List Event)
            → IsOpenIn (host W.step W.constructs W.extracts) k (driven self.old world.now [])
            → current.old.evaluation.todo.items ≡ [] → IsOnWay current.old.at → IsTrying k self.old.store current.old others tried since
            → RuleEnds k self.new.store current.new others tried since ending) }
        ensures kept { Extends self.old.store self.new.store }
        ensures program { self.new.program.now ≡ self.old.program.now }
    {
        match current.at {
            At::IfLet(place) => self.fit_condition(current, world, place),
            At::Right(place) => next_call(current, place),
            At::Left | At::Missed => Ok(Ending::On),
        }
    }

    /// Reads the pattern of a condition whose expression has its value.
    fn fit_condition<W: World>(
        &mut self,
        current: &mut Current<'a>,
        world: &W,
        place: usize,
    ) -> Result<Ending, AllocError>
        ensures ending { IfOk result (λ ending. (k : CallOf) (others : List ℕ) (tried : ℕ) (since : List Event)
            → IsOpenIn (host W.step W.constructs W.extracts) k (driven self.old world.now [])
            → current.old.evaluation.todo.items ≡ [] → current.old.at ≡ IfLet place → IsTrying k self.old.store current.old others tried since
            → RuleEnds k self.new.store current.new others tried since ending) }
        ensures kept { Extends self.old.store self.new.store }
        ensures program { self.new.program.now ≡ self.old.program.now }
    {
        let Some(iflet) = current.rule.iflets.as_slice().get(place) else {
            return Ok(Ending::Leaves);
        };
        let laid = laid_at(current.laid, At::IfLet(place));
        let number = current.evaluation.value_of(laid.result).unwrap_or(0);
        let fitting = Fitting {
            alloc: self.alloc,
            program: self.program,
            world,
        };
        match fitting.fit(&mut self.store, &mut current.variables, &iflet.lhs, number)? {
            Fitted::Fits => {
                let at = first_at(current.laid, place + 1);
                current.evaluation = start(self.alloc, current.laid, at)?;
                current.at = at;
                Ok(Ending::On)
            }
            Fitted::Leaves => Ok(Ending::Leaves),
            Fitted::IllTyped(term, args) => Ok(ill_typed(term, args)),
        }
    }
}

/// Asks for the next impure call of a right side, or, past the last, tells the result.
fn next_call(current: &mut Current, place: usize) -> Result<Ending, AllocError>
    ensures { IfOk result (λ ending. (k : CallOf) (stored : List StoredValue) (others : List ℕ) (tried : ℕ) (since : List Event)
        → current.old.evaluation.todo.items ≡ [] → current.old.at ≡ Right place
        → IsTrying k stored current.old others tried since → RuleEnds k stored current.new others tried since ending) }
{
    let laid = &current.laid.right;
    if place >= laid.calls.len() {
        let number = current.evaluation.value_of(laid.result).unwrap_or(0);
        return Ok(Ending::Comes(Advanced::Is(number)));
    }
    current.evaluation.ask(root_of(laid, place + 1))?;
    current.at = At::Right(place + 1);
    Ok(Ending::On)
}

/// Begins with a rule whose patterns fit.
fn begin<'a>(
    alloc: Global,
    rule: &'a Rule,
    laid: &'a LaidRule,
    variables: Variables,
) -> Result<Current<'a>, AllocError>
    requires { AllStandBehind laid.now }
    ensures { IfOk result (λ current. IsBegunAt 0 laid.now current.at current.evaluation × (current.rule.now ≡ rule.now)
        × (current.laid.now ≡ laid.now) × (current.variables ≡ variables)) }
{
    let at = first_at(laid, 0);
    let evaluation = start(alloc, laid, at)?;
    Ok(Current {
        rule,
        laid,
        variables,
        evaluation,
        at,
    })
}

/// The condition of a place, or, past the last, the right side.
fn first_at(laid: &LaidRule, place: usize) -> At
    ensures { IsFirstAt place laid.now result }
{
    if place < laid.iflets.len() {
        At::IfLet(place)
    } else {
        At::Right(0)
    }
}

/// The expression that is evaluated there.
fn laid_at<'a>(laid: &'a LaidRule, at: At) -> &'a Laid
    ensures { result.now ≡ laid_at laid.now at }
{
    match at {
        At::IfLet(place) => match laid.iflets.get(place) {
            Some(expr) => expr,
            None => &laid.right,
        },
        At::Right(_) | At::Left | At::Missed => &laid.right,
    }
}

/// The part that is needed there.
fn root_of(laid: &Laid, place: usize) -> usize
    ensures { result ≡ root_at laid.now place }
{
    match laid.calls.get(place) {
        Some(call) => *call,
        None => laid.result,
    }
}

/// The part that is needed at a place of a rule.
fn root_there(laid: &LaidRule, at: At) -> usize
    ensures { result ≡ root_there laid.now at }
{
    let expr = laid_at(laid, at);
    match at {
        At::Right(place) => root_of(expr, place),
        At::IfLet(_) | At::Left | At::Missed => expr.result,
    }
}

/// Begins to evaluate the expression there.
fn start(alloc: Global, laid: &LaidRule, at: At) -> Result<Evaluation, AllocError>
    ensures { IfOk result (λ evaluation. IsBegun (laid_at laid.now at) (root_there laid.now at) evaluation) }
{
    let mut evaluation = Evaluation::new(alloc, laid_at(laid, at).parts.len())?;
    evaluation.ask(root_there(laid, at))?;
    Ok(evaluation)
}

/// Where a rule goes on that waits for a call which is answered none: a condition leaves the rule, a right side ends the call.
fn missed(at: At) -> At
    ensures { result ≡ at_missing at }
{
    match at {
        At::IfLet(_) | At::Left => At::Left,
        At::Right(_) | At::Missed => At::Missed,
    }
}

/// An expression without a value: that of a condition leaves the rule, that of a right side ends the call.
fn without_value(at: At) -> Ending
    ensures { result ≡ ending_missing at }
{
    match at {
        At::IfLet(_) | At::Left => Ending::Leaves,
        At::Right(_) | At::Missed => Ending::Comes(Advanced::Missing),
    }
}

/// What follows from an effect.
fn effect_made(evaluation: &mut Evaluation, told: Told<usize>) -> Ending
    ensures { IsEndingOf told evaluation.old evaluation.new result }
{
    match told {
        Told::Gives(number) => {
            evaluation.answer(number);
            Ending::On
        }
        Told::Missing => Ending::Comes(Advanced::Missing),
        Told::IllTyped(term, args) => ill_typed(term, args),
    }
}

fn ill_typed(term: TermId, args: Vec<Value>) -> Ending
    ensures { result ≡ Comes (Ends (IllTypedAnswer term args)) }
{
    Ending::Comes(Advanced::Ends(Answer::IllTyped(term, args)))
}
