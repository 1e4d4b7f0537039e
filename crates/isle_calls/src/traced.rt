//! A road that lists which rules are chosen on another.
ghost use Rattle.std.specs.Prelude.{◌≡◌, List, IfOk, OnErr};
ghost use Rattle.isle_meaning.specs.Outcomes.{Outcome};
ghost use Rattle.isle_meaning.specs.Values.{Value as MeantValue, Values};
ghost use Rattle.isle_meaning.specs.Worlds.{Event};
ghost use Rattle.isle_calls.specs.Calls.Answers.{answers_in, HasMade, TellsOutcome};
ghost use Rattle.isle_calls.specs.Calls.Ways.{IsReady};
ghost use Rattle.isle_calls.specs.Stores.Values.{StandEach};

use crate::Choice;
use crate::answer::{Called, Effect};
use crate::frames::{Turn, answer_call};
use crate::roads::Road;
use crate::store::Store;
use isle_program::Program;
use isle_types::TermId;
use isle_values::World;
use std::alloc::{AllocError, Global};

/// A road whose frames tell which rule is chosen.
pub trait Chooses: Road {
    /// Whether a rule of a frame's call was chosen at some turn, which is told at the next one.
    fn has_chosen(&self, frame: &Self::Frame) -> bool;

    /// The choice of a frame's call, where it is made before its next turn; `fresh` says whether a rule was chosen at the last one.
    fn choice(&self, frame: &Self::Frame, fresh: bool) -> Result<Option<Choice>, AllocError>;
}

/// A road that lists the rules which are chosen on the one that it has, in the order in which they are.
#[derive(Drop)]
struct Traced<R: Chooses + Drop> {
    road: R,
    choices: Vec<Choice>,
    /// Whether a rule was chosen at the last turn.
    fresh: bool,
}

impl<R: Chooses + Drop> Traced<R> {
    /// Notes the rule of a frame's call, where it is chosen.
    fn note(&mut self, frame: &R::Frame) -> Result<(), AllocError>
        ensures { self.new.road ≡ self.old.road }
    {
        match self.road.choice(frame, self.fresh)? {
            Some(choice) => Ok(self.choices.push(choice)?),
            None => Ok(()),
        }
    }
}

/// Answers a call as `answer_call` does, and lists the rules that are chosen.
pub fn answer_traced<R: Chooses + Drop, W: World>(
    alloc: Global,
    road: R,
    term: TermId,
    args: Vec<usize>,
    depth: u32,
    world: &mut W,
    effects: &mut Vec<Effect>,
) -> Result<(Called, Vec<Choice>), AllocError>
    ensures ran { IfOk result (λ traced. (vs : Values) → StandEach (R.stored road) vs args.items → IsReady R.way.holds (R.compiled road) term.0 vs
        → (made : List Event) × HasMade W.step (R.compiled road) world.old effects.old.items world.new effects.new.items made
        × (r : Outcome MeantValue) × TellsOutcome (R.compiled road) term.0 traced.0.answer r
        × R.way.run (R.compiled road) (answers_in (R.compiled road) (W.constructs world.old) (W.extracts world.old))
        depth term.0 vs traced.0.steps made r) }
    ensures lost { OnErr result ((vs : Values) → StandEach (R.stored road) vs args.items → IsReady R.way.holds (R.compiled road) term.0 vs
        → (made : List Event) × HasMade W.step (R.compiled road) world.old effects.old.items world.new effects.new.items made
        × R.way.begins (R.compiled road) (answers_in (R.compiled road) (W.constructs world.old) (W.extracts world.old)) depth term.0 vs made) }
    ensures made { (made : List Event) × HasMade W.step (R.compiled road) world.old effects.old.items world.new effects.new.items made }
    ensures same { (W.constructs world.new ≡ W.constructs world.old) × (W.extracts world.new ≡ W.extracts world.old) }
{
    let mut traced = Traced {
        road,
        choices: Vec::new(alloc),
        fresh: false,
    };
    let called = answer_call(alloc, &mut traced, term, args, depth, world, effects)?;
    Ok((called, traced.choices))
}

impl<R: Chooses + Drop> Road for Traced<R> {
    type Frame = R::Frame;

    ghost compiled = { λ traced. R.compiled traced.road };

    ghost stored = { λ traced. R.stored traced.road };

    ghost way = { R.way };

    fn program(&self) -> &Program {
        self.road.program()
    }

    fn store(&self) -> &Store {
        self.road.store()
    }

    fn begin(&self, term: TermId, args: Vec<usize>, depth: u32) -> R::Frame {
        self.road.begin(term, args, depth)
    }

    fn go<W: World>(
        &mut self,
        frame: &mut R::Frame,
        world: &mut W,
        effects: &mut Vec<Effect>,
    ) -> Result<Turn, AllocError> {
        self.laws();
        self.note(frame)?;
        let was_chosen = self.road.has_chosen(frame);
        let turn = self.road.go(frame, world, effects)?;
        self.fresh = !was_chosen && self.road.has_chosen(frame);
        Ok(turn)
    }

    fn answer(&self, frame: &mut R::Frame, number: usize) {
        self.road.answer(frame, number);
    }

    fn miss(&self, frame: &mut R::Frame) {
        self.road.miss(frame);
    }

    fn steps(&self, frame: &R::Frame) -> u128 {
        self.road.steps(frame)
    }

    fn depth(&self, frame: &R::Frame) -> u32 {
        self.road.depth(frame)
    }

    fn laws(&self) {
        self.road.laws();
    }
}
