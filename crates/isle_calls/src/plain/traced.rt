//! The plain road, with the rules that are chosen on it.
ghost use Rattle.std.specs.Prelude.{◌≡◌, List, IfOk, OnErr};
ghost use Rattle.isle_meaning.specs.Worlds.{Event};
ghost use Rattle.isle_calls.specs.Calls.Answers.{answers_in, HasMade};
ghost use Rattle.isle_program.specs.Meanings.{may_run, AreArguments, arguments_of};
ghost use Rattle.isle_calls.specs.PlainCalls.{TellsPlainly, BeginsPlainly};

use crate::choices::Chosen;
use crate::plain::frame::{At, Driver, Frame};
use crate::store::Store;
use crate::traced::{Chooses, answer_traced};
use crate::{Called, Choice, Effect};
use isle_program::Program;
use isle_types::TermId;
use isle_values::{Value, World};
use std::alloc::{AllocError, Global};

/// What is known of a call's rule before its next turn; `fresh` says whether a rule was chosen at the last one.
fn chosen_at(frame: &Frame<'_>, fresh: bool) -> Chosen {
    match &frame.current {
        Some(current) if fresh => Chosen::Rule(current.rule.pos),
        Some(_) => Chosen::Open,
        None if frame.others.is_empty() => Chosen::NoRule,
        None => Chosen::Open,
    }
}

impl<'a> Chooses for Driver<'a> {
    // The right side of the rule is evaluated.
    fn has_chosen(&self, frame: &Frame<'a>) -> bool {
        match &frame.current {
            Some(current) => matches!(current.at, At::Right(_)),
            None => false,
        }
    }

    fn choice(&self, frame: &Frame<'a>, fresh: bool) -> Result<Option<Choice>, AllocError> {
        chosen_at(frame, fresh).choice(
            self.alloc,
            self.program,
            &self.store,
            frame.term,
            frame.args.as_slice(),
            frame.depth,
        )
    }
}

/// Answers a call as `call_plain` does, under its conditions, and lists the rule that is chosen for it and for each call of a term with rules
/// below it, in the order in which they are. Which rules are listed is not promised.
pub fn trace_plain<W: World>(
    alloc: Global,
    program: &Program,
    term: TermId,
    args: Vec<Value>,
    depth: u32,
    world: &mut W,
    effects: &mut Vec<Effect>,
) -> Result<(Called, Vec<Choice>), AllocError>
    ensures ran { IfOk result (λ traced. may_run program.now term.0 → AreArguments program.now term.0 args.items
        → (made : List Event) × HasMade W.step program.now world.old effects.old.items world.new effects.new.items made
        × TellsPlainly program.now (answers_in program.now (W.constructs world.old) (W.extracts world.old)) depth term.0
        (arguments_of program.now args.items) traced.0 made) }
    ensures lost { OnErr result (may_run program.now term.0 → AreArguments program.now term.0 args.items
        → (made : List Event) × HasMade W.step program.now world.old effects.old.items world.new effects.new.items made
        × BeginsPlainly program.now (answers_in program.now (W.constructs world.old) (W.extracts world.old)) depth term.0
        (arguments_of program.now args.items) made) }
    ensures made { (made : List Event) × HasMade W.step program.now world.old effects.old.items world.new effects.new.items made }
    ensures same { (W.constructs world.new ≡ W.constructs world.old) × (W.extracts world.new ≡ W.extracts world.old) }
{
    let mut store = Store::new(alloc);
    let shared = store.share_all(program, args.as_slice())?;
    let driver = Driver {
        alloc,
        program,
        store,
    };
    answer_traced(alloc, driver, term, shared, depth, world, effects)
}
