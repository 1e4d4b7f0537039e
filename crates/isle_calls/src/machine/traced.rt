//! The road over trees, with the rules that are chosen on it.
ghost use Rattle.std.specs.Prelude.{◌≡◌, List, IfOk, OnErr};
ghost use Rattle.isle_meaning.specs.Worlds.{Event};
ghost use Rattle.isle_calls.specs.Calls.Answers.{answers_in, HasMade};
ghost use Rattle.isle_program.specs.Meanings.{may_run, AreArguments, arguments_of};
ghost use Rattle.isle_calls.specs.TreeCalls.{IsCompiled, TellsByTree, BeginsByTree};

use super::frame::{At, Frame};
use super::reading::Machine;
use crate::choices::Chosen;
use crate::store::Store;
use crate::traced::{Chooses, answer_traced};
use crate::{Called, Choice, Effect};
use isle_blocks::{ControlFlow, Steps};
use isle_program::Program;
use isle_types::TermId;
use isle_values::{Value, World};
use std::alloc::{AllocError, Global};

impl<'a> Chooses for Machine<'a> {
    // Its place in the tree tells which rule is chosen.
    fn has_chosen(&self, _frame: &Frame<'a>) -> bool {
        false
    }

    fn choice(&self, frame: &Frame<'a>, _fresh: bool) -> Result<Option<Choice>, AllocError> {
        chosen_at(frame.at).choice(
            self.alloc,
            self.program,
            &self.store,
            frame.term,
            frame.args.as_slice(),
            frame.depth,
        )
    }
}

/// What is known of a call's rule at a place of its tree. A rule is chosen where the next step returns, before that step's sites are bound.
fn chosen_at(at: At<'_>) -> Chosen {
    match at {
        At::Steps(steps) => chosen_by(steps),
        At::Past => Chosen::NoRule,
        At::Binds(_, _, _) | At::Opens(_, _) => Chosen::Open,
    }
}

/// What is known of a call's rule before some steps.
fn chosen_by(steps: Steps<'_>) -> Chosen {
    match steps.next() {
        Some((step, _behind)) => match step.check {
            ControlFlow::Return { pos, .. } => Chosen::Rule(pos),
            _ => Chosen::Open,
        },
        None => Chosen::Open,
    }
}

/// Answers a call as `call` does, under its conditions, and lists the rule that is chosen for it and for each call of a term with rules below
/// it, in the order in which they are. Which rules are listed is not promised.
pub fn trace<W: World>(
    alloc: Global,
    program: &Program,
    term: TermId,
    args: Vec<Value>,
    depth: u32,
    world: &mut W,
    effects: &mut Vec<Effect>,
) -> Result<(Called, Vec<Choice>), AllocError>
    ensures ran { IfOk result (λ traced. IsCompiled program.now → may_run program.now term.0 → AreArguments program.now term.0 args.items
        → (made : List Event) × HasMade W.step program.now world.old effects.old.items world.new effects.new.items made
        × TellsByTree program.now (answers_in program.now (W.constructs world.old) (W.extracts world.old)) depth term.0
        (arguments_of program.now args.items) traced.0 made) }
    ensures lost { OnErr result (IsCompiled program.now → may_run program.now term.0 → AreArguments program.now term.0 args.items
        → (made : List Event) × HasMade W.step program.now world.old effects.old.items world.new effects.new.items made
        × BeginsByTree program.now (answers_in program.now (W.constructs world.old) (W.extracts world.old)) depth term.0
        (arguments_of program.now args.items) made) }
    ensures made { (made : List Event) × HasMade W.step program.now world.old effects.old.items world.new effects.new.items made }
    ensures same { (W.constructs world.new ≡ W.constructs world.old) × (W.extracts world.new ≡ W.extracts world.old) }
{
    let mut store = Store::new(alloc);
    let shared = store.share_all(program, args.as_slice())?;
    let machine = Machine {
        alloc,
        program,
        store,
    };
    answer_traced(alloc, machine, term, shared, depth, world, effects)
}
