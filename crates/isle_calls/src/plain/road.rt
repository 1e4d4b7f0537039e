//! The plain road: a term's rules are tried one by one.
ghost use Rattle.std.specs.Prelude.{◌≡◌, List, IfOk, OnErr};
ghost use Rattle.isle_meaning.specs.Worlds.{Event};
ghost use Rattle.isle_calls.specs.Calls.Answers.{answers_in, HasMade};
ghost use Rattle.isle_program.specs.Meanings.{may_run, AreArguments, arguments_of};
ghost use Rattle.isle_calls.specs.PlainCalls.{TellsPlainly, BeginsPlainly};

use crate::frames::{Turn, answer_call};
use crate::plain::frame::{Driver, Ending, Frame};
use crate::roads::Road;
use crate::store::Store;
use crate::{Called, Effect};
use isle_program::Program;
use isle_types::TermId;
use isle_values::{Value, World};
use std::alloc::{AllocError, Global};

/// Answers a call by its term's rules, tried one by one by descending priority, then in the order of the texts.
/// Conditions: the term is runnable and the arguments are of its types. At most `depth` calls of terms with rules are
/// open at once; `effects` is only appended to. `steps` is the place of the chosen rule, or the number of rules.
/// A call that goes on for 2^64 - 1 changes of the running call ends as one for which memory is refused.
pub fn call_plain<W: World>(
    alloc: Global,
    program: &Program,
    term: TermId,
    args: Vec<Value>,
    depth: u32,
    world: &mut W,
    effects: &mut Vec<Effect>,
) -> Result<Called, AllocError>
    ensures ran { IfOk result (λ called. may_run program.now term.0 → AreArguments program.now term.0 args.items
        → (made : List Event) × HasMade W.step program.now world.old effects.old.items world.new effects.new.items made
        × TellsPlainly program.now (answers_in program.now (W.constructs world.old) (W.extracts world.old)) depth term.0
        (arguments_of program.now args.items) called made) }
    ensures lost { OnErr result (may_run program.now term.0 → AreArguments program.now term.0 args.items
        → (made : List Event) × HasMade W.step program.now world.old effects.old.items world.new effects.new.items made
        × BeginsPlainly program.now (answers_in program.now (W.constructs world.old) (W.extracts world.old)) depth term.0
        (arguments_of program.now args.items) made) }
    ensures made { (made : List Event) × HasMade W.step program.now world.old effects.old.items world.new effects.new.items made }
    ensures same { (W.constructs world.new ≡ W.constructs world.old) × (W.extracts world.new ≡ W.extracts world.old) }
{
    let mut store = Store::new(alloc);
    let shared = store.share_all(program, args.as_slice())?;
    let mut driver = Driver {
        alloc,
        program,
        store,
    };
    answer_call(alloc, &mut driver, term, shared, depth, world, effects)
}

impl<'a> Road for Driver<'a> {
    ghost use Rattle.isle_calls.specs.Inside.Plain.Frames.{plain_way};

    type Frame = Frame<'a>;

    ghost compiled = { λ driver. driver.program.now };

    ghost stored = { λ driver. driver.store };

    ghost way = { plain_way };

    fn program(&self) -> &Program {
        self.program
    }

    fn store(&self) -> &Store {
        &self.store
    }

    fn begin(&self, term: TermId, args: Vec<usize>, depth: u32) -> Frame<'a> {
        Frame::new(self.program, term, args, depth)
    }

    fn go<W: World>(
        &mut self,
        frame: &mut Frame<'a>,
        world: &mut W,
        effects: &mut Vec<Effect>,
    ) -> Result<Turn, AllocError> {
        match self.turn(frame, world, effects)? {
            Ending::On => Ok(Turn::On),
            Ending::Leaves => {
                frame.current = None;
                Ok(Turn::On)
            }
            Ending::Comes(advanced) => Ok(Turn::Comes(advanced)),
        }
    }

    fn answer(&self, frame: &mut Frame<'a>, number: usize) {
        frame.answer(number);
    }

    fn miss(&self, frame: &mut Frame<'a>) {
        frame.miss();
    }

    fn steps(&self, frame: &Frame<'a>) -> u128 {
        frame.tried
    }

    fn depth(&self, frame: &Frame<'a>) -> u32 {
        frame.depth
    }

    fn laws(&self) {}
}
