//! The road over trees: a call walks the tree of its term.
ghost use Rattle.std.specs.Prelude.{◌≡◌, List, IfOk, OnErr};
ghost use Rattle.isle_meaning.specs.Worlds.{Event};
ghost use Rattle.isle_calls.specs.Calls.Answers.{answers_in, HasMade};
ghost use Rattle.isle_program.specs.Meanings.{may_run, AreArguments, arguments_of};
ghost use Rattle.isle_calls.specs.TreeCalls.{IsCompiled, TellsByTree, BeginsByTree};

use crate::frames::{Turn, answer_call};
use crate::machine::frame::{At, Frame, Reply};
use crate::machine::reading::Machine;
use crate::roads::Road;
use crate::store::Store;
use crate::{Called, Effect};
use isle_program::Program;
use isle_types::TermId;
use isle_values::{Value, World};
use std::alloc::{AllocError, Global};

/// Answers a call by the tree of its term. Conditions: the program is compiled, the term is runnable and the arguments are of its types.
/// At most `depth` calls of terms with rules are open at once; `effects` is only appended to. `steps` is the number of steps of the tree that
/// the call itself reached. A call that goes on for 2^64 - 1 changes of the running call ends as one for which memory is refused.
pub fn call<W: World>(
    alloc: Global,
    program: &Program,
    term: TermId,
    args: Vec<Value>,
    depth: u32,
    world: &mut W,
    effects: &mut Vec<Effect>,
) -> Result<Called, AllocError>
    ensures ran { IfOk result (λ called. IsCompiled program.now → may_run program.now term.0 → AreArguments program.now term.0 args.items
        → (made : List Event) × HasMade W.step program.now world.old effects.old.items world.new effects.new.items made
        × TellsByTree program.now (answers_in program.now (W.constructs world.old) (W.extracts world.old)) depth term.0
        (arguments_of program.now args.items) called made) }
    ensures lost { OnErr result (IsCompiled program.now → may_run program.now term.0 → AreArguments program.now term.0 args.items
        → (made : List Event) × HasMade W.step program.now world.old effects.old.items world.new effects.new.items made
        × BeginsByTree program.now (answers_in program.now (W.constructs world.old) (W.extracts world.old)) depth term.0
        (arguments_of program.now args.items) made) }
    ensures made { (made : List Event) × HasMade W.step program.now world.old effects.old.items world.new effects.new.items made }
    ensures same { (W.constructs world.new ≡ W.constructs world.old) × (W.extracts world.new ≡ W.extracts world.old) }
{
    let mut store = Store::new(alloc);
    let shared = store.share_all(program, args.as_slice())?;
    let mut machine = Machine {
        alloc,
        program,
        store,
    };
    answer_call(alloc, &mut machine, term, shared, depth, world, effects)
}

impl<'a> Road for Machine<'a> {
    ghost use Rattle.isle_calls.specs.Inside.Blocks.Frames.{tree_way};

    type Frame = Frame<'a>;

    ghost compiled = { λ machine. machine.program.now };

    ghost stored = { λ machine. machine.store };

    ghost way = { tree_way };

    fn program(&self) -> &Program {
        self.program
    }

    fn store(&self) -> &Store {
        &self.store
    }

    fn begin(&self, term: TermId, args: Vec<usize>, depth: u32) -> Frame<'a> {
        Frame::new(self.alloc, self.program, term, args, depth)
    }

    fn go<W: World>(
        &mut self,
        frame: &mut Frame<'a>,
        world: &mut W,
        effects: &mut Vec<Effect>,
    ) -> Result<Turn, AllocError> {
        match frame.at {
            At::Steps(steps) => {
                frame.take_step(steps)?;
                Ok(Turn::On)
            }
            At::Binds(sites, check, behind) => match sites.split_first() {
                Some((site, others)) => {
                    let next = At::Binds(others, check, behind);
                    self.bind(frame, world, effects, *site, next)
                }
                None => self.check(frame, check, behind),
            },
            At::Opens(sites, body) => match sites.split_first() {
                Some((Some(site), others)) => {
                    self.bind(frame, world, effects, *site, At::Opens(others, body))
                }
                Some((None, others)) => {
                    frame.at = At::Opens(others, body);
                    Ok(Turn::On)
                }
                None => {
                    frame.at = At::Steps(body);
                    Ok(Turn::On)
                }
            },
            At::Past => self.past(frame),
        }
    }

    fn answer(&self, frame: &mut Frame<'a>, number: usize) {
        frame.reply = Reply::Given(number);
    }

    fn miss(&self, frame: &mut Frame<'a>) {
        frame.reply = Reply::Missing;
    }

    fn steps(&self, frame: &Frame<'a>) -> u128 {
        frame.steps
    }

    fn depth(&self, frame: &Frame<'a>) -> u32 {
        frame.depth
    }

    fn laws(&self) {}
}
