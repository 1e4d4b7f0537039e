//! One call of a term with rules, as far as it has come.
ghost use Rattle.std.specs.Prelude.{◌≡◌, List, [], None, IfOk};
ghost use Rattle.isle_meaning.specs.Worlds.{Event};
ghost use Rattle.isle_calls.specs.declared.store.Stored.{Stored};
ghost use Rattle.isle_calls.specs.declared.machine.frame.At.TheVariants.{Steps as AtSteps};
ghost use Rattle.isle_calls.specs.Inside.Blocks.Frames.{BeginsAt, IsAtEnd, IsFrameOf, IsGrown, IsPassing, found_in};
ghost use Rattle.isle_calls.specs.Calls.Open.{CallOf};
ghost use Rattle.isle_calls.specs.Calls.Ways.{IsReady};
ghost use Rattle.isle_calls.specs.Stores.Values.{StandEach};

use super::bound::{Bound, make_room};
use super::holding::Holding;
use isle_blocks::{Binding, BindingId, ControlFlow, Steps};
use isle_program::Program;
use isle_types::TermId;
use std::alloc::{AllocError, Global};

/// Where a call is in the tree of its term.
#[derive(Clone, Copy)]
pub enum At<'a> {
    /// Steps are to be taken.
    Steps(Steps<'a>),
    /// A step binds these sites, in order, and then makes its check; behind it stand steps.
    Binds(&'a [BindingId], ControlFlow<'a>, Steps<'a>),
    /// A test has passed: it opens these sites, and then there are its steps.
    Opens(&'a [Option<BindingId>], Steps<'a>),
    /// No step is left.
    Past,
}

/// Steps that are taken later: those behind a check that has passed, and how many bindings there were then.
#[derive(Drop)]
pub struct Later<'a> {
    pub steps: Steps<'a>,
    pub bindings: usize,
}

/// What a call that was waited for came to.
#[derive(Clone, Copy)]
pub enum Reply {
    /// None is there.
    Awaited,
    /// The value of a number.
    Given(usize),
    Missing,
}

/// A call that runs, or waits for another.
#[derive(Drop)]
pub struct Frame<'a> {
    pub term: TermId,
    pub args: Vec<usize>,
    /// How many calls may be open below this one.
    pub depth: u32,
    /// The sites of the term's rule set.
    pub sites: &'a [Binding],
    /// How many steps were reached.
    pub steps: u128,
    /// What the sites hold that are bound.
    pub bound: Bound<Holding>,
    pub at: At<'a>,
    /// The steps behind the checks that have passed, those of the last one last.
    pub later: Vec<Later<'a>>,
    /// The reply to the call that the site to be bound next is.
    pub reply: Reply,
}

/// The sites of a term's rule set, and where a call of it begins.
fn start(program: &Program, term: TermId) -> (&[Binding], At<'_>)
    ensures { BeginsAt (found_in program.now term.0) result.0.now result.1 }
{
    match program.tree_of(term) {
        Some((set, tree)) => (set.bindings(), At::Steps(tree.steps())),
        None => (&[], At::Past),
    }
}

impl<'a> Frame<'a> {
    /// A call of which no step was taken.
    pub fn new(
        alloc: Global,
        program: &'a Program,
        term: TermId,
        args: Vec<usize>,
        depth: u32,
    ) -> Frame<'a>
        ensures { (k : CallOf) (stored : List Stored) → k.program ≡ program.now → k.depth ≡ depth → k.term ≡ term.0
            → StandEach stored k.args args.items → IsReady IsGrown k.program k.term k.args → IsFrameOf k stored result [] }
    {
        let (sites, at) = start(program, term);
        Frame {
            term,
            args,
            depth,
            sites,
            steps: 0,
            bound: Bound::new(alloc),
            at,
            later: Vec::new(alloc),
            reply: Reply::Awaited,
        }
    }

    /// Takes the next of some steps; where none is left, the steps behind the last check that has passed are next.
    /// More than 2^128 - 1 steps end as want of memory.
    pub fn take_step(&mut self, steps: Steps<'a>) -> Result<(), AllocError>
        ensures { IfOk result (λ _. (k : CallOf) (stored : List Stored) (since : List Event) → self.old.at ≡ AtSteps steps.entry
            → IsFrameOf k stored self.old since → IsFrameOf k stored self.new since) }
    {
        match steps.next() {
            Some((step, behind)) => {
                let Some(count) = self.steps.checked_add(1) else {
                    return Err(AllocError);
                };
                self.steps = count;
                self.at = At::Binds(step.bind_order, step.check, behind);
            }
            None => self.leave(),
        }
        Ok(())
    }

    /// Goes on behind the last check that has passed, with what was bound then.
    fn leave(&mut self)
        ensures { (k : CallOf) (stored : List Stored) (since : List Event) → IsAtEnd self.old.at
            → IsFrameOf k stored self.old since → IsFrameOf k stored self.new since }
    {
        match self.later.pop() {
            Some(Later { steps, bindings }) => {
                self.bound.back_to(bindings);
                self.at = At::Steps(steps);
            }
            None => self.at = At::Past,
        }
    }

    /// Goes into the steps of a check that has passed, behind what it opens.
    pub fn pass(
        &mut self,
        opens: &'a [Option<BindingId>],
        body: Steps<'a>,
        behind: Steps<'a>,
    ) -> Result<(), AllocError>
        ensures { IfOk result (λ _. (k : CallOf) (stored : List Stored) (since : List Event)
            → IsPassing k stored self.old opens.now body.entry behind.entry since → IsFrameOf k stored self.new since) }
    {
        make_room(&mut self.later)?;
        self.later.push(Later {
            steps: behind,
            bindings: self.bound.len(),
        })?;
        self.at = At::Opens(opens, body);
        Ok(())
    }
}
