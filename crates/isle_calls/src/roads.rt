//! The roads by which calls are answered.
ghost use Rattle.std.specs.Prelude.{◌≡◌, ◌++◌, List, [], IfOk, OnErr};
ghost use Rattle.isle_meaning.specs.Outcomes.{given, missing};
ghost use Rattle.isle_meaning.specs.Values.{Value, Values};
ghost use Rattle.isle_meaning.specs.Worlds.{Event};
ghost use Rattle.isle_calls.specs.declared.store.Stored.{Stored};
ghost use Rattle.isle_program.specs.declared.program.Program.{Program as CompiledProgram};
ghost use Rattle.isle_calls.specs.Calls.Open.{CallOf};
ghost use Rattle.isle_calls.specs.Calls.States.{host, state, Makes, IsOpenIn, HasGoneOn};
ghost use Rattle.isle_calls.specs.Calls.Ways.{Way, Below, HasBegun, IsReady, IsWay, TurnsTo};
ghost use Rattle.isle_calls.specs.Stores.Values.{Stands, StandEach};

use crate::answer::Effect;
use crate::frames::Turn;
use crate::store::Store;
use isle_program::Program;
use isle_types::TermId;
use isle_values::World;
use std::alloc::AllocError;

/// A way to answer calls, a frame for each call that is open, with the program and the values that were met.
pub trait Road {
    type Frame: Drop;

    /// the program whose terms are called
    ghost compiled: { Self → CompiledProgram };

    /// the values that were met
    ghost stored: { Self → List Stored };

    /// what it says of calls
    ghost way: { Way Self.Frame };

    fn program(&self) -> &Program
        ensures { result.now ≡ compiled self.now };

    fn store(&self) -> &Store
        ensures { result.now ≡ stored self.now };

    /// Begins a call: of a term on the values of numbers, where so many may be open below.
    fn begin(&self, term: TermId, args: Vec<usize>, depth: u32) -> Self::Frame
        ensures { (k : CallOf) (stored : List Stored) → k.program ≡ compiled self.now → k.depth ≡ depth → k.term ≡ term.0
            → StandEach stored k.args args.items → IsReady way.holds k.program k.term k.args → way.is_frame k stored result [] };

    /// Goes on with a frame.
    fn go<W: World>(
        &mut self,
        frame: &mut Self::Frame,
        world: &mut W,
        effects: &mut Vec<Effect>,
    ) -> Result<Turn, AllocError>
        ensures turned { IfOk result (λ turn. (k : CallOf) (since : List Event)
            → IsOpenIn (host W.step W.constructs W.extracts) k (state (compiled self.old) world.old effects.old.items (stored self.old))
            → way.is_frame k (stored self.old) frame.old since → (made : List Event)
            × Makes (host W.step W.constructs W.extracts) (state (compiled self.old) world.old effects.old.items (stored self.old))
            (state (compiled self.new) world.new effects.new.items (stored self.new)) made
            × TurnsTo way k (stored self.new) frame.new (since ++ made) turn) }
        ensures lost { OnErr result ((k : CallOf) (since : List Event)
            → IsOpenIn (host W.step W.constructs W.extracts) k (state (compiled self.old) world.old effects.old.items (stored self.old))
            → way.is_frame k (stored self.old) frame.old since → HasBegun (host W.step W.constructs W.extracts) way
            (state (compiled self.old) world.old effects.old.items (stored self.old))
            (state (compiled self.new) world.new effects.new.items (stored self.new)) k since) }
        ensures goes_on { HasGoneOn (host W.step W.constructs W.extracts)
            (state (compiled self.old) world.old effects.old.items (stored self.old))
            (state (compiled self.new) world.new effects.new.items (stored self.new)) };

    /// The call that a frame waits for has the value of a number.
    fn answer(&self, frame: &mut Self::Frame, number: usize)
        ensures { (k : CallOf) (stored : List Stored) (since trace : List Event) (term : TermId) (args : Values) (v : Value)
            → way.is_waiting k stored frame.old since term args → Below way k term.0 args trace (given v) → Stands stored v number
            → way.is_frame k stored frame.new (since ++ trace) };

    /// The call that a frame waits for was answered none.
    fn miss(&self, frame: &mut Self::Frame)
        ensures { (k : CallOf) (stored : List Stored) (since trace : List Event) (term : TermId) (args : Values)
            → way.is_waiting k stored frame.old since term args → Below way k term.0 args trace missing
            → way.is_frame k stored frame.new (since ++ trace) };

    /// How many steps a frame's call has taken.
    fn steps(&self, frame: &Self::Frame) -> u128
        ensures { result ≡ way.steps_of frame.now };

    /// How many calls may be open below a frame's.
    fn depth(&self, frame: &Self::Frame) -> u32
        ensures { result ≡ way.depth_of frame.now };

    /// What holds of the frames; it does nothing.
    fn laws(&self)
        ensures { IsWay way };
}
