//! What follows when the sites of a step are bound: its check.
ghost use Rattle.std.specs.Prelude.{◌≡◌, ◌↔◌, ℕ, List, IfOk, IsTrue, Some, slice_get};
ghost use Rattle.isle_meaning.specs.Held.{Held, held_value};
ghost use Rattle.isle_meaning.specs.Held.{Meets};
ghost use Rattle.isle_meaning.specs.Machine.Runs.{result_held};
ghost use Rattle.isle_meaning.specs.Values.{Value as MeantValue};
ghost use Rattle.isle_meaning.specs.Worlds.{Event};
ghost use Rattle.isle_blocks.specs.declared.serializer.views.ControlFlow.TheVariants as flows;
ghost use Rattle.isle_blocks.specs.Building.Naming.{name_by};
ghost use Rattle.isle_blocks.specs.Rows.{test_of};
ghost use Rattle.isle_ast.specs.declared.pos.Pos.{Pos as Place};
ghost use Rattle.isle_blocks.specs.declared.serializer.views.Steps.{Steps as Walk};
ghost use Rattle.isle_calls.specs.declared.machine.frame.At.TheVariants.{Past as PastAll};
ghost use Rattle.isle_calls.specs.declared.store.Stored.{Stored as StoredValue};
ghost use Rattle.isle_calls.specs.Inside.Blocks.Frames.{IsChecking, IsFrameOf, tree_way};
ghost use Rattle.isle_calls.specs.Inside.Blocks.Holdings.{Holds};
ghost use Rattle.isle_calls.specs.Calls.Open.{CallOf};
ghost use Rattle.isle_calls.specs.Calls.Ways.{TurnsTo};
ghost use Rattle.isle_program.specs.Programs.{types_of};
ghost use Rattle.isle_calls.specs.Stores.Values.{Extends, Stands};

use super::frame::{At, Frame};
use super::holding::Holding;
use super::passing::{is_bool, is_constant, is_int, is_struct, is_variant};
use super::reading::Machine;
use crate::frames::{Advanced, Turn, unmatched};
use crate::store::Stored;
use isle_blocks::{Arms, BindingId, Constraint, ControlFlow, Steps};
use std::alloc::AllocError;

impl<'a> Machine<'a> {
    /// Makes a check, behind which stand steps.
    pub fn check(
        &mut self,
        frame: &mut Frame<'a>,
        check: ControlFlow<'a>,
        behind: Steps<'a>,
    ) -> Result<Turn, AllocError>
        ensures turned { IfOk result (λ turn. (k : CallOf) (since : List Event) → k.program ≡ self.old.program.now
            → IsChecking k self.old.store frame.old check.entry behind.entry since → TurnsTo tree_way k self.new.store frame.new since turn) }
        ensures kept { Extends self.old.store self.new.store }
        ensures program { self.new.program.now ≡ self.old.program.now }
    {
        match check {
            ControlFlow::Match { source, arms } => self.match_site(frame, source, arms, behind),
            ControlFlow::Equal { a, b, body } => self.compare(frame, a, b, body, behind),
            ControlFlow::Loop { .. } => Ok(Turn::Comes(Advanced::Missing)),
            ControlFlow::Return { result, .. } => self.give(frame, result),
        }
    }

    /// Goes into the first arm whose test a site passes, if there is one.
    fn match_site(
        &mut self,
        frame: &mut Frame<'a>,
        source: BindingId,
        arms: Arms<'a>,
        behind: Steps<'a>,
    ) -> Result<Turn, AllocError>
        ensures turned { IfOk result (λ turn. (k : CallOf) (since : List Event) → k.program ≡ self.old.program.now
            → IsChecking k self.old.store frame.old (flows.Match source arms.entry) behind.entry since
            → TurnsTo tree_way k self.new.store frame.new since turn) }
        ensures kept { Extends self.old.store self.new.store }
        ensures program { self.new.program.now ≡ self.old.program.now }
    {
        let Some(held) = self.read(frame, source)? else {
            return Ok(Turn::Comes(Advanced::Missing));
        };
        let mut left = arms;
        while let Some((arm, others)) = left.next() {
            if self.passes(&arm.constraint, &held) {
                frame.pass(arm.bindings, arm.body, behind)?;
                return Ok(Turn::On);
            }
            left = others;
        }
        frame.at = At::Steps(behind);
        Ok(Turn::On)
    }

    /// Goes on where two sites hold the same.
    fn compare(
        &mut self,
        frame: &mut Frame<'a>,
        a: BindingId,
        b: BindingId,
        body: Steps<'a>,
        behind: Steps<'a>,
    ) -> Result<Turn, AllocError>
        ensures turned { IfOk result (λ turn. (k : CallOf) (since : List Event) → k.program ≡ self.old.program.now
            → IsChecking k self.old.store frame.old (flows.Equal a b body.entry) behind.entry since
            → TurnsTo tree_way k self.new.store frame.new since turn) }
        ensures kept { Extends self.old.store self.new.store }
        ensures program { self.new.program.now ≡ self.old.program.now }
    {
        let Some(first) = self.read(frame, a)? else {
            return Ok(Turn::Comes(Advanced::Missing));
        };
        let Some(second) = self.read(frame, b)? else {
            return Ok(Turn::Comes(Advanced::Missing));
        };
        if self.is_same(&first, &second) {
            frame.pass(&[], body, behind)?;
        } else {
            frame.at = At::Steps(behind);
        }
        Ok(Turn::On)
    }

    /// What is given where a rule returns: the value that its result's site holds.
    fn give(&mut self, frame: &Frame<'a>, site: BindingId) -> Result<Turn, AllocError>
        ensures turned { IfOk result (λ turn. (k : CallOf) (since : List Event) (rule : ℕ) (pos : Place) (behind : Walk)
            → k.program ≡ self.old.program.now → IsChecking k self.old.store frame.now (flows.Return rule pos site) behind since
            → TurnsTo tree_way k self.new.store frame.now since turn) }
        ensures kept { Extends self.old.store self.new.store }
        ensures program { self.new.program.now ≡ self.old.program.now }
    {
        let Some(held) = self.read(frame, site)? else {
            return Ok(Turn::Comes(Advanced::Missing));
        };
        match given_by(held, self.program.is_partial(frame.term)) {
            Some(number) => Ok(Turn::Comes(Advanced::Is(number))),
            None => Ok(Turn::Comes(Advanced::Missing)),
        }
    }

    /// Whether two sites hold the same.
    fn is_same(&self, first: &Holding, second: &Holding) -> bool
        ensures { (h j : Held) → Holds self.now.store first.now h → Holds self.now.store second.now j → IsTrue result ↔ (h ≡ j) }
    {
        let _count = self.store.len();
        is_one(first, second)
    }

    /// Whether what a site holds passes a test.
    fn passes(&self, test: &Constraint, held: &Holding) -> bool
        ensures { (h : Held) → Holds self.now.store held.now h
            → IsTrue result ↔ Meets (test_of (name_by (types_of self.now.program.now).names) test.now) h }
    {
        match held.number() {
            Some(number) => match self.store.get(number) {
                Some(stored) => self.value_passes(test, stored),
                None => false,
            },
            None => match test {
                Constraint::Some => held.options > 0,
                _ => false,
            },
        }
    }

    /// Whether a value passes a test.
    fn value_passes(&self, test: &Constraint, stored: &Stored) -> bool
        ensures { (v : MeantValue) (n : ℕ) → slice_get self.now.store n ≡ Some stored.now → Stands self.now.store v n
            → IsTrue result ↔ Meets (test_of (name_by (types_of self.now.program.now).names) test.now) (held_value v) }
    {
        match test {
            Constraint::Variant {
                ty,
                variant,
                fields,
            } => is_variant(stored, *ty, *variant, *fields),
            Constraint::Struct { ty, fields } => is_struct(stored, *ty, *fields),
            Constraint::ConstBool { val, .. } => is_bool(stored, *val),
            Constraint::ConstInt { val, .. } => is_int(stored, *val),
            Constraint::ConstPrim { val } => is_constant(self.program.types(), stored, *val),
            Constraint::Some => false,
        }
    }

    /// What a call comes to of whose tree no step is left.
    pub fn past(&self, frame: &Frame<'a>) -> Result<Turn, AllocError>
        ensures { IfOk result (λ turn. (k : CallOf) (since : List Event) → k.program ≡ self.now.program.now
            → frame.now.at ≡ PastAll → IsFrameOf k self.now.store frame.now since → TurnsTo tree_way k self.now.store frame.now since turn) }
    {
        let comes = unmatched(
            self.alloc,
            self.program,
            &self.store,
            frame.term,
            frame.args.as_slice(),
        )?;
        Ok(Turn::Comes(comes))
    }
}

/// The value that a rule's result holds, which in a term that may fail is in an option.
fn given_by(held: Holding, partial: bool) -> Option<usize>
    ensures { (stored : List StoredValue) (v : MeantValue) → Holds stored held (result_held partial v)
        → (number : ℕ) × (result ≡ Some number) × Stands stored v number }
{
    if partial {
        held.in_it()?.number()
    } else {
        held.number()
    }
}

/// Whether two are held in one way.
fn is_one(first: &Holding, second: &Holding) -> bool
    ensures { IsTrue result ↔ (first.now ≡ second.now) }
{
    first == second
}
