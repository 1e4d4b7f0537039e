//! How sites are bound.
ghost use Rattle.std.specs.Prelude.{◌≡◌, ◌++◌, List, [], IfOk, OnErr};
ghost use Rattle.isle_meaning.specs.Machine.Runs.{Env};
ghost use Rattle.isle_meaning.specs.Numbered.{constructor_row, extractor_row};
ghost use Rattle.isle_meaning.specs.Outcomes.{given as given_outcome, missing as missing_outcome};
ghost use Rattle.isle_meaning.specs.Values.{Value as MeantValue};
ghost use Rattle.isle_meaning.specs.Worlds.{Event};
ghost use Rattle.isle_blocks.specs.Building.Naming.{name_by};
ghost use Rattle.isle_blocks.specs.Rows.{numbers_of, row_of};
ghost use Rattle.isle_calls.specs.declared.store.Stored.{Stored};
ghost use Rattle.isle_calls.specs.Inside.Blocks.Frames.{IsFrameOf, IsNext, tree_way, machined};
ghost use Rattle.isle_calls.specs.Inside.Blocks.Reading.{IsBinding, BeginsSite, BeginsMade, TellsMade, TellsAnswer, CallHolds, IsMadeOf, AsksNothing, held_or_missing};
ghost use Rattle.isle_calls.specs.Calls.Open.{CallOf};
ghost use Rattle.isle_calls.specs.Calls.States.{host, IsOpenIn, HasGoneOn, Makes};
ghost use Rattle.isle_calls.specs.Calls.Ways.{HasBegun, TurnsTo};
ghost use Rattle.isle_program.specs.Meanings.{checked};
ghost use Rattle.isle_program.specs.Programs.{types_of};
ghost use Rattle.isle_calls.specs.Stores.Values.{Extends, Stands};

use super::frame::{At, Frame, Reply};
use super::holding::Holding;
use super::reading::{Machine, is_computed};
use crate::frames::{Advanced, Turn};
use crate::host::{Told, ask_constructor, ask_extractor, make_effect};
use crate::{Answer, Effect};
use isle_blocks::{Binding, BindingId};
use isle_types::TermId;
use isle_values::{Value, World};
use std::alloc::AllocError;

/// What making a site comes to.
#[derive(Drop)]
enum Made {
    Holds(Holding),
    Missing,
    /// The answer of this call isn't allowed.
    IllTyped(TermId, Vec<Value>),
    /// This call has to be answered before.
    Waits(TermId, Vec<usize>),
}

impl<'a> Machine<'a> {
    /// Binds a site, behind which the call goes on at a place.
    pub fn bind<W: World>(
        &mut self,
        frame: &mut Frame<'a>,
        world: &mut W,
        effects: &mut Vec<Effect>,
        site: BindingId,
        next: At<'a>,
    ) -> Result<Turn, AllocError>
        ensures turned { IfOk result (λ turn. (k : CallOf) (since : List Event)
            → IsOpenIn (host W.step W.constructs W.extracts) k (machined self.old world.old effects.old.items)
            → IsFrameOf k self.old.store frame.old since → IsNext frame.old.at site next.entry
            → (made : List Event)
            × Makes (host W.step W.constructs W.extracts) (machined self.old world.old effects.old.items)
            (machined self.new world.new effects.new.items) made
            × TurnsTo tree_way k self.new.store frame.new (since ++ made) turn) }
        ensures lost { OnErr result ((k : CallOf) (since : List Event)
            → IsOpenIn (host W.step W.constructs W.extracts) k (machined self.old world.old effects.old.items)
            → IsFrameOf k self.old.store frame.old since → IsNext frame.old.at site next.entry
            → HasBegun (host W.step W.constructs W.extracts) tree_way (machined self.old world.old effects.old.items)
            (machined self.new world.new effects.new.items) k since) }
        ensures goes_on { HasGoneOn (host W.step W.constructs W.extracts) (machined self.old world.old effects.old.items)
            (machined self.new world.new effects.new.items) }
    {
        match self.make(frame, world, effects, site)? {
            Made::Holds(held) => {
                frame.bound.bind(site.index(), held)?;
                frame.reply = Reply::Awaited;
                frame.at = next;
                Ok(Turn::On)
            }
            Made::Missing => Ok(Turn::Comes(Advanced::Missing)),
            Made::IllTyped(term, args) => {
                Ok(Turn::Comes(Advanced::Ends(Answer::IllTyped(term, args))))
            }
            Made::Waits(term, args) => Ok(Turn::Comes(Advanced::Calls(term, args))),
        }
    }

    /// Makes a site.
    fn make<W: World>(
        &mut self,
        frame: &Frame<'a>,
        world: &mut W,
        effects: &mut Vec<Effect>,
        site: BindingId,
    ) -> Result<Made, AllocError>
        ensures made { IfOk result (λ made. (k : CallOf) (env : Env)
            → IsOpenIn (host W.step W.constructs W.extracts) k (machined self.old world.old effects.old.items)
            → (b : IsBinding k self.old.store frame.now env) → b.site ≡ site.0 → (events : List Event)
            × Makes (host W.step W.constructs W.extracts) (machined self.old world.old effects.old.items)
            (machined self.new world.new effects.new.items) events
            × TellsMade k self.new.store env b.replied b.row made events) }
        ensures lost { OnErr result ((k : CallOf) (env : Env)
            → IsOpenIn (host W.step W.constructs W.extracts) k (machined self.old world.old effects.old.items)
            → (b : IsBinding k self.old.store frame.now env) → b.site ≡ site.0 → (events : List Event)
            × Makes (host W.step W.constructs W.extracts) (machined self.old world.old effects.old.items)
            (machined self.new world.new effects.new.items) events
            × BeginsMade k env b.replied b.row events) }
        ensures goes_on { HasGoneOn (host W.step W.constructs W.extracts) (machined self.old world.old effects.old.items)
            (machined self.new world.new effects.new.items) }
    {
        match frame.sites.get(site.index()) {
            Some(binding) => self.make_row(frame, world, effects, binding),
            None => Ok(Made::Missing),
        }
    }

    /// Makes a site of which the row is there.
    fn make_row<W: World>(
        &mut self,
        frame: &Frame<'a>,
        world: &mut W,
        effects: &mut Vec<Effect>,
        binding: &Binding,
    ) -> Result<Made, AllocError>
        ensures made { IfOk result (λ made. (k : CallOf) (env : Env)
            → IsOpenIn (host W.step W.constructs W.extracts) k (machined self.old world.old effects.old.items)
            → (b : IsBinding k self.old.store frame.now env)
            → b.row ≡ row_of (name_by (types_of self.old.program.now).names) binding.now → (events : List Event)
            × Makes (host W.step W.constructs W.extracts) (machined self.old world.old effects.old.items)
            (machined self.new world.new effects.new.items) events
            × TellsMade k self.new.store env b.replied b.row made events) }
        ensures lost { OnErr result ((k : CallOf) (env : Env)
            → IsOpenIn (host W.step W.constructs W.extracts) k (machined self.old world.old effects.old.items)
            → (b : IsBinding k self.old.store frame.now env)
            → b.row ≡ row_of (name_by (types_of self.old.program.now).names) binding.now → (events : List Event)
            × Makes (host W.step W.constructs W.extracts) (machined self.old world.old effects.old.items)
            (machined self.new world.new effects.new.items) events
            × BeginsMade k env b.replied b.row events) }
        ensures goes_on { HasGoneOn (host W.step W.constructs W.extracts) (machined self.old world.old effects.old.items)
            (machined self.new world.new effects.new.items) }
    {
        match binding {
            Binding::Extractor { term, parameter } => {
                self.extract(frame, &*world, *term, *parameter)
            }
            Binding::Constructor {
                term,
                parameters,
                instance,
            } => match frame.reply {
                Reply::Given(number) => self.given(*term, number),
                Reply::Missing => Ok(self.missing(*term)),
                Reply::Awaited => self.construct(
                    frame,
                    world,
                    effects,
                    *term,
                    parameters.as_slice(),
                    *instance,
                ),
            },
            _ => self.put(frame, binding),
        }
    }

    /// Makes a site that calls nothing.
    fn put(&mut self, frame: &Frame<'a>, binding: &Binding) -> Result<Made, AllocError>
        ensures made { IfOk result (λ made. (k : CallOf) (env : Env) → k.program ≡ self.old.program.now
            → (b : IsBinding k self.old.store frame.now env)
            → b.row ≡ row_of (name_by (types_of self.old.program.now).names) binding.now
            → AsksNothing b.row → TellsAnswer k self.new.store env b.row made []) }
        ensures kept { Extends self.old.store self.new.store }
        ensures program { self.new.program.now ≡ self.old.program.now }
    {
        if is_computed(binding) {
            let held = self.compute(frame, binding)?;
            Ok(held_or_missing(held))
        } else {
            let held = self.made(frame, binding)?;
            Ok(held_or_missing(held))
        }
    }

    /// Asks an extractor of the world.
    fn extract<W: World>(
        &mut self,
        frame: &Frame<'a>,
        world: &W,
        term: TermId,
        parameter: BindingId,
    ) -> Result<Made, AllocError>
        ensures made { IfOk result (λ made. (k : CallOf) (env : Env)
            → IsOpenIn (host W.step W.constructs W.extracts) k (machined self.old world.now [])
            → (b : IsBinding k self.old.store frame.now env) → b.row ≡ extractor_row term.0 parameter.0
            → TellsAnswer k self.new.store env b.row made []) }
        ensures kept { Extends self.old.store self.new.store }
        ensures program { self.new.program.now ≡ self.old.program.now }
    {
        let Some(number) = self.number(frame, parameter)? else {
            return Ok(Made::Missing);
        };
        let told = ask_extractor(
            self.alloc,
            self.program,
            world,
            &mut self.store,
            term,
            number,
        )?;
        let infallible = self.program.never_fails(term);
        match told {
            Told::Gives(numbers) => {
                let held = Holding::outputs(numbers);
                if infallible {
                    Ok(Made::Holds(held))
                } else {
                    Ok(Made::Holds(held.in_option()?))
                }
            }
            Told::Missing => {
                if infallible {
                    Ok(Made::Missing)
                } else {
                    Ok(Made::Holds(Holding::nothing()))
                }
            }
            Told::IllTyped(term, args) => Ok(Made::IllTyped(term, args)),
        }
    }

    /// Calls a constructor: one of a term with rules is the caller's, any other is the world's.
    fn construct<W: World>(
        &mut self,
        frame: &Frame<'a>,
        world: &mut W,
        effects: &mut Vec<Effect>,
        term: TermId,
        parameters: &[BindingId],
        instance: u32,
    ) -> Result<Made, AllocError>
        ensures made { IfOk result (λ made. (k : CallOf) (env : Env)
            → IsOpenIn (host W.step W.constructs W.extracts) k (machined self.old world.old effects.old.items)
            → (b : IsBinding k self.old.store frame.now env) → b.row ≡ constructor_row term.0 (numbers_of parameters.now) instance
            → (events : List Event)
            × Makes (host W.step W.constructs W.extracts) (machined self.old world.old effects.old.items)
            (machined self.new world.new effects.new.items) events
            × TellsAnswer k self.new.store env b.row made events) }
        ensures lost { OnErr result ((k : CallOf) (env : Env)
            → IsOpenIn (host W.step W.constructs W.extracts) k (machined self.old world.old effects.old.items)
            → (b : IsBinding k self.old.store frame.now env) → b.row ≡ constructor_row term.0 (numbers_of parameters.now) instance
            → (events : List Event)
            × Makes (host W.step W.constructs W.extracts) (machined self.old world.old effects.old.items)
            (machined self.new world.new effects.new.items) events
            × BeginsSite k env b.row events) }
        ensures goes_on { HasGoneOn (host W.step W.constructs W.extracts) (machined self.old world.old effects.old.items)
            (machined self.new world.new effects.new.items) }
    {
        let Some(args) = self.numbers(frame, parameters)? else {
            return Ok(Made::Missing);
        };
        if self.program.has_rules(term) {
            return Ok(Made::Waits(term, args));
        }
        if instance == 0 {
            let told = ask_constructor(
                self.alloc,
                self.program,
                &*world,
                &mut self.store,
                term,
                args.as_slice(),
            )?;
            self.told(term, told)
        } else {
            let told = make_effect(
                self.alloc,
                self.program,
                world,
                &mut self.store,
                effects,
                term,
                args.as_slice(),
            )?;
            self.told(term, told)
        }
    }

    /// A call that the world has answered.
    fn told(&self, term: TermId, told: Told<usize>) -> Result<Made, AllocError>
        ensures { IfOk result (λ made. (stored : List Stored)
            → IsMadeOf stored ((checked self.now.program.now).terms.partial term.0) told made) }
    {
        match told {
            Told::Gives(number) => self.given(term, number),
            Told::Missing => Ok(self.missing(term)),
            Told::IllTyped(term, args) => Ok(Made::IllTyped(term, args)),
        }
    }

    /// A call that has the value of a number: one that may fail holds it in an option.
    fn given(&self, term: TermId, number: usize) -> Result<Made, AllocError>
        ensures { IfOk result (λ made. (stored : List Stored) (v : MeantValue) → Stands stored v number
            → CallHolds stored ((checked self.now.program.now).terms.partial term.0) (given_outcome v) made) }
    {
        let held = Holding::value(number);
        if self.program.is_partial(term) {
            Ok(Made::Holds(held.in_option()?))
        } else {
            Ok(Made::Holds(held))
        }
    }

    /// A call that was answered none: one that may fail holds an empty option.
    fn missing(&self, term: TermId) -> Made
        ensures { (stored : List Stored) → CallHolds stored ((checked self.now.program.now).terms.partial term.0) missing_outcome result }
    {
        if self.program.is_partial(term) {
            Made::Holds(Holding::nothing())
        } else {
            Made::Missing
        }
    }
}

/// A site that holds something, or is missing.
fn held_or_missing(held: Option<Holding>) -> Made
    ensures { result ≡ held_or_missing held }
{
    match held {
        Some(held) => Made::Holds(held),
        None => Made::Missing,
    }
}
