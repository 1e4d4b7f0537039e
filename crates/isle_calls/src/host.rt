//! Calls that a world answers.
ghost use Rattle.std.specs.Prelude.{◌≡◌, ◌↔◌, ◌⊎◌, List, [], ◌∷◌, Option, IfOk, OnErr, IsTrue, map, option_copied};
ghost use Rattle.isle_rules.specs.Values.{ValueTree, value_list, more_trees, no_trees};
ghost use Rattle.isle_meaning.specs.Values.{Value as MeantValue, Values};
ghost use Rattle.isle_meaning.specs.ValueTypes.{AreOfTypes};
ghost use Rattle.isle_meaning.specs.GroundValues.{IsValueOf, AreValuesOf};
ghost use Rattle.isle_meaning.specs.Worlds.{Event, AllowsValue, AllowsOutputs, answer_value, answer_values};
ghost use Rattle.isle_meaning.specs.Asking.{Asked, asks_value};
ghost use Rattle.isle_values.specs.Worlds.Entries.{part_shown};
ghost use Rattle.isle_program.specs.Meanings.{checked};
ghost use Rattle.isle_meaning.specs.Outcomes.{Judged, WorldConstructs, WorldExtracts, WorldEffects};
ghost use Rattle.isle_meaning.specs.PlainBeginnings.{IsEffectOn};
ghost use Rattle.isle_program.specs.Programs.{value_facts, number_of};
ghost use Rattle.isle_calls.specs.Stores.Values.{Stands, StandEach, Extends};
ghost use Rattle.isle_calls.specs.Calls.Answers.{answers_in, IsCalledOn, HasMade};
ghost use Rattle.isle_calls.specs.Calls.Host.{TellsValue, TellsOutputs, HasLast};

use crate::answer::Effect;
use crate::store::Store;
use isle_program::Program;
use isle_types::{TermId, TypeId};
use isle_values::{Value, World, has_type};
use std::alloc::{AllocError, Global};

/// What a call of a world comes to: what it gives, none, or an answer that its declaration doesn't allow.
#[derive(Drop)]
pub enum Told<T> {
    Gives(T),
    Missing,
    IllTyped(TermId, Vec<Value>),
}

/// The number of what a pure constructor of the world gives.
pub fn ask_constructor<W: World>(
    alloc: Global,
    program: &Program,
    world: &W,
    store: &mut Store,
    term: TermId,
    args: &[usize],
) -> Result<Told<usize>, AllocError>
    ensures asked { IfOk result (λ told. (vs : Values) → StandEach store.old vs args.now
        → AreValuesOf (checked program.now).values vs ((checked program.now).terms.inputs term.0)
        → TellsValue (checked program.now) store.new (asks_value term.0 vs)
        (WorldConstructs (checked program.now) (answers_in program.now (W.constructs world.now) (W.extracts world.now)) term.0 vs) told) }
    ensures kept { Extends store.old store.new }
{
    let values = store.print_all(alloc, program, args, program.arg_types(term))?;
    let answer = world.construct(alloc, program.name(term), values.as_slice())?;
    judge_value(program, store, term, values, answer.as_ref())
}

/// The number of what an impure constructor of the world gives; the call joins the effects.
pub fn make_effect<W: World>(
    alloc: Global,
    program: &Program,
    world: &mut W,
    store: &mut Store,
    effects: &mut Vec<Effect>,
    term: TermId,
    args: &[usize],
) -> Result<Told<usize>, AllocError>
    ensures asked { IfOk result (λ told. (vs : Values) → StandEach store.old vs args.now
        → AreValuesOf (checked program.now).values vs ((checked program.now).terms.inputs term.0) → (event : Event)
        × HasMade W.step program.now world.old effects.old.items world.new effects.new.items (event ∷ [])
        × TellsValue (checked program.now) store.new (asks_value term.0 vs)
        (WorldEffects (checked program.now) term.0 vs (event ∷ [])) told) }
    ensures lost { OnErr result ((vs : Values) → StandEach store.old vs args.now
        → AreValuesOf (checked program.now).values vs ((checked program.now).terms.inputs term.0) → (events : List Event)
        × HasMade W.step program.now world.old effects.old.items world.new effects.new.items events
        × ((events ≡ []) ⊎ IsEffectOn (checked program.now) term.0 vs events)) }
    ensures made { (events : List Event) × HasMade W.step program.now world.old effects.old.items world.new effects.new.items events }
    ensures same { (W.constructs world.new ≡ W.constructs world.old) × (W.extracts world.new ≡ W.extracts world.old) }
    ensures kept { Extends store.old store.new }
{
    let values = store.print_all(alloc, program, args, program.arg_types(term))?;
    call_effect(alloc, program, world, effects, term, values.as_slice())?;
    judge_value(
        program,
        store,
        term,
        values,
        last_answer(effects.as_slice()),
    )
}

/// Calls an impure constructor of the world. Room and copies are taken first, and the answer is moved to the effects before
/// anything else asks for memory: so none is lost.
fn call_effect<W: World>(
    alloc: Global,
    program: &Program,
    world: &mut W,
    effects: &mut Vec<Effect>,
    term: TermId,
    args: &[Value],
) -> Result<(), AllocError>
    ensures called { IfOk result (λ _. (answer : Option ValueTree) × HasLast effects.new.items answer
        × HasMade W.step program.now world.old effects.old.items world.new effects.new.items
        (record { term = term.0; args = value_list args.now; answer = answer } ∷ [])) }
    ensures refused { OnErr result ((world.new ≡ world.old) × (effects.new.items ≡ effects.old.items)) }
    ensures same { (W.constructs world.new ≡ W.constructs world.old) × (W.extracts world.new ≡ W.extracts world.old) }
{
    let copies = Vec::from_clones(alloc, args)?;
    let name = String::from_str(alloc, program.name(term))?;
    effects.reserve(1)?;
    let answer = world.effect(alloc, program.name(term), args)?;
    effects.push(Effect {
        term: name,
        args: copies,
        answer,
    })?;
    Ok(())
}

/// What the answer of a constructor comes to.
fn judge_value(
    program: &Program,
    store: &mut Store,
    term: TermId,
    args: Vec<Value>,
    answer: Option<&Value>,
) -> Result<Told<usize>, AllocError>
    ensures judged { IfOk result (λ told. (q : Asked) → IsCalledOn (checked program.now) q term (value_list args.items)
        → TellsValue (checked program.now) store.new q
        (Judged (AllowsValue (checked program.now) term.0 (option_copied answer.entry))
        (answer_value (checked program.now) (option_copied answer.entry)) q) told) }
    ensures kept { Extends store.old store.new }
{
    match answer {
        Some(value) => {
            if has_type(program, value, program.type_of(term)) {
                Ok(Told::Gives(store.share(program, value)?))
            } else {
                Ok(Told::IllTyped(term, args))
            }
        }
        None => {
            if program.is_partial(term) {
                Ok(Told::Missing)
            } else {
                Ok(Told::IllTyped(term, args))
            }
        }
    }
}

/// The numbers of the outputs that an extractor of the world gives.
pub fn ask_extractor<W: World>(
    alloc: Global,
    program: &Program,
    world: &W,
    store: &mut Store,
    term: TermId,
    arg: usize,
) -> Result<Told<Vec<usize>>, AllocError>
    ensures asked { IfOk result (λ told. (v : MeantValue) → Stands store.old v arg
        → IsValueOf (checked program.now).values v ((checked program.now).terms.type_of term.0)
        → TellsOutputs (checked program.now) store.new
        (WorldExtracts (checked program.now) (answers_in program.now (W.constructs world.now) (W.extracts world.now)) term.0 v) told) }
    ensures kept { Extends store.old store.new }
{
    let value = store.print(alloc, program, arg, program.type_of(term))?;
    let answer = world.extract(alloc, program.name(term), &value)?;
    judge_outputs(alloc, program, store, term, value, answer)
}

/// What the answer of an extractor comes to.
fn judge_outputs(
    alloc: Global,
    program: &Program,
    store: &mut Store,
    term: TermId,
    arg: Value,
    answer: Option<Vec<Value>>,
) -> Result<Told<Vec<usize>>, AllocError>
    ensures judged { IfOk result (λ told. (q : Asked) → IsCalledOn (checked program.now) q term (more_trees arg no_trees)
        → TellsOutputs (checked program.now) store.new
        (Judged (AllowsOutputs (checked program.now) term.0 (part_shown answer)) (answer_values (checked program.now) (part_shown answer))
        q) told) }
    ensures kept { Extends store.old store.new }
{
    match answer {
        Some(outputs) => {
            if have_types(program, outputs.as_slice(), program.arg_types(term)) {
                Ok(Told::Gives(store.share_all(program, outputs.as_slice())?))
            } else {
                Ok(Told::IllTyped(term, vec![in alloc; arg]?))
            }
        }
        None => {
            if program.never_fails(term) {
                Ok(Told::IllTyped(term, vec![in alloc; arg]?))
            } else {
                Ok(Told::Missing)
            }
        }
    }
}

/// Whether values are of types, one each.
fn have_types(program: &Program, values: &[Value], types: &[TypeId]) -> bool
    ensures { IsTrue result ↔ AreOfTypes (value_facts program.now) (value_list values.now) (map number_of types.now) }
{
    for i in 0..values.len() {
        let Some(ty) = types.get(i) else {
            return false;
        };
        if !has_type(program, &values[i], *ty) {
            return false;
        }
    }
    values.len() == types.len()
}

/// The answer of the last effect.
fn last_answer(effects: &[Effect]) -> Option<&Value>
    ensures { (answer : Option ValueTree) → HasLast effects.now answer → option_copied result ≡ answer }
{
    match effects.last() {
        Some(effect) => effect.answer.as_ref(),
        None => None,
    }
}
