//! The parts of an expression, evaluated one by one as they are needed.
ghost use Rattle.std.specs.Prelude.{◌≡◌, ◌++◌, ◌∷◌, [], ℕ, List, None, Some, false, true, IfOk, OnOk, length, slice_get};
ghost use Rattle.isle_meaning.specs.Words.{Word};
ghost use Rattle.isle_program.specs.Plain.LaidOut.Words.{made_of, StandBehind};
ghost use Rattle.isle_calls.specs.Stores.Values.{Extends};
ghost use Rattle.isle_calls.specs.Calls.Answers.{answers_in};
ghost use Rattle.isle_calls.specs.Inside.Plain.Fitting.{HoldVariables};
ghost use Rattle.isle_program.specs.declared.laid.Part.TheVariants.{Call};
ghost use Rattle.isle_calls.specs.declared.plain.evaluation.Step.TheVariants.{Is};
ghost use Rattle.isle_calls.specs.Inside.Plain.Underway.{Surroundings, IsUnderway, Tells, known_at, first_unknown};
ghost use Rattle.isle_calls.specs.Inside.Plain.Underway.{known_numbers, IsAnswered, HasTakenOff, IsTop, top_of, AreAround, AreKnown, Comes};
ghost use Rattle.isle_calls.specs.Inside.Plain.Underway.{IsLastStep, IsStepOf};
ghost use Rattle.isle_calls.specs.Inside.Plain.Underway.{StepTells, GoesOn, TurnTells, IsLater, MissesAtOnce, AreAllKnown};

use crate::host::{Told, ask_constructor};
use crate::plain::variables::Variables;
use crate::store::{Store, Stored};
use isle_ast::{Seq, Text};
use isle_program::Program;
use isle_program::laid::Part;
use isle_types::TermId;
use isle_values::{Value, World};
use std::alloc::{AllocError, Global};

/// How far an expression is evaluated.
#[derive(Drop)]
pub struct Evaluation {
    /// The numbers of the values of the parts that have been evaluated.
    known: Vec<Option<usize>>,
    /// What is to be evaluated, last first: each part is one of those that the part before it is made of.
    todo: Vec<usize>,
    /// A call that it waited for was answered none.
    missed: bool,
}

/// What an evaluation comes to.
#[derive(Drop)]
pub enum Evaluated {
    /// All that was asked has been evaluated.
    Done,
    /// A call was answered none.
    Missing,
    /// The answer of this call isn't allowed.
    IllTyped(TermId, Vec<Value>),
    /// It goes on once this call, on these values, is answered.
    Waits(TermId, Vec<usize>),
}

/// What one part comes to.
#[derive(Drop)]
enum Step {
    /// It has this value.
    Is(usize),
    /// This part has to be evaluated before.
    After(usize),
    /// A call is answered none.
    Missing,
    /// The answer of this call isn't allowed.
    IllTyped(TermId, Vec<Value>),
    /// This call has to be answered before.
    Waits(TermId, Vec<usize>),
}

impl Evaluation {
    /// Nothing is evaluated of so many parts.
    pub fn new(alloc: Global, parts: usize) -> Result<Evaluation, AllocError>
        ensures known { IfOk result (λ e. (length e.known.items ≡ parts) × ((k : ℕ) → known_at e k ≡ None)) }
        ensures rest { IfOk result (λ e. (e.todo.items ≡ []) × (e.missed ≡ false)) }
    {
        let mut known = Vec::with_capacity(alloc, parts)?;
        while known.len() < parts {
            known.push(None)?;
        }
        Ok(Evaluation {
            known,
            todo: Vec::new(alloc),
            missed: false,
        })
    }

    /// Asks for a part.
    pub fn ask(&mut self, part: usize) -> Result<(), AllocError>
        ensures todo { OnOk result (self.new.todo.items ≡ self.old.todo.items ++ part ∷ []) }
        ensures rest { (self.new.known ≡ self.old.known) × (self.new.missed ≡ self.old.missed) }
    {
        self.todo.push(part)?;
        Ok(())
    }

    /// The number of the parts.
    pub fn len(&self) -> usize
        ensures { result ≡ length self.now.known.items }
    {
        self.known.len()
    }

    /// The number of a part's value.
    pub fn value_of(&self, part: usize) -> Option<usize>
        ensures { result ≡ known_at self.now part }
    {
        match self.known.get(part) {
            Some(known) => *known,
            None => None,
        }
    }

    /// Answers the call that it waits for.
    pub fn answer(&mut self, number: usize)
        ensures { IsAnswered self.old number self.new }
    {
        if let Some(part) = self.todo.pop() {
            if let Some(slot) = self.known.get_mut(part) {
                *slot = Some(number);
            }
        }
    }

    /// The call that it waits for is answered none.
    pub fn miss(&mut self)
        ensures missed { self.new.missed ≡ true }
        ensures rest { (self.new.known ≡ self.old.known) × (self.new.todo ≡ self.old.todo) }
    {
        self.missed = true;
    }

    /// The part that is to be evaluated next.
    fn top(&self) -> Option<usize>
        ensures { result ≡ top_of self.now }
    {
        self.todo.last().copied()
    }

    /// Leaves the parts that have been evaluated, up to one that hasn't.
    fn settle(&mut self)
        ensures { HasTakenOff self.old self.new }
    {
        while let Some(part) = self.top() {
            if self.value_of(part).is_none() {
                return;
            }
            self.todo.pop();
        }
    }

    /// The first of some parts that isn't evaluated.
    fn first_open(&self, parts: &[usize]) -> Option<usize>
        ensures { result ≡ first_unknown self.now parts.now }
    {
        for i in 0..parts.len() {
            if self.value_of(parts[i]).is_none() {
                return Some(parts[i]);
            }
        }
        None
    }

    /// The numbers of the values of parts, of those that have been evaluated.
    fn values_of(&self, alloc: Global, parts: &[usize]) -> Result<Vec<usize>, AllocError>
        ensures { IfOk result (λ numbers. numbers.items ≡ known_numbers self.now parts.now) }
    {
        let mut numbers = Vec::with_capacity(alloc, parts.len())?;
        for i in 0..parts.len() {
            if let Some(number) = self.value_of(parts[i]) {
                numbers.push(number)?;
            }
        }
        Ok(numbers)
    }
}

/// A program and a world, for the evaluation of expressions.
#[derive(Drop)]
pub struct Evaluating<'a, W> {
    pub alloc: Global,
    pub program: &'a Program,
    pub world: &'a W,
}

impl<'a, W: World> Evaluating<'a, W> {
    /// Evaluates what is asked for, up to the first call that has to be waited for or comes to no value.
    pub fn evaluate(
        &self,
        store: &mut Store,
        variables: &Variables,
        parts: &[Part],
        evaluation: &mut Evaluation,
    ) -> Result<Evaluated, AllocError>
        requires behind { StandBehind parts.now }
        requires sized { length evaluation.old.known.items ≡ length parts.now }
        ensures evaluated { IfOk result (λ evaluated. (s : Surroundings) (whole : Word)
            → AreAround self.now.program.now (answers_in self.now.program.now (W.constructs self.now.world.now)
            (W.extracts self.now.world.now)) parts.now s
            → HoldVariables store.old variables.now s.variables
            → IsUnderway s store.old whole evaluation.old → Tells s store.new whole evaluation.new evaluated) }
        ensures all { IfOk result (λ evaluated. AreAllKnown evaluation.old evaluation.new evaluated) }
        ensures later { OnOk result (IsLater evaluation.old evaluation.new) }
        ensures missed { IfOk result (λ evaluated. MissesAtOnce evaluation.old evaluated) }
        ensures kept { Extends store.old store.new }
    {
        if evaluation.missed {
            return Ok(Evaluated::Missing);
        }
        evaluation.settle();
        while let Some(top) = evaluation.top() {
            if let Some(evaluated) = self.turn(store, variables, parts, evaluation, top)? {
                return Ok(evaluated);
            }
        }
        Ok(Evaluated::Done)
    }

    /// One turn at the part that is to be evaluated next; where that isn't the last one, it tells nothing.
    fn turn(
        &self,
        store: &mut Store,
        variables: &Variables,
        parts: &[Part],
        evaluation: &mut Evaluation,
        top: usize,
    ) -> Result<Option<Evaluated>, AllocError>
        requires behind { StandBehind parts.now }
        requires sized { length evaluation.old.known.items ≡ length parts.now }
        requires top { IsTop evaluation.old top }
        requires unknown { known_at evaluation.old top ≡ None }
        ensures told { IfOk result (λ told. (s : Surroundings) (whole : Word)
            → AreAround self.now.program.now (answers_in self.now.program.now (W.constructs self.now.world.now)
            (W.extracts self.now.world.now)) parts.now s
            → HoldVariables store.old variables.now s.variables
            → IsUnderway s store.old whole evaluation.old → TurnTells s store.new whole evaluation.new told) }
        ensures moved { IfOk result (λ told. GoesOn evaluation.old evaluation.new told) }
        ensures kept { Extends store.old store.new }
    {
        match self.step(store, variables, parts, evaluation, top)? {
            Step::Is(number) => {
                evaluation.answer(number);
                evaluation.settle();
                Ok(None)
            }
            Step::After(part) => {
                evaluation.ask(part)?;
                Ok(None)
            }
            Step::Missing => Ok(Some(Evaluated::Missing)),
            Step::IllTyped(term, args) => Ok(Some(Evaluated::IllTyped(term, args))),
            Step::Waits(term, args) => Ok(Some(Evaluated::Waits(term, args))),
        }
    }

    /// One step at a part that isn't evaluated.
    fn step(
        &self,
        store: &mut Store,
        variables: &Variables,
        parts: &[Part],
        evaluation: &Evaluation,
        place: usize,
    ) -> Result<Step, AllocError>
        requires behind { StandBehind parts.now }
        ensures told { IfOk result (λ step. (s : Surroundings) (whole : Word)
            → AreAround self.now.program.now (answers_in self.now.program.now (W.constructs self.now.world.now)
            (W.extracts self.now.world.now)) parts.now s
            → HoldVariables store.old variables.now s.variables
            → IsUnderway s store.old whole evaluation.now → IsTop evaluation.now place → StepTells s store.new whole place step) }
        ensures lower { IfOk result (λ step. IsStepOf evaluation.now parts.now place step) }
        ensures kept { Extends store.old store.new }
    {
        let Some(part) = parts.get(place) else {
            return Ok(Step::Missing);
        };
        if let Some(open) = evaluation.first_open(part.made_of()) {
            return Ok(Step::After(open));
        }
        let args = evaluation.values_of(self.alloc, part.made_of())?;
        self.compute(store, variables, part, args)
    }

    /// A part whose parts have these values.
    fn compute(
        &self,
        store: &mut Store,
        variables: &Variables,
        part: &Part,
        args: Vec<usize>,
    ) -> Result<Step, AllocError>
        ensures computed { IfOk result (λ step. (s : Surroundings) (place : ℕ)
            → AreAround self.now.program.now (answers_in self.now.program.now (W.constructs self.now.world.now)
            (W.extracts self.now.world.now)) s.parts s
            → HoldVariables store.old variables.now s.variables
            → slice_get s.parts place ≡ Some part.now → AreKnown s store.old (made_of part.now) args.items → Comes s store.new place step) }
        ensures last { IfOk result (λ step. IsLastStep step) }
        ensures kept { Extends store.old store.new }
    {
        match part {
            Part::Var(var) => Ok(Step::Is(variables.get(*var))),
            Part::Bool(val) => put(store, Stored::Bool(*val)),
            Part::Int(val) => put(store, Stored::Int(*val)),
            Part::Const(name) => {
                let text = Text::from_str(self.alloc, self.program.types().sym_name(*name))?;
                put(store, Stored::Const(text))
            }
            Part::Variant(ty, variant, _) => put(
                store,
                Stored::Variant(*ty, *variant, Seq::new(args)),
            ),
            Part::Struct(ty, _) => put(store, Stored::Struct(*ty, Seq::new(args))),
            Part::Call(term, _) => self.call(store, *term, args),
            Part::Impure(term, _, _) => Ok(Step::Waits(*term, args)),
        }
    }

    /// A pure call: one of a term with rules is waited for, any other the world answers.
    fn call(&self, store: &mut Store, term: TermId, args: Vec<usize>) -> Result<Step, AllocError>
        ensures computed { IfOk result (λ step. (s : Surroundings) (place : ℕ) (ns : List ℕ)
            → AreAround self.now.program.now (answers_in self.now.program.now (W.constructs self.now.world.now)
            (W.extracts self.now.world.now)) s.parts s
            → slice_get s.parts place ≡ Some (Call term ns) → AreKnown s store.old ns args.items → Comes s store.new place step) }
        ensures last { IfOk result (λ step. IsLastStep step) }
        ensures kept { Extends store.old store.new }
    {
        if self.program.has_rules(term) {
            return Ok(Step::Waits(term, args));
        }
        match ask_constructor(
            self.alloc,
            self.program,
            self.world,
            store,
            term,
            args.as_slice(),
        )? {
            Told::Gives(number) => Ok(Step::Is(number)),
            Told::Missing => Ok(Step::Missing),
            Told::IllTyped(term, args) => Ok(Step::IllTyped(term, args)),
        }
    }
}

/// The number of a node.
fn put(store: &mut Store, stored: Stored) -> Result<Step, AllocError>
    ensures told { IfOk result (λ step. (n : ℕ) × (slice_get store.new n ≡ Some stored) × (step ≡ Is n)) }
    ensures kept { Extends store.old store.new }
{
    Ok(Step::Is(store.intern(stored)?))
}
