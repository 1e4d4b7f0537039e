//! Worlds whose answers their declarations don't allow.
use crate::programs::program_of;
use isle_run::{Answer, Called, Effect, Program, Value, World, call, call_plain, query};
use std::alloc::{AllocError, Global};
use std::test::Fail;

/// A world that answers all constructors alike, and all extractors, and counts the effects.
#[derive(Drop)]
struct Same {
    answer: Option<Value>,
    outputs: Option<Vec<Value>>,
    effects: u64,
}

impl World for Same {
    ghost use Rattle.std.specs.Prelude.{◌≡◌, ℕ, List, Option};
    ghost use Rattle.std.proofs.Common.{ap};
    ghost use Rattle.isle_rules.specs.Values.{ValueTree, ValueTrees};
    ghost use Rattle.isle_values.specs.Worlds.Entries.{part_shown};

    ghost constructs = { λ world term args. world.answer };

    ghost extracts = { λ world term arg. part_shown world.outputs };

    ghost step = { λ old term args answer new. (answer ≡ old.answer) × (new.answer ≡ old.answer) × (new.outputs ≡ old.outputs) };

    ghost keeps = { λ world next term args answer made. (
      ap (λ (x : Option ValueTree). λ (name : List ℕ) (vs : ValueTrees). x) made.1,
      ap (λ x. λ (name : List ℕ) (v : ValueTree). part_shown x) made.2,
    ) };

    fn construct(
        &self,
        alloc: Global,
        term: &str,
        args: &[Value],
    ) -> Result<Option<Value>, AllocError> {
        match &self.answer {
            Some(value) => Ok(Some(value.clone()?)),
            None => Ok(None),
        }
    }

    fn extract(
        &self,
        alloc: Global,
        term: &str,
        arg: &Value,
    ) -> Result<Option<Vec<Value>>, AllocError> {
        match &self.outputs {
            Some(outputs) => Ok(Some(Vec::from_clones(alloc, outputs.as_slice())?)),
            None => Ok(None),
        }
    }

    fn effect(
        &mut self,
        alloc: Global,
        term: &str,
        args: &[Value],
    ) -> Result<Option<Value>, AllocError> {
        let answer = match &self.answer {
            Some(value) => Some(value.clone()?),
            None => None,
        };
        self.effects = self.effects.saturating_add(1);
        Ok(answer)
    }
}

// The type `Op` comes behind the builtin ones and `Name`.
const RULES: &str = "(type Name (primitive Name)) (type Op (enum Stop (Add (a i8) (b Name))))
    (decl partial f (i8) i8) (rule 1 (f 2) (make 3)) (rule (f x) (if-let y (look x)) (make y))
    (decl make (i8) i8) (extern constructor make make)
    (decl pure partial look (i8) i8) (extern constructor look look)
    (decl op (i8 Name) Op) (extern extractor op take)
    (decl first (Op) i8) (rule (first (op a _)) a)
    (decl both (i8 Name) Op) (extern extractor infallible both both)
    (decl partial left (Op) i8) (rule (left (both a _)) a)";

/// An integer and opaque values behind it, so many in all.
fn outputs(alloc: Global, first: i128, count: u64) -> Result<Vec<Value>, AllocError> {
    let mut outputs = vec![in alloc; Value::int(alloc, first)?]?;
    for number in 1..count {
        outputs.push(Value::opaque(alloc, number)?)?;
    }
    Ok(outputs)
}

/// The world of what constructors are answered, an integer or none, and extractors, their first output and how many they are, or none.
fn world_of(alloc: Global, answers: &str) -> Result<Same, Fail> {
    let (answer, taken) = answers.split_once(", ").ok_or("outputs")?;
    let answer = match answer.parse().ok() {
        Some(number) => Some(Value::int(alloc, number)?),
        None => None,
    };
    let outputs = match taken.split_once(' ') {
        Some((first, count)) => {
            let first = first.parse().ok().ok_or("a number")?;
            let count = count.parse().ok().ok_or("a number")?;
            Some(outputs(alloc, first, count)?)
        }
        None => None,
    };
    Ok(Same {
        answer,
        outputs,
        effects: 0,
    })
}

/// The word or the text of an answer.
fn answer_text(alloc: Global, answer: &Answer) -> Result<String, AllocError> {
    match answer {
        Answer::Value(value) => value.print(alloc),
        Answer::None => String::from_str(alloc, "none"),
        Answer::Stuck(_term, _args) => String::from_str(alloc, "stuck"),
        Answer::Spent => String::from_str(alloc, "spent"),
        Answer::IllTyped(_term, _args) => String::from_str(alloc, "ill-typed"),
    }
}

/// What a query's call comes to, by its term's tree or by its rules; nothing where it is refused.
fn answered(
    alloc: Global,
    program: &Program,
    world: &mut Same,
    line: &str,
    by_tree: bool,
    effects: &mut Vec<Effect>,
) -> Result<Option<Called>, AllocError> {
    let Ok((term, args)) = query(alloc, program, line) else {
        return Ok(None);
    };
    let called = if by_tree {
        call(alloc, program, term, args, 1, world, effects)?
    } else {
        call_plain(alloc, program, term, args, 1, world, effects)?
    };
    Ok(Some(called))
}

/// What a call of a text comes to, by its term's rules, or behind ` by tree` by the term's tree: its steps, the number of its effects, its
/// answer, and how many effects the world has counted.
fn called(
    alloc: Global,
    program: &Program,
    world: &mut Same,
    text: &str,
) -> Result<String, AllocError> {
    let (line, by_tree) = match text.split_once(" by tree") {
        Some((line, _end)) => (line, true),
        None => (text, false),
    };
    let mut effects = Vec::new(alloc);
    let Some(called) = answered(alloc, program, world, line, by_tree, &mut effects)? else {
        return String::from_str(alloc, "refused");
    };
    let answer = answer_text(alloc, &called.answer)?;
    let steps = called.steps;
    let count = effects.len();
    let counted = world.effects;
    format!(in alloc; "{steps} {count} {answer}, {counted} counted")
}

/// What constructors and extractors are answered, with calls: a value of another type, or none of a total term, which is judged before
/// any effect in a condition; too few outputs, too many, or one of another type. What `both` opens is asked for its result alone, behind the choice.
const JUDGED: &str = "
| 127, none: (f 2) → 1 1 127, 1 counted
| 128, none: (f 2) → 1 1 ill-typed, 1 counted
| none, none: (f 2) → 1 1 ill-typed, 1 counted
| 128, none: (f 3) → 2 0 ill-typed, 0 counted
| none, none: (f 3) → 2 0 none, 0 counted
| none, -128 2: (first (Op.Stop)) → 1 0 -128, 0 counted
| none, -129 2: (first (Op.Stop)) → 1 0 ill-typed, 0 counted
| none, 1 1: (first (Op.Stop)) → 1 0 ill-typed, 0 counted
| none, 1 3: (first (Op.Stop)) → 1 0 ill-typed, 0 counted
| 127, none: (f 2) by tree → 2 1 127, 1 counted
| 128, none: (f 2) by tree → 2 1 ill-typed, 1 counted
| none, none: (f 2) by tree → 2 1 ill-typed, 1 counted
| 128, none: (f 3) by tree → 2 0 ill-typed, 0 counted
| none, none: (f 3) by tree → 2 0 none, 0 counted
| none, -128 2: (first (Op.Stop)) by tree → 2 0 -128, 0 counted
| none, -129 2: (first (Op.Stop)) by tree → 1 0 ill-typed, 0 counted
| none, 1 1: (first (Op.Stop)) by tree → 1 0 ill-typed, 0 counted
| none, 1 3: (first (Op.Stop)) by tree → 1 0 ill-typed, 0 counted
| none, 1 2: (left (Op.Stop)) → 1 0 1, 0 counted
| none, none: (left (Op.Stop)) → 1 0 ill-typed, 0 counted
| none, 128 2: (left (Op.Stop)) → 1 0 ill-typed, 0 counted
| none, 1 1: (left (Op.Stop)) → 1 0 ill-typed, 0 counted
| none, 1 2: (left (Op.Stop)) by tree → 1 0 1, 0 counted
| none, none: (left (Op.Stop)) by tree → 1 0 ill-typed, 0 counted
| none, 128 2: (left (Op.Stop)) by tree → 1 0 ill-typed, 0 counted
| none, 1 1: (left (Op.Stop)) by tree → 1 0 ill-typed, 0 counted";

/// What a call comes to behind what a world answers.
fn judged(alloc: Global, program: &Program, row: &str) -> Result<String, Fail> {
    let (answers, text) = row.split_once(": ").ok_or("answers")?;
    let mut world = world_of(alloc, answers)?;
    Ok(called(alloc, program, &mut world, text)?)
}

/// The first row that is answered otherwise, with the answer, or nothing.
fn first_mistake(alloc: Global, program: &Program) -> Result<String, Fail> {
    for row in JUDGED.split("\n| ").skip(1) {
        let (text, wanted) = row.split_once(" → ").ok_or("an arrow")?;
        let found = judged(alloc, program, text)?;
        if found.as_str() != wanted {
            return Ok(format!(in alloc; "{row}, not {found}")?);
        }
    }
    Ok(String::new(alloc))
}

#[test]
fn answers_are_judged(rt: HostRuntime) -> Result<(), Fail> {
    let program = program_of(rt.alloc(), RULES)?;
    assert_eq!(rt; first_mistake(rt.alloc(), &program)?.as_str(), "");
    Ok(())
}
