//! Calls of a program, and a host that counts its effects.
use crate::refused::tried::{Tried, compared};
use isle_run::{Answer, Effect, Node, Program, Value, World, call_plain, compile, query};
use isle_syntax::files::Files;
use std::alloc::{AllocError, Global};
use std::rc::Rc;

const RULES: &str = "(decl emit (u8) u8) (extern constructor emit emit) (decl f (u8) u8)
    (rule 1 (f 0) (emit (emit 1))) (rule 0 (f x) x)
    (type T (enum A (B (left T) (right T)) (C (number u8))))";

/// The program of the rules.
fn compiled(alloc: Global) -> Result<Program, AllocError> {
    let name = String::from_str(alloc, "rules.isle")?;
    let text = String::from_str(alloc, RULES)?;
    let files = Files::from_names_and_contents(alloc, vec![in alloc; (name, text)]?)?;
    compile(alloc, Rc::new(alloc, files)?).map_err(|_| AllocError)
}

/// Reads a value of the program, or wants memory.
fn value_of(alloc: Global, program: &Program) -> Result<Value, AllocError> {
    let Some(ty) = program.type_named("T") else {
        return Err(AllocError);
    };
    Value::read(alloc, "(T.B (T.C 7) (T.B (T.A) (T.C 255)))", ty, program).map_err(|_| AllocError)
}

/// A value of the program of the rules.
pub fn a_value(alloc: Global) -> Result<Value, AllocError> {
    let program = compiled(alloc)?;
    value_of(alloc, &program)
}

/// Reads a value a first time, which may be refused, and a second time.
fn read_twice(alloc: Global, program: &Program) -> Result<Tried, AllocError> {
    let first = value_of(alloc, program);
    let second = value_of(alloc, program)?;
    compared(alloc, first, &second)
}

/// Reads a value of the program of the rules twice.
pub fn read(alloc: Global) -> Result<Tried, AllocError> {
    let program = compiled(alloc)?;
    read_twice(alloc, &program)
}

/// A host that answers 2 on 1, 9 on 2 and else 0, and counts its answers.
#[derive(Drop)]
struct Counting {
    count: u64,
}

impl World for Counting {
    ghost use Rattle.std.specs.Prelude.{◌≡◌, Option};
    ghost use Rattle.std.specs.declared.option.Option.TheVariants.{None};
    ghost use Rattle.std.proofs.Common.{refl};

    ghost constructs = { λ world term args. None };

    ghost extracts = { λ world term arg. None };

    ghost step = { λ old term args answer new. answer ≡ answer };

    ghost keeps = { λ _ _ _ _ _ _. (refl, refl) };

    fn construct(
        &self,
        _alloc: Global,
        _term: &str,
        _args: &[Value],
    ) -> Result<Option<Value>, AllocError> {
        Ok(None)
    }

    fn extract(
        &self,
        _alloc: Global,
        _term: &str,
        _arg: &Value,
    ) -> Result<Option<Vec<Value>>, AllocError> {
        Ok(None)
    }

    fn effect(
        &mut self,
        alloc: Global,
        _term: &str,
        args: &[Value],
    ) -> Result<Option<Value>, AllocError> {
        let number = match args.first().and_then(|arg| arg.nodes().first()) {
            Some(Node::Int(1)) => 2,
            Some(Node::Int(2)) => 9,
            _ => 0,
        };
        let answer = Value::int(alloc, number)?;
        self.count = self.count.saturating_add(1);
        Ok(Some(answer))
    }
}

/// The text of a value, or none.
fn told_value(alloc: Global, value: &Option<Value>) -> Result<String, AllocError> {
    match value {
        Some(value) => value.print(alloc),
        None => String::from_str(alloc, "none"),
    }
}

/// The line of an effect, behind a semicolon.
fn told_effect(alloc: Global, effect: &Effect) -> Result<String, AllocError> {
    let arg = match effect.args.first() {
        Some(arg) => arg.print(alloc)?,
        None => String::new(alloc),
    };
    let answer = told_value(alloc, &effect.answer)?;
    format!(in alloc; "; ({} {arg}) {answer}", effect.term)
}

/// The lines of effects, one behind the other, and how many the host counted.
fn told_effects(alloc: Global, effects: &[Effect], host: &Counting) -> Result<String, AllocError> {
    let mut state = format!(in alloc; "{} counted", host.count)?;
    for effect in effects {
        state.push_str(told_effect(alloc, effect)?.as_str())?;
    }
    Ok(state)
}

/// Whether a call of `(f 0)`, by the rules or by the trees, has a value.
fn is_answered(
    alloc: Global,
    program: &Program,
    is_plain: bool,
    host: &mut Counting,
    effects: &mut Vec<Effect>,
) -> Result<bool, AllocError> {
    let (term, args) = query(alloc, program, "(f 0)").map_err(|_| AllocError)?;
    let called = if is_plain {
        call_plain(alloc, program, term, args, 1, host, effects)
    } else {
        isle_run::call(alloc, program, term, args, 1, host, effects)
    };
    Ok(matches!(&called, Ok(it) if matches!(it.answer, Answer::Value(_))))
}

/// Calls `(f 0)` in a program.
fn call_in(alloc: Global, program: &Program, is_plain: bool) -> Result<Tried, AllocError> {
    let mut host = Counting { count: 0 };
    let mut effects = Vec::new(alloc);
    let is_answered = is_answered(alloc, program, is_plain, &mut host, &mut effects)?;
    Ok(Tried {
        is_answered,
        state: told_effects(alloc, effects.as_slice(), &host)?,
    })
}

/// Calls `(f 0)` by the rules or by the trees.
pub fn call(alloc: Global, is_plain: bool) -> Result<Tried, AllocError> {
    let program = compiled(alloc)?;
    call_in(alloc, &program, is_plain)
}
