//! What a query is answered.
ghost use Rattle.std.specs.Prelude.{◌≡◌, IfOk, OnErr};
ghost use Rattle.isle_meaning.specs.ValueTypes.{AreOfTypes};
ghost use Rattle.isle_rules.specs.Values.{value_list};
ghost use Rattle.isle_program.specs.Facts.Reach.{IsRunnable};
ghost use Rattle.isle_program.specs.Programs.{types_of, terms_of, types_taken, value_facts};
ghost use Rattle.isle_calls.specs.TreeCalls.{IsCompiled};
ghost use Rattle.isle_callers.specs.Calls.{IsAnswerOf, IsAnswered, IsBegun, IsLost, hosted};

use isle_run::{Answer, Effect, Program, QueryFault, TermId, Value, World, call};
use std::alloc::{AllocError, Global};

// How many calls of terms with rules may be open at once.
const DEPTH: u32 = 100;

/// What a query is answered.
#[derive(Drop)]
pub enum Reply {
    /// It spells no call, for the cause of this number.
    Refused(u8),
    /// The effects of the call that it spells, in order, and its answer.
    Answered(Vec<Effect>, Answer),
}

/// What a query is answered by a compiled program (its condition).
pub fn reply_to<W: World>(
    alloc: Global,
    program: &Program,
    world: &mut W,
    query: &str,
) -> Result<Reply, AllocError>
    requires { IsCompiled program.now }
    ensures answered { IfOk result (IsAnswered program.now (hosted W.constructs W.extracts W.step world.old world.new) query.now) }
    ensures lost { OnErr result (IsLost program.now (hosted W.constructs W.extracts W.step world.old world.new) query.now) }
    ensures same { (W.constructs world.new ≡ W.constructs world.old) × (W.extracts world.new ≡ W.extracts world.old) }
{
    match isle_run::query(alloc, program, query) {
        Ok((term, args)) => {
            let (effects, answer) = answer_to(alloc, program, world, term, args)?;
            Ok(Reply::Answered(effects, answer))
        }
        Err(QueryFault::Q1) => Ok(Reply::Refused(1)),
        Err(QueryFault::Q2) => Ok(Reply::Refused(2)),
        Err(QueryFault::Q3) => Ok(Reply::Refused(3)),
        Err(QueryFault::Q4) => Ok(Reply::Refused(4)),
        Err(QueryFault::Memory(error)) => Err(error),
    }
}

/// The effects of a call, in order, and its answer.
fn answer_to<W: World>(
    alloc: Global,
    program: &Program,
    world: &mut W,
    term: TermId,
    args: Vec<Value>,
) -> Result<(Vec<Effect>, Answer), AllocError>
    requires compiled { IsCompiled program.now }
    requires callable { IsRunnable (types_of program.now) (terms_of program.now) term.0 }
    requires typed { AreOfTypes (value_facts program.now) (value_list args.items) (types_taken program.now term) }
    ensures answer { IfOk result (λ told. IsAnswerOf program.now (hosted W.constructs W.extracts W.step world.old world.new)
        term (value_list args.items) told.0.items told.1) }
    ensures lost { OnErr result (IsBegun program.now (hosted W.constructs W.extracts W.step world.old world.new) term (value_list args.items)) }
    ensures same { (W.constructs world.new ≡ W.constructs world.old) × (W.extracts world.new ≡ W.extracts world.old) }
{
    let mut effects = Vec::new(alloc);
    let called = call(alloc, program, term, args, DEPTH, world, &mut effects)?;
    Ok((effects, called.answer))
}
