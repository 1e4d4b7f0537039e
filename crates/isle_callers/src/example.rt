//! The library from a caller's side: compiles the rules of a text, and prints what queries are answered by a host that computes and gives out
//! registers.
ghost use Rattle.std.specs.Prelude.{IfOk, string_bytes};
ghost use Rattle.isle_calls.specs.TreeCalls.{IsCompiled};
ghost use Rattle.isle_callers.specs.Lines.{TellsReply};

mod bytes;
mod host;
mod lines;
mod query;

use host::Registers;
use isle_ast::files::Files;
use isle_run::{Program, Refused, compile};
use lines::lines_of;
use query::reply_to;
use std::alloc::{AllocError, Global};
use std::env::Args;
use std::io::{self, Write};
use std::process::ExitCode;
use std::rc::Rc;

/// The program of one text, or why it has none.
fn program_of(alloc: Global, text: String) -> Result<Result<Program, Refused>, AllocError>
    ensures { IfOk result (λ compiled. IfOk compiled IsCompiled) }
{
    let name = String::from_str(alloc, "rules.isle")?;
    let files = Files::from_names_and_contents(alloc, vec![in alloc; (name, text)]?)?;
    Ok(compile(alloc, Rc::new(alloc, files)?))
}

/// The lines that tell what a query is answered.
fn lines_for(
    alloc: Global,
    program: &Program,
    host: &mut Registers,
    query: &str,
) -> Result<String, AllocError>
    requires { IsCompiled program.now }
    ensures { IfOk result (λ lines. TellsReply program.now host.old query.now (string_bytes lines) host.new) }
{
    let reply = reply_to(alloc, program, host, query)?;
    lines_of(alloc, program, &reply)
}

/// Writes the lines of each query, by the rules of a text, or what is wrong with these.
pub fn run<R: Print + AllocGlobal>(rt: &R, text: String, queries: Args) -> io::Result<ExitCode> {
    let compiled = program_of(rt.alloc(), text)?;
    answer(rt, &compiled, queries)
}

/// The same of a program, or of why there is none.
fn answer<R: Print + AllocGlobal>(
    rt: &R,
    compiled: &Result<Program, Refused>,
    queries: Args,
) -> io::Result<ExitCode>
    requires { IfOk compiled.now IsCompiled }
{
    let mut output = io::writer(rt);
    match compiled {
        Ok(program) => answer_each(rt.alloc(), program, queries, &mut output),
        Err(Refused::Faults(errors)) => {
            write!(output, "{errors}")?;
            Ok(ExitCode::FAILURE)
        }
        Err(Refused::Memory) => Err(io::Error::from(AllocError)),
    }
}

/// Writes the lines of each query. The host goes on from one to the next.
fn answer_each<W: Write>(
    alloc: Global,
    program: &Program,
    queries: Args,
    output: &mut W,
) -> io::Result<ExitCode>
    requires { IsCompiled program.now }
{
    let mut host = Registers::new();
    for query in queries {
        let lines = lines_for(alloc, program, &mut host, query.as_str())?;
        write!(output, "{lines}")?;
    }
    Ok(ExitCode::SUCCESS)
}
