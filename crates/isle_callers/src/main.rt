//! Callers of the library. The first word is the job: `example` prints what the queries that follow are answered by the rules of the standard
//! input, `count` what that holds, and `refused` what calls come to that may be refused memory. At the word `all` it is counted, the queries are
//! answered, and these calls are made.
#![tactic(auto)]

mod counts;
mod example;
mod refused;

use std::env::{self, Args, Env};
use std::io::{self, ErrorKind, Read, Write};
use std::process::ExitCode;

/// The text of the standard input.
fn input<R: Input + AllocGlobal>(rt: &R) -> io::Result<String> {
    let mut text = String::new(rt.alloc());
    rt.reader().read_to_string(&mut text)?;
    Ok(text)
}

/// Does each job, on one text.
fn do_all<R: Input + Print + AllocGlobal>(rt: &R, queries: Args) -> io::Result<ExitCode> {
    let text = input(rt)?;
    counts::tell_each(rt.alloc(), text.as_str(), &mut io::writer(rt))?;
    example::run(rt, text, queries)?;
    refused::run_all(rt)
}

/// Does the job of a name with the words behind it.
fn perform<R: Input + Print + AllocGlobal>(rt: &R, job: &str, words: Args) -> io::Result<ExitCode> {
    match job {
        "example" => example::run(rt, input(rt)?, words),
        "count" => counts::run(rt, input(rt)?, words),
        "refused" => refused::run(rt, words),
        "all" => do_all(rt, words),
        _ => Ok(ExitCode::from(2)),
    }
}

/// Does what the words behind the program's name say.
fn run<R: Input + Print + Env + AllocGlobal>(rt: &R) -> io::Result<ExitCode> {
    let mut words = env::args(rt)?;
    let _name = words.next();
    match words.next() {
        Some(job) => perform(rt, job.as_str(), words),
        None => Ok(ExitCode::from(2)),
    }
}

fn main(rt: HostRuntime) -> ExitCode {
    match run(&rt) {
        Ok(code) => code,
        Err(error) if error.kind() == ErrorKind::OutOfMemory => {
            let _ = io::writer(&rt).write_all(b"out of memory\n");
            ExitCode::from(5)
        }
        Err(_) => ExitCode::FAILURE,
    }
}
