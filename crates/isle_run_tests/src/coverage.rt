//! Terms each of whose calls has a rule, and terms of which some call has none.
use crate::programs::program_of;
use isle_run::{Program, TermId, Verdict, coverage, missing_text, never_stuck};
use std::alloc::{AllocError, Global};
use std::test::Fail;

const RULES: &str = "(type Ty (enum I8 I64))
(decl size (Ty) u8)
(rule (size (Ty.I8)) 1)
(rule (size (Ty.I64)) 8)
(decl exact (u8) u8)
(rule (exact 1) 2)
(decl all (Ty) u8)
(rule (all x) (size x))
(decl some (u8) u8)
(rule (some x) (exact x))
(decl partial try (u8) u8)
(rule (try 1) 2)
(decl partial may (u8) u8)
(rule (may x) (try x))
";

/// What is told of the calls of a term: nothing where each has a rule.
fn told(alloc: Global, program: &Program, term: TermId) -> Result<String, AllocError> {
    match coverage(alloc, program, term, 1000)? {
        Verdict::Covered => Ok(String::new(alloc)),
        Verdict::Missing(told) => missing_text(alloc, program, term, told.as_slice()),
        Verdict::Undecided => String::from_str(alloc, "undecided"),
    }
}

/// Of each term a call that has no rule is told, and whether a call of it is ever stuck.
#[test]
fn calls_without_rules_are_told(rt: HostRuntime) -> Result<(), Fail> {
    let alloc = rt.alloc();
    let program = program_of(alloc, RULES)?;
    for (name, wanted, never) in [
        ("size", "", true),
        ("exact", "(exact 0) matches no rule", false),
        ("all", "", true),
        ("some", "", false),
        ("try", "(try 0) matches no rule", true),
        ("may", "", true),
    ] {
        let Some(term) = program.term(name) else {
            return Err(Fail::from("no such term"));
        };
        if told(alloc, &program, term)?.as_str() != wanted {
            return Err(Fail::from("another call is told"));
        }
        if never_stuck(alloc, &program, term, 1000)? != never {
            return Err(Fail::from("stuck, or not"));
        }
    }
    Ok(())
}
