//! The rules that are chosen while calls run.

use crate::store::Store;
use isle_ast::pos::Pos;
use isle_program::Program;
use isle_types::TermId;
use isle_values::Value;
use std::alloc::{AllocError, Global};

/// A call of a term with rules, and the rule that is chosen for it.
#[derive(Debug, Drop)]
pub struct Choice {
    pub term: TermId,
    pub args: Vec<Value>,
    /// How many calls may be open below it.
    pub depth: u32,
    /// Where the rule stands; `None` where no rule matches.
    pub rule: Option<Pos>,
}

/// What is known of a call's rule.
#[derive(Clone, Copy)]
pub enum Chosen {
    /// It isn't chosen yet, or was told before.
    Open,
    /// The rule that stands there is chosen.
    Rule(Pos),
    /// No rule matches.
    NoRule,
}

impl Chosen {
    /// The choice of a call, where it is made.
    pub fn choice(
        self,
        alloc: Global,
        program: &Program,
        store: &Store,
        term: TermId,
        args: &[usize],
        depth: u32,
    ) -> Result<Option<Choice>, AllocError> {
        let rule = match self {
            Chosen::Open => return Ok(None),
            Chosen::Rule(pos) => Some(pos),
            Chosen::NoRule => None,
        };
        let args = store.print_all(alloc, program, args, program.arg_types(term))?;
        Ok(Some(Choice {
            term,
            args,
            depth,
            rule,
        }))
    }
}
