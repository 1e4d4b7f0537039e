//! What is printed of calls that no rule matches.
mod case;
mod expressions;
mod kinds;
mod lines;
mod named;
mod shapes;
mod words;

use crate::verdict::Told;
use case::{Case, text_at, used_sites};
use expressions::expression_texts;
use isle_blocks::{Binding, RuleSet, TupleIndex};
use isle_program::Program;
use isle_types::TermId;
use kinds::kinds_of;
use lines::{Shown, where_lines};
use named::names_of;
use shapes::pattern_texts;
use std::alloc::{AllocError, Global};
use words::blank_text;

/// `(simp (Op.Sub _ _)) matches no rule`, and below it, indented, what the pattern doesn't say, each line with `where` or `and`. The last line has no
/// end.
pub fn missing_text(
    alloc: Global,
    program: &Program,
    term: TermId,
    told: &[Told],
) -> Result<String, AllocError> {
    let Some((set, _)) = program.tree_of(term) else {
        let count = program.arg_types(term).len();
        let call = blank_text(alloc, program.name(term), count)?;
        let call = call.as_str();
        return format!(in alloc; "{call} matches no rule");
    };
    let used = used_sites(alloc, set.bindings(), told)?;
    let case = Case {
        program,
        set,
        told,
        used: used.as_slice(),
    };
    told_text(alloc, case, term)
}

/// The same of a term with rules.
fn told_text(alloc: Global, case: Case<'_>, term: TermId) -> Result<String, AllocError> {
    let kinds = kinds_of(alloc, &case)?;
    let names = names_of(alloc, &case, kinds.as_slice())?;
    let patterns = pattern_texts(alloc, &case, kinds.as_slice(), names.as_slice())?;
    let expressions = expression_texts(alloc, &case, names.as_slice())?;
    let shown = Shown {
        case: &case,
        kinds: kinds.as_slice(),
        patterns: patterns.as_slice(),
        expressions: expressions.as_slice(),
    };
    let lines = where_lines(alloc, &shown)?;
    let name = case.program.name(term);
    let arguments = arguments_text(alloc, &case, term, patterns.as_slice())?;
    let arguments = arguments.as_str();
    let mut text = format!(in alloc; "({name}{arguments}) matches no rule")?;
    push_lines(&mut text, lines.as_slice())?;
    Ok(text)
}

/// The pattern of each argument of a term, each behind a space.
fn arguments_text(
    alloc: Global,
    case: &Case<'_>,
    term: TermId,
    patterns: &[Option<String>],
) -> Result<String, AllocError> {
    let mut text = String::new(alloc);
    for place in 0..case.program.arg_types(term).len() {
        text.push_str(" ")?;
        text.push_str(argument_text(case.set, patterns, place))?;
    }
    Ok(text)
}

/// The pattern of an argument, and `_` where nothing is told of it.
fn argument_text<'a>(set: &RuleSet, patterns: &'a [Option<String>], place: usize) -> &'a str {
    let Ok(index) = TupleIndex::try_from(place) else {
        return "_";
    };
    match set.find_binding(&Binding::Argument { index }) {
        Some(site) => text_at(patterns, site),
        None => "_",
    }
}

/// Adds lines below a text, the first one with `where`, the others with `and`.
fn push_lines(text: &mut String, lines: &[String]) -> Result<(), AllocError> {
    let mut word = "\n    where ";
    for line in lines {
        text.push_str(word)?;
        text.push_str(line.as_str())?;
        word = "\n      and ";
    }
    Ok(())
}
