//! What a check tells of calls that no rule matches.
ghost use Rattle.std.specs.Prelude.{◌≡◌, ◌&&◌, [], IfOk, IsFalse, IsTrue, false, string_bytes};
ghost use Rattle.isle_program.specs.Facts.Asked.{AreRoots};
ghost use Rattle.isle_program.specs.Facts.Inhabited.{AreAllInhabited};
ghost use Rattle.isle_program.specs.Meanings.{checked, may_run};
ghost use Rattle.isle_program.specs.Programs.{terms_of, types_of};
ghost use Rattle.isle_calls.specs.TreeCalls.{IsCompiled};
ghost use Rattle.islec.specs.Missing.{AreCallsTold, IsLastLine, IsNeverStuckTerm, TellsAllCalls, TellsCalls, TellsMissing, TellsPlaced, TellsTerm};
ghost use Rattle.islec.specs.Missing.{is_judged as the_judged, never_stuck_line, place_of, undecided_line as the_undecided};
ghost use Rattle.islec.specs.Inside.Stuck.{AreNeverStuck};

use isle_coverage::{Told, Verdict, coverage, missing_text};
use isle_program::facts::hindrances::is_multi;
use isle_run::{Program, TermId, place_text};
use isle_syntax::files::Files;
use std::alloc::{AllocError, Global};

/// Which terms are judged, and how long.
#[derive(Clone, Copy)]
pub struct Judging {
    /// Partial terms too.
    pub partial: bool,
    /// How many looks at a rule one term may take.
    pub steps: usize,
}

/// What is told of the calls of terms.
#[derive(Drop)]
struct Judged {
    text: String,
    /// Whether it is known that no call of a term that can be run is stuck.
    never_stuck: bool,
}

/// Whether a term is judged: it isn't multi, and it isn't partial unless partial terms are judged too.
fn is_judged(program: &Program, judging: Judging, term: TermId) -> bool
    ensures { result ≡ the_judged program.now judging term }
{
    !is_multi(program.terms(), term) && (judging.partial || !program.is_partial(term))
}

/// Whether no call of a term is ever stuck, whatever its rules are: it can't be run, or may answer nothing.
fn is_harmless(program: &Program, term: TermId) -> bool
    ensures harmless { IsTrue result → IsNeverStuckTerm program.now term }
    ensures runs { IsFalse result → may_run program.now term.0 }
    ensures answers { IsFalse result → (checked program.now).terms.partial term.0 ≡ false }
{
    !program.runnable(term) || program.is_partial(term)
}

/// Where a term is declared, as `FILE:LINE:COLUMN`.
fn declared_at(
    alloc: Global,
    program: &Program,
    files: &Files,
    term: TermId,
) -> Result<String, AllocError>
    ensures { IfOk result (λ place. string_bytes place ≡ place_of files.now program.now term) }
{
    match program.terms().get_term(term) {
        Some(known) => place_text(alloc, files, known.decl_pos),
        None => Ok(String::new(alloc)),
    }
}

/// Lines, each behind two spaces.
fn indented(alloc: Global, lines: &str) -> Result<String, AllocError> {
    let mut text = String::new(alloc);
    for line in lines.lines() {
        text.push_str("  ")?;
        text.push_str(line)?;
        text.push_str("\n")?;
    }
    Ok(text)
}

/// Where a term is declared, and below it calls of it that no rule matches.
fn missing_lines(
    alloc: Global,
    program: &Program,
    files: &Files,
    term: TermId,
    told: &[Told],
) -> Result<String, AllocError>
    ensures { IfOk result (λ text. TellsPlaced files.now program.now term (string_bytes text)) }
{
    let place = declared_at(alloc, program, files, term)?;
    let calls = missing_text(alloc, program, term, told)?;
    let below = indented(alloc, calls.as_str())?;
    let text = format!(in alloc; "{place}: missing\n{below}")?;
    Ok(text)
}

/// That it isn't decided within so many steps whether each call of a term has a rule.
fn undecided_line(
    alloc: Global,
    program: &Program,
    steps: usize,
    term: TermId,
) -> Result<String, AllocError>
    ensures { IfOk result (λ line. string_bytes line ≡ the_undecided program.now steps term) }
{
    let name = program.name(term);
    format!(in alloc; "{name}: not decided within {steps} steps\n")
}

/// Judges the calls of a term within so many steps. Where it is harmless, none of them is ever stuck.
fn judge_calls(
    alloc: Global,
    program: &Program,
    files: &Files,
    steps: usize,
    term: TermId,
    harmless: bool,
) -> Result<Judged, AllocError>
    requires compiled { IsCompiled program.now }
    requires harmless { IsTrue harmless → IsNeverStuckTerm program.now term }
    ensures told { IfOk result (λ judged. TellsCalls files.now program.now steps term (string_bytes judged.text)) }
    ensures never_stuck { IfOk result (λ judged. IsTrue judged.never_stuck → IsNeverStuckTerm program.now term) }
    ensures nothing { IfOk result (λ judged. string_bytes judged.text ≡ [] → IsTrue judged.never_stuck) }
{
    match coverage(alloc, program, term, steps)? {
        Verdict::Covered => Ok(Judged {
            text: String::new(alloc),
            never_stuck: true,
        }),
        Verdict::Missing(told) => Ok(Judged {
            text: missing_lines(alloc, program, files, term, told.as_slice())?,
            never_stuck: harmless,
        }),
        Verdict::Undecided => Ok(Judged {
            text: undecided_line(alloc, program, steps, term)?,
            never_stuck: harmless,
        }),
    }
}

/// What is told of a term, where it is judged.
fn judge_term(
    alloc: Global,
    program: &Program,
    files: &Files,
    judging: Judging,
    term: TermId,
) -> Result<Judged, AllocError>
    requires { IsCompiled program.now }
    ensures told { IfOk result (λ judged. TellsTerm files.now program.now judging term (string_bytes judged.text)) }
    ensures never_stuck { IfOk result (λ judged. IsTrue judged.never_stuck → IsNeverStuckTerm program.now term) }
    ensures nothing { IfOk result (λ judged. string_bytes judged.text ≡ [] → IsTrue judged.never_stuck) }
{
    let harmless = is_harmless(program, term);
    if is_judged(program, judging, term) {
        return judge_calls(alloc, program, files, judging.steps, term, harmless);
    }
    Ok(Judged {
        text: String::new(alloc),
        never_stuck: harmless,
    })
}

/// Whether both are so.
fn both(first: bool, second: bool) -> bool
    ensures { result ≡ (first && second) }
{
    first && second
}

/// What is told of terms, one behind the other.
fn judge_terms(
    alloc: Global,
    program: &Program,
    files: &Files,
    judging: Judging,
    terms: &[TermId],
) -> Result<Judged, AllocError>
    requires { IsCompiled program.now }
    ensures told { IfOk result (λ judged. AreCallsTold files.now program.now judging terms.now (string_bytes judged.text)) }
    ensures never_stuck { IfOk result (λ judged. IsTrue judged.never_stuck → AreNeverStuck program.now terms.now) }
    ensures nothing { IfOk result (λ judged. string_bytes judged.text ≡ [] → IsTrue judged.never_stuck) }
{
    let mut text = String::new(alloc);
    let mut never_stuck = true;
    for term in terms {
        let judged = judge_term(alloc, program, files, judging, *term)?;
        text.push_str(judged.text.as_str())?;
        never_stuck = both(never_stuck, judged.never_stuck);
    }
    Ok(Judged { text, never_stuck })
}

/// The last line: that no call is ever stuck, where that is known of these terms, which are those with rules, and each type has a value.
fn last_line(program: &Program, terms: &[TermId], never_stuck: bool) -> &'static str
    requires roots { AreRoots (terms_of program.now) terms.now }
    requires never_stuck { IsTrue never_stuck → AreNeverStuck program.now terms.now }
    ensures is { IsLastLine program.now result.now }
    ensures stands { IsTrue never_stuck → AreAllInhabited (types_of program.now).types → result.now ≡ never_stuck_line }
{
    let _count = terms.len();
    if never_stuck && program.inhabited() {
        "no call is ever stuck\n"
    } else {
        ""
    }
}

/// What is told of the calls of the terms with rules, and behind it that none is ever stuck, where that is known.
fn all_calls(
    alloc: Global,
    program: &Program,
    files: &Files,
    judging: Judging,
) -> Result<String, AllocError>
    requires { IsCompiled program.now }
    ensures { IfOk result (λ text. TellsAllCalls files.now program.now judging (string_bytes text)) }
{
    let terms = program.terms_with_rules();
    let Judged {
        mut text,
        never_stuck,
    } = judge_terms(alloc, program, files, judging, terms)?;
    text.push_str(last_line(program, terms, never_stuck))?;
    Ok(text)
}

/// What is told of calls that no rule matches, where that is asked for.
pub fn calls_text(
    alloc: Global,
    program: &Program,
    files: &Files,
    missing: Option<Judging>,
) -> Result<String, AllocError>
    requires { IsCompiled program.now }
    ensures { IfOk result (λ text. TellsMissing files.now program.now missing (string_bytes text)) }
{
    match missing {
        Some(judging) => all_calls(alloc, program, files, judging),
        None => Ok(String::new(alloc)),
    }
}
