//! The words of a command line.
ghost use Rattle.std.specs.Prelude.{◌≡◌, ◌<◌, IfErr, IfOk, codes, map, string_bytes, vec_len, alloc_error};
ghost use Rattle.std.specs.List.{list_any};
ghost use Rattle.std.specs.Str.{bytes_eq};
ghost use Rattle.clap.specs.Words.{found_of, new_app, rows_of};
ghost use Rattle.islec.specs.declared.line.LineFault.TheVariants.{Memory};
ghost use Rattle.islec.specs.Faults.{BecomesFault};
ghost use Rattle.islec.specs.Jobs.{HasFiles, reads_input};
ghost use Rattle.islec.specs.Commands.{IsArgument, IsCommand, blocks, blocks_rules, check, check_rules, fmt};
ghost use Rattle.islec.specs.Commands.{depth as the_depth, plain as the_plain, rule_files as the_files, steps as the_steps};
ghost use Rattle.islec.specs.Commands.{coverage as the_coverage, explain as the_explain, trace as the_trace, unanswered as the_unanswered};
ghost use Rattle.islec.specs.Commands.{terms as the_terms, warn as the_warn, world as the_world};
ghost use Rattle.islec.specs.Commands.{missing as the_missing, partial as the_partial, steps_at_most as the_steps_at_most};
ghost use Rattle.islec.specs.Commands.{width as the_width, keep as the_keep, unformatted, diff as the_diff, write as the_write};
ghost use Rattle.islec.specs.Commands.{fmt_rules, islec, run, run_rules};
ghost use Rattle.islec.specs.Lines.{ReadsLine, RefusesLine, SaysLine, IsMisused, misuse_of as the_misuse_of, names_of, output_of as the_output_of};
ghost use Rattle.islec.specs.Lines.{judging_of as the_judging_of};
ghost use Rattle.islec.specs.Inside.Rows.{FillsRules};

use crate::answer::Manner;
use crate::format::{Output, Printing};
use crate::missing::Judging;
use crate::terms::Telling;
use clap::builder::ValueParser;
use clap::error::ErrorKind;
use clap::{Arg, ArgAction, ArgMatches, Command, Error};
use std::alloc::{AllocError, AllocFailed, Global};
use std::convert::AsStr;

/// What the words of a command line ask for.
#[derive(Drop)]
pub struct Line {
    pub job: Job,
    /// The names of the rule files, in order.
    pub files: Vec<String>,
    /// The name of the world's file.
    pub world: Option<String>,
}

/// A command and its numbers.
#[derive(Drop)]
pub enum Job {
    /// Answers queries, so.
    Run(Manner),
    /// Tells whether the files are accepted, and of accepted ones so much more.
    Check(Telling),
    /// Prints the trees of the rules of the terms of these names; of all terms with rules where there is none. With `dot` they are one
    /// graph.
    Blocks { terms: Vec<String>, dot: bool },
    /// Lays the files out, so.
    Fmt(Printing),
}

impl Job {
    /// Whether a file named `-` is standard input: not where that has the queries.
    pub fn reads_input(&self) -> bool
        ensures { result ≡ reads_input self.now }
    {
        match self {
            Job::Run(_) => false,
            Job::Check(_) | Job::Blocks { .. } | Job::Fmt(_) => true,
        }
    }
}

/// Why words gave no command.
#[derive(Drop)]
pub enum LineFault {
    /// The words are no command, or ask for help or the version.
    Usage(Error),
    /// Options that don't go together.
    Misuse(Misuse),
    Memory(AllocError),
}

/// Why options don't go together, of `fmt` or of `check`.
#[derive(Clone, Copy)]
pub enum Misuse {
    /// `--diff` or `--write` without `--keep`.
    Loses,
    /// `--write` with `--check` or `--diff`.
    WritesAndTells,
    /// `--write` on standard input.
    WritesInput,
    /// `--partial` or `--steps-at-most` without `--missing`.
    JudgesNothing,
}

impl From<Error> for LineFault {
    ghost from_gives = { BecomesFault };

    fn from(error: Error) -> LineFault {
        if error.kind() == ErrorKind::OutOfMemory {
            LineFault::Memory(AllocError)
        } else {
            LineFault::Usage(error)
        }
    }
}

impl From<AllocError> for LineFault {
    ghost from_gives = { λ _ fault. fault ≡ Memory alloc_error };

    fn from(error: AllocError) -> LineFault {
        LineFault::Memory(error)
    }
}

/// Reads the words of a command line, of which the first is the program's name.
pub fn line_of<S: AsStr>(alloc: Global, words: &[S]) -> Result<Line, LineFault>
    ensures files { IfOk result (λ line. HasFiles line.job (vec_len line.files)) }
    ensures reads { IfOk result (λ line. ReadsLine (map S.text words.now) line) }
    ensures refused { IfErr result (λ fault. RefusesLine (map S.text words.now) fault) }
{
    let mut command = command(alloc)?;
    let matches = command.try_get_matches_from_mut(words)?;
    if let Some(run) = matches.subcommand_matches("run") {
        return Ok(run_line(alloc, run)?);
    }
    if let Some(check) = matches.subcommand_matches("check") {
        return check_line(alloc, check);
    }
    if let Some(blocks) = matches.subcommand_matches("blocks") {
        return Ok(blocks_line(alloc, blocks)?);
    }
    let Some(fmt) = matches.subcommand_matches("fmt") else {
        unreachable!()
    };
    fmt_line(alloc, fmt)
}

fn command<'a>(alloc: Global) -> Result<Command<'a>, AllocError>
    ensures { IfOk result (IsCommand islec) }
{
    Command::new(alloc, "islec")
        .version("0.137.1 (Jiggermarsh 1.0.0)")
        .about("Compiles files of ISLE rules and answers queries by them")
        .subcommand_required(true)
        .subcommand(run_command(alloc)?)?
        .subcommand(check_command(alloc)?)?
        .subcommand(blocks_command(alloc)?)?
        .subcommand(fmt_command(alloc)?)
}

/// A command that takes no arguments yet.
fn started<'a>(alloc: Global, name: &'a str, about: &'a str) -> Command<'a>
    ensures { IsCommand (new_app name.now) result }
{
    Command::new(alloc, name).about(about)
}

fn run_command<'a>(alloc: Global) -> Result<Command<'a>, AllocError>
    ensures { IfOk result (IsCommand run) }
{
    started(
        alloc,
        "run",
        "Answers queries from standard input, one a line",
    )
    .arg(world(alloc))?
    .arg(depth(alloc))?
    .arg(plain(alloc))?
    .arg(steps(alloc))?
    .arg(trace(alloc))?
    .arg(coverage(alloc))?
    .arg(unanswered(alloc))?
    .arg(explain(
        alloc,
        "Tell below what is refused, and below what is spent, why",
    ))?
    .arg(rule_files(alloc, "The rule files, compiled together in this order"))
}

fn world<'a>(alloc: Global) -> Arg<'a>
    ensures { IsArgument the_world result }
{
    Arg::new(alloc, "world")
        .long("world")
        .value_name("FILE")
        .help("The file that tells what external terms answer")
}

fn depth<'a>(alloc: Global) -> Arg<'a>
    ensures { IsArgument the_depth result }
{
    Arg::new(alloc, "depth")
        .long("depth")
        .value_name("N")
        .help("How many calls of terms with rules may be open at once")
        .value_parser(clap::value_parser!(u32))
        .default_value("100")
}

fn plain<'a>(alloc: Global) -> Arg<'a>
    ensures { IsArgument the_plain result }
{
    Arg::new(alloc, "plain")
        .long("plain")
        .help("Try rules one by one")
        .action(ArgAction::SetTrue)
}

fn steps<'a>(alloc: Global) -> Arg<'a>
    ensures { IsArgument the_steps result }
{
    Arg::new(alloc, "steps")
        .long("steps")
        .help("Tell behind each answer how many steps its call took")
        .action(ArgAction::SetTrue)
}

fn trace<'a>(alloc: Global) -> Arg<'a>
    ensures { IsArgument the_trace result }
{
    Arg::new(alloc, "trace")
        .long("trace")
        .help("Tell before each answer which rules were chosen")
        .action(ArgAction::SetTrue)
}

fn coverage<'a>(alloc: Global) -> Arg<'a>
    ensures { IsArgument the_coverage result }
{
    Arg::new(alloc, "coverage")
        .long("coverage")
        .help("Tell at the end which rules no call chose")
        .action(ArgAction::SetTrue)
}

fn unanswered<'a>(alloc: Global) -> Arg<'a>
    ensures { IsArgument the_unanswered result }
{
    Arg::new(alloc, "unanswered")
        .long("unanswered")
        .help("Tell at the end for which calls the world has no entry of their own")
        .action(ArgAction::SetTrue)
}

fn explain<'a>(alloc: Global, help: &'a str) -> Arg<'a>
    ensures { IsArgument the_explain result }
{
    Arg::new(alloc, "explain")
        .long("explain")
        .help(help)
        .action(ArgAction::SetTrue)
}

fn check_command<'a>(alloc: Global) -> Result<Command<'a>, AllocError>
    ensures { IfOk result (IsCommand check) }
{
    Command::new(alloc, "check")
        .about("Tells whether the files are accepted, or what is wrong with them")
        .arg(terms(alloc))?
        .arg(warn(alloc))?
        .arg(explain(
            alloc,
            "Tell with --terms below each term that can't be run why",
        ))?
        .arg(missing(alloc))?
        .arg(partial(alloc))?
        .arg(steps_at_most(alloc))?
        .arg(rule_files(
            alloc,
            "The rule files, compiled together in this order; - is standard input",
        ))
}

fn terms<'a>(alloc: Global) -> Arg<'a>
    ensures { IsArgument the_terms result }
{
    Arg::new(alloc, "terms")
        .long("terms")
        .help("Tell of each term with rules whether it can be run, and its most steps")
        .action(ArgAction::SetTrue)
}

fn warn<'a>(alloc: Global) -> Arg<'a>
    ensures { IsArgument the_warn result }
{
    Arg::new(alloc, "warn")
        .long("warn")
        .help("Tell what is likely to be a slip, as a variable that isn't used")
        .action(ArgAction::SetTrue)
}

fn missing<'a>(alloc: Global) -> Arg<'a>
    ensures { IsArgument the_missing result }
{
    Arg::new(alloc, "missing")
        .long("missing")
        .help(
            "Tell of each term with rules calls that no rule matches, and whether no call is ever stuck",
        )
        .action(ArgAction::SetTrue)
}

fn partial<'a>(alloc: Global) -> Arg<'a>
    ensures { IsArgument the_partial result }
{
    Arg::new(alloc, "partial")
        .long("partial")
        .help("With --missing: tell of partial terms too")
        .action(ArgAction::SetTrue)
}

fn steps_at_most<'a>(alloc: Global) -> Arg<'a>
    ensures { IsArgument the_steps_at_most result }
{
    Arg::new(alloc, "steps-at-most")
        .long("steps-at-most")
        .value_name("N")
        .help(
            "With --missing: how many looks at a rule one term may take; 10000000 where it is left out",
        )
        .value_parser(clap::value_parser!(usize))
}

fn blocks_command<'a>(alloc: Global) -> Result<Command<'a>, AllocError>
    ensures { IfOk result (IsCommand blocks) }
{
    let term = Arg::new(alloc, "term")
        .long("term")
        .value_name("NAME")
        .help("A term whose tree is printed; all trees where none is named")
        .action(ArgAction::Append);
    let dot = Arg::new(alloc, "dot")
        .long("dot")
        .help("Print the trees as one graph, in the language of Graphviz")
        .action(ArgAction::SetTrue);
    Command::new(alloc, "blocks")
        .about("Prints the trees of tests that the rules become")
        .arg(term)?
        .arg(dot)?
        .arg(rule_files(
            alloc,
            "The rule files, compiled together in this order; - is standard input",
        ))
}

fn rule_files<'a>(alloc: Global, help: &'a str) -> Arg<'a>
    ensures { IsArgument the_files result }
{
    Arg::new(alloc, "file")
        .value_name("FILE")
        .help(help)
        .action(ArgAction::Append)
        .num_args(1..)
        .required(true)
}

fn fmt_command<'a>(alloc: Global) -> Result<Command<'a>, AllocError>
    ensures { IfOk result (IsCommand fmt) }
{
    Command::new(alloc, "fmt")
        .about("Prints files laid out; loses comments and the radix of numbers, which --keep keeps")
        .arg(width(alloc))?
        .arg(keep(alloc))?
        .arg(check_layout(alloc))?
        .arg(diff(alloc))?
        .arg(write(alloc))?
        .arg(rule_files(
            alloc,
            "The files, printed in this order; - is standard input",
        ))
}

fn width<'a>(alloc: Global) -> Arg<'a>
    ensures { IsArgument the_width result }
{
    Arg::new(alloc, "width")
        .long("width")
        .value_name("N")
        .help("How many characters a list on one line may have, at most 1000000")
        .value_parser(ValueParser::Unsigned(0, 1_000_000))
        .default_value("80")
}

fn keep<'a>(alloc: Global) -> Arg<'a>
    ensures { IsArgument the_keep result }
{
    Arg::new(alloc, "keep")
        .long("keep")
        .help("Change white space alone: comments, numbers and single blank lines stay")
        .action(ArgAction::SetTrue)
}

fn check_layout<'a>(alloc: Global) -> Arg<'a>
    ensures { IsArgument unformatted result }
{
    Arg::new(alloc, "check")
        .long("check")
        .help(
            "Print only the names of the files that aren't formatted, with status 1 if there are any",
        )
        .action(ArgAction::SetTrue)
}

fn diff<'a>(alloc: Global) -> Arg<'a>
    ensures { IsArgument the_diff result }
{
    Arg::new(alloc, "diff")
        .long("diff")
        .help(
            "With --keep: print what would change in the files, as a unified diff, with status 1 if anything would",
        )
        .action(ArgAction::SetTrue)
}

fn write<'a>(alloc: Global) -> Arg<'a>
    ensures { IsArgument the_write result }
{
    Arg::new(alloc, "write")
        .long("write")
        .help("With --keep: write the files in place, where none has a fault, and print nothing")
        .action(ArgAction::SetTrue)
}

fn run_line(alloc: Global, matches: &ArgMatches<'_>) -> Result<Line, AllocError>
    requires { FillsRules run_rules (rows_of (found_of matches.now)) }
    ensures files { IfOk result (λ line. HasFiles line.job (vec_len line.files)) }
    ensures says { IfOk result (λ line. SaysLine (codes "run") (rows_of (found_of matches.now)) line) }
{
    let Some(depth) = matches.get_one::<u32>("depth") else {
        unreachable!()
    };
    let files = copies(alloc, matches.get_strs("file").unwrap_or(&[]))?;
    let plain = matches.get_flag("plain");
    let steps = matches.get_flag("steps");
    let trace = matches.get_flag("trace");
    let coverage = matches.get_flag("coverage");
    let unanswered = matches.get_flag("unanswered");
    let explain = matches.get_flag("explain");
    let world = match matches.get_str("world") {
        Some(name) => Some(String::from_str(alloc, name)?),
        None => None,
    };
    Ok(Line {
        job: Job::Run(Manner {
            depth,
            plain,
            steps,
            trace,
            coverage,
            unanswered,
            explain,
        }),
        files,
        world,
    })
}

fn check_line(alloc: Global, matches: &ArgMatches<'_>) -> Result<Line, LineFault>
    requires { FillsRules check_rules (rows_of (found_of matches.now)) }
    ensures files { IfOk result (λ line. HasFiles line.job (vec_len line.files)) }
    ensures says { IfOk result (λ line. SaysLine (codes "check") (rows_of (found_of matches.now)) line) }
    ensures misused { IfErr result (IsMisused (codes "check") (rows_of (found_of matches.now))) }
{
    let files = copies(alloc, matches.get_strs("file").unwrap_or(&[]))?;
    let terms = matches.get_flag("terms");
    let warn = matches.get_flag("warn");
    let explain = matches.get_flag("explain");
    let missing = matches.get_flag("missing");
    let partial = matches.get_flag("partial");
    let steps = matches.get_one::<usize>("steps-at-most");
    match judging_of(missing, partial, steps) {
        Ok(judging) => Ok(Line {
            job: Job::Check(Telling {
                terms,
                warn,
                explain,
                missing: judging,
            }),
            files,
            world: None,
        }),
        Err(misuse) => Err(LineFault::Misuse(misuse)),
    }
}

// How calls are judged where `--missing`, `--partial` and a number of steps are given or not, or why these don't go together.
fn judging_of(missing: bool, partial: bool, steps: Option<usize>) -> Result<Option<Judging>, Misuse>
    ensures { result ≡ the_judging_of missing partial steps }
{
    if !missing {
        return if partial || steps.is_some() {
            Err(Misuse::JudgesNothing)
        } else {
            Ok(None)
        };
    }
    Ok(Some(Judging {
        partial,
        steps: steps.unwrap_or(10_000_000),
    }))
}

fn blocks_line(alloc: Global, matches: &ArgMatches<'_>) -> Result<Line, AllocError>
    requires { FillsRules blocks_rules (rows_of (found_of matches.now)) }
    ensures files { IfOk result (λ line. HasFiles line.job (vec_len line.files)) }
    ensures says { IfOk result (λ line. SaysLine (codes "blocks") (rows_of (found_of matches.now)) line) }
{
    let files = copies(alloc, matches.get_strs("file").unwrap_or(&[]))?;
    let terms = copies(alloc, matches.get_strs("term").unwrap_or(&[]))?;
    let dot = matches.get_flag("dot");
    Ok(Line {
        job: Job::Blocks { terms, dot },
        files,
        world: None,
    })
}

fn fmt_line(alloc: Global, matches: &ArgMatches<'_>) -> Result<Line, LineFault>
    requires { FillsRules fmt_rules (rows_of (found_of matches.now)) }
    ensures files { IfOk result (λ line. HasFiles line.job (vec_len line.files)) }
    ensures says { IfOk result (λ line. SaysLine (codes "fmt") (rows_of (found_of matches.now)) line) }
    ensures misused { IfErr result (IsMisused (codes "fmt") (rows_of (found_of matches.now))) }
{
    let Some(width) = matches.get_one::<u32>("width") else {
        unreachable!()
    };
    let files = copies(alloc, matches.get_strs("file").unwrap_or(&[]))?;
    let keep = matches.get_flag("keep");
    let check = matches.get_flag("check");
    let diff = matches.get_flag("diff");
    let write = matches.get_flag("write");
    let input = has_input(files.as_slice());
    if let Some(misuse) = misuse_of(keep, check, diff, write, input) {
        return Err(LineFault::Misuse(misuse));
    }
    let output = output_of(check, diff, write);
    Ok(Line {
        job: Job::Fmt(Printing {
            width,
            keep,
            output,
        }),
        files,
        world: None,
    })
}

// Why these options of `fmt` don't go together, where standard input is among the files or not.
fn misuse_of(keep: bool, check: bool, diff: bool, write: bool, input: bool) -> Option<Misuse>
    ensures { result ≡ the_misuse_of keep check diff write input }
{
    if !keep {
        return if diff || write {
            Some(Misuse::Loses)
        } else {
            None
        };
    }
    if !write {
        return None;
    }
    if check || diff {
        return Some(Misuse::WritesAndTells);
    }
    if input {
        Some(Misuse::WritesInput)
    } else {
        None
    }
}

// Whether standard input is among files of these names.
fn has_input(files: &[String]) -> bool
    ensures { result ≡ list_any (λ name. bytes_eq (string_bytes name) (codes "-")) files.now }
{
    files.iter().any(|name| name.as_str() == "-")
}

// What becomes of files that are laid out.
fn output_of(check: bool, diff: bool, write: bool) -> Output
    ensures { result ≡ the_output_of check diff write }
{
    if write {
        Output::Places
    } else if diff {
        Output::Changes
    } else if check {
        Output::Names
    } else {
        Output::Prints
    }
}

fn copies(alloc: Global, names: &[&str]) -> Result<Vec<String>, AllocError>
    ensures { IfOk result (λ copies. names_of copies ≡ map (λ name. name.now) names.now) }
{
    let mut copies = Vec::new(alloc);
    for name in names {
        copies.push(String::from_str(alloc, name)?)?;
    }
    Ok(copies)
}
