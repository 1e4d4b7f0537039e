//! Whether some rule matches whatever the call, or what holds of a call that none matches.
ghost use Rattle.std.specs.Prelude.{◌≡◌, ◌≤◌, ◌<◌, [], ◌∷◌, IfOk, IsTrue, Contains};
ghost use Rattle.isle_missing.specs.Inside.Rounds.{AnswerIs, BranchIs, RoundIs, RefusalIs};
ghost use Rattle.isle_missing.specs.Search.{CoverageIs, IsExample};

use crate::demand::Demand;
use crate::facts::{Fact, Rest, are_refuted, needed, rest_of, without_equalities};
use crate::possible::are_possible;
use crate::rows::{Choice, Row, add_apart, choose, copied, where_fails, where_holds};
use crate::sites::SiteTests;
use std::alloc::{AllocError, Global};

/// Whether each call has a rule.
#[derive(Drop)]
pub enum Coverage {
    /// Each has.
    Covered,
    /// None of which all this is so.
    Missing(Vec<Fact>),
    /// It takes more steps than were allowed.
    Undecided,
}

/// What a search comes to.
#[derive(Clone, Copy)]
pub(crate) enum Answer {
    /// Some rule matches.
    Covered,
    /// No rule matches where all facts are so.
    Missing,
    /// It takes more steps.
    Undecided,
}

/// Rules and facts where the demand fails; false where that can't be.
fn refuse(
    alloc: Global,
    sites: &[SiteTests],
    rows: &mut Vec<Row>,
    facts: &mut Vec<Fact>,
    demand: Demand,
) -> Result<bool, AllocError>
    ensures { IfOk result (RefusalIs sites.now demand facts.old.items rows.old.items facts.new.items rows.new.items) }
{
    where_fails(rows, demand);
    facts.push(Fact {
        demand,
        holds: false,
    })?;
    match demand {
        Demand::Same { first, second } => {
            add_apart(alloc, rows, sites, first, second)?;
            Ok(true)
        }
        Demand::Passes { site, .. } => match rest_of(sites, facts, site) {
            Rest::Open => Ok(true),
            Rest::Nothing => Ok(false),
            Rest::Only(test) => {
                let known = Demand::Passes { site, test };
                facts.push(Fact {
                    demand: known,
                    holds: true,
                })?;
                *rows = where_holds(alloc, rows, known)?;
                Ok(true)
            }
        },
    }
}

/// What is found where the demand holds, which some rule has first, and some rule alone if it is said so.
#[cycle(search)]
fn accept(
    alloc: Global,
    sites: &[SiteTests],
    rows: &[Row],
    facts: &mut Vec<Fact>,
    steps: &mut usize,
    demand: Demand,
    alone: bool,
) -> Result<Answer, AllocError>
    requires { IsTrue alone → Contains rows.now (demand ∷ []) }
    ensures found { IfOk result (BranchIs sites.now rows.now demand facts.old.items facts.new.items) }
    ensures fewer { steps.new ≤ steps.old }
{
    if alone {
        return Ok(Answer::Covered);
    }
    let known = facts.len();
    facts.push(Fact {
        demand,
        holds: true,
    })?;
    let left = where_holds(alloc, rows, demand)?;
    match search(alloc, sites, left, facts, steps)? {
        Answer::Covered => {
            facts.truncate(known);
            Ok(Answer::Covered)
        }
        Answer::Missing => Ok(Answer::Missing),
        Answer::Undecided => Ok(Answer::Undecided),
    }
}

/// One demand of a shortest rule: what is found where it holds, or else the rules and facts that are left where it fails.
#[cycle(search)]
fn round(
    alloc: Global,
    sites: &[SiteTests],
    rows: &mut Vec<Row>,
    facts: &mut Vec<Fact>,
    steps: &mut usize,
) -> Result<Option<Answer>, AllocError>
    ensures found { IfOk result (RoundIs sites.now facts.old.items rows.old.items facts.new.items rows.new.items) }
    ensures fewer { IfOk result (λ answer. answer ≡ None → steps.new < steps.old) }
    ensures no_more { steps.new ≤ steps.old }
{
    let (demand, alone) = match choose(rows) {
        Choice::NoRule => return Ok(Some(Answer::Missing)),
        Choice::Matches => return Ok(Some(Answer::Covered)),
        Choice::Ask { demand, alone } => (demand, alone),
    };
    if *steps < rows.len() {
        return Ok(Some(Answer::Undecided));
    }
    *steps -= rows.len();
    match accept(alloc, sites, rows, facts, steps, demand, alone)? {
        Answer::Covered => {}
        Answer::Missing => return Ok(Some(Answer::Missing)),
        Answer::Undecided => return Ok(Some(Answer::Undecided)),
    }
    if refuse(alloc, sites, rows, facts, demand)? {
        Ok(None)
    } else {
        Ok(Some(Answer::Covered))
    }
}

/// What is found of rules where these facts are so. Where each call has a rule, the facts are as before.
#[cycle(search)]
fn search(
    alloc: Global,
    sites: &[SiteTests],
    mut rows: Vec<Row>,
    facts: &mut Vec<Fact>,
    steps: &mut usize,
) -> Result<Answer, AllocError>
    ensures found { IfOk result (AnswerIs sites.now rows.items facts.old.items facts.new.items) }
    ensures kept { IfOk result (λ answer. answer ≡ Answer.Covered → facts.new.items ≡ facts.old.items) }
    ensures fewer { steps.new ≤ steps.old }
{
    let known = facts.len();
    loop {
        match round(alloc, sites, &mut rows, facts, steps)? {
            None => {}
            Some(Answer::Covered) => {
                facts.truncate(known);
                return Ok(Answer::Covered);
            }
            Some(Answer::Missing) => return Ok(Answer::Missing),
            Some(Answer::Undecided) => return Ok(Answer::Undecided),
        }
    }
}

/// Whether none of the rules matches by these facts, and some call can meet them.
fn is_example(
    alloc: Global,
    sites: &[SiteTests],
    rules: &[Row],
    facts: &[Fact],
) -> Result<bool, AllocError>
    ensures { IfOk result (λ shown. IsTrue shown → IsExample sites.now rules.now facts.now) }
{
    if are_refuted(facts, rules) {
        are_possible(alloc, sites, facts)
    } else {
        Ok(false)
    }
}

/// What the facts of a search tell: the few that are needed, or all but equalities that hold where these don't do.
fn told(
    alloc: Global,
    sites: &[SiteTests],
    rules: &[Row],
    facts: &[Fact],
) -> Result<Coverage, AllocError>
    ensures { IfOk result (CoverageIs sites.now rules.now) }
{
    let few = needed(alloc, sites, facts, rules)?;
    if is_example(alloc, sites, rules, few.as_slice())? {
        return Ok(Coverage::Missing(few));
    }
    let all = without_equalities(alloc, facts)?;
    if is_example(alloc, sites, rules, all.as_slice())? {
        return Ok(Coverage::Missing(all));
    }
    Ok(Coverage::Undecided)
}

/// Whether each call has one of the rules, or of which calls none has, in so many steps: each is a look at a rule. `sites` says of each
/// site what is known of its tests.
pub fn decide(
    alloc: Global,
    sites: &[SiteTests],
    rules: &[Row],
    steps: usize,
) -> Result<Coverage, AllocError>
    ensures { IfOk result (CoverageIs sites.now rules.now) }
{
    let mut facts = Vec::new(alloc);
    let mut left = steps;
    let rows = copied(alloc, rules)?;
    match search(alloc, sites, rows, &mut facts, &mut left)? {
        Answer::Covered => Ok(Coverage::Covered),
        Answer::Missing => told(alloc, sites, rules, facts.as_slice()),
        Answer::Undecided => Ok(Coverage::Undecided),
    }
}
