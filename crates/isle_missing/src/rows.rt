//! Rules as the lists of their demands, and which are left where one demand holds or fails.
ghost use Rattle.std.specs.Prelude.{◌≡◌, ◌<◌, ◌++◌, IfOk, OnOk, length};
ghost use Rattle.isle_missing.specs.Inside.Rows.{apart, is_denied, has_demand, without, where_holds, where_fails, IsChoice};

use crate::demand::Demand;
use crate::ids::SiteId;
use crate::sites::{SiteTests, single_tests};
use std::alloc::{AllocError, Global};
use std::marker::Model;

/// What a rule demands, in an order in which each site has a value where what stands before holds.
#[derive(Drop)]
pub struct Row {
    demands: Vec<Demand>,
}

impl Model for Row {
    ghost use Rattle.std.specs.Prelude.{List};
    ghost use Rattle.isle_missing.specs.declared.demand.Demand.{Demand};

    ghost Value = { List Demand };

    ghost view = { λ row. row.demands.items };
}

impl Row {
    /// The rule that demands these.
    pub fn new(demands: Vec<Demand>) -> Row
        ensures { result ≡ demands.items }
    {
        Row { demands }
    }

    /// Its demands.
    pub fn demands(&self) -> &[Demand]
        ensures { result.now ≡ self.now }
    {
        self.demands.as_slice()
    }
}

/// Whether one of the demands fails where the known one holds.
pub(crate) fn is_denied(demands: &[Demand], known: Demand) -> bool
    ensures { result ≡ is_denied known demands.now }
{
    demands.iter().any(|demand| known.denies(*demand))
}

/// Whether this is one of the demands.
pub(crate) fn has_demand(demands: &[Demand], known: Demand) -> bool
    ensures { result ≡ has_demand known demands.now }
{
    demands.iter().any(|demand| known.is(*demand))
}

/// The other demands.
fn without(alloc: Global, demands: &[Demand], known: Demand) -> Result<Vec<Demand>, AllocError>
    ensures { IfOk result (λ left. left.items ≡ without known demands.now) }
{
    demands
        .iter()
        .filter(|demand| !known.is(**demand))
        .copied()
        .collect(alloc)
}

/// A copy of rules.
pub(crate) fn copied(alloc: Global, rows: &[Row]) -> Result<Vec<Row>, AllocError>
    ensures { IfOk result (λ copy. copy.items ≡ rows.now) }
{
    let mut copy = Vec::new(alloc);
    for row in rows {
        copy.push(Row::new(row.demands().to_vec(alloc)?))?;
    }
    Ok(copy)
}

/// The rules that may match where the demand holds, each with what is left of its demands.
pub(crate) fn where_holds(
    alloc: Global,
    rows: &[Row],
    known: Demand,
) -> Result<Vec<Row>, AllocError>
    ensures { IfOk result (λ left. left.items ≡ where_holds known rows.now) }
{
    let mut left = Vec::new(alloc);
    for row in rows {
        if !is_denied(row.demands(), known) {
            left.push(Row::new(without(alloc, row.demands(), known)?))?;
        }
    }
    Ok(left)
}

/// The rules that may match where the demand fails.
pub(crate) fn where_fails(rows: &mut Vec<Row>, known: Demand)
    ensures { rows.new.items ≡ where_fails known rows.old.items }
{
    rows.retain(|row| !has_demand(row.demands(), known));
}

/// Adds what two sites that aren't equal never do: that both pass a test that only one value passes.
pub(crate) fn add_apart(
    alloc: Global,
    rows: &mut Vec<Row>,
    sites: &[SiteTests],
    first: SiteId,
    second: SiteId,
) -> Result<(), AllocError>
    ensures { OnOk result (rows.new.items ≡ rows.old.items ++ apart sites.now first.0 second.0) }
{
    for test in single_tests(sites, first) {
        let both = [
            Demand::Passes {
                site: first,
                test: *test,
            },
            Demand::Passes {
                site: second,
                test: *test,
            },
        ];
        rows.push(Row::new(both.to_vec(alloc)?))?;
    }
    Ok(())
}

/// What to ask next.
pub(crate) enum Choice {
    /// No rule is left.
    NoRule,
    /// A rule is left that demands nothing.
    Matches,
    /// The first demand of a rule, and whether it is the only one.
    Ask { demand: Demand, alone: bool },
}

/// The place of a shortest rule.
fn shortest(rows: &[Row]) -> usize
    ensures { 0 < length rows.now → result < length rows.now }
{
    let mut at = 0;
    for (i, row) in rows.iter().enumerate() {
        if row.demands().len() < rows[at].demands().len() {
            at = i;
        }
    }
    at
}

/// The first demand of a shortest rule.
pub(crate) fn choose(rows: &[Row]) -> Choice
    ensures { IsChoice rows.now result }
{
    let Some(row) = rows.get(shortest(rows)) else {
        return Choice::NoRule;
    };
    match row.demands() {
        [] => Choice::Matches,
        [demand] => Choice::Ask {
            demand: *demand,
            alone: true,
        },
        [demand, ..] => Choice::Ask {
            demand: *demand,
            alone: false,
        },
    }
}
