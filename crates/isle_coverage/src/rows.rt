//! Rules by what they demand, with sites and tests by their numbers.
ghost use Rattle.std.specs.Prelude.{◌≡◌, ◌++◌, map, IfOk, OnOk};
ghost use Rattle.std.specs.List.{AllZip};
ghost use Rattle.isle_missing.specs.Demands.{equals};
ghost use Rattle.isle_blocks.specs.declared.ids.BindingId.{BindingId as SiteNumber};
ghost use Rattle.isle_coverage.specs.Inside.Rows.{AreEqualDemands, AreTestDemands, IsRow, same_demands};
ghost use Rattle.isle_coverage.specs.Inside.Tables.{KeepsNumbers};

use crate::table::TestTable;
use isle_blocks::{BindingId, Rule};
use isle_missing::{Demand, Row, SiteId};
use std::alloc::{AllocError, Global};

/// The number of a site for the search.
pub(crate) fn site_of(site: BindingId) -> SiteId
    ensures { result.0 ≡ site.0 }
{
    SiteId(site.index())
}

/// Adds that sites pass the tests of a rule, in the order of the sites.
fn add_tests(
    demands: &mut Vec<Demand>,
    table: &mut TestTable,
    rule: &Rule,
) -> Result<(), AllocError>
    ensures added { OnOk result (AreTestDemands table.new rule.now.constraints demands.old.items demands.new.items) }
    ensures kept { OnOk result (KeepsNumbers table.old table.new) }
{
    for place in 0..rule.constraints.len() {
        let (site, test) = rule.constraints.entry(place).unwrap();
        let test = table.number(*test)?;
        demands.push(Demand::Passes {
            site: site_of(*site),
            test,
        })?;
    }
    Ok(())
}

/// Adds that a site holds the same as each of others.
fn add_others(
    demands: &mut Vec<Demand>,
    first: BindingId,
    others: &[BindingId],
) -> Result<(), AllocError>
    ensures { OnOk result (demands.new.items ≡ demands.old.items ++ map (λ (other : SiteNumber). equals first.0 other.0) others.now) }
{
    for other in others {
        demands.push(Demand::Same {
            first: site_of(first),
            second: site_of(*other),
        })?;
    }
    Ok(())
}

/// Adds that the first of some sites holds the same as each other one.
fn add_same(demands: &mut Vec<Demand>, set: &[BindingId]) -> Result<(), AllocError>
    ensures { OnOk result (demands.new.items ≡ demands.old.items ++ same_demands set.now) }
{
    match set {
        [first, others @ ..] => add_others(demands, *first, others),
        [] => Ok(()),
    }
}

/// Adds that the sites of each set of a rule hold the same.
fn add_equalities(alloc: Global, demands: &mut Vec<Demand>, rule: &Rule) -> Result<(), AllocError>
    ensures { OnOk result (AreEqualDemands rule.now.equals demands.old.items demands.new.items) }
{
    for set in &rule.equal_sites(alloc)? {
        add_same(demands, set.as_slice())?;
    }
    Ok(())
}

/// What a rule demands: that sites pass its tests, and behind these that sites hold the same.
fn row_of(alloc: Global, table: &mut TestTable, rule: &Rule) -> Result<Row, AllocError>
    ensures row { IfOk result (λ row. IsRow table.new rule.now row) }
    ensures kept { OnOk result (KeepsNumbers table.old table.new) }
{
    let mut demands = Vec::new(alloc);
    add_tests(&mut demands, table, rule)?;
    add_equalities(alloc, &mut demands, rule)?;
    Ok(Row::new(demands))
}

/// What each rule demands.
pub(crate) fn rows_of(
    alloc: Global,
    table: &mut TestTable,
    rules: &[Rule],
) -> Result<Vec<Row>, AllocError>
    ensures rows { IfOk result (λ rows. AllZip (IsRow table.new) rules.now rows.items) }
    ensures kept { OnOk result (KeepsNumbers table.old table.new) }
{
    let mut rows = Vec::new(alloc);
    for rule in rules {
        rows.push(row_of(alloc, table, rule)?)?;
    }
    Ok(rows)
}
