//! The rules of a term by the numbers of their sites and tests.
ghost use Rattle.std.specs.Prelude.{IfOk};
ghost use Rattle.isle_coverage.specs.Inside.Numbered.{IsNumbered};

use crate::rows::rows_of;
use crate::sites::sites_of;
use crate::table::TestTable;
use isle_blocks::RuleSet;
use isle_missing::{Row, SiteTests};
use isle_program::Program;
use std::alloc::{AllocError, Global};

/// The rules of a term by the numbers of their sites and tests.
#[derive(Drop)]
pub(crate) struct Numbered {
    /// The tests, each at its number.
    pub table: TestTable,
    /// What each rule demands.
    pub rows: Vec<Row>,
    /// What is known of the tests of each site.
    pub sites: Vec<SiteTests>,
}

/// The rules of a set by these numbers.
pub(crate) fn number_rules(
    alloc: Global,
    program: &Program,
    set: &RuleSet,
) -> Result<Numbered, AllocError>
    ensures { IfOk result (IsNumbered program.now set.now) }
{
    let mut table = TestTable::new(alloc);
    let rows = rows_of(alloc, &mut table, set.rules())?;
    let sites = sites_of(alloc, program, set, &mut table, rows.as_slice())?;
    let _tests = table.as_slice();
    Ok(Numbered { table, rows, sites })
}
