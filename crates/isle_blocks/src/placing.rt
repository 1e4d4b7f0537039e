//! Rules put into the table of their rule set.
ghost use Rattle.std.specs.Prelude.{◌≡◌, IfOk, IfErr, IfSome, OnOk, take, ◌≤◌, ◌<◌, length};
ghost use Rattle.isle_meaning.specs.Demands.{Among};
ghost use Rattle.isle_meaning.specs.Faults.{IsUnreachable};
ghost use Rattle.isle_blocks.specs.Tables.{IsTable};
ghost use Rattle.isle_blocks.specs.Rows.{rows_of};
ghost use Rattle.isle_blocks.specs.Closure.{HasAllFields};
ghost use Rattle.isle_blocks.specs.Inside.ClosureStates.{IsReady};
ghost use Rattle.isle_blocks.specs.Inside.Placing.{ForDemandsOf, IsPlaced, IsPutFirst, GrowsFor, HasNoRoomFor, AreSettled};

use crate::binding::Binding;
use crate::close::{Closed, close};
use crate::constraint::Constraint;
use crate::ids::BindingId;
use crate::moving::{move_constraints, move_pairs, move_sites};
use crate::sites::{SiteFault, Sites};
use std::alloc::Global;

/// A rule in its rule set's table.
#[derive(Drop)]
pub(crate) struct PlacedRule {
    /// The numbers there of the rule's sites.
    pub numbers: Vec<BindingId>,
    /// The tests and classes of the rule's sites.
    pub closed: Closed,
}

/// Closes what a rule demands of its own sites, which grow by the fields that they need, and puts them into the table.
/// Nothing, and no site added there, where no values meet the demands.
pub(crate) fn place_rule(
    alloc: Global,
    own: &mut Sites,
    has: &[(BindingId, Constraint)],
    same: &[(BindingId, BindingId)],
    table: &mut Sites,
) -> Result<Option<PlacedRule>, SiteFault>
    requires ready { IsReady own.old has.now same.now }
    requires table { IsTable table.old }
    ensures placed { IfOk result (λ placed. ForDemandsOf own.old has.now same.now
        (λ name ds. IsPlaced name ds table.old own.old own.new table.new placed)) }
    ensures kept { IfOk result (λ _. IsTable table.new) }
    ensures settled { IfOk result (λ placed. IfSome placed (λ p. AreSettled p.numbers.items p.closed.each.items p.closed.class.items)) }
    ensures full { IfErr result (λ fault. fault ≡ SiteFault.Size
        → ForDemandsOf own.old has.now same.now (λ name ds. (IsUnreachable (Among ds) → ⊥) × HasNoRoomFor name ds table.old own.old)) }
{
    let count = own.len();
    let Some(closed) = close(alloc, own, has, same)? else {
        return Ok(None);
    };
    open_fields(alloc, own.bindings(), count, has, same, table)?;
    let numbers = move_sites(alloc, own.bindings(), table)?;
    Ok(Some(PlacedRule { numbers, closed }))
}

/// Where a rule's own sites, the first of these, have grown by fields: puts them into the table, and then all fields that
/// they lack there, those of the least site first.
fn open_fields(
    alloc: Global,
    sites: &[Binding],
    own: usize,
    has: &[(BindingId, Constraint)],
    same: &[(BindingId, BindingId)],
    table: &mut Sites,
) -> Result<(), SiteFault>
    requires ready { IsReady (take own sites.now) has.now same.now }
    requires table { IsTable table.old }
    ensures opened { OnOk result (ForDemandsOf (take own sites.now) has.now same.now
        (λ name ds. GrowsFor name ds table.old (take own sites.now) table.new)) }
    ensures kept { OnOk result (IsTable table.new) }
    ensures stays { OnOk result (length sites.now ≤ own → table.new ≡ table.old) }
    ensures first { OnOk result (own < length sites.now → IsPutFirst table.old (take own sites.now) table.new) }
    ensures fields { OnOk result (own < length sites.now → ForDemandsOf (take own sites.now) has.now same.now
        (λ name ds. (IsUnreachable (Among ds) → ⊥) → HasAllFields (Among ds) (rows_of name table.new))) }
    ensures full { IfErr result (λ fault. fault ≡ SiteFault.Size
        → ForDemandsOf (take own sites.now) has.now same.now (λ name ds. HasNoRoomFor name ds table.old (take own sites.now))) }
{
    if sites.len() <= own {
        return Ok(());
    }
    let numbers = move_sites(alloc, &sites[..own], table)?;
    let has = move_constraints(alloc, &numbers, has)?;
    let same = move_pairs(alloc, &numbers, same)?;
    close(alloc, table, &has, &same)?;
    Ok(())
}
