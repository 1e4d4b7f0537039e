//! Rules of definitions, added to a rule set's table.
ghost use Rattle.std.specs.Prelude.{◌≡◌, ◌≤◌, IfOk, IfErr, IfSome, length};
ghost use Rattle.isle_blocks.specs.AddedRules.{IsDefinedRule, IsOwnRule, AddsRule, LacksRoomAlone, LacksRoomFor};
ghost use Rattle.isle_blocks.specs.RuleSets.{IsToldOf};
ghost use Rattle.isle_blocks.specs.Tables.{IsTable};

use crate::assembly::{add_rule, result_of};
use crate::builder::{BuiltRule, build_rule};
use crate::rule::Rule;
use crate::sites::{SiteFault, Sites};
use isle_rules::{TermEnv, VisitFault};
use std::alloc::Global;

/// The own sites of a rule that definitions make, with that of its result.
pub(crate) fn own_rule(
    alloc: Global,
    termenv: &TermEnv,
    source: &isle_rules::Rule,
    partial: bool,
) -> Result<BuiltRule, SiteFault>
    ensures own { IfOk result (λ built. IsOwnRule termenv.now source.now partial built) }
    ensures few { IfOk result (λ built. length built.sites ≤ 65536) }
    ensures full { IfErr result (λ fault. fault ≡ SiteFault.Size → LacksRoomAlone termenv.now source.now partial) }
{
    let mut built = match build_rule(alloc, termenv, source) {
        Ok(built) => built,
        Err(VisitFault::Size) => return Err(SiteFault::Size),
        Err(_) => return Err(SiteFault::Memory),
    };
    let _count = built.sites.len();
    built.result = result_of(&mut built.sites, partial, built.result)?;
    let _count = built.sites.len();
    Ok(built)
}

/// Adds a rule that definitions make to its rule set's table; nothing, and no site added, where no values meet its demands.
pub(crate) fn add_defined(
    alloc: Global,
    termenv: &TermEnv,
    source: &isle_rules::Rule,
    partial: bool,
    table: &mut Sites,
) -> Result<Option<Rule>, SiteFault>
    requires defined { IsDefinedRule termenv.now source.now }
    requires table { IsTable table.old }
    ensures added { IfOk result (λ made. AddsRule termenv.now source.now partial table.old table.new made) }
    ensures told { IfOk result (λ made. IfSome made (λ rule. IsToldOf source.now rule)) }
    ensures kept { IfOk result (λ _. IsTable table.new) }
    ensures full { IfErr result (λ fault. fault ≡ SiteFault.Size → LacksRoomFor termenv.now source.now partial table.old) }
{
    let mut built = own_rule(alloc, termenv, source, partial)?;
    add_rule(alloc, source, &mut built, table)
}
