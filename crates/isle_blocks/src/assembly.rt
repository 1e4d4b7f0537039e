//! Rules of a rule set, made of what visits leave.
ghost use Rattle.std.specs.Prelude.{◌≡◌, true, false, IfOk, IfSome, OnErr, IfErr, IsPermutation, IsSorted, map};
ghost use Rattle.std.specs.List.{filter_map};
ghost use Rattle.std.specs.List.Sorted.{IsStrictlySortedBy};
ghost use Rattle.std.specs.Map.{keys_of};
ghost use Rattle.isle_blocks.specs.declared.binding.Binding.TheVariants.{MakeSome};
ghost use Rattle.isle_blocks.specs.Inside.MovedSites.{new_number};
ghost use Rattle.isle_blocks.specs.Rules.{site_cmp};
ghost use Rattle.isle_blocks.specs.Tables.{IsInterned, IsFull};
ghost use Rattle.isle_blocks.specs.Inside.Assembly.{multi_call, IsAssembled};
ghost use Rattle.isle_blocks.specs.RuleSets.{IsToldOf};
ghost use Rattle.isle_meaning.specs.Demands.{Among};
ghost use Rattle.isle_meaning.specs.Faults.{IsUnreachable};
ghost use Rattle.isle_containers.specs.JoinedSets.{AreDisjoint};
ghost use Rattle.isle_blocks.specs.ClosedRules.{same_site};
ghost use Rattle.isle_blocks.specs.Tables.{IsTable};
ghost use Rattle.isle_blocks.specs.Inside.ClosureStates.{IsReady};
ghost use Rattle.isle_blocks.specs.Inside.NormalRules.{AreTestsOf, AreEqualitiesOf};
ghost use Rattle.isle_blocks.specs.Inside.Placing.{ForDemandsOf, HasNoRoomFor, AreSettled};

use crate::binding::Binding;
use crate::builder::BuiltRule;
use crate::ids::BindingId;
use crate::moving::{all_moved, moved};
use crate::normal::{equalities_of, tests_of};
use crate::placing::{PlacedRule, place_rule};
use crate::rule::Rule;
use crate::sites::{SiteFault, Sites};
use isle_ast::Seq;
use std::alloc::{AllocError, Global};

/// The call of which a site is one value, by the number that it has got.
fn call_of(numbers: &[BindingId], site: &Binding) -> Option<BindingId>
    ensures { result ≡ multi_call (new_number numbers.now) site.now }
{
    match site {
        Binding::Iterator { source } => Some(moved(numbers, *source)),
        _ => None,
    }
}

/// The multi calls whose values are among the sites, by the numbers that they have got, in the order of the values.
fn multi_calls(
    alloc: Global,
    own: &[Binding],
    numbers: &[BindingId],
) -> Result<Vec<BindingId>, AllocError>
    ensures { IfOk result (λ calls. calls.items ≡ filter_map (multi_call (new_number numbers.now)) own.now) }
{
    own.iter()
        .filter_map(|site| call_of(numbers, site))
        .collect(alloc)
}

/// The multi calls whose values are among the sites, by the numbers that they have got, ascending.
pub(crate) fn iterators_of(
    alloc: Global,
    own: &[Binding],
    numbers: &[BindingId],
) -> Result<Seq<BindingId>, AllocError>
    ensures members { IfOk result (λ calls. IsPermutation (filter_map (multi_call (new_number numbers.now)) own.now) calls) }
    ensures ascending { IfOk result (λ calls. IsSorted site_cmp calls) }
{
    let mut calls = multi_calls(alloc, own, numbers)?;
    calls.sort_unstable();
    Ok(Seq::new(calls))
}

/// The site of a rule's result: in a term that may fail the made option of the right side.
pub(crate) fn result_of(
    sites: &mut Sites,
    partial: bool,
    inner: BindingId,
) -> Result<BindingId, SiteFault>
    ensures made { partial ≡ true → IfOk result (λ id. IsInterned sites.old (MakeSome inner) id sites.new) }
    ensures itself { partial ≡ false → IfOk result (λ id. (id ≡ inner) × (sites.new ≡ sites.old)) }
    ensures kept { OnErr result (sites.new ≡ sites.old) }
    ensures full { IfErr result (λ fault. fault ≡ SiteFault.Size → (partial ≡ true) × IsFull sites.old (MakeSome inner)) }
{
    if !partial {
        return Ok(inner);
    }
    sites.intern(Binding::MakeSome { inner })
}

/// A rule in its rule set, of what a visit left and where that was put.
fn made_rule(
    alloc: Global,
    source: &isle_rules::Rule,
    built: &BuiltRule,
    placed: &PlacedRule,
) -> Result<Rule, AllocError>
    requires settled { AreSettled placed.now.numbers.items placed.now.closed.each.items placed.now.closed.class.items }
    ensures told { IfOk result (λ made. IsToldOf source.now made) }
    ensures tests { IfOk result (λ made. AreTestsOf placed.now.numbers.items placed.now.closed.each.items made.constraints) }
    ensures ascending { IfOk result (λ made. IsStrictlySortedBy site_cmp (keys_of made.constraints)) }
    ensures equalities { IfOk result (λ made. AreEqualitiesOf placed.now.numbers.items placed.now.closed.each.items
        placed.now.closed.class.items made.equals) }
    ensures disjoint { IfOk result (λ made. AreDisjoint same_site made.equals) }
    ensures iterators { IfOk result (λ made. IsPermutation (filter_map (multi_call (new_number placed.now.numbers.items)) built.now.sites)
        made.iterators) }
    ensures sorted { IfOk result (λ made. IsSorted site_cmp made.iterators) }
    ensures impure { IfOk result (λ made. made.impure ≡ map (new_number placed.now.numbers.items) built.now.impure.items) }
    ensures site { IfOk result (λ made. made.result ≡ new_number placed.now.numbers.items built.now.result) }
{
    let numbers = placed.numbers.as_slice();
    let each = placed.closed.each.as_slice();
    let iterators = iterators_of(alloc, built.sites.bindings(), numbers)?;
    let impure = all_moved(alloc, numbers, built.impure.as_slice())?;
    let constraints = tests_of(alloc, numbers, each)?;
    let equals = equalities_of(alloc, numbers, each, placed.closed.class.as_slice())?;
    Ok(Rule {
        id: source.id,
        pos: source.pos,
        constraints,
        equals,
        iterators,
        prio: source.prio,
        name: source.name,
        impure,
        result: moved(numbers, built.result),
    })
}

/// Puts a rule into its rule set's table; nothing, and no site added, where no values meet its demands.
pub(crate) fn add_rule(
    alloc: Global,
    source: &isle_rules::Rule,
    built: &mut BuiltRule,
    table: &mut Sites,
) -> Result<Option<Rule>, SiteFault>
    requires ready { IsReady built.old.sites built.old.has.items built.old.same.items }
    requires table { IsTable table.old }
    ensures assembled { IfOk result (λ made. ForDemandsOf built.old.sites built.old.has.items built.old.same.items
        (λ name ds. IsAssembled name ds table.old built.old.sites built.old.impure.items built.old.result table.new made)) }
    ensures told { IfOk result (λ made. IfSome made (λ rule. IsToldOf source.now rule)) }
    ensures kept { IfOk result (λ _. IsTable table.new) }
    ensures full { IfErr result (λ fault. fault ≡ SiteFault.Size → ForDemandsOf built.old.sites built.old.has.items built.old.same.items
        (λ name ds. (IsUnreachable (Among ds) → ⊥) × HasNoRoomFor name ds table.old built.old.sites)) }
{
    let Some(placed) = place_rule(alloc, &mut built.sites, &built.has, &built.same, table)? else {
        return Ok(None);
    };
    Ok(Some(made_rule(alloc, source, built, &placed)?))
}
