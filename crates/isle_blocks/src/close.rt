//! The closure of a rule's demands.
ghost use Rattle.std.specs.Prelude.{◌≡◌, ◌<◌, ◌≤◌, ℕ, List, Option, true, false, IfOk, IfErr, IfSome, IfNone, None, length, slice_index, slice_index_or, vec_len};
ghost use Rattle.isle_meaning.specs.Faults.{IsUnreachable};
ghost use Rattle.isle_blocks.specs.Tables.{IsTable};
ghost use Rattle.isle_blocks.specs.Inside.ClosureStates.{IsReady, ArePairsBelow, ForDemands, AreClosedClasses, IsReduced, IsState, IsFinished, RunsOut};
ghost use Rattle.isle_blocks.specs.Closure.{ForRecorded, ClosesTo, LacksRoom};
ghost use Rattle.isle_blocks.specs.Inside.FieldOrder.{AreFieldsInOrder};

mod classes;
mod complete;
mod depth;
mod fields;
mod lists;

use crate::constraint::Constraint;
use crate::ids::BindingId;
use crate::sites::{SiteFault, Sites};
use classes::{alone, gather, number_pairs, unify};
use complete::complete;
use depth::is_finite;
use std::alloc::{AllocError, Global};

/// What some values meet: the test of each site, and its representative among the sites that must be equal to it.
#[derive(Drop)]
pub(crate) struct Closed {
    pub each: Vec<Option<Constraint>>,
    pub class: Vec<usize>,
}

/// Each site's own test, and its representative.
#[derive(Drop)]
struct Reduced {
    own: Vec<Option<Constraint>>,
    class: Vec<usize>,
}

/// The classes of sites; nothing where no values meet the demands.
fn closed_classes(
    alloc: Global,
    sites: &Sites,
    own: &[Option<Constraint>],
    equals: &[(usize, usize)],
) -> Result<Option<Vec<usize>>, AllocError>
    requires table { IsTable sites.now }
    requires bound { length sites.now ≤ 65536 }
    requires fits { length own.now ≡ length sites.now }
    requires within { ArePairsBelow equals.now (length sites.now) }
    ensures classes { IfOk result (λ r. IfSome r (λ class. AreClosedClasses sites.now equals.now own.now class.items)) }
    ensures unreachable { IfOk result (λ r. IfNone r (ForDemands sites.now equals.now own.now (λ name D. IsUnreachable D))) }
{
    if equals.is_empty() {
        // each site is alone, and stands behind what it is a field of
        let single = alone(alloc, sites.len())?;
        return Ok(Some(single));
    }
    let Some(class) = unify(alloc, sites, own, equals)? else {
        return Ok(None);
    };
    if is_finite(alloc, sites, own, &class)? {
        Ok(Some(class))
    } else {
        Ok(None)
    }
}

/// The demands by number; nothing where no values meet them.
fn reduce(
    alloc: Global,
    sites: &Sites,
    has: &[(BindingId, Constraint)],
    same: &[(BindingId, BindingId)],
) -> Result<Option<Reduced>, AllocError>
    requires { IsReady sites.now has.now same.now }
    ensures reduced { IfOk result (λ r. IfSome r (λ reduced. IsReduced sites.now has.now same.now reduced.own.items reduced.class.items)) }
    ensures unreachable { IfOk result (λ r. IfNone r (ForRecorded sites.now has.now same.now (λ name D. IsUnreachable D))) }
{
    let Some(own) = gather(alloc, sites.len(), has)? else {
        return Ok(None);
    };
    let equals = number_pairs(alloc, same)?;
    match closed_classes(alloc, sites, &own, &equals)? {
        Some(class) => Ok(Some(Reduced { own, class })),
        None => Ok(None),
    }
}

/// Whether each of so many sites is alone, and there are no others.
fn are_alone(count: usize, class: &[usize]) -> bool
    ensures { result ≡ true → (length class.now ≡ count) × ((a : ℕ) → a < count → slice_index class.now a ≡ a) }
{
    if class.len() != count {
        return false;
    }
    for a in 0..count {
        if class[a] != a {
            return false;
        }
    }
    true
}

/// The test of each site: that of its representative.
fn spread(
    alloc: Global,
    own: Vec<Option<Constraint>>,
    class: &[usize],
) -> Result<Vec<Option<Constraint>>, AllocError>
    requires { (a : ℕ) → a < length class.now → slice_index class.now a < length own.items }
    ensures { IfOk result (λ each. (vec_len each ≡ length class.now)
        × ((a : ℕ) → a < length class.now → slice_index_or each.items a None ≡ slice_index_or own.items (slice_index class.now a) None)) }
{
    if are_alone(own.len(), class) {
        return Ok(own);
    }
    let mut each = Vec::with_capacity(alloc, class.len())?;
    for root in class {
        each.push(own[*root])?;
    }
    Ok(each)
}

/// Adds the fields that sites lack, and gives each site its test.
fn finish(alloc: Global, sites: &mut Sites, reduced: Reduced) -> Result<Closed, SiteFault>
    requires { (equals : List (ℕ × ℕ)) × IsState reduced.own.items equals sites.old reduced.class.items }
    ensures finished { IfOk result (λ closed. IsFinished reduced.own.items sites.old reduced.class.items sites.new
        closed.each.items closed.class.items) }
    ensures ordered { IfOk result (λ _. AreFieldsInOrder (length sites.old) sites.new) }
    ensures full { IfErr result (λ fault. fault ≡ SiteFault.Size
        → (class : List ℕ) × RunsOut reduced.own.items sites.old reduced.class.items sites.new class) }
{
    let Reduced { own, mut class } = reduced;
    complete(sites, &own, &mut class)?;
    let each = spread(alloc, own, &class)?;
    Ok(Closed { each, class })
}

/// Closes what is demanded of the sites: the table grows by the fields that they need. Nothing where no values meet it.
pub(crate) fn close(
    alloc: Global,
    sites: &mut Sites,
    has: &[(BindingId, Constraint)],
    same: &[(BindingId, BindingId)],
) -> Result<Option<Closed>, SiteFault>
    requires { IsReady sites.old has.now same.now }
    ensures closed { IfOk result (λ closed. ClosesTo sites.old has.now same.now sites.new closed) }
    ensures ordered { IfOk result (λ _. AreFieldsInOrder (length sites.old) sites.new) }
    ensures full { IfErr result (λ fault. fault ≡ SiteFault.Size → LacksRoom sites.old has.now same.now) }
{
    let Some(reduced) = reduce(alloc, sites, has, same)? else {
        return Ok(None);
    };
    Ok(Some(finish(alloc, sites, reduced)?))
}
