//! The fields that sites lack under the tests of their classes.
ghost use Rattle.std.specs.Prelude.{◌≡◌, ◌<◌, ◌≤◌, ◌+◌, ℕ, List, Option, IfOk, IfErr, length, slice_index};
ghost use Rattle.isle_blocks.specs.Inside.ClosureFields.{kind_of};
ghost use Rattle.isle_blocks.specs.Inside.ClosureStates.{AreClasses, HasField, HasFields, IsOpened, IsState, Grows, RunsOut};
ghost use Rattle.isle_blocks.specs.Inside.FieldOrder.{AreFieldsBefore, AreFieldsInOrder};
ghost use Rattle.isle_blocks.specs.declared.constraint.Constraint.{Constraint as Test};

use super::classes::own_test;
use super::fields::{field, find_field, opens};
use crate::constraint::Constraint;
use crate::sites::{SiteFault, Sites};
use isle_types::VariantId;

/// Adds a field of a site, if it isn't there, in the class of the like field of the site's representative.
fn add_field(
    sites: &mut Sites,
    class: &mut Vec<usize>,
    site: usize,
    variant: Option<VariantId>,
    index: u8,
) -> Result<(), SiteFault>
    requires bound { length sites.old ≤ 65536 }
    requires classes { AreClasses (length sites.old) class.old.items }
    requires site_in { site < length sites.old }
    requires like { HasField sites.old (kind_of variant) (slice_index class.old.items site) index }
    ensures bound { IfOk result (λ _. length sites.new ≤ 65536) }
    ensures grows { IfOk result (λ _. (own : List (Option Test)) → IsOpened own (slice_index class.old.items site) (kind_of variant) index
        → Grows own sites.old class.old.items sites.new class.new.items) }
    ensures added { IfOk result (λ _. HasField sites.new (kind_of variant) site index) }
    ensures ordered { IfOk result (λ _. (first : ℕ) → AreFieldsBefore first sites.old site index → AreFieldsBefore first sites.new site (index + 1)) }
    ensures full { IfErr result (λ fault. fault ≡ SiteFault.Size → (own : List (Option Test))
        → IsOpened own (slice_index class.old.items site) (kind_of variant) index → RunsOut own sites.old class.old.items sites.new class.new.items) }
{
    if let Some(_) = find_field(sites, variant, site, index) {
        return Ok(());
    }
    let base = class[site];
    if let Some(like) = find_field(sites, variant, base, index) {
        let root = class[like];
        sites.intern(field(variant, site, index))?;
        class.push(root)?;
    }
    Ok(())
}

/// Adds the fields that a site lacks.
fn add_fields(
    sites: &mut Sites,
    own: &[Option<Constraint>],
    class: &mut Vec<usize>,
    site: usize,
) -> Result<(), SiteFault>
    requires bound { length sites.old ≤ 65536 }
    requires state { (equals : List (ℕ × ℕ)) × IsState own.now equals sites.old class.old.items }
    requires site_in { site < length sites.old }
    ensures bound { IfOk result (λ _. length sites.new ≤ 65536) }
    ensures grows { IfOk result (λ _. Grows own.now sites.old class.old.items sites.new class.new.items) }
    ensures added { IfOk result (λ _. HasFields own.now sites.new class.new.items site) }
    ensures ordered { IfOk result (λ _. (first : ℕ) → AreFieldsBefore first sites.old site 0 → AreFieldsBefore first sites.new (site + 1) 0) }
    ensures full { IfErr result (λ fault. fault ≡ SiteFault.Size → RunsOut own.now sites.old class.old.items sites.new class.new.items) }
{
    let Some(test) = own_test(own, class[site]) else {
        return Ok(());
    };
    let Some(opening) = opens(test) else {
        return Ok(());
    };
    for index in 0..opening.fields.0 {
        add_field(sites, class, site, opening.variant, index)?;
    }
    Ok(())
}

/// Adds, site by site, the fields that the sites lack, those of the new sites too; those of one site in order.
pub(super) fn complete(
    sites: &mut Sites,
    own: &[Option<Constraint>],
    class: &mut Vec<usize>,
) -> Result<(), SiteFault>
    requires { (equals : List (ℕ × ℕ)) × IsState own.now equals sites.old class.old.items }
    ensures grows { IfOk result (λ _. Grows own.now sites.old class.old.items sites.new class.new.items) }
    ensures added { IfOk result (λ _. (a : ℕ) → a < length sites.new → HasFields own.now sites.new class.new.items a) }
    ensures ordered { IfOk result (λ _. AreFieldsInOrder (length sites.old) sites.new) }
    ensures full { IfErr result (λ fault. fault ≡ SiteFault.Size → RunsOut own.now sites.old class.old.items sites.new class.new.items) }
{
    let mut site = 0;
    while site < sites.len() {
        add_fields(sites, own, class, site)?;
        site += 1;
    }
    Ok(())
}
