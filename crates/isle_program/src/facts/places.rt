//! Where the rule sets of terms stand.
ghost use Rattle.std.specs.Prelude.{◌≡◌, ◌<◌, ℕ, All, IfOk, length, slice_set, slice_index_or};
ghost use Rattle.isle_types.specs.declared.ids.TermId.{TermId as TermNumber};
ghost use Rattle.isle_blocks.specs.RuleSets.{RulesOverSites};
ghost use Rattle.isle_program.specs.Trees.{place_of_set};

use isle_blocks::RuleSet;
use isle_types::TermId;
use std::alloc::{AllocError, Global};

/// For each term the place of its rule set, or the number of rule sets where it has none.
pub(super) fn places_by_term(
    alloc: Global,
    terms: usize,
    sets: &[(TermId, RuleSet)],
) -> Result<Vec<usize>, AllocError>
    requires { All (λ (set : TermNumber × RulesOverSites). set.0.0 < terms) sets.now }
    ensures { IfOk result (λ places. (n : ℕ) → slice_index_or places.items n (length sets.now) ≡ place_of_set sets.now n) }
{
    let mut places = vec![in alloc; sets.len(); terms]?;
    for place in (0..sets.len()).rev() {
        let set = &sets[place];
        set_place(&mut places, set.0, place);
    }
    Ok(places)
}

/// Sets the place of a term, if there is one.
fn set_place(places: &mut Vec<usize>, term: TermId, place: usize)
    ensures { places.new.items ≡ slice_set places.old.items term.0 place }
{
    let number = term.index();
    if number < places.len() {
        places[number] = place;
    }
}
