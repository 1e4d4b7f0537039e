//! How many steps the rules of terms take at most.
ghost use Rattle.std.specs.Prelude.{◌≡◌, ◌<◌, ℕ, All, IfOk, slice_set, slice_index_or};
ghost use Rattle.std.specs.List.{sum_by};
ghost use Rattle.isle_types.specs.declared.ids.TermId.{TermId as TermNumber};
ghost use Rattle.isle_blocks.specs.RuleSets.{RulesOverSites};
ghost use Rattle.isle_program.specs.Facts.Steps.{rule_steps, steps_in};

use isle_blocks::{Rule, RuleSet};
use isle_types::TermId;
use std::alloc::{AllocError, Global};

/// For each term how many steps its rules take at most.
pub(super) fn steps_by_term(
    alloc: Global,
    terms: usize,
    sets: &[(TermId, RuleSet)],
) -> Result<Vec<u128>, AllocError>
    requires { All (λ (set : TermNumber × RulesOverSites). set.0.0 < terms) sets.now }
    ensures { IfOk result (λ steps. (n : ℕ) → slice_index_or steps.items n 0 ≡ steps_in sets.now n) }
{
    let mut steps = vec![in alloc; 0; terms]?;
    for place in (0..sets.len()).rev() {
        let set = &sets[place];
        set_number(&mut steps, set.0, steps_of_rules(set.1.rules()));
    }
    Ok(steps)
}

/// Sets the number of a term, if there is one.
fn set_number(numbers: &mut Vec<u128>, term: TermId, number: u128)
    ensures { numbers.new.items ≡ slice_set numbers.old.items term.0 number }
{
    let place = term.index();
    if place < numbers.len() {
        numbers[place] = number;
    }
}

/// How many steps rules take at most: one for each of their constraints, and one for each of them.
fn steps_of_rules(rules: &[Rule]) -> u128
    ensures { result ≡ sum_by rule_steps rules.now }
{
    let mut steps: u128 = 0;
    for rule in rules {
        steps += rule.total_constraints() as u128 + 1;
    }
    steps
}
