//! Laws: public functions with nothing to do, whose contracts are statements about definitions.

mod calls;
mod elaborated;
mod machine;
mod matching;
mod sites;

pub use calls::{
    chain_stays, chains_join, completions_extend, end_stays, ends_are_asked, meaning_stays,
    meanings_are_typed, no_cycles_none_spent, no_overlaps_no_ties, one_meaning, one_meaning_always,
    plain_runs_are_meant, plain_runs_are_one, plain_runs_begin_so, run_stays, trees_are_one,
    typed_rules_call_well,
};
pub use elaborated::{
    definitions_are_elaborated, elaborated_are_kinded, none_is_multi_and_partial,
    rules_without_lets_open, typed_rules_are_elaborated,
};
pub use machine::{
    machine_ends_are_asked, machine_runs_are_meant, machine_runs_are_one, machine_runs_are_short,
    machine_runs_begin_so, machine_runs_stay, no_machine_run_spent, roads_agree,
    term_trees_are_walkable, the_sample_has_a_tree,
};
pub use matching::{
    both_match_overlap, demands_are_tested, demands_suit, derived_is_tested, elaborated_rules_fit,
    fields_are_fields, made_terms_take_their_fields, matches_by_closed, matches_by_demands,
    matches_by_proper, matches_derived, needs_have_fields, never_both, numbers_say_demands,
    rules_of_definitions_fit, self_equalities_say_nothing, shadowed_is_never_chosen,
    unreachable_is_dead, visit_is_written, wider_matches,
};
pub use sites::{
    completions_agree_on_sites, demanded_calls_are_had, demands_are_answered, demands_are_pure,
    right_sides_are_their_sites, rules_are_kinded, sites_are_made_by_parts, sites_are_strict,
    sites_keep_kinds, unknown_sites_are_open_calls,
};
