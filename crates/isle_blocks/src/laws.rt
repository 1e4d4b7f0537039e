//! What holds of sites, tests and their numbers: public functions with nothing to do, whose contracts are the laws.
ghost use Rattle.std.specs.Prelude.{◌≡◌, ◌↔◌, true, ℕ, List};
ghost use Rattle.isle_types.specs.declared.ids.Sym.{Sym};
ghost use Rattle.isle_blocks.specs.Rows.{IsInjective, row_of, test_of};
ghost use Rattle.std.specs.Prelude.{nat_eq};
ghost use Rattle.std.specs.Ordering.{nat_cmp};
ghost use Rattle.std.specs.Hash.{u8 as u8_hash, u16 as u16_hash};
ghost use Rattle.isle_blocks.specs.declared.ids.TupleIndex.{TupleIndex};
ghost use Rattle.isle_blocks.specs.declared.ids.BindingId.{BindingId};
ghost use Rattle.isle_blocks.specs.declared.binding.Binding.{Binding as Site};
ghost use Rattle.isle_blocks.specs.declared.constraint.Constraint.{Constraint as Test};
ghost use Rattle.std.specs.List.Sorted.{IsStrictlySortedBy};
ghost use Rattle.std.specs.Map.{keys_of};
ghost use Rattle.isle_containers.specs.JoinedSets.{AreDisjoint};
ghost use Rattle.isle_blocks.specs.ClosedRules.{NumbersSayCount, NumbersSayDiffer, NumbersSayFree, NumbersSayOverlaps};
ghost use Rattle.isle_blocks.specs.ClosedRules.{NumbersSayShadows, NumbersSaySubset, NumbersSayTotal, NumbersSayWithin, same_site};
ghost use Rattle.isle_blocks.specs.DefinedSets.{TermsHaveFewArguments};
ghost use Rattle.isle_blocks.specs.ClosureLaws.{ClosureSaysTheSame, UnreachableNeverHolds};
ghost use Rattle.isle_blocks.specs.Reports.{ReportsListEachOnce};
ghost use Rattle.isle_blocks.specs.RuleFaults.{RuleErrorsAreDetermined};
ghost use Rattle.isle_blocks.specs.Rules.{site_cmp};
ghost use Rattle.isle_blocks.specs.SetLaws.{EachNumberStands, EachSiteOnce, EachVariantKnown, OfEachSet};
ghost use Rattle.isle_blocks.specs.Orders.{binding_order, constraint_order};
ghost use Rattle.isle_blocks.specs.Trees.Laws.{EachCanBeBuilt, SetsCanBeBuilt, SetsAreWellMade, SetsAreSingle, SetsUseNoMulti, SetsAreListed};
ghost use Rattle.isle_blocks.specs.Trees.Laws.{SetsHaveTheirTests, FieldsAreLookedUp, FoundSitesArePlaces, AnswersRespect, AnswersAreStrict};
ghost use Rattle.isle_blocks.specs.Trees.Laws.{AnswersAreMadeByParts, AnswersAgree, AnswersKnowWhatIsAsked, OpenSitesAreCalls, RulesMatchAsTyped};
ghost use Rattle.isle_blocks.specs.Trees.Laws.{MachinesWalk, WalksChooseAsTyped, BuiltSetsAreRunnable, DefinitionsHavePriorities};
ghost use Rattle.isle_blocks.specs.Trees.Bags.{ElaboratedAreWellMade, ElaboratedAreListed, MultiSetsAreMany, FunctionsAreFunctions};
ghost use Rattle.isle_blocks.specs.Trees.Bags.{RulesMatchByNumbers, WalksMakeBags, SitesHoldTheirValues, RulesMatchAtPlaces};
ghost use Rattle.isle_blocks.specs.Trees.Ties.{EqualPrioritiesNeverBothMatch};
ghost use Rattle.isle_blocks.specs.Trees.BuiltTrees.{OfEachBuilt};
ghost use Rattle.isle_blocks.specs.Trees.Promises.{ChoosesAsRules, BindsWhatIsAsked, HasArmsInOrder, IsShort};
ghost use Rattle.isle_blocks.specs.Trees.ReadPromises.{ReadsWhatIsBound, BindsItsFields, BindsFieldsByTests};
ghost use Rattle.isle_blocks.specs.Trees.RightPromises.{AnswersAsRules};
ghost use Rattle.isle_blocks.specs.Trees.RuleBags.{MakesItsBag};
ghost use Rattle.isle_blocks.specs.Trees.TypedCalls.{CallsTakeTheirTypes};
ghost use Rattle.isle_blocks.specs.Trees.TermTrees.{TreesAreOfTerms};
ghost use Rattle.isle_blocks.specs.Trees.Bags.{MatchingIsDecided, MatchingRulesAreListed, WaysTakeItems, BuiltSetsAreElaborated, BuiltMultiTerms};
ghost use Rattle.isle_blocks.specs.Hashes.{binding_hash, constraint_hash};

use crate::binding::Binding;
use crate::constraint::Constraint;
use crate::ids::{BindingId, TupleIndex};
use crate::rule::Rule;
use isle_types::{sets_are_disjoint, sorted_keys_ascend};
use std::hash::Hash;

/// `TupleIndex`es are compared and hashed as their numbers.
pub fn tuple_indices_are_numbers()
    ensures equality { (a b : TupleIndex) → ⟦<TupleIndex as PartialEq>⟧.eq a b ≡ nat_eq a.0 b.0 }
    ensures order { (a b : TupleIndex) → ⟦<TupleIndex as Ord>⟧.cmp a b ≡ nat_cmp a.0 b.0 }
    ensures hashes { (a : TupleIndex) → ⟦<TupleIndex as Hash>⟧.hash_input a ≡ u8_hash a.0 }
{}

/// `BindingId`s are compared and hashed as their numbers.
pub fn binding_ids_are_numbers()
    ensures equality { (a b : BindingId) → ⟦<BindingId as PartialEq>⟧.eq a b ≡ nat_eq a.0 b.0 }
    ensures order { (a b : BindingId) → ⟦<BindingId as Ord>⟧.cmp a b ≡ nat_cmp a.0 b.0 }
    ensures hashes { (a : BindingId) → ⟦<BindingId as Hash>⟧.hash_input a ≡ u16_hash a.0 }
{}

/// Sites are ordered by kind, then by their fields in order.
pub fn bindings_are_ordered()
    ensures { (a b : Site) → ⟦<Binding as Ord>⟧.cmp a b ≡ binding_order a b }
{}

/// Two sites are equal where they are one.
pub fn equal_bindings_are_one()
    ensures { (a b : Site) → (⟦<Binding as PartialEq>⟧.eq a b ≡ true) ↔ (a ≡ b) }
{}

/// Sites are hashed by kind, then by their fields in order.
pub fn bindings_are_hashed()
    ensures { (a : Site) → ⟦<Binding as Hash>⟧.hash_input a ≡ binding_hash a }
{}

/// Tests are ordered by kind, then by their fields in order.
pub fn constraints_are_ordered()
    ensures { (a b : Test) → ⟦<Constraint as Ord>⟧.cmp a b ≡ constraint_order a b }
{}

/// Two tests are equal where they are one.
pub fn equal_constraints_are_one()
    ensures { (a b : Test) → (⟦<Constraint as PartialEq>⟧.eq a b ≡ true) ↔ (a ≡ b) }
{}

/// Tests are hashed by kind, then by their fields in order.
pub fn constraints_are_hashed()
    ensures { (a : Test) → ⟦<Constraint as Hash>⟧.hash_input a ≡ constraint_hash a }
{}

/// Where names tell symbols apart, sites are told apart by their entries, and tests by their constraints.
pub fn entries_are_injective()
    ensures sites { (name : Sym → List ℕ) → IsInjective name → (a b : Site) → row_of name a ≡ row_of name b → a ≡ b }
    ensures tests { (name : Sym → List ℕ) → IsInjective name → (a b : Test) → test_of name a ≡ test_of name b → a ≡ b }
{}

/// A rule tests no site twice, and its equalities are sets of two sites at least that share none.
pub fn rules_are_well_formed(rule: &Rule)
    ensures ascending { IsStrictlySortedBy site_cmp (keys_of rule.now.constraints) }
    ensures disjoint { AreDisjoint same_site rule.now.equals }
{
    sorted_keys_ascend(&rule.constraints);
    sets_are_disjoint(&rule.equals);
}

/// In each rule set that `check` gives each number below the table's length stands for a site, and no site has two numbers.
pub fn numbers_stand_for_sites()
    ensures stands { OfEachSet EachNumberStands }
    ensures one_number { OfEachSet EachSiteOnce }
{}

/// Each site of such a rule set has the term that `Binding::term` asks for: a variant that it makes is one of its type, and has
/// a term.
pub fn sites_have_terms()
    ensures { OfEachSet EachVariantKnown }
{}

/// Rules that follow from demands differ, overlap and shadow each other exactly where the demands do, and their tests and
/// equalities are as many.
pub fn numbers_say_faults()
    ensures differ { NumbersSayDiffer }
    ensures within { NumbersSayWithin }
    ensures free { NumbersSayFree }
    ensures counts { NumbersSayCount }
    ensures total { NumbersSayTotal }
    ensures subset { NumbersSaySubset }
    ensures overlaps { NumbersSayOverlaps }
    ensures shadows { NumbersSayShadows }
{}

/// In a report each pair of rules stands in exactly one error, as the rule that heads it and a partner, and nothing else does.
pub fn reports_list_each_once()
    ensures { ReportsListEachOnce }
{}

/// What is wrong with rules is told in one way: two lists of errors that tell it are one.
pub fn rule_errors_are_determined()
    ensures { RuleErrorsAreDetermined }
{}

/// Under all values of sites of which fields are fields, demands hold exactly where their closure does, and those that can't
/// be met never hold. An equality of a site with itself says nothing more than the others.
pub fn closure_says_the_same()
    ensures closed { ClosureSaysTheSame }
    ensures unreachable { UnreachableNeverHolds }
{}

/// No term that definitions within the sizes make has more than 255 arguments.
pub fn terms_have_few_arguments()
    ensures { TermsHaveFewArguments }
{}

/// A tree of tests can be built of the rules of each rule set, whatever terms they call: parts stand before what is made of them,
/// all lies within the set's sites, and each multi call that a rule uses has the site of its value.
pub fn rule_sets_can_be_built()
    ensures sets { SetsCanBeBuilt }
    ensures checked { OfEachSet EachCanBeBuilt }
{}

/// The rule sets of terms that ask no `multi` term are well made.
pub fn rule_sets_are_well_made()
    ensures { SetsAreWellMade }
{}

/// What their tests ask has its tests and no impure call, and impure calls are listed before what is made of them, each once.
pub fn rule_sets_are_single()
    ensures { SetsAreSingle }
{}

/// None of their rules uses a multi call.
pub fn rule_sets_use_no_multi_call()
    ensures { SetsUseNoMulti }
{}

/// The fields of each test are listed.
pub fn rule_sets_are_listed()
    ensures { SetsAreListed }
{}

/// What a rule has, has its tests, contents of constructors' calls aside.
pub fn rule_sets_have_their_tests()
    ensures { SetsHaveTheirTests }
{}

/// The fields of a test that a rule has are what the test makes, each looked up among the sites.
pub fn fields_are_looked_up()
    ensures { FieldsAreLookedUp }
{}

/// What a look-up of a site finds is its place in the table.
pub fn found_sites_are_places()
    ensures { FoundSitesArePlaces }
{}

/// Answers keep to fields and calls.
pub fn answers_respect_rules()
    ensures { AnswersRespect }
{}

/// What has a value is made of what has.
pub fn answers_are_strict()
    ensures { AnswersAreStrict }
{}

/// A site holds what is made of what its parts hold.
pub fn answers_are_made_by_parts()
    ensures { AnswersAreMadeByParts }
{}

/// Under completions that agree, what both know is the same.
pub fn answers_agree()
    ensures { AnswersAgree }
{}

/// Under a completion that covers the term, all that its tests ask is known.
pub fn answers_know_what_is_asked()
    ensures { AnswersKnowWhatIsAsked }
{}

/// An open site is a call that isn't answered.
pub fn open_sites_are_calls()
    ensures { OpenSitesAreCalls }
{}

/// A rule of the set matches exactly where its typed rule does.
pub fn rules_match_as_typed()
    ensures { RulesMatchAsTyped }
{}

/// A machine that keeps only what it bound does as the walk.
pub fn machines_walk_as_answers()
    ensures { MachinesWalk }
{}

/// A run's outcome says what the typed rules choose.
pub fn walks_choose_as_typed()
    ensures { WalksChooseAsTyped }
{}

/// The rule set of definitions for a term that asks no `multi` term is such a set.
pub fn built_sets_are_runnable()
    ensures { BuiltSetsAreRunnable }
{}

/// Rules of definitions have the priorities of the typed rules.
pub fn definitions_have_priorities()
    ensures { DefinitionsHavePriorities }
{}

/// The rule sets of any terms are well made, and list the fields of their tests and the values of their multi calls.
pub fn any_rule_sets_are_well_made()
    ensures made { ElaboratedAreWellMade }
    ensures listed { ElaboratedAreListed }
{}

/// Those of `multi` terms have no priorities, and all that a rule has, has its tests and its multi calls.
pub fn multi_sets_are_many()
    ensures { MultiSetsAreMany }
{}

/// Calls that are functions into finite lists are as the bag asks.
pub fn functions_are_functions()
    ensures { FunctionsAreFunctions }
{}

/// A rule of the set matches exactly where what its typed rule demands holds of what its sites hold, and its multi calls have lists.
pub fn rules_match_by_numbers()
    ensures { RulesMatchByNumbers }
{}

/// Whether a rule matches is decided by its tests, its multi calls and its classes, and one of which all that it demands holds is in the
/// set.
pub fn matching_is_decided()
    ensures decided { MatchingIsDecided }
    ensures listed { MatchingRulesAreListed }
{}

/// The walk of a `multi` term's tree answers the bag of its rules: for each rule, and each way to take one item of each multi call that
/// it has, one answer where it matches then.
pub fn walks_make_bags()
    ensures { WalksMakeBags }
{}

/// Where of each multi call that a site is made of the item at its place is taken, the site is what it holds, and a multi call lists the
/// items that it holds.
pub fn sites_hold_their_values()
    ensures { SitesHoldTheirValues }
{}

/// Each way that a rule has takes of each of its multi calls one of the items that this lists.
pub fn ways_take_items()
    ensures { WaysTakeItems }
{}

/// So a rule of a `multi` term matches exactly where what its typed rule demands holds of what its sites hold.
pub fn rules_match_at_places()
    ensures { RulesMatchAtPlaces }
{}

/// The rule set of definitions for any term has rules as elaboration makes them; those of a `multi` term have no priority, and their
/// right sides call nothing partial.
pub fn built_sets_are_elaborated()
    ensures sets { BuiltSetsAreElaborated }
    ensures multi { BuiltMultiTerms }
{}

/// Of rules without a fault two of equal priority, of a term that asks no `multi` term and is none, never both match.
pub fn equal_priorities_never_both_match()
    ensures { EqualPrioritiesNeverBothMatch }
{}

/// The tree that is built of a term's rule set is what the machine of a sound program runs for the term: it is that of the term's rules.
pub fn trees_are_of_terms()
    ensures { TreesAreOfTerms }
{}

/// Each tree that a checked rule set builds does all that `serialize` promises of its tree: its walks choose as the rules do, answer what right
/// sides do, and of a `multi` term its bag; it binds what the rules ask, each site behind its parts, and calls on values of their types; its arms
/// are in order, and its walks short.
pub fn built_trees_keep_promises()
    ensures chooses { OfEachBuilt ChoosesAsRules }
    ensures answers { OfEachBuilt AnswersAsRules }
    ensures bag { OfEachBuilt MakesItsBag }
    ensures asks { OfEachBuilt BindsWhatIsAsked }
    ensures reads { OfEachBuilt ReadsWhatIsBound }
    ensures fields { OfEachBuilt BindsItsFields }
    ensures by_tests { OfEachBuilt BindsFieldsByTests }
    ensures typed { OfEachBuilt CallsTakeTheirTypes }
    ensures ascends { OfEachBuilt HasArmsInOrder }
    ensures few { OfEachBuilt IsShort }
{}
