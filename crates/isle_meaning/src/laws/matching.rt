//! What the demands of a rule mean.

ghost use Rattle.isle_meaning.specs.Laws.Matching.{BothMatchOverlap, DemandsAreTested, DemandsSuit, DerivedIsTested, ElaboratedRulesFit};
ghost use Rattle.isle_meaning.specs.Laws.Matching.{FieldsAreFields, MadeTermsTakeTheirFields, RulesOfDefinitionsFit, MatchesByClosed, MatchesByDemands, MatchesByProper, MatchesDerived};
ghost use Rattle.isle_meaning.specs.Laws.Matching.{NeedsHaveFields, NeverBoth, NumbersSayDemands, SelfEqualitiesSayNothing};
ghost use Rattle.isle_meaning.specs.Laws.Matching.{ShadowedIsNeverChosen, UnreachableIsDead, VisitIsWritten, WiderMatches};

/// A rule matches exactly where its demands hold of the sites' values.
pub fn matches_by_demands()
    ensures { MatchesByDemands }
{}

/// Equalities of a site with itself say nothing more.
pub fn matches_by_proper()
    ensures { MatchesByProper }
{}

/// What a typed rule demands is of its sites' types.
pub fn demands_suit()
    ensures { DemandsSuit }
{}

/// A rule matches exactly where its closed demands hold.
pub fn matches_by_closed()
    ensures { MatchesByClosed }
{}

/// Where a rule matches, all that is derived holds.
pub fn matches_derived()
    ensures { MatchesDerived }
{}

/// An unreachable rule matches nothing.
pub fn unreachable_is_dead()
    ensures { UnreachableIsDead }
{}

/// Two rules of which some site has different constraints never both match.
pub fn never_both()
    ensures { NeverBoth }
{}

/// A rule without equalities left whose constraints stand in another's matches wherever that one does.
pub fn wider_matches()
    ensures { WiderMatches }
{}

/// A rule that another of higher priority shadows is never the one to choose.
pub fn shadowed_is_never_chosen()
    ensures { ShadowedIsNeverChosen }
{}

/// Rules that both match may overlap.
pub fn both_match_overlap()
    ensures { BothMatchOverlap }
{}

/// Equalities of a site with itself change neither what is closed nor whether a rule is unreachable.
pub fn self_equalities_say_nothing()
    ensures { SelfEqualitiesSayNothing }
{}

/// What follows from what is recorded in a table is what follows from the demands.
pub fn numbers_say_demands()
    ensures { NumbersSayDemands }
{}

/// Each field and each content that a rule's demands speak of is made by a test among them.
pub fn demands_are_tested()
    ensures { DemandsAreTested }
{}

/// What is derived speaks of fields and contents alone that derived tests make.
pub fn derived_is_tested()
    ensures { DerivedIsTested }
{}

/// The visitor's road over a right side gives its site, and its impure calls in order.
pub fn visit_is_written()
    ensures { VisitIsWritten }
{}

/// All fields of each variant and struct that a rule demands are among the sites that it needs.
pub fn needs_have_fields()
    ensures { NeedsHaveFields }
{}

/// A field site holds exactly the field of what its source holds.
pub fn fields_are_fields()
    ensures { FieldsAreFields }
{}

/// What a rule stands for is a rule that these laws speak of, where it asks no `multi` term.
pub fn elaborated_rules_fit()
    ensures { ElaboratedRulesFit }
{}

/// The terms of variants and structs that definitions make take exactly their fields.
pub fn made_terms_take_their_fields()
    ensures { MadeTermsTakeTheirFields }
{}

/// Each rule of definitions is one that these laws speak of, where it asks no `multi` term.
pub fn rules_of_definitions_fit()
    ensures { RulesOfDefinitionsFit }
{}
