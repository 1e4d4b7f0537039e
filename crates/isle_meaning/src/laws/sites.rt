//! What sites are and hold, and the sites of rules.

ghost use Rattle.isle_meaning.specs.Laws.Sites.{CompletionsAgreeOnSites, DemandedCallsAreHad, DemandsAreAnswered, DemandsArePure, KnownIsOfKnown};
ghost use Rattle.isle_meaning.specs.Laws.Sites.{RightSidesAreTheirSites, RulesAreKinded, SitesAreMadeByParts, SitesAreStrict, SitesKeepKinds};
ghost use Rattle.isle_meaning.specs.Laws.Sites.{UnknownSitesAreOpenCalls};

/// What has a value is made of sites that have one, and what is known of sites that are known.
pub fn sites_are_strict()
    ensures values { SitesAreStrict }
    ensures known { KnownIsOfKnown }
{}

/// A site holds what is made of what its parts hold.
pub fn sites_are_made_by_parts()
    ensures { SitesAreMadeByParts }
{}

/// A site that isn't known, though its parts are, is a call that isn't answered.
pub fn unknown_sites_are_open_calls()
    ensures { UnknownSitesAreOpenCalls }
{}

/// Under completions that agree on each call that both answer, a site that both know holds the same.
pub fn completions_agree_on_sites()
    ensures { CompletionsAgreeOnSites }
{}

/// A site of its kind holds what is of its kind.
pub fn sites_keep_kinds()
    ensures { SitesKeepKinds }
{}

/// The sites that a rule needs, demands and gives are of their kinds, where it asks no `multi` term.
pub fn rules_are_kinded()
    ensures { RulesAreKinded }
{}

/// What follows from a rule's demands has no impure call, nor has what its variables stand for.
pub fn demands_are_pure()
    ensures { DemandsArePure }
{}

/// What follows from a rule's demands is answered under a completion that covers the rule.
pub fn demands_are_answered()
    ensures { DemandsAreAnswered }
{}

/// Each call in what follows from a rule's demands is one that its patterns or if-lets have.
pub fn demanded_calls_are_had()
    ensures { DemandedCallsAreHad }
{}

/// Where a rule matches, its right side is what its sites say.
pub fn right_sides_are_their_sites()
    ensures { RightSidesAreTheirSites }
{}
