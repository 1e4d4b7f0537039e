//! What an answer says of walks of a tree of the rules, whatever its tests and values are. Public functions with nothing to do, whose
//! contracts are the laws.
ghost use Rattle.std.specs.Prelude.{◌≡◌, ◌≢◌, ℕ, List, [], ◌∷◌, Bool};
ghost use Rattle.isle_trees.specs.Got.{Got};
ghost use Rattle.isle_trees.specs.Sample.{sample, with_call};
ghost use Rattle.isle_missing.specs.Sample.{both_rules, two_tests, twice_listed, any_tests, equal_rules, two_truths, two_kinds, other_rules, other_kinds};
ghost use Rattle.isle_missing.specs.Sample.{truths, sample_rows, sample_sites};
ghost use Rattle.isle_trees.specs.Answers.{Answers, Agree};
ghost use Rattle.isle_trees.specs.Builds.{IsTreeOf};
ghost use Rattle.isle_trees.specs.Premises.{Respects, KnowsAsked, IsStrict};
ghost use Rattle.isle_trees.specs.Rules.{Rules, Elem, Matches};
ghost use Rattle.isle_trees.specs.Tree.{Steps};
ghost use Rattle.isle_trees.specs.Walk.{ends, walk};
ghost use Rattle.isle_missing.specs.declared.demand.Demand.{Demand};
ghost use Rattle.isle_missing.specs.declared.facts.Fact.{Fact};
ghost use Rattle.isle_missing.specs.Sites.{Sites};
ghost use Rattle.isle_missing.specs.Demands.{World};
ghost use Rattle.isle_missing.specs.Facts.{AreSo};
ghost use Rattle.isle_missing.specs.Search.{MatchesAlways, MissesUnder};
ghost use Rattle.isle_missing.specs.Trees.{Numbering, Shows, AreTyped, AreSingle, IsWorldOf, CoveredRulesMatch, MissingRulesFail};

/// Where rules are covered, a walk of their tree never comes to its end without a return, whatever it knows, `r`, of answers, `v`, of the
/// sites' types.
pub fn covered_walks_return<C, V>()
    ensures { (R : Rules C V) (left : List ℕ) (T : Steps C) (test : Numbering C) (sites : Sites) (rows : List (List Demand)) (r v : Answers V)
        → IsTreeOf R left T → Shows R test left rows → MatchesAlways sites rows → Respects R r → Agree r v → Respects R v → KnowsAsked R v
        → IsStrict R v → AreTyped R test sites v → AreSingle R test sites → walk R r T ≢ ends }
{}

/// Where facts are missing and are so, the walk comes to its end without a return.
pub fn missing_walks_end<C, V>()
    ensures { (R : Rules C V) (left : List ℕ) (T : Steps C) (test : Numbering C) (rows : List (List Demand)) (facts : List Fact) (v : Answers V)
        (w : World) → IsTreeOf R left T → Shows R test left rows → MissesUnder facts rows → Respects R v → KnowsAsked R v → IsStrict R v
        → IsWorldOf R test v w → AreSo w facts → walk R v T ≡ ends }
{}

/// Where rules are covered, one of them matches, whatever is answered of the sites' types.
pub fn covered_rules_match<C, V>()
    ensures { CoveredRulesMatch C V }
{}

/// Where facts are missing and are so, none of the rules matches.
pub fn missing_rules_fail<C, V>()
    ensures { MissingRulesFail C V }
{}

/// The premises can be met: the sample of `isle_trees` meets them. Two truth values are covered, also where one is listed twice; two numbers of
/// many aren't. Two equal truth values and two unequal ones are covered; two values of a kind that are equal and two of unequal kinds aren't.
/// Two sites are covered that list different tests.
pub fn the_samples_are_so()
    ensures both { MatchesAlways two_tests both_rules }
    ensures twice { MatchesAlways twice_listed both_rules }
    ensures not_both { MatchesAlways any_tests both_rules → ⊥ }
    ensures equal { MatchesAlways two_truths equal_rules }
    ensures not_equal { MatchesAlways two_kinds equal_rules → ⊥ }
    ensures other { MatchesAlways other_kinds other_rules }
    ensures shown { Shows sample truths (0 ∷ 1 ∷ []) sample_rows }
    ensures typed { (g : Got Bool) → AreTyped sample truths sample_sites (with_call g) }
    ensures single { AreSingle sample truths sample_sites }
    ensures covered { MatchesAlways sample_sites sample_rows }
{}
