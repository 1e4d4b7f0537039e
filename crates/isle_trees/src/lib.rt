//! The tree of tests of a rule set: what it is, and what its walks say. Public functions with nothing to do, whose contracts are the
//! laws. `C` is the type of tests of a site, `V` of what a site holds.
#![tactic(auto)]

ghost use Rattle.std.specs.Prelude.{◌≡◌, ◌≢◌, ◌≤◌, ℕ, List, [], ◌∷◌, None, Bool, false, true};
ghost use Rattle.isle_trees.specs.Got.{Got, unknown, fails, gives};
ghost use Rattle.isle_trees.specs.Answers.{Answers, Extends, Agree};
ghost use Rattle.isle_trees.specs.Tree.{Steps};
ghost use Rattle.isle_trees.specs.Rules.{Rules, IsPartOf, rights};
ghost use Rattle.isle_trees.specs.Premises.{IsWellMade, IsSingle, UsesNoMulti, HasItsTests, Respects, KnowsAsked, IsStrict};
ghost use Rattle.isle_trees.specs.Scopes.{Scope, nothing_known};
ghost use Rattle.isle_trees.specs.Builds.{Builds, IsTreeOf};
ghost use Rattle.isle_trees.specs.Walk.{goes, breaks, chooses, waits, walk};
ghost use Rattle.isle_trees.specs.Choice.{IsRight, IsSure, LeavesOff, ReturnsInOrder, IsKept, AreKept};
ghost use Rattle.isle_trees.specs.Counting.{reached, steps_at_most};
ghost use Rattle.isle_trees.specs.Asks.{AsksOnly, BindsNoField, Ascends};
ghost use Rattle.isle_trees.specs.Reads.{IsListed, IsClosed};
ghost use Rattle.isle_trees.specs.Machine.{Makes, IsMadeBy, run};
ghost use Rattle.isle_trees.specs.Bag.{Picks, pick, gave, Model, IsModel, IsMany, IsAscending, Tells, walk_all, bag, IsSameBag};
ghost use Rattle.isle_trees.specs.Calls.{Lists, AreFunctions, model_of};
ghost use Rattle.isle_trees.specs.Sample.{sample, sample_tree, with_call, sample_program, many_sample, many_tree, many_model};
ghost use Rattle.isle_trees.specs.Search.{IsBuildable};
ghost use Rattle.isle_trees.specs.Values.{over_values};
ghost use Rattle.isle_trees.specs.Depths.{Program, IsProgram, run_to, Means, Chain};

/// Where all that the rules' tests ask is answered, the tree chooses as the rules do, and ends as the chosen rule's right side does.
pub fn trees_choose_as_the_rules_do<C, V>()
    ensures { (R : Rules C V) (left : List ℕ) (T : Steps C) (v : Answers V) → IsTreeOf R left T → Respects R v → KnowsAsked R v
        → IsStrict R v → IsRight R v left (walk R v T) }
{}

/// What a run finds by the answers that it has, `r`, holds whatever calls left open would answer: under any `v` that agrees with them
/// and knows what the rules' tests ask.
pub fn runs_are_sure<C, V>()
    ensures { (R : Rules C V) (left : List ℕ) (T : Steps C) (r v : Answers V) → IsTreeOf R left T → Respects R r → Agree r v
        → KnowsAsked R v → IsStrict R v → IsSure R v left (walk R r T) }
{}

/// A run leaves off with a result, or where a site fails, or at a call that isn't answered on values that it has: one that a rule's tests
/// ask, or the chosen right side.
pub fn runs_leave_off_at_what_is_asked<C, V>()
    ensures { (R : Rules C V) (left : List ℕ) (T : Steps C) (r : Answers V) → IsTreeOf R left T → Respects R r → IsStrict R r
        → LeavesOff R r left (walk R r T) }
{}

/// The return that a run comes to binds its rule's right side in order, each site after its parts, and each call once.
pub fn returns_bind_in_order<C, V>()
    ensures { (R : Rules C V) (left : List ℕ) (T : Steps C) (r : Answers V) → IsTreeOf R left T → Respects R r → IsStrict R r
        → ReturnsInOrder R r (walk R r T) }
{}

/// A right side fails only at the content of an option that a call gives.
pub fn right_sides_fail_at_contents<C, V>()
    ensures { (R : Rules C V) (left : List ℕ) (T : Steps C) (r : Answers V) (i : ℕ) (e : List ℕ) → IsTreeOf R left T → HasItsTests R
        → Respects R r → IsStrict R r → walk R r T ≡ chooses i breaks e
        → (s : ℕ) × IsPartOf R (rights R i) s × (R.content s ≡ true) × (r s ≡ fails) }
{}

/// Answers that know more keep what a run has found, in as many steps.
pub fn more_answers_keep_a_run<C, V>()
    ensures { (R : Rules C V) (left : List ℕ) (T : Steps C) (r v : Answers V) → IsTreeOf R left T → Respects R r → Extends r v
        → IsStrict R v → IsKept v (walk R r T) (walk R v T)
        × AreKept v (walk R r T) (reached R r T) (reached R v T) }
{}

/// No walk reaches more steps than the rules have constraints, and one for each rule.
pub fn walks_are_short<C, V>()
    ensures { (R : Rules C V) (left : List ℕ) (T : Steps C) (v : Answers V) → IsWellMade R → Builds R left nothing_known T
        → reached R v T ≤ steps_at_most R left }
{}

/// A tree binds before a test only what the rules left demand, and before a return what its rule has.
pub fn trees_bind_what_rules_have<C, V>()
    ensures { (R : Rules C V) (left : List ℕ) (T : Steps C) → IsWellMade R → Builds R left nothing_known T → AsksOnly R left T }
{}

/// The arms of each step ascend by their tests.
pub fn arms_ascend<C, V>()
    ensures { (R : Rules C V) (left : List ℕ) (T : Steps C) → IsWellMade R → Builds R left nothing_known T → Ascends R T }
{}

/// These three hold of whatever rules a tree is built from, whether or not two tests of a site may both pass.
pub fn built_trees_are_short_and_ascend<C, V>()
    ensures short { (R : Rules C V) (n : ℕ) (left : List ℕ) (T : Steps C) (v : Answers V) → IsBuildable R n left → Builds R left nothing_known T
        → reached R v T ≤ steps_at_most R left }
    ensures asks { (R : Rules C V) (n : ℕ) (left : List ℕ) (T : Steps C) → IsBuildable R n left → Builds R left nothing_known T
        → AsksOnly R left T }
    ensures ascends { (R : Rules C V) (n : ℕ) (left : List ℕ) (T : Steps C) → IsBuildable R n left → Builds R left nothing_known T
        → Ascends R T }
{}

/// What a test makes is bound by it alone, up to a first return, but for contents of options that calls give.
pub fn tests_bind_their_fields<C, V>()
    ensures { (R : Rules C V) (left : List ℕ) (T : Steps C) → IsWellMade R → HasItsTests R → Builds R left nothing_known T
        → BindsNoField R T }
{}

/// Each step reads only what is bound, or computed from what is.
pub fn steps_read_what_is_bound<C, V>()
    ensures { (R : Rules C V) (left : List ℕ) (T : Steps C) → IsWellMade R → IsListed R → Builds R left nothing_known T
        → IsClosed R (λ s. false) T }
{}

/// A machine that keeps only what it bound does as the walk.
pub fn machines_walk<C, V>()
    ensures { (R : Rules C V) (left : List ℕ) (T : Steps C) (makes : Makes V) (r : Answers V) → IsWellMade R → IsListed R
        → Builds R left nothing_known T → Respects R r → IsMadeBy R makes r → run R makes T (λ s. None) ≡ walk R r T }
{}

/// A walk that takes each value of each multi call, and goes on past returns, answers the bag of the rules.
pub fn rounds_make_the_bag<C, V>()
    ensures { (R : Rules C V) (left : List ℕ) (T : Steps C) (M : Model V) (d : Picks V → ℕ → Bool) (h : Picks V) → IsWellMade R → IsMany R
        → IsAscending left → Builds R left nothing_known T → IsModel R M → Tells R M d → M.fits h ≡ true
        → IsSameBag (walk_all R M T h) (bag R M d h left) }
{}

/// Calls that are functions into lists make such a model.
pub fn functions_make_models<C, V>()
    ensures { (R : Rules C V) (makes : Makes V) (lists : Lists V) (fits : Picks V → Bool) → IsWellMade R → AreFunctions R makes lists fits
        → IsModel R (model_of R makes lists fits) }
{}

/// By induction on the depth of nested calls: what an answered run answers is what the call means, whatever calls left open would answer.
pub fn answered_runs_mean_what_they_answer<C, V>()
    ensures { (P : Program C V) (n t : ℕ) (args : List V) → IsProgram P → run_to P n t args ≢ unknown
        → Means P n t args (run_to P n t args) }
{}

/// And one that isn't answered has asked a chain of calls that spends the depth, or ends at a term that may not fail and is stuck.
pub fn unanswered_runs_have_a_chain<C, V>()
    ensures { (P : Program C V) (n t : ℕ) (args : List V) → IsProgram P → run_to P n t args ≡ unknown → Chain P n t args }
{}

/// Which trees rules build doesn't depend on how their tests pass, or how values compare.
pub fn building_asks_no_values<C, V, W>()
    ensures { (R : Rules C V) (passes : C → W → Bool) (alike : W → W → Bool) (left : List ℕ) (sc : Scope C) (T : Steps C) → Builds R left sc T
        → Builds (over_values R passes alike) left sc T }
{}

/// Nor on the order in which the rules left stand.
pub fn building_asks_no_order<C, V>()
    ensures { (R : Rules C V) (left again : List ℕ) (sc : Scope C) (T : Steps C) → IsSameBag left again → Builds R left sc T
        → Builds R again sc T }
{}

/// The premises can be met: a sample meets them.
pub fn the_sample_meets_the_premises()
    ensures set { IsTreeOf sample (0 ∷ 1 ∷ []) sample_tree }
    ensures fields { HasItsTests sample × IsListed sample }
    ensures buildable { IsBuildable sample 3 (0 ∷ 1 ∷ []) }
    ensures program { IsProgram sample_program }
    ensures answers { (g : Got Bool) → g ≢ fails → Respects sample (with_call g) × IsStrict sample (with_call g) }
    ensures unanswered { walk sample (with_call unknown) sample_tree ≡ waits 1 }
    ensures first { walk sample (with_call (gives true)) sample_tree ≡ chooses 0 goes [] }
    ensures second { walk sample (with_call (gives false)) sample_tree ≡ chooses 1 goes [] }
{}

/// So can those of a `multi` term: a sample meets them, and its walk answers once for each value of the call.
pub fn the_multi_sample_meets_the_premises()
    ensures set { IsWellMade many_sample × IsMany many_sample × Builds many_sample (0 ∷ []) nothing_known many_tree }
    ensures buildable { IsBuildable many_sample 3 (0 ∷ []) }
    ensures functions { AreFunctions many_sample (λ s xs. gives true) (λ s xs. true ∷ false ∷ []) (λ h. true) }
    ensures tells { Tells many_sample many_model (λ h i. true) }
    ensures rounds { (h : Picks Bool) → walk_all many_sample many_model many_tree h ≡ gave 0 (pick h 1 true) ∷ gave 0 (pick h 1 false) ∷ [] }
{}
