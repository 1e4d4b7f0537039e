//! What calls mean, at each depth, and where chains of asking end.

ghost use Rattle.isle_meaning.specs.Laws.Calls.{ChainsJoin, ChainStays, CompletionsExtend, EndStays, MeaningsAreTyped, MeaningStays};
ghost use Rattle.isle_meaning.specs.Laws.Calls.{NoOverlapsNoTies, OneMeaning, OneMeaningAlways, TreesAreOne, TypedRulesCallWell};
ghost use Rattle.isle_meaning.specs.Laws.Plain.{EndsAreAsked, NoCyclesNoneSpent, PlainRunsAreMeant, PlainRunsAreOne, PlainRunsBeginSo};
ghost use Rattle.isle_meaning.specs.Laws.Plain.{PureRunsBeginSilently, RunStays};

/// Where a plain run answers, that is the call's meaning.
pub fn plain_runs_are_meant()
    ensures { PlainRunsAreMeant }
{}

/// A meaning stays at every greater depth.
pub fn meaning_stays()
    ensures { MeaningStays }
{}

/// Chains of asking join.
pub fn chains_join()
    ensures { ChainsJoin }
{}

/// A chain of asking stays at every greater depth.
pub fn chain_stays()
    ensures { ChainStays }
{}

/// What ended a call, but for want of depth, ends it at every greater depth.
pub fn end_stays()
    ensures { EndStays }
{}

/// One value of a type has one tree.
pub fn trees_are_one()
    ensures { TreesAreOne }
{}

/// Two meanings of one call at one depth are equal, or their effects first differ in the world's answer to the same call.
pub fn one_meaning()
    ensures { OneMeaning }
{}

/// Where a plain run ends unanswered, a chain of asking ends so.
pub fn ends_are_asked()
    ensures { EndsAreAsked }
{}

/// A plain run begins with its effects, one of a pure term with none.
pub fn plain_runs_begin_so()
    ensures so { PlainRunsBeginSo }
    ensures pure { PureRunsBeginSilently }
{}

/// Two meanings of one call are one, whether or not there are completions that answer every pure call.
pub fn one_meaning_always()
    ensures { OneMeaningAlways }
{}

/// Any completion that agrees can't but have more answers with which it answers what a call's rules ask.
pub fn completions_extend()
    ensures { CompletionsExtend }
{}

/// What a call means is of the term's type, or none of a term that may fail.
pub fn meanings_are_typed()
    ensures { MeaningsAreTyped }
{}

/// Rules of which no two overlap have no ties.
pub fn no_overlaps_no_ties()
    ensures { NoOverlapsNoTies }
{}

/// Well typed rules call only what may not fail where their term may not.
pub fn typed_rules_call_well()
    ensures { TypedRulesCallWell }
{}

/// A plain run that isn't spent is the run at every greater depth, with the same steps, effects and outcome.
pub fn run_stays()
    ensures { RunStays }
{}

/// Two plain runs of one call at one depth are one, or their effects first differ in the world's answer to the same call.
pub fn plain_runs_are_one()
    ensures { PlainRunsAreOne }
{}

/// No plain run is spent where no term reaches itself and the depth is at least the number of terms with rules.
pub fn no_cycles_none_spent()
    ensures { NoCyclesNoneSpent }
{}
