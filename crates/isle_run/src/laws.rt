//! Laws of values, of calls and of compiled programs, each as a function whose contract states it.
ghost use Rattle.isle_run.specs.Laws.Compiled.{AcyclicProgramsAreNotSpent, CompiledMeaningsAreOne, FaultlessRulesHaveNoTies};
ghost use Rattle.isle_run.specs.Laws.Compiled.{InhabitedProgramsHaveValues, PremisesCanBeMet};
ghost use Rattle.isle_run.specs.Laws.Coverage.{runs_by_trees, runs_by_rules, CoveredTermsAreNotStuck, CoveredCallsAreNeverStuck};
ghost use Rattle.isle_run.specs.Laws.Coverage.{CoveredCallsAreAnswered, MissedCallsAreNotAnswered};
ghost use Rattle.isle_run.specs.Laws.Formatting.{FormattedTextsAreAlike};
ghost use Rattle.isle_run.specs.Laws.Keeping.{KeptTextsAreAlike, KeptTextsAreAcceptedAlike, KeptProgramsMeanTheSame};
ghost use Rattle.isle_meaning.specs.Laws.Order.{OrderMeansNothing};
ghost use Rattle.isle_run.specs.Laws.Order.{OrderOfTextsMeansNothing};
ghost use Rattle.isle_run.specs.Laws.Printing.{CompiledValuesReadBack, StringsAreUtf8Texts};
ghost use Rattle.isle_run.specs.Laws.Queries.{RefusedTextsAreNoCalls, TextsAreOneCall, TextsHaveOneFault};
ghost use Rattle.isle_run.specs.Laws.Runs.{RunsByTreesSaySo, RunsByRulesSaySo, RunsByTreesAreOne, RunsByRulesAreOne};
ghost use Rattle.isle_run.specs.Laws.Runs.{DeeperRunsByTreesAreOne, DeeperRunsByRulesAreOne};
ghost use Rattle.isle_run.specs.Laws.Sound.{CompiledProgramsAreSound};
ghost use Rattle.isle_run.specs.Laws.TreeCalls.{AcyclicCallsAreNotSpent, CallsAgree};
ghost use Rattle.isle_run.specs.Laws.Trees.{OfEachTerm};
ghost use Rattle.isle_blocks.specs.Trees.Promises.{ChoosesAsRules, BindsWhatIsAsked, HasArmsInOrder, IsShort};
ghost use Rattle.isle_blocks.specs.Trees.ReadPromises.{ReadsWhatIsBound, BindsItsFields, BindsFieldsByTests};
ghost use Rattle.isle_blocks.specs.Trees.RightPromises.{AnswersAsRules};
ghost use Rattle.isle_blocks.specs.Trees.RuleBags.{MakesItsBag};
ghost use Rattle.isle_blocks.specs.Trees.TypedCalls.{CallsTakeTheirTypes};
ghost use Rattle.isle_meaning.specs.Laws.Spelling.{AlikeProgramsMeanTheSame};
ghost use Rattle.isle_run.specs.Laws.Spelling.{AlikeTextsAreAcceptedAlike, AlikeTextsMakeAlikePrograms};
ghost use Rattle.std.specs.Prelude.{◌≡◌, ℕ, List};
ghost use Rattle.isle_syntax.specs.declared.lexer.Token.{Token};
ghost use Rattle.isle_rules.specs.Values.{ValueTree};
ghost use Rattle.isle_meaning.specs.ValueTypes.{ValueFacts, IsOfType};
ghost use Rattle.isle_values.specs.Values.Held.{IsHeld};
ghost use Rattle.isle_values.specs.Values.Settled.{settled, SpellTyped};
ghost use Rattle.isle_values.specs.Values.TextTokens.{AreTokensOf};
ghost use Rattle.isle_values.specs.Values.Text.{value_text};
ghost use Rattle.isle_values.specs.Values.Tokens.{IsSpellable};

pub use isle_meaning::laws::{
    chain_stays, chains_join, completions_extend, end_stays, ends_are_asked,
    machine_ends_are_asked, machine_runs_are_meant, machine_runs_are_one, machine_runs_are_short,
    machine_runs_begin_so, machine_runs_stay, meaning_stays, meanings_are_typed,
    no_cycles_none_spent, no_machine_run_spent, no_overlaps_no_ties, one_meaning,
    one_meaning_always, plain_runs_are_meant, plain_runs_are_one, plain_runs_begin_so, run_stays,
    trees_are_one, typed_rules_call_well,
};

/// A value of a type is printed to a text that is read back as it at the type.
pub fn printed_values_read_back()
    ensures { (facts : ValueFacts) (v : ValueTree) (ty : ℕ) → IsHeld v → IsOfType facts v ty → IsSpellable v
        → (tokens : List Token) × AreTokensOf (value_text v) tokens × SpellTyped facts tokens v ty }
{}

/// A value of a type of a compiled program is printed to a text that is read back as it at the type, where the texts of the files are in UTF-8.
/// Texts of strings are.
pub fn compiled_values_read_back()
    ensures read_back { CompiledValuesReadBack }
    ensures texts { StringsAreUtf8Texts }
{}

/// A value of a type stays as it is when it is read at the type.
pub fn typed_values_stay()
    ensures { (facts : ValueFacts) (v : ValueTree) (ty : ℕ) → IsOfType facts v ty → settled facts v ty ≡ v }
{}

/// A text is one call, or it is refused for one cause; never both.
pub fn queries_are_one()
    ensures call { TextsAreOneCall }
    ensures refused { RefusedTextsAreNoCalls }
    ensures fault { TextsHaveOneFault }
{}

/// A compiled program says what its definitions say, and its rules are sound.
pub fn compiled_programs_are_sound()
    ensures { CompiledProgramsAreSound }
{}

/// The tree of each term with rules of a compiled program does all that `built_trees_keep_promises` of `isle_blocks` says: its walks choose as the
/// rules do, answer what right sides do, and of a `multi` term make its bag; it binds what the rules ask, each site behind its parts, and calls on
/// values of their types; its arms are in order, and its walks short.
pub fn compiled_trees_keep_promises()
    ensures chooses { OfEachTerm ChoosesAsRules }
    ensures answers { OfEachTerm AnswersAsRules }
    ensures bag { OfEachTerm MakesItsBag }
    ensures asks { OfEachTerm BindsWhatIsAsked }
    ensures reads { OfEachTerm ReadsWhatIsBound }
    ensures fields { OfEachTerm BindsItsFields }
    ensures by_tests { OfEachTerm BindsFieldsByTests }
    ensures typed { OfEachTerm CallsTakeTheirTypes }
    ensures ascends { OfEachTerm HasArmsInOrder }
    ensures few { OfEachTerm IsShort }
{}

/// The same rules in another order give a call the same meaning, in a checked program and in texts.
pub fn order_means_nothing()
    ensures checked { OrderMeansNothing }
    ensures texts { OrderOfTextsMeansNothing }
{}

/// Of texts whose definitions differ in positions alone, however they are spelt and split into files, the ones are accepted where the
/// others are; their programs differ in the positions of their rules alone, and a call means the same in both. So it is for formatted
/// texts.
pub fn spelling_means_nothing()
    ensures accepted { AlikeTextsAreAcceptedAlike }
    ensures programs { AlikeTextsMakeAlikePrograms }
    ensures meaning { AlikeProgramsMeanTheSame }
    ensures formatted { FormattedTextsAreAlike }
{}

/// Texts that are laid out with their comments spell what they did, positions aside; they are accepted exactly where they were, and a call means
/// the same in both programs.
pub fn keeping_means_nothing()
    ensures alike { KeptTextsAreAlike }
    ensures accepted { KeptTextsAreAcceptedAlike }
    ensures meaning { KeptProgramsMeanTheSame }
{}

/// Faultless rules of terms without `multi` have no ties.
pub fn faultless_rules_have_no_ties()
    ensures { FaultlessRulesHaveNoTies }
{}

/// Where each type of a compiled program is inhabited, each of its terms has values to give.
pub fn inhabited_programs_have_values()
    ensures { InhabitedProgramsHaveValues }
{}

/// Two meanings of one call of a compiled program are one, or their effects first differ in the world's answer to the same call. The term can be
/// run, and each type is inhabited.
pub fn compiled_meanings_are_one()
    ensures { CompiledMeaningsAreOne }
{}

/// Where each type of a compiled program is inhabited, a call has a completion that agrees and answers what its rules ask.
pub fn premises_can_be_met()
    ensures { PremisesCanBeMet }
{}

/// No plain run of a program is spent where no term reaches itself and the depth is at least the number of terms with rules.
pub fn acyclic_programs_are_not_spent()
    ensures { AcyclicProgramsAreNotSpent }
{}

/// No call of a compiled program by its trees is spent where no term reaches itself and the depth is at least the number of terms with rules.
pub fn acyclic_calls_are_not_spent()
    ensures { AcyclicCallsAreNotSpent }
{}

/// Where a call of a compiled program is answered by its trees and by its rules, at whatever depths, both answers and effects are one, or the
/// effects first differ in the world's answer to the same call. The term can be run, and each type is inhabited.
pub fn roads_agree()
    ensures { CallsAgree }
{}

/// What a run of a call says: an answer is what the call means, any other end is that of a chain of asking, and a pure term makes no effects. By
/// trees the program is compiled, and a run reaches no more steps than its term's rules take at most. The term can be run, and the values are of
/// its types.
pub fn runs_say_so()
    ensures by_trees { RunsByTreesSaySo }
    ensures by_rules { RunsByRulesSaySo }
{}

/// Two runs of one call on one road at one depth are one, with the same steps, effects and outcome, or their effects first differ in the world's
/// answer to the same call. So are one that isn't spent and one at a greater depth.
pub fn runs_are_one()
    ensures by_trees { RunsByTreesAreOne }
    ensures by_rules { RunsByRulesAreOne }
    ensures by_trees_deeper { DeeperRunsByTreesAreOne }
    ensures by_rules_deeper { DeeperRunsByRulesAreOne }
{}

/// No run of a call of a compiled program is stuck at a covered term: one of whose rules one matches on any values of its types, whatever calls
/// answer. It is so in any world, at any depth, where each type is inhabited; the call is of a term that can be run, on values of its types.
pub fn covered_terms_are_not_stuck()
    ensures by_trees { CoveredTermsAreNotStuck runs_by_trees }
    ensures by_rules { CoveredTermsAreNotStuck runs_by_rules }
{}

/// No run of such a call is stuck at all where its term, and each with rules that it reaches, is covered or may fail.
pub fn covered_calls_are_never_stuck()
    ensures by_trees { CoveredCallsAreNeverStuck runs_by_trees }
    ensures by_rules { CoveredCallsAreNeverStuck runs_by_rules }
{}

/// Each run of it is then answered, with a value or none, where no term reaches itself, the depth is at least the number of terms with rules, and
/// the world answers as the declarations allow.
pub fn covered_calls_are_answered()
    ensures by_trees { CoveredCallsAreAnswered runs_by_trees }
    ensures by_rules { CoveredCallsAreAnswered runs_by_rules }
{}

/// No run of a call that no rule matches, whatever calls answer, gives a value; where its term may not fail, each ends unanswered.
pub fn missed_calls_are_not_answered()
    ensures by_trees { MissedCallsAreNotAnswered runs_by_trees }
    ensures by_rules { MissedCallsAreNotAnswered runs_by_rules }
{}
