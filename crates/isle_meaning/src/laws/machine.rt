//! What a machine's run means, and how it stands to a plain run. `C` is the type of tests of a site.

ghost use Rattle.std.specs.Prelude.{◌≡◌, ◌==◌, [], true, false};
ghost use Rattle.isle_meaning.specs.Values.{bool_value};
ghost use Rattle.isle_meaning.specs.Worlds.{Answers};
ghost use Rattle.isle_meaning.specs.Outcomes.{given, missing};
ghost use Rattle.isle_meaning.specs.SoundPrograms.{IsSound};
ghost use Rattle.isle_meaning.specs.Machine.Runs.{MachineRun};
ghost use Rattle.isle_meaning.specs.Machine.Trees.{HasTermTrees};
ghost use Rattle.isle_meaning.specs.Machine.Walkable.{TermTreesAreWalkable};
ghost use Rattle.isle_meaning.specs.Machine.Sample.{sample_program, sample_tree, on_truth};
ghost use Rattle.isle_meaning.specs.Laws.Machine.{MachineRunsAreMeant, MachineEndsAreAsked, MachineRunsAreShort, MachineRunsStay};
ghost use Rattle.isle_meaning.specs.Laws.Machine.{MachineRunsAreOne, MachineRunsBeginSo, MachineMayStop, PureMachineRunsAreSilent};
ghost use Rattle.isle_meaning.specs.Laws.Machine.{NoMachineRunSpent, RoadsAgree};

/// Where a machine's run answers, that is the call's meaning.
pub fn machine_runs_are_meant<C>()
    ensures { MachineRunsAreMeant C }
{}

/// Where a machine's run ends unanswered, a chain of asking ends so.
pub fn machine_ends_are_asked<C>()
    ensures { MachineEndsAreAsked C }
{}

/// A call reaches no more steps than its rules have constraints and sites made equal, and one for each rule.
pub fn machine_runs_are_short<C>()
    ensures { MachineRunsAreShort C }
{}

/// A machine's run that isn't spent is the run at every greater depth, with the same steps, effects and outcome.
pub fn machine_runs_stay<C>()
    ensures { MachineRunsStay C }
{}

/// Two runs of one call at one depth are one, or their effects first differ in the world's answer to the same call.
pub fn machine_runs_are_one<C>()
    ensures { MachineRunsAreOne C }
{}

/// A machine's run begins with its effects and with none, one of a pure term with none alone.
pub fn machine_runs_begin_so<C>()
    ensures so { MachineRunsBeginSo C }
    ensures stops { MachineMayStop C }
    ensures pure { PureMachineRunsAreSilent C }
{}

/// No machine's run is spent where no term reaches itself and the depth is at least the number of terms with rules.
pub fn no_machine_run_spent<C>()
    ensures { NoMachineRunSpent C }
{}

/// A machine's run and a plain run of one call that both answer agree.
pub fn roads_agree<C>()
    ensures { RoadsAgree C }
{}

/// The premises can be met: a sample meets them, and is run.
pub fn the_sample_has_a_tree()
    ensures sound { IsSound sample_program (λ t. (t == 0) ≡ true) }
    ensures tree { HasTermTrees sample_program (λ t. (t == 0) ≡ true) (λ t. sample_tree) }
    ensures runs { (w : Answers) → MachineRun sample_program (λ t. sample_tree) w 1 0 (on_truth true) 2 [] (given (bool_value true)) }
    ensures fails { (w : Answers) → MachineRun sample_program (λ t. sample_tree) w 1 0 (on_truth false) 1 [] missing }
{}

/// The tree of a term binds what can be bound, and tests and returns what can be read then.
pub fn term_trees_are_walkable<C>()
    ensures { TermTreesAreWalkable C }
{}
