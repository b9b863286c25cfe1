ghost use Rattle.af_blind.specs.Blindness.{Blindness, HiddenIsAnsweredAsAbsent, HiddenMightBeAbsent, HiddenRunsAreAnsweredAsAbsent, HiddenRunsMightBeAbsent, NumbersMightBeOthers, TheSameAreRead};

/// A user's answers about DAGs, tasks, runs and instances depend on the DAGs and on the runs that the user may read alone: on states that
/// differ in other DAGs and in other runs, status and body are the same.
pub fn blindness()
    ensures { Blindness }
{}

/// On states that are alike for a user, the user may read the same DAGs.
pub fn the_same_are_read()
    ensures { TheSameAreRead }
{}

/// A state and the same state without a DAG that the user may not read, and without its runs, are alike.
pub fn hidden_might_be_absent()
    ensures { HiddenMightBeAbsent }
{}

/// A user who may not read a DAG is answered as if it were not there.
pub fn hidden_is_answered_as_absent()
    ensures { HiddenIsAnsweredAsAbsent }
{}

/// A state and the same state without the runs of a DAG are alike for a user who may not read both the DAG and these runs.
pub fn hidden_runs_might_be_absent()
    ensures { HiddenRunsMightBeAbsent }
{}

/// A user who may not read both a DAG and its runs is answered as if it had no runs.
pub fn hidden_runs_are_answered_as_absent()
    ensures { HiddenRunsAreAnsweredAsAbsent }
{}

/// States that differ in run numbers, pools and variables alone are alike for every user.
pub fn numbers_might_be_others()
    ensures { NumbersMightBeOthers }
{}
