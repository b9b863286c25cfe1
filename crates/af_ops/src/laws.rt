ghost use Rattle.af_ops.specs.Laws.{BackfillsFillTheirRange, ListingsGoById, ReadingsLeaveTheState, ChangesLeaveAnotherState, ChangesStayAtTheirDag, ClearsTouchChosenAlone, DryRunsLeaveTheState, OneRowAtMost, EachIsFound, OperationsAreOfTheirRow, RunNumbersRise, RunsAreShownByTheirIds, RunsListedAreThoseRead, RunsListedGoByNumber, TriggersAddARun};

/// A method and a path name one operation of the table at most.
pub fn one_row_at_most()
    ensures { OneRowAtMost }
{}

/// Each operation is found by its method and its path.
pub fn each_is_found()
    ensures { EachIsFound }
{}

/// What is read of a row of the table is that row's operation, and it names the DAG that the path names.
pub fn operations_are_of_their_row()
    ensures { OperationsAreOfTheirRow }
{}

/// A listing of DAGs goes by id in byte order, and tells no DAG twice.
pub fn listings_go_by_id()
    ensures { ListingsGoById }
{}

/// An operation that is asked for by GET leaves every state as it is.
pub fn readings_leave_the_state()
    ensures { ReadingsLeaveTheState }
{}

/// An operation that is told to change the state leaves another one.
pub fn changes_leave_another_state()
    ensures { ChangesLeaveAnotherState }
{}

/// An operation at one DAG leaves all other DAGs, their runs, the pools and the variables as they were.
pub fn changes_stay_at_their_dag()
    ensures { ChangesStayAtTheirDag }
{}

/// The listing of all runs has exactly the runs whose DAG the user reads, and of whose DAG the user reads the runs.
pub fn runs_listed_are_those_read()
    ensures { RunsListedAreThoseRead }
{}

/// A listing of runs goes by their numbers, and tells no run twice.
pub fn runs_listed_go_by_number()
    ensures { RunsListedGoByNumber }
{}

/// The run that is shown is the one of its DAG that has the id; where there is one, it is found.
pub fn runs_are_shown_by_their_ids()
    ensures { RunsAreShownByTheirIds }
{}

/// What triggers a run adds it last, of the id and the date that are asked for or made, queued, with an instance in no state for each task,
/// and changes nothing else.
pub fn triggers_add_a_run()
    ensures { TriggersAddARun }
{}

/// A backfill adds a run for each point of its range whose date and id are free, and none for others, tells all of them, and changes nothing else.
pub fn backfills_fill_their_range()
    ensures { BackfillsFillTheirRange }
{}

/// No operation lowers the number that the next run gets.
pub fn run_numbers_rise()
    ensures { RunNumbersRise }
{}

/// A dry run of a clear leaves every state as it is.
pub fn dry_runs_leave_the_state()
    ensures { DryRunsLeaveTheState }
{}

/// A clear changes the runs of its DAG that are asked for alone, and of them the instances that are chosen; a clear of one run changes
/// that run alone.
pub fn clears_touch_chosen_alone()
    ensures { ClearsTouchChosenAlone }
{}
