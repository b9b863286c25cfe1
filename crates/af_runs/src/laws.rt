ghost use Rattle.af_runs.specs.Laws.{ClearingNothingIsNoChange, ClearingRunsThatStandIsNoChange, ClearingWhatStandsIsNoChange, ClearsTouchChosenAlone, MarkedRunsThatEndAreNotBusy, MarkingSuccessLeavesSuccess, MarkingWhatStandsIsNoChange, MarksTouchOneRun, RemovedNumbersStayAway};

/// A run that is marked success has ended well, and so has each of its instances.
pub fn marking_success_leaves_success()
    ensures { MarkingSuccessLeavesSuccess }
{}

/// A run of another number than the one that is marked stays as it is.
pub fn marks_touch_one_run()
    ensures { MarksTouchOneRun }
{}

/// Marking leaves a run as it is exactly where it is marked so already.
pub fn marking_what_stands_is_no_change()
    ensures { MarkingWhatStandsIsNoChange }
{}

/// A run that a mark has ended is not busy.
pub fn marked_runs_that_end_are_not_busy()
    ensures { MarkedRunsThatEndAreNotBusy }
{}

/// A clear touches the chosen instances alone.
pub fn clears_touch_chosen_alone()
    ensures { ClearsTouchChosenAlone }
{}

/// Where no instance is chosen a clear leaves all runs as they are.
pub fn clearing_nothing_is_no_change()
    ensures { ClearingNothingIsNoChange }
{}

/// A clear leaves a run as it is exactly where that is told.
pub fn clearing_what_stands_is_no_change()
    ensures { ClearingWhatStandsIsNoChange }
{}

/// A clear leaves all runs as they are exactly where that is told.
pub fn clearing_runs_that_stand_is_no_change()
    ensures { ClearingRunsThatStandIsNoChange }
{}

/// Once a run is taken out no run has its number, and a run that is added gets another.
pub fn removed_numbers_stay_away()
    ensures { RemovedNumbersStayAway }
{}
