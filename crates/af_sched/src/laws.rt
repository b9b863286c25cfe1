ghost use Rattle.af_sched.specs.Laws.{BackfillFillsItsRange, ClaimIsOne, ClaimTellsTheNext, EndedRunsStay, HeldSlotsAreThoseOfInstances, HoldersHoldAllSlots, NoPointIsTakenTwice, NothingChangesExactlyWhereNothingIsDue, PointsOfARange, QueuedStateIsOne, ReportsOfRemovedRunsFindNone, SettlingIsOne, SettledStateIsOne, SlotsAreKept, TickGivesNewNumbers, TickIsOne, TickKeepsRows};

/// The trigger rules decide in one way what becomes of a run's instances, since no definition has a cycle.
pub fn settling_is_one()
    ensures { SettlingIsOne }
{}

/// The third phase of a tick leaves one state.
pub fn the_settled_state_is_one()
    ensures { SettledStateIsOne }
{}

/// The fourth phase of a tick leaves one state.
pub fn the_queued_state_is_one()
    ensures { QueuedStateIsOne }
{}

/// A tick at a moment leaves one state.
pub fn a_tick_is_one()
    ensures { TickIsOne }
{}

/// After a tick the rows are as they are at all times.
pub fn a_tick_keeps_the_rows()
    ensures { TickKeepsRows }
{}

/// After a tick the slots occupied in a pool are at most the greater of its slots and of what was occupied before.
pub fn a_tick_fills_no_pool()
    ensures { SlotsAreKept }
{}

/// A run that has ended keeps its state and its dates through a tick.
pub fn ended_runs_stay()
    ensures { EndedRunsStay }
{}

/// A tick does not lower the number that the next run gets, and gives no run the number of one that was taken out.
pub fn a_tick_gives_new_numbers()
    ensures { TickGivesNewNumbers }
{}

/// No tick takes a point that an earlier one took.
pub fn no_point_is_taken_twice()
    ensures { NoPointIsTakenTwice }
{}

/// A tick leaves the state as it was exactly where nothing is due.
pub fn nothing_changes_exactly_where_nothing_is_due()
    ensures { NothingChangesExactlyWhereNothingIsDue }
{}

/// A claim leaves one state, and tells one thing.
pub fn a_claim_is_one()
    ensures { ClaimIsOne }
{}

/// A report of an instance of a run that was taken out finds none.
pub fn reports_of_removed_runs_find_none()
    ensures { ReportsOfRemovedRunsFindNone }
{}

/// A claim at any moment tells what was told before it.
pub fn a_claim_tells_the_next()
    ensures { ClaimTellsTheNext }
{}

/// The runs of which an instance is queued or running hold all slots that are held, and so do the busy runs.
pub fn the_holders_hold_all_slots()
    ensures { HoldersHoldAllSlots }
{}

/// The slots of a pool that are told queued, and those told running, are those of exactly the instances that are so, of all
/// runs; both together are those occupied.
pub fn held_slots_are_those_of_instances()
    ensures { HeldSlotsAreThoseOfInstances }
{}

/// The points of a range are in rising order, and are those of the schedule between its dates that have a next one.
pub fn a_range_has_the_points_between_its_dates()
    ensures { PointsOfARange }
{}

/// A backfill adds, in order of date and numbered on, a run for each point of its range whose date and id are free, where there is
/// room for them; all else stays as it was.
pub fn a_backfill_fills_its_range()
    ensures { BackfillFillsItsRange }
{}
