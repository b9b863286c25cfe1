ghost use Rattle.af_audit.specs.Laws.{ChangesNameTheUser, ClaimsFollow, EventLogsLeaveTheLedger, EventLogsTellWhatIsRead, FollowersFollow, FrontsMakeTheStateAsItWas, FrontsMakeTheStateThatStood, LooksFollow, NoChangeDependsOnTheReader, NothingDoneLeavesTheLedger, NumbersHaveNoGap, ReplayIsOne, ReportsFollow, RequestsFollow, TicksFollow, TriggersNameTheirRun, VerdictsLeaveOneLedger, VersionsNeverFall, WhatIsNoChangeLeavesTheLedger};

use af_ops::laws::triggers_add_a_run;
use af_sched::laws::{a_claim_is_one, a_tick_is_one};

/// The entries of an audit are counted from 1, and no number is left out.
pub fn numbers_have_no_gap()
    ensures { NumbersHaveNoGap }
{}

/// Entries make one state of another.
pub fn a_replay_is_one()
    ensures { ReplayIsOne }
{
    a_tick_is_one();
    a_claim_is_one();
}

/// The first entries of an audit make the state as it was when there were no more.
pub fn fronts_make_the_state_as_it_was()
    ensures { FrontsMakeTheStateAsItWas }
{
    a_replay_is_one();
}

/// What an operation changes does not depend on who asks for it.
pub fn no_change_depends_on_the_reader()
    ensures { NoChangeDependsOnTheReader }
{}

/// What is denied or refused, and what only tells, adds no entry and leaves the ledger as it was.
pub fn what_is_no_change_leaves_the_ledger()
    ensures { WhatIsNoChangeLeavesTheLedger }
{}

/// A change that is told has one entry, the last, and that names the user of the token.
pub fn changes_name_the_user()
    ensures { ChangesNameTheUser }
{}

/// The entry of a trigger names the run that it added, the last of all.
pub fn triggers_name_their_run()
    ensures { TriggersNameTheirRun }
{
    triggers_add_a_run();
}

/// What is told of a request leaves the ledger that the verdict on it says; where there was no memory to tell it, the ledger is as it was.
pub fn verdicts_leave_one_ledger()
    ensures told { VerdictsLeaveOneLedger }
    ensures nothing_done { NothingDoneLeavesTheLedger }
{}

/// Who asks for event logs changes nothing.
pub fn event_logs_leave_the_ledger()
    ensures { EventLogsLeaveTheLedger }
{}

/// A page of event logs tells entries that name no DAG, and entries of DAGs that the user reads; the total counts these alone.
pub fn event_logs_tell_what_is_read()
    ensures { EventLogsTellWhatIsRead }
{}

/// The versions of the entries never fall, and none is later than the ledger's.
pub fn versions_never_fall()
    ensures { VersionsNeverFall }
{}

/// What a call leaves follows what it found: the opening state and the limit stay, entries are only added at the end, and the version
/// does not fall.
pub fn calls_only_add()
    ensures looks { LooksFollow }
    ensures requests { RequestsFollow }
    ensures ticks { TicksFollow }
    ensures claims { ClaimsFollow }
    ensures reports { ReportsFollow }
    ensures all { FollowersFollow }
{}

/// The first entries of a ledger, as many as there were at some time, make the state that then stood.
pub fn fronts_make_the_state_that_stood()
    ensures { FrontsMakeTheStateThatStood }
{
    a_replay_is_one();
}
