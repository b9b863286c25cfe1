// What the calls are in the world. Each law is the contract of a function that does nothing.
ghost use Rattle.af_plane.specs.Laws.{AppliesAreActs, CallsAreEvents, CallsOfAllAreOneRun, ChangesAreSteps, DeedsAreEvents, EntriesAreGranted, EntriesOfAllAreGranted, EventsAreOneRun, LooksAreLooks, NamedVersionsNeverFall, NoSessionGoesBack, OperationsAreEvents, ReadingsAreSteps, SessionsAgree, SessionsStayWithin, TurnsLookAndAct, VersionsFollow, VersionsOfAllFollow, VersionsToldToEachClimb};

use af_world::laws;

/// A look of the plane is the world's look.
pub fn looks_are_looks()
    ensures { LooksAreLooks }
{}

/// What the plane decides under a version is the world's act.
pub fn applies_are_acts()
    ensures { AppliesAreActs }
{}

/// A turn of a session on the plane is a look and an act of it in the world.
pub fn turns_look_and_act()
    ensures { TurnsLookAndAct }
{}

/// An operation on the policy that makes no version is one step of its session in the world.
pub fn readings_are_steps()
    ensures { ReadingsAreSteps }
{}

/// A change that makes a version is one step of its session in the world.
pub fn changes_are_steps()
    ensures { ChangesAreSteps }
{}

/// All calls of a server for one thread, and what others publish between them, are one run of the world of two sessions: its steps are
/// those of the calls and publications, and its answers those that were given.
pub fn events_are_one_run()
    ensures { EventsAreOneRun }
{}

/// After any such events, each user's entry stands under a version in which that user's roles list a permission for each requirement, on
/// the state before it.
pub fn entries_are_granted()
    ensures { EntriesAreGranted }
{
    laws::entries_are_granted();
}

/// After any such events, each later version is made of the one before it by an author whose roles there list all that the change requires.
pub fn versions_follow()
    ensures { VersionsFollow }
{
    laws::versions_follow();
}

/// The versions that the answers of a server for one thread name never fall, whatever others publish.
pub fn named_versions_never_fall()
    ensures { NamedVersionsNeverFall }
{}

/// A call of a session on a plane behind a lock is an event there: a turn on the plane that was found under the lock.
pub fn calls_are_events()
    ensures { CallsAreEvents }
{}

/// So is what a session asks of the policy, which leaves the plane.
pub fn operations_are_events()
    ensures { OperationsAreEvents }
{}

/// So is what the scheduler or an executor does, while a session of theirs has the lock.
pub fn deeds_are_events()
    ensures { DeedsAreEvents }
{}

/// Take an order of all that happens at one plane: the first finds the opening plane, and each other what the one before it left. In it are all
/// calls of any number of sessions, what they ask of the policy, and the ticks, claims and reports. It is one run of the world of as many
/// sessions: its steps are those of the events, and its answers those that were given.
pub fn calls_of_all_are_one_run()
    ensures { CallsOfAllAreOneRun }
{}

/// After any such events of all sessions, each user's entry stands under a version in which that user's roles list a permission for each
/// requirement, on the state before it.
pub fn entries_of_all_are_granted()
    ensures { EntriesOfAllAreGranted }
{
    laws::entries_are_granted();
}

/// After any such events of all sessions, each later version is made of the one before it by an author whose roles there list all that the
/// change requires.
pub fn versions_of_all_follow()
    ensures { VersionsOfAllFollow }
{
    laws::versions_follow();
}

/// The versions that the answers to one of the sessions name never fall, whatever the others do between.
pub fn versions_told_to_each_climb()
    ensures { VersionsToldToEachClimb }
{
    laws::answered_versions_climb();
}

/// No session goes back: after any calls of a session it has still seen all versions and entries that it had seen. The versions that its
/// answers name never fall, and none is before the last that it had seen. Nothing is asked of the order in which others call.
pub fn no_session_goes_back()
    ensures { NoSessionGoesBack }
{}

/// Two sessions of one control agree, whatever answers they are taken at: all versions are one list and all entries are another, of which each
/// answer knows a beginning. Each session calls on until it is over, and one plane takes both in (`Closed::take_in`).
pub fn sessions_agree()
    ensures { SessionsAgree }
{}

/// A session that a plane has taken in stays within it, when the plane takes in others.
pub fn sessions_stay_within()
    ensures { SessionsStayWithin }
{}
