ghost use Rattle.af_world.specs.Blind.{ActsAreBlind, HiddenActsAsAbsent, HiddenRunActsAsAbsent};
ghost use Rattle.af_world.specs.OneRow.{PolicyRowsShownStand, RowsShownStand};
ghost use Rattle.af_world.specs.Pages.{PagesShownStand, PolicyPagesShownStand};
ghost use Rattle.af_world.specs.Permitted.{RefusedChangesArePermitted};
ghost use Rattle.af_world.specs.Ready.{StepsHaveAnswers};
ghost use Rattle.af_world.specs.Laws.{ActsCountTheEntries, AnsweredAsSeen, AnsweredVersionsClimb, AnswersAreGranted, DenialsNameTheFirst, EntriesAreGranted, EntryVersionsClimb, ListingsOfADagAreRead, ListingsTellWhatIsRead, PublishesAreGranted, RefusalsChangeNothing, RunsAreOne, SightsNeverFall, StateIsTheReplay, StrangersHaveNoUser, VersionsFollow};

use af_sched::laws::{a_claim_is_one, a_tick_is_one};

/// The same steps have one list of answers at most, and lead to one world at most.
pub fn runs_are_one()
    ensures { RunsAreOne }
{
    a_tick_is_one();
    a_claim_is_one();
}

/// Every list of steps has answers, and leads to a world: from each opening whose rows are as rows are at all times, and whose runs are
/// numbered from 1 on.
pub fn steps_have_answers()
    ensures { StepsHaveAnswers }
{}

/// After every list of steps, each user's entry stands under a version in which that user's roles list a permission for each
/// requirement, on the state at that step.
pub fn entries_are_granted()
    ensures { EntriesAreGranted }
{}

/// After every list of steps, the state is the replay of the entries.
pub fn the_state_is_the_replay()
    ensures { StateIsTheReplay }
{}

/// In every list of steps, the versions answered to one session never fall: none acts under a version earlier than one it has seen.
pub fn answered_versions_climb()
    ensures { AnsweredVersionsClimb }
{}

/// After every list of steps, a session is answered under a version no earlier than one that it had seen, which it has then seen; and
/// an act under the very one that the session saw when it looked.
pub fn answers_are_as_seen()
    ensures { AnsweredAsSeen }
{}

/// After every list of steps, the version that a session has seen does not fall.
pub fn sights_never_fall()
    ensures { SightsNeverFall }
{}

/// After every list of steps, the versions of the entries never fall.
pub fn entry_versions_climb()
    ensures { EntryVersionsClimb }
{}

/// After every list of steps, each later version is the change of the one before it by an author whose roles there list all that the
/// change requires.
pub fn versions_follow()
    ensures { VersionsFollow }
{}

/// In every world, an answer other than 401 and 403 was granted under the version that it names, unless it is to a change of the policy
/// that is handed in; of those see `publishes_are_granted`.
pub fn answers_are_granted()
    ensures { AnswersAreGranted }
{}

/// In every world, an answer 403 names the first requirement for which the user's roles list no permission.
pub fn denials_name_the_first()
    ensures { DenialsNameTheFirst }
{}

/// In every world, an answer 401 is told where nobody has the token.
pub fn strangers_have_no_user()
    ensures { StrangersHaveNoUser }
{}

/// In every world, an answer 401 or 403 leaves the versions, the state and the entries.
pub fn refusals_change_nothing()
    ensures { RefusalsChangeNothing }
{}

/// In every world, the answer to an act counts the entries, its own included.
pub fn acts_count_the_entries()
    ensures { ActsCountTheEntries }
{}

/// In every world, a change of the policy that is made was handed in under the latest version, by an author whose roles there list all
/// that the change requires, and makes one version more.
pub fn publishes_are_granted()
    ensures { PublishesAreGranted }
{}

/// In every world, a listing of the DAGs, of the runs of all DAGs or of the event logs tells exactly the page of what the user's roles let
/// the user read, and how much that is.
pub fn listings_tell_what_is_read()
    ensures { ListingsTellWhatIsRead }
{}

/// In every world, a listing of the tasks, of the runs or of the instances of one DAG tells just its rows, and only where the user's
/// roles let the user read that DAG, and its runs if it tells runs or instances.
pub fn listings_of_a_dag_are_read()
    ensures { ListingsOfADagAreRead }
{}

/// In any two worlds whose states have the same rows of all that the user's roles let the user read, an act that reads DAGs, tasks, runs or
/// instances is answered with the same status and the same body.
pub fn acts_are_blind()
    ensures { ActsAreBlind }
{}

/// In every world, such an act of a user whose roles don't let the user read a DAG is answered as in the world without that DAG and its runs.
pub fn hidden_acts_as_absent()
    ensures { HiddenActsAsAbsent }
{}

/// In every world, such an act of a user whose roles don't let the user read both a DAG and its runs is answered as in the world without these
/// runs.
pub fn hidden_run_acts_as_absent()
    ensures { HiddenRunActsAsAbsent }
{}

/// In every world, a DAG, a run, an instance, a pool or a variable that is shown is the one of that name in the state at that step, and the
/// user's roles list the permission to read it.
pub fn rows_shown_stand()
    ensures { RowsShownStand }
{}

/// In every world, a role or a user that is shown is the one of that name in the policy of the version that the answer names, and the
/// user's roles list the permission to read it; who asks who one is, is shown the row and the permissions of the token's user.
pub fn policy_rows_shown_stand()
    ensures { PolicyRowsShownStand }
{}

/// In every world, a listing of pools or of variables tells the page of all of them in the state at that step, and how many they are, to a
/// user whose roles list the permission to read them.
pub fn pages_shown_stand()
    ensures { PagesShownStand }
{}

/// In every world, a listing of roles or of users tells the page of all of them in the policy of the version that the answer names, and how
/// many they are, to a user whose roles list the permission to read them.
pub fn policy_pages_shown_stand()
    ensures { PolicyPagesShownStand }
{}

/// In every world, a change of the policy that is refused with 400, 404, 409 or 507 was permitted to its author under the version that the
/// answer names; or another version was made since the one that it was handed in under, and the answer tells which.
pub fn refused_changes_are_permitted()
    ensures { RefusedChangesArePermitted }
{}
