ghost use Rattle.af_server.specs.Laws.{AnsweredVersionsClimb, CallsAreAll, DesksAnswerAlike, DesksOpenAlike, EntriesAreGranted, ExchangesAreOneRun, OneReading, VersionsFollow};
ghost use Rattle.af_server.specs.Programs.{OnceReads, ServeReads, VerifyReads};
ghost use Rattle.af_server.specs.ReportLaws.{ConnectionsAreCalls, WorkersAgree};

use crate::files::Files;
use crate::machine::Machine;
use af_plane::laws;

/// All exchanges from a desk under a configuration on are one run of the world, whatever others publish between them: its steps are those of
/// the calls and of the publications, and its answers those that were given.
pub fn exchanges_are_one_run()
    ensures { ExchangesAreOneRun }
{}

/// After exchanges under a configuration, each user's entry stands under a version in which that user's roles list a permission for each
/// requirement, on the state before it.
pub fn entries_are_granted()
    ensures { EntriesAreGranted }
{
    laws::entries_are_granted();
}

/// After exchanges under a configuration, each later version of the policy is made of the one before it by an author whose roles there list
/// all that the change requires.
pub fn versions_follow()
    ensures { VersionsFollow }
{
    laws::versions_follow();
}

/// The versions that the answers of a connection name never fall, and none is before the last that its session had seen.
pub fn answered_versions_climb()
    ensures { AnsweredVersionsClimb }
{
    laws::named_versions_never_fall();
}

/// Two desks under one configuration are alike.
pub fn desks_open_alike()
    ensures { DesksOpenAlike }
{}

/// Where the session of a connection sees no version but those that it makes, its calls can be all that happens: the steps of its run of the
/// world are then those of its calls.
pub fn calls_are_all()
    ensures { CallsAreAll }
{}

/// Desks that are alike answer alike, where they have the memory to, and see no version but those that they make: also where there was none to
/// read the body of a request.
pub fn desks_answer_alike()
    ensures { DesksAnswerAlike }
{}

/// The text of a connection has one reading, where its session sees no version but those that it makes: how the connection ends, what it
/// writes, and, but for what it can't see, the desk that it leaves.
pub fn a_text_has_one_reading()
    ensures { OneReading }
{}

/// A file that is never refused is read: of files that say what they hold, no program can leave a configuration or a trace unread and say that
/// it is unreadable. The machine's files say nothing, and may always be refused.
pub fn files_are_read<F: Files>()
    ensures once { (files : F) → OnceReads (F.holds files) (F.refuses files) }
    ensures serve { (files : F) → ServeReads (F.holds files) (F.refuses files) }
    ensures verify { (files : F) → VerifyReads (F.holds files) (F.refuses files) }
{}

/// What is asked on the connections that a worker reports are calls of its one session, one after another, of which `no_session_goes_back` holds.
pub fn connections_are_calls<R: Machine>()
    ensures { ConnectionsAreCalls R.behaviour.tells }
{}

/// Two workers of one report agree, each after any of its connections: their answers are decided on beginnings of one list of versions and of one
/// list of entries.
pub fn workers_agree<R: Machine>()
    ensures { WorkersAgree R.behaviour }
{
    laws::sessions_agree();
}
