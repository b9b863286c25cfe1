ghost use Rattle.std.specs.Prelude.{◌≡◌};
ghost use Rattle.af_plane.specs.Closings.{IsOfControl};

use crate::control_session::ControlSession;
use crate::named::Named;
use crate::session::Session;
use crate::session_log::SessionLog;
use af_audit::Entry;
use af_tally::Witness;
use af_word::Pass;
use http_server::Log;
use std::marker::Model;

/// A session of a control that is over. Contracts see what it held at its end, and all that it had done.
#[derive(Drop)]
pub struct EndedSession {
    pub(crate) pass: Pass,
    pub(crate) witness: Witness<Entry>,
    /// What it held at its end. It takes no memory.
    end: Log<Session, ()>,
    log: SessionLog,
}

impl Model for EndedSession {
    ghost use Rattle.std.specs.Prelude.{◌≡◌};
    ghost use mathlib.Core.List.{IsPrefix};
    ghost use Rattle.af_plane.specs.Closings.{first_of};
    ghost use Rattle.af_plane.specs.Logs.{rows_of};
    ghost use Rattle.af_plane.specs.Visits.{SessionRows};

    ghost Value = { SessionRows };

    ghost view = { λ ended. rows_of (first_of ended.end.items) ended.log };

    ghost invariant = { λ ended. (ended.pass.word ≡ (first_of ended.end.items).pass.word) × IsPrefix (first_of ended.end.items).pass.places ended.pass.places × (ended.witness.keeper ≡ (first_of ended.end.items).entries.keeper) × IsPrefix (first_of ended.end.items).entries.entries ended.witness.entries };
}

impl EndedSession {
    /// This session, which is over.
    #[tactic(auto, using(af_prefixes::proofs::PrefixLemmas::prefix_self))]
    pub(crate) fn of<N: Named>(session: ControlSession<N>) -> EndedSession
        ensures rows { result ≡ session }
        ensures of { IsOfControl N.name session }
    {
        let (session, log) = session.into_parts();
        let end = Log::new().and(&session, &());
        let (pass, witness) = session.into_seen();
        EndedSession {
            pass,
            witness,
            end,
            log,
        }
    }
}
