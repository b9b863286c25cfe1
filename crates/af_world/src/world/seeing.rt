ghost use Rattle.std.specs.Prelude.{◌≡◌, ◌<◌, Some, length};
ghost use Rattle.af_world.specs.Moving.{move_of, tells};
ghost use Rattle.af_world.specs.Worlds.{frees, has_session, is_held, seen_by, sees, sees_entries};

use crate::session::Seen;
use crate::world::World;
use af_ops::Shown;

impl World {
    /// What a session has seen; one that is not there, nothing.
    pub(crate) fn seen_by(&self, session: u32) -> Seen
        ensures { result ≡ seen_by self.now session }
    {
        match self.sessions.as_slice().get(session as usize) {
            None => Seen {
                version: 0,
                entries: 0,
            },
            Some(seen) => *seen,
        }
    }

    /// Whether there is that session.
    pub(crate) fn has_session(&self, session: u32) -> bool
        ensures { result ≡ has_session self.now session }
    {
        (session as usize) < self.sessions.len()
    }

    /// Whether that session holds the plane.
    pub(crate) fn is_held(&self, session: u32) -> bool
        ensures { result ≡ is_held self.now.holder session }
    {
        match self.holder {
            None => false,
            Some(holder) => holder == session,
        }
    }

    /// A version comes in a session's sight.
    pub(crate) fn sees(&mut self, session: u32, version: u32)
        requires { session < length self.old.sessions }
        ensures { self.new ≡ sees self.old session version }
    {
        let seen = self.seen_by(session);
        self.sessions[session as usize] = Seen {
            version: seen.version.max(version),
            entries: seen.entries,
        };
    }

    /// All entries come in a session's sight.
    pub(crate) fn sees_entries(&mut self, session: u32)
        requires { session < length self.old.sessions }
        ensures { self.new ≡ sees_entries self.old session }
    {
        let seen = self.seen_by(session);
        let entries = self.ledger.audit().count();
        self.sessions[session as usize] = Seen {
            version: seen.version,
            entries,
        };
    }

    /// Its own hold ends.
    fn frees(&mut self, session: u32)
        ensures { self.new ≡ frees self.old session }
    {
        if self.is_held(session) {
            self.holder = None;
        }
    }

    /// A session is told this under a version, which it has then seen, and its hold ends.
    pub(crate) fn tell(&mut self, session: u32, version: u32, shown: Shown) -> Shown
        requires { session < length self.old.sessions }
        ensures { move_of (Some result) self.new ≡ tells self.old session version (Some shown) }
    {
        self.sees(session, version);
        self.frees(session);
        shown
    }
}
