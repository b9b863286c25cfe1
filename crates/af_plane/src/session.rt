ghost use Rattle.std.specs.Prelude.{◌≡◌, ◌+◌, ◌<◌, length, IfErr, IfOk};
ghost use Rattle.af_plane.specs.declared.grounds.Grounds.TheVariants.{Under};
ghost use Rattle.af_board.specs.Marks.{HasSeen, IsLast, IsOf};
ghost use Rattle.af_plane.specs.Looks.{HasSame, IsOn, held};
ghost use Rattle.af_word.specs.Calls.{Looked};
ghost use Rattle.af_word.specs.Places.{Within};

use crate::grounds::Grounds;
use af_audit::Entry;
use af_board::{Board, Mark, NotFound};
use af_tally::Witness;
use af_word::Pass;
use std::marker::Model;

mod administering;
mod changing;

/// What one user of the plane has seen of the board, and the marks of the versions on which the last answer rests.
pub struct Session {
    pub(crate) pass: Pass,
    pub(crate) witness: Witness<Entry>,
    pub(crate) grounds: Grounds,
}

impl Drop for Session {
    fn drop(self) {
        let Session {
            pass: _,
            witness: _,
            grounds: _,
        } = self;
    }
}

impl Model for Session {
    ghost use Rattle.af_plane.specs.Visits.{Visit};

    ghost Value = { Visit };

    ghost view = { λ session. record { pass = session.pass; entries = session.witness; grounds = session.grounds } };
}

impl Session {
    /// A session that has seen what this pass and this witness have, and holds this mark. There was no answer yet.
    pub fn open(pass: Pass, witness: Witness<Entry>, mark: Mark) -> Session
        ensures { result ≡ record { pass = pass; entries = witness; grounds = Under mark } }
    {
        Session {
            pass,
            witness,
            grounds: Grounds::Under(mark),
        }
    }

    /// What it has seen of the board, and of the entries.
    pub(crate) fn into_seen(self) -> (Pass, Witness<Entry>)
        ensures { result ≡ (self.pass, self.entries) }
    {
        let Session {
            pass,
            witness,
            grounds: _,
        } = self;
        (pass, witness)
    }

    /// What it holds of its last answer that was decided under a version.
    pub fn grounds(&self) -> &Grounds
        ensures { result.now ≡ self.now.grounds }
    {
        &self.grounds
    }

    /// The last version of which it holds the mark.
    pub fn mark(&self) -> &Mark
        ensures { result.now ≡ held self.now.grounds }
    {
        match &self.grounds {
            Grounds::Under(mark) | Grounds::Overtaken(mark) => mark,
            Grounds::Made(receipt) => receipt.mark(),
            Grounds::Spent(mark, _) => mark,
        }
    }

    /// What holds at all times: it has seen version 0, and none past the last possible one.
    pub fn conditions(&self)
        ensures { Within self.now.pass.word.first self.now.pass.word.last self.now.pass.places }
    {
        let _seen = self.pass.seen();
    }

    /// The last version that it has seen, and how many entries it has seen.
    pub fn seen(&self) -> (u32, u32)
        ensures version { length self.now.pass.places ≡ result.0 + 1 }
        ensures entries { length self.now.entries.entries ≡ result.1 }
    {
        (self.pass.seen().version, self.witness.count())
    }

    /// Looks at the last version of the board that the session is on, and gives its mark. `NotFound` if the policy of that version is not to
    /// be had.
    pub(crate) fn look(&mut self, board: &Board) -> Result<Mark, NotFound>
        requires { IsOn board.now self.old }
        ensures on { IsOn board.now self.new }
        ensures looked { Looked self.old.pass self.new.pass }
        ensures entries { self.new.entries ≡ self.old.entries }
        ensures grounds { self.new.grounds ≡ self.old.grounds }
        ensures last { IfOk result (λ m. IsLast board.now self.new.pass m) }
        ensures same { IfOk result (λ m. HasSame board.now self.old.grounds m) }
        ensures not_found { IfErr result (λ _. 1 < length self.new.pass.places) }
    {
        let mark = board.current(&mut self.pass)?;
        self.compare(board, &mark);
        Ok(mark)
    }

    /// A law: where a mark that the session has seen names the version of which it holds the mark, both have one policy.
    pub(crate) fn compare(&self, board: &Board, mark: &Mark)
        requires on { IsOn board.now self.now }
        requires mark { IsOf board.now mark.now }
        requires seen { HasSeen self.now.pass mark.now }
        ensures { HasSame board.now self.now.grounds mark.now }
    {
        let held = self.mark();
        if mark.version() == held.version() {
            board.same_version(&self.pass, mark, held);
        }
    }
}
