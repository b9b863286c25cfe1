ghost use Rattle.std.specs.Prelude.{◌≡◌, None};
ghost use Rattle.af_world.specs.Moving.{looking, move_of};

use crate::world::World;

impl World {
    /// A session looks at the latest version, and holds the plane.
    pub(crate) fn look(&mut self, session: u32)
        ensures { move_of None self.new ≡ looking self.old session }
    {
        if self.has_session(session) {
            let last = self.versions.current();
            self.sees(session, last);
            self.ledger.look(last);
            self.holder = Some(session);
        }
    }
}
