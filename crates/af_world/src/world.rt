ghost use Rattle.std.specs.Prelude.{◌≡◌, IfOk};
ghost use Rattle.af_audit.specs.Acts.{IsState};
ghost use Rattle.af_audit.specs.Ledgers.{IsLedger};
ghost use Rattle.af_world.specs.Moving.{move_of};
ghost use Rattle.af_world.specs.Steps.{Moves};
ghost use Rattle.af_world.specs.Worlds.{opening_world};

use crate::opening::Opening;
use crate::session::Seen;
use crate::step::Step;
use crate::token::bytes_of;
use crate::versions::Versions;
use af_audit::Ledger;
use af_ops::Shown;
use std::alloc::{AllocError, Global};
use std::marker::Model;

mod acting;
mod claiming;
mod looking;
mod publishing;
mod reporting;
mod seeing;
mod ticking;

/// A world: each version of the policy; the state with the entries that made it of the opening one; which session holds the plane; and
/// what each session has seen. It takes one step after the other.
pub struct World {
    versions: Versions,
    ledger: Ledger,
    holder: Option<u32>,
    sessions: Vec<Seen>,
}

impl Drop for World {
    fn drop(self) {
        let World {
            versions: _,
            ledger: _,
            holder: _,
            sessions: _,
        } = self;
    }
}

impl Model for World {
    ghost use Rattle.std.specs.Prelude.{◌≤◌, length};
    ghost use Rattle.af_world.specs.Worlds as worlds;

    ghost Value = { worlds.World };

    ghost view = { λ w. record {
      versions = w.versions;
      ledger = w.ledger;
      holder = w.holder;
      sessions = w.sessions.items;
    } };

    ghost invariant = { λ w. w.ledger.version ≤ length w.versions.earlier };
}

impl World {
    /// The world before any step. Policy and state are copied. `AllocError` only where a growth was refused.
    pub fn open(alloc: Global, opening: &Opening) -> Result<World, AllocError>
        ensures { IfOk result (λ w. w ≡ opening_world opening.now) }
    {
        let versions = opening.versions(alloc)?;
        let ledger = opening.ledger(alloc)?;
        let sessions = opening.nothing_seen(alloc)?;
        Ok(World {
            versions,
            ledger,
            holder: None,
            sessions,
        })
    }

    /// Takes one step, and gives its answer, if it has one. `AllocError` only where a growth was refused; the world is then of no more
    /// use.
    pub fn take(&mut self, alloc: Global, step: &Step) -> Result<Option<Shown>, AllocError>
        ensures { IfOk result (λ answer. Moves self.old step.now (move_of answer self.new)) }
    {
        match step {
            Step::Look(session) => {
                self.look(*session);
                Ok(None)
            }
            Step::Act(session, token, call, now) => {
                self.act(alloc, *session, bytes_of(token), call, *now)
            }
            Step::Me(session, token, asked) => self.me(alloc, *session, bytes_of(token), asked),
            Step::Publish(session, at, token, asked) => {
                self.publish(alloc, *session, *at, bytes_of(token), asked)
            }
            Step::Tick(now) => self.tick(alloc, *now),
            Step::Claim(now) => self.claim(alloc, *now),
            Step::Report(it, now) => self.report(alloc, it, *now),
        }
    }

    /// What holds at all times: the rows of the state are as they are at all times; and the state is the replay of the entries, whose
    /// versions never fall.
    pub fn conditions(&self)
        ensures state { IsState self.now.ledger.state }
        ensures ledger { IsLedger self.now.ledger }
    {
        let _dags = self.ledger.state().dags();
        let _runs = self.ledger.state().runs();
        self.ledger.conditions();
    }
}
