ghost use Rattle.std.specs.Prelude.{◌≡◌, IfOk};
ghost use Rattle.af_plane.specs.Solos.{IsSolo};
ghost use Rattle.af_server.specs.Desks.{Decides, IsOpened};

use crate::config::Configuration;
use af_audit::LastToken;
use af_board::OutOfMemory;
use af_http::Service;
use af_names::Instant;
use af_ops::{Call, Served};
use af_plane::{Request, Solo};
use std::alloc::Global;
use std::marker::Model;
use std::sync::Wait;

/// Answers calls at one moment: a server for one thread.
#[derive(Drop)]
pub struct Desk<'a, H: Wait> {
    rt: &'a H,
    alloc: Global,
    solo: Solo,
    now: Instant,
    last_token: LastToken,
}

impl<'a, H: Wait> Model for Desk<'a, H> {
    ghost use Rattle.af_server.specs.Desks.{DeskRows};

    ghost Value = { DeskRows };

    ghost view = { λ desk. record { solo = desk.solo; now = desk.now } };
}

impl<'a, H: Wait> Desk<'a, H> {
    /// The desk under a configuration, at a moment, with room for as many entries and versions as the configuration lets. `OutOfMemory` if
    /// an allocation failed.
    pub fn open(
        rt: &'a H,
        alloc: Global,
        configuration: Configuration,
        now: Instant,
    ) -> Result<Desk<'a, H>, OutOfMemory>
        ensures { IfOk result (λ desk. IsOpened configuration now desk) }
    {
        let Configuration {
            policy,
            state,
            limits,
            ..
        } = configuration;
        let solo = Solo::open(alloc, policy, limits.versions, state, limits.history)?;
        Ok(Desk {
            rt,
            alloc,
            solo,
            now,
            last_token: LastToken::new(),
        })
    }

    /// The conditions that a desk meets at all times.
    pub fn conditions(&self)
        ensures { IsSolo self.entry.now.solo }
    {
        self.solo.conditions();
    }
}

impl<'a, H: Wait> Service for Desk<'a, H> {
    ghost answers = { λ old token call served new. Decides old token call served new };

    fn answer(&mut self, token: Option<&[u8]>, call: &Call) -> Served {
        let presented = self.last_token.present(token);
        let request = Request {
            token: presented.as_ref(),
            call,
            at: self.now,
        };
        self.solo.answer(self.rt, self.alloc, &request)
    }
}
