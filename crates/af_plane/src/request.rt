ghost use Rattle.std.specs.Prelude.{◌≡◌};
ghost use Rattle.af_plane.specs.Requests.{only_reads};

use af_names::Instant;
use af_ops::{Call, route_of};
use af_policy::Presented;
use std::marker::Model;

/// What is asked: a call, the token that came with it, and the time at which it is decided.
#[derive(Drop)]
pub struct Request<'a> {
    pub token: Option<&'a Presented<'a>>,
    pub call: &'a Call,
    pub at: Instant,
}

impl<'a> Model for Request<'a> {
    ghost use Rattle.std.specs.Option.{option_copied};
    ghost use Rattle.af_plane.specs.Requests.{RequestRows};

    ghost Value = { RequestRows };

    ghost view = { λ request. record { token = option_copied request.token; call = request.call.now; at = request.at } };
}

impl<'a> Request<'a> {
    /// Whether the call only reads: it is a GET on the state that is decided under a version, or a request for event logs. An open operation
    /// is decided under none. Other calls may change nothing too, as a dry run does.
    pub fn only_reads(&self) -> bool
        ensures { result ≡ only_reads self.now.call }
    {
        match self.call {
            Call::State(op) => op.is_read() && !route_of(op.endpoint()).is_open,
            Call::Entries(_) => true,
            Call::Policy(_) => false,
        }
    }
}
