ghost use Rattle.std.specs.Prelude.{◌≡◌};
ghost use Rattle.af_ops.specs.Calls.{endpoint_of};

use crate::endpoint::Endpoint;
use crate::op::Op;
use crate::policy_op::PolicyOp;
use af_listing::Window;
use af_policy::Parameter;

/// What a request asks for, by where it is decided.
#[derive(Drop)]
pub enum Call {
    /// An operation on the state.
    State(Op),
    /// A page of the event logs, which is decided on the audit.
    Entries(Result<Window, Parameter>),
    /// An operation on the policy, or a reading of it, which is decided on its versions.
    Policy(PolicyOp),
}

impl Call {
    /// Its endpoint.
    pub fn endpoint(&self) -> Endpoint
        ensures { result ≡ endpoint_of self.now }
    {
        match self {
            Call::State(op) => op.endpoint(),
            Call::Entries(_) => Endpoint::ListEntries,
            Call::Policy(op) => op.endpoint(),
        }
    }
}
