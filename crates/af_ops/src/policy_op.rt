ghost use Rattle.std.specs.Prelude.{◌≡◌};
ghost use Rattle.af_ops.specs.PolicyOps.{change_endpoint, endpoint_of, read_endpoint};

use crate::endpoint::Endpoint;
use af_policy::{Ask, ChangeKind, PolicyRead, ReadKind};

/// An operation on the policy.
#[derive(Drop)]
pub enum PolicyOp {
    /// Who brings the token, and what that user may do.
    Me,
    /// Roles or users are read.
    Read(PolicyRead),
    /// A change that is asked for, or what is wrong with its body.
    Change(Ask),
    /// A change of a kind, whose body was not read for lack of memory.
    Unread(ChangeKind),
}

impl PolicyOp {
    /// Its endpoint.
    pub fn endpoint(&self) -> Endpoint
        ensures { result ≡ endpoint_of self.now }
    {
        match self {
            PolicyOp::Me => Endpoint::GetMe,
            PolicyOp::Read(read) => read_endpoint(read.kind()),
            PolicyOp::Change(ask) => change_endpoint(ask.kind()),
            PolicyOp::Unread(kind) => change_endpoint(*kind),
        }
    }
}

/// The endpoint of a reading.
fn read_endpoint(kind: ReadKind) -> Endpoint
    ensures { result ≡ read_endpoint kind }
{
    match kind {
        ReadKind::Roles => Endpoint::ListRoles,
        ReadKind::Role => Endpoint::GetRole,
        ReadKind::Users => Endpoint::ListUsers,
        ReadKind::User => Endpoint::GetUser,
    }
}

/// The endpoint of a change.
fn change_endpoint(kind: ChangeKind) -> Endpoint
    ensures { result ≡ change_endpoint kind }
{
    match kind {
        ChangeKind::AddRole => Endpoint::AddRole,
        ChangeKind::SetRole => Endpoint::ChangeRole,
        ChangeKind::DropRole => Endpoint::DeleteRole,
        ChangeKind::AddUser => Endpoint::AddUser,
        ChangeKind::SetUser => Endpoint::ChangeUser,
        ChangeKind::DropUser => Endpoint::DeleteUser,
        ChangeKind::SyncDag => Endpoint::SyncDag,
    }
}
