ghost use Rattle.std.specs.Prelude.{◌≡◌};
ghost use Rattle.af_policy.specs.Reads.{reading_needs};

use af_role::{Action, Need, ResourceKind};

/// What is read of a policy.
#[derive(Clone, Copy, Debug, PartialEq, Eq)]
pub enum ReadKind {
    /// A listing of roles.
    Roles,
    /// One role.
    Role,
    /// A listing of users.
    Users,
    /// One user.
    User,
}

const READ_ROLES: [Need; 1] = [Need {
    action: Action::Read,
    kind: ResourceKind::Roles,
    at_dag: false,
}];

const READ_USERS: [Need; 1] = [Need {
    action: Action::Read,
    kind: ResourceKind::Users,
    at_dag: false,
}];

impl ReadKind {
    /// What reading this requires.
    pub fn needs(self) -> &'static [Need]
        ensures { result.now ≡ reading_needs self }
    {
        match self {
            ReadKind::Roles => &READ_ROLES,
            ReadKind::Role => &READ_ROLES,
            ReadKind::Users => &READ_USERS,
            ReadKind::User => &READ_USERS,
        }
    }
}
