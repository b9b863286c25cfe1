ghost use Rattle.std.specs.Prelude.{◌≡◌};
ghost use Rattle.af_policy.specs.Changes.{needs_of};

use af_role::{Action, Need, ResourceKind};

/// The kinds of changes of a policy.
#[derive(Clone, Copy, Debug, PartialEq, Eq)]
pub enum ChangeKind {
    AddRole,
    SetRole,
    DropRole,
    AddUser,
    SetUser,
    DropUser,
    SyncDag,
}

const CREATE_ROLES: [Need; 1] = [Need {
    action: Action::Create,
    kind: ResourceKind::Roles,
    at_dag: false,
}];

const EDIT_ROLES: [Need; 1] = [Need {
    action: Action::Edit,
    kind: ResourceKind::Roles,
    at_dag: false,
}];

const DELETE_ROLES: [Need; 1] = [Need {
    action: Action::Delete,
    kind: ResourceKind::Roles,
    at_dag: false,
}];

const CREATE_USERS: [Need; 1] = [Need {
    action: Action::Create,
    kind: ResourceKind::Users,
    at_dag: false,
}];

const EDIT_USERS: [Need; 1] = [Need {
    action: Action::Edit,
    kind: ResourceKind::Users,
    at_dag: false,
}];

const DELETE_USERS: [Need; 1] = [Need {
    action: Action::Delete,
    kind: ResourceKind::Users,
    at_dag: false,
}];

impl ChangeKind {
    /// What a change of this kind requires of its author.
    pub fn needs(self) -> &'static [Need]
        ensures { result.now ≡ needs_of self }
    {
        match self {
            ChangeKind::AddRole => &CREATE_ROLES,
            ChangeKind::SetRole => &EDIT_ROLES,
            ChangeKind::DropRole => &DELETE_ROLES,
            ChangeKind::AddUser => &CREATE_USERS,
            ChangeKind::SetUser => &EDIT_USERS,
            ChangeKind::DropUser => &DELETE_USERS,
            ChangeKind::SyncDag => &EDIT_ROLES,
        }
    }
}
