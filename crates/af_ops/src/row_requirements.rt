// What the table requires of who asks for pools and variables.
use af_role::{Action, Need, ResourceKind};

/// `can_read` on `Pools`.
pub(crate) static READ_POOL: [Need; 1] = [Need {
    action: Action::Read,
    kind: ResourceKind::Pools,
    at_dag: false,
}];

/// `can_create` on `Pools`.
pub(crate) static CREATE_POOL: [Need; 1] = [Need {
    action: Action::Create,
    kind: ResourceKind::Pools,
    at_dag: false,
}];

/// `can_edit` on `Pools`.
pub(crate) static EDIT_POOL: [Need; 1] = [Need {
    action: Action::Edit,
    kind: ResourceKind::Pools,
    at_dag: false,
}];

/// `can_delete` on `Pools`.
pub(crate) static DELETE_POOL: [Need; 1] = [Need {
    action: Action::Delete,
    kind: ResourceKind::Pools,
    at_dag: false,
}];

/// `can_read` on `Variables`.
pub(crate) static READ_VARIABLE: [Need; 1] = [Need {
    action: Action::Read,
    kind: ResourceKind::Variables,
    at_dag: false,
}];

/// `can_create` on `Variables`.
pub(crate) static CREATE_VARIABLE: [Need; 1] = [Need {
    action: Action::Create,
    kind: ResourceKind::Variables,
    at_dag: false,
}];

/// `can_edit` on `Variables`.
pub(crate) static EDIT_VARIABLE: [Need; 1] = [Need {
    action: Action::Edit,
    kind: ResourceKind::Variables,
    at_dag: false,
}];

/// `can_delete` on `Variables`.
pub(crate) static DELETE_VARIABLE: [Need; 1] = [Need {
    action: Action::Delete,
    kind: ResourceKind::Variables,
    at_dag: false,
}];
