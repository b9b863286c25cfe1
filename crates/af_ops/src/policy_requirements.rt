// What the table requires of who asks for event logs, roles and users.
use af_role::{Action, Need, ResourceKind};

/// `can_read` on `Audit Logs`.
pub(crate) static READ_ENTRY: [Need; 1] = [Need {
    action: Action::Read,
    kind: ResourceKind::AuditLogs,
    at_dag: false,
}];

/// `can_read` on `Roles`.
pub(crate) static READ_ROLE: [Need; 1] = [Need {
    action: Action::Read,
    kind: ResourceKind::Roles,
    at_dag: false,
}];

/// `can_create` on `Roles`.
pub(crate) static CREATE_ROLE: [Need; 1] = [Need {
    action: Action::Create,
    kind: ResourceKind::Roles,
    at_dag: false,
}];

/// `can_edit` on `Roles`.
pub(crate) static EDIT_ROLE: [Need; 1] = [Need {
    action: Action::Edit,
    kind: ResourceKind::Roles,
    at_dag: false,
}];

/// `can_delete` on `Roles`.
pub(crate) static DELETE_ROLE: [Need; 1] = [Need {
    action: Action::Delete,
    kind: ResourceKind::Roles,
    at_dag: false,
}];

/// `can_read` on `Users`.
pub(crate) static READ_USER: [Need; 1] = [Need {
    action: Action::Read,
    kind: ResourceKind::Users,
    at_dag: false,
}];

/// `can_create` on `Users`.
pub(crate) static CREATE_USER: [Need; 1] = [Need {
    action: Action::Create,
    kind: ResourceKind::Users,
    at_dag: false,
}];

/// `can_edit` on `Users`.
pub(crate) static EDIT_USER: [Need; 1] = [Need {
    action: Action::Edit,
    kind: ResourceKind::Users,
    at_dag: false,
}];

/// `can_delete` on `Users`.
pub(crate) static DELETE_USER: [Need; 1] = [Need {
    action: Action::Delete,
    kind: ResourceKind::Users,
    at_dag: false,
}];
