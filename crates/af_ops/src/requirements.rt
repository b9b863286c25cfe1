// What the table requires of who asks for DAGs, runs and instances, in the order in which it is tested.
use af_role::{Action, Need, ResourceKind};

/// `can_read` on `DAGs`, or on at least one DAG that is there.
pub(crate) static READ_SOME_DAG: [Need; 1] = [Need {
    action: Action::Read,
    kind: ResourceKind::Dags,
    at_dag: false,
}];

/// `can_read` on `DAGs` at the DAG that the path names.
pub(crate) static READ_DAG: [Need; 1] = [Need {
    action: Action::Read,
    kind: ResourceKind::Dags,
    at_dag: true,
}];

/// `can_edit` on `DAGs` at the DAG that the path names.
pub(crate) static EDIT_DAG: [Need; 1] = [Need {
    action: Action::Edit,
    kind: ResourceKind::Dags,
    at_dag: true,
}];

/// `can_edit` on `DAGs` and `can_create` on `DAG Runs`, at the DAG that the path names.
pub(crate) static CREATE_RUN: [Need; 2] = [
    Need {
        action: Action::Edit,
        kind: ResourceKind::Dags,
        at_dag: true,
    },
    Need {
        action: Action::Create,
        kind: ResourceKind::DagRuns,
        at_dag: true,
    },
];

/// `can_edit` on `DAGs` and on `DAG Runs`, at the DAG that the path names.
pub(crate) static EDIT_RUN: [Need; 2] = [
    Need {
        action: Action::Edit,
        kind: ResourceKind::Dags,
        at_dag: true,
    },
    Need {
        action: Action::Edit,
        kind: ResourceKind::DagRuns,
        at_dag: true,
    },
];

/// `can_edit` on `DAGs` and `can_delete` on `DAG Runs`, at the DAG that the path names.
pub(crate) static DELETE_RUN: [Need; 2] = [
    Need {
        action: Action::Edit,
        kind: ResourceKind::Dags,
        at_dag: true,
    },
    Need {
        action: Action::Delete,
        kind: ResourceKind::DagRuns,
        at_dag: true,
    },
];

/// `can_read` on `DAGs` and on `DAG Runs`, at the DAG that the path names.
pub(crate) static READ_RUN: [Need; 2] = [
    Need {
        action: Action::Read,
        kind: ResourceKind::Dags,
        at_dag: true,
    },
    Need {
        action: Action::Read,
        kind: ResourceKind::DagRuns,
        at_dag: true,
    },
];

/// `can_read` on `DAGs` at the DAG that the path names, and on `Task Instances`.
pub(crate) static READ_TASK: [Need; 2] = [
    Need {
        action: Action::Read,
        kind: ResourceKind::Dags,
        at_dag: true,
    },
    Need {
        action: Action::Read,
        kind: ResourceKind::TaskInstances,
        at_dag: false,
    },
];

/// `can_read` on `DAGs` and on `DAG Runs` at the DAG that the path names, and on `Task Instances`.
pub(crate) static READ_INSTANCE: [Need; 3] = [
    Need {
        action: Action::Read,
        kind: ResourceKind::Dags,
        at_dag: true,
    },
    Need {
        action: Action::Read,
        kind: ResourceKind::DagRuns,
        at_dag: true,
    },
    Need {
        action: Action::Read,
        kind: ResourceKind::TaskInstances,
        at_dag: false,
    },
];

/// `can_edit` on `DAGs` and `can_read` on `DAG Runs` at the DAG that the path names, and `can_edit` on `Task Instances`.
pub(crate) static CLEAR_INSTANCE: [Need; 3] = [
    Need {
        action: Action::Edit,
        kind: ResourceKind::Dags,
        at_dag: true,
    },
    Need {
        action: Action::Read,
        kind: ResourceKind::DagRuns,
        at_dag: true,
    },
    Need {
        action: Action::Edit,
        kind: ResourceKind::TaskInstances,
        at_dag: false,
    },
];

/// `can_read` on `DAGs`, or on at least one DAG that is there; and on `DAG Runs`, or on the runs of at least one DAG that is there and is
/// read.
pub(crate) static READ_SOME_RUN: [Need; 2] = [
    Need {
        action: Action::Read,
        kind: ResourceKind::Dags,
        at_dag: false,
    },
    Need {
        action: Action::Read,
        kind: ResourceKind::DagRuns,
        at_dag: false,
    },
];
