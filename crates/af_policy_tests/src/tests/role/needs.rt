use crate::tests::asserts::row_holds;
use af_names::DagId;
use af_role::{Action, Need, ResourceKind};
use std::alloc::Global;
use std::process::Abort;

/// A requirement, and how it is written alone and about the DAG b.1.
const NEEDS: &[(Need, &str, &str)] = &[
    (
        Need {
            action: Action::Read,
            kind: ResourceKind::Dags,
            at_dag: true,
        },
        "DAGs.can_read",
        "DAG:b.1.can_read",
    ),
    (
        Need {
            action: Action::Read,
            kind: ResourceKind::Dags,
            at_dag: false,
        },
        "DAGs.can_read",
        "DAGs.can_read",
    ),
    (
        Need {
            action: Action::Create,
            kind: ResourceKind::DagRuns,
            at_dag: true,
        },
        "DAG Runs.can_create",
        "DAG Runs.can_create",
    ),
    (
        Need {
            action: Action::Delete,
            kind: ResourceKind::Variables,
            at_dag: false,
        },
        "Variables.can_delete",
        "Variables.can_delete",
    ),
];

/// Whether a requirement is written so, alone and about a DAG.
fn is_written(
    rt: &impl Abort,
    alloc: Global,
    need: Need,
    dag: &DagId,
    wanted: (&str, &str),
) -> bool {
    let alone = need
        .text(alloc, None)
        .expect(rt, "the text of a requirement");
    let about = need
        .text(alloc, Some(dag))
        .expect(rt, "the text about a DAG");
    alone.as_str() == wanted.0 && about.as_str() == wanted.1
}

#[test]
fn requirements_are_written_at_their_dag(rt: HostRuntime) {
    let alloc = rt.alloc();
    let dag = DagId::parse(alloc, "b.1").expect(&rt, "the id of a DAG");
    for (row, (need, alone, about)) in NEEDS.iter().enumerate() {
        let is_written = is_written(&rt, alloc, *need, &dag, (alone, about));
        row_holds(&rt, is_written, "requirements", row);
    }
}
