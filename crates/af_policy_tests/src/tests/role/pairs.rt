use crate::tests::asserts::{has_memory, row_holds};
use crate::tests::steps::{Pairs, pair_texts};
use crate::tests::telling::Telling;
use af_role::{PairFault, read_pairs};
use std::alloc::Global;
use std::process::Abort;

/// Permissions as they are given, and which set they are, or the fault that is told.
const READ: &[(Pairs, &str)] = &[
    (&[], ""),
    (
        &[
            ("can_edit", "DAG:b"),
            ("can_read", "DAG Runs"),
            ("can_edit", "DAG:b"),
        ],
        "DAG Runs.can_read,DAG:b.can_edit,",
    ),
    (&[("can_create", "DAGs")], "DAGs.can_create,"),
    (
        &[
            ("can_create", "DAG Run:b"),
            ("can_read", "DAG Run:a"),
            ("can_edit", "DAG:b"),
        ],
        "DAG:b.can_edit,DAG Run:a.can_read,DAG Run:b.can_create,",
    ),
    (
        &[("can_read", "Dags"), ("can_fly", "DAGs"), ("read", "DAGs")],
        "no action can_fly",
    ),
    (
        &[("can_create", "DAG:b"), ("can_read", "Dags")],
        "not allowed can_create DAG:b",
    ),
    (
        &[("can_read", "DAGs"), ("can_read", "DAG:")],
        "not allowed can_read DAG:",
    ),
    (
        &[("can_read", "DAG Run:b"), ("can_read", "DAG Runs:b")],
        "not allowed can_read DAG Runs:b",
    ),
    (&[("can_edit", "DAG Run:")], "not allowed can_edit DAG Run:"),
    (&[("", "DAGs")], "no action "),
];

/// Tells a fault of permissions, with the texts that it names.
fn tell_fault(telling: &mut Telling<'_>, fault: &PairFault) {
    match fault {
        PairFault::BadAction(text) => {
            telling.tell("no action ");
            telling.tell(text.as_str());
        }
        PairFault::NotAllowed(text) => {
            telling.tell("not allowed ");
            telling.tell(text.action.as_str());
            telling.tell(" ");
            telling.tell(text.resource.as_str());
        }
        PairFault::OutOfMemory => telling.tell("no memory"),
    }
}

/// Whether these texts, read from a copy of them, are this set, or this fault is told.
fn is_read(rt: &impl Abort, alloc: Global, given: Pairs, wanted: &str) -> bool {
    let texts = pair_texts(rt, alloc, given);
    let copy = texts.copied(alloc).expect(rt, "a copy of permissions");
    drop(texts);
    let read = read_pairs(alloc, copy.as_slice());
    drop(copy);
    let has_room = !matches!(&read, Err(PairFault::OutOfMemory));
    has_memory(rt, has_room, "permissions");
    let mut telling = Telling::of(wanted);
    match &read {
        Ok(permissions) => telling.tell_permissions(rt, alloc, permissions),
        Err(fault) => tell_fault(&mut telling, fault),
    }
    drop(read);
    telling.is_wanted()
}

#[test]
fn texts_are_permissions_or_told(rt: HostRuntime) {
    for (row, (given, wanted)) in READ.iter().enumerate() {
        row_holds(&rt, is_read(&rt, rt.alloc(), *given, wanted), "texts", row);
    }
}
