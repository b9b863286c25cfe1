//! Texts and moments from outside: Airflow's ids, RFC 3339 and RFC 9557 texts as jiff reads them, and the calendar.
mod instants;
mod presets;

use crate::tests::asserts::{holds, row_holds};
use af_names::{
    DagId, DagKind, Name, NameError, NameKind, PoolKind, RoleKind, RunKind, TaskKind, UserKind,
    VarKind,
};
use std::alloc::Global;
use std::test::Fail;

/// The fault that a text meets as a name of a kind, or none where it is one and is kept as it was.
fn fault_of<K: NameKind>(alloc: Global, text: &str) -> Result<Option<NameError>, Fail> {
    match Name::<K>::parse(alloc, text) {
        Ok(name) => kept(alloc, &name, text),
        Err(NameError::OutOfMemory) => Err(Fail::from(NameError::OutOfMemory)),
        Err(fault) => Ok(Some(fault)),
    }
}

/// No fault, where a name and its copy are this text.
fn kept<K: NameKind>(alloc: Global, name: &Name<K>, text: &str) -> Result<Option<NameError>, Fail> {
    let copy = name.copied(alloc)?;
    if name.as_str() == text && copy == *name {
        Ok(None)
    } else {
        Err(Fail::new(format_args!("{text} is kept as {name}")))
    }
}

/// What a text is read as: the id of a DAG, of a task, of a run, the name of a user, of a role, of a pool, or a key.
#[derive(Clone, Copy)]
enum Kind {
    Dag,
    Task,
    Run,
    User,
    Role,
    Pool,
    Var,
}

const KINDS: &[Kind] = &[
    Kind::Dag,
    Kind::Task,
    Kind::Run,
    Kind::User,
    Kind::Role,
    Kind::Pool,
    Kind::Var,
];

/// What a text meets, read as a kind.
fn fault_as(alloc: Global, kind: Kind, text: &str) -> Result<Option<NameError>, Fail> {
    match kind {
        Kind::Dag => fault_of::<DagKind>(alloc, text),
        Kind::Task => fault_of::<TaskKind>(alloc, text),
        Kind::Run => fault_of::<RunKind>(alloc, text),
        Kind::User => fault_of::<UserKind>(alloc, text),
        Kind::Role => fault_of::<RoleKind>(alloc, text),
        Kind::Pool => fault_of::<PoolKind>(alloc, text),
        Kind::Var => fault_of::<VarKind>(alloc, text),
    }
}

/// Whether a text meets these faults as the kinds, in their order.
fn meets(alloc: Global, text: &str, wanted: [Option<NameError>; 7]) -> Result<bool, Fail> {
    for (kind, fault) in KINDS.iter().zip(&wanted) {
        if fault_as(alloc, *kind, text)? != *fault {
            return Ok(false);
        }
    }
    Ok(true)
}

const BAD: Option<NameError> = Some(NameError::BadName);

const LONG: Option<NameError> = Some(NameError::TooLong);

/// A text, and what it meets as the id of a DAG or of a task, as the id of a run, and as another name.
type Bytes = (
    &'static str,
    Option<NameError>,
    Option<NameError>,
    Option<NameError>,
);

const BYTES: &[Bytes] = &[
    ("", BAD, BAD, BAD),
    ("example_dag.v1-B", None, None, None),
    ("09AZaz_-.", None, None, None),
    ("manual__2024-01-01T00:00:00+00:00", BAD, None, None),
    ("~", BAD, BAD, None),
    ("~~", BAD, None, None),
    ("a b", BAD, BAD, None),
    (" ", BAD, BAD, None),
    ("a/b", BAD, BAD, None),
    ("a;b", BAD, BAD, None),
    ("a@b", BAD, BAD, None),
    ("a[b", BAD, BAD, None),
    ("a`b", BAD, BAD, None),
    ("a{b", BAD, BAD, None),
    ("a,b", BAD, BAD, None),
    ("a\u{1f}b", BAD, BAD, BAD),
    ("a\u{7f}b", BAD, BAD, BAD),
    ("a\u{e9}b", BAD, BAD, BAD),
];

#[test]
fn bytes_of_each_kind(rt: HostRuntime) -> Result<(), Fail> {
    for (text, id, run, name) in BYTES {
        let wanted = [*id, *id, *run, *name, *name, *name, *name];
        let meets = meets(rt.alloc(), text, wanted)?;
        holds(&rt, meets, text);
    }
    Ok(())
}

/// So many bytes, and what they meet as the name of a user or a role, and as another.
const LENGTHS: &[(usize, Option<NameError>, Option<NameError>)] = &[
    (64, None, None),
    (65, LONG, None),
    (250, LONG, None),
    (251, LONG, LONG),
];

/// Whether so many letters meet this as the name of a user or a role, and as another.
fn meets_at(
    alloc: Global,
    length: usize,
    account: Option<NameError>,
    row: Option<NameError>,
) -> Result<bool, Fail> {
    let text = "x".repeat(alloc, length)?;
    meets(alloc, &text, [row, row, row, account, account, row, row])
}

/// What too many spaces meet as the id of a DAG.
fn fault_of_spaces(alloc: Global) -> Result<Option<NameError>, Fail> {
    let spaces = " ".repeat(alloc, 251)?;
    fault_of::<DagKind>(alloc, &spaces)
}

#[test]
fn length_of_each_kind(rt: HostRuntime) -> Result<(), Fail> {
    for (length, account, row) in LENGTHS {
        let meets = meets_at(rt.alloc(), *length, *account, *row)?;
        row_holds(&rt, meets, *length);
    }
    let fault = fault_of_spaces(rt.alloc())?;
    holds(&rt, fault == BAD, "both faults");
    Ok(())
}

const IN_ORDER: &[&str] = &[
    "-", ".", "0", "10", "9", "A", "Z", "_", "a", "a-", "aa", "b",
];

/// Whether a name stands before another as its place does, and is equal to it where its place is.
fn compares(alloc: Global, low: (usize, &str), high: (usize, &str)) -> Result<bool, Fail> {
    let one = DagId::parse(alloc, low.1)?;
    let other = DagId::parse(alloc, high.1)?;
    Ok(one.cmp(&other) == low.0.cmp(&high.0) && (one == other) == (low.0 == high.0))
}

/// Whether a name compares with each as their places do.
fn is_in_order(alloc: Global, low: (usize, &str)) -> Result<bool, Fail> {
    for (place, text) in IN_ORDER.iter().enumerate() {
        if !compares(alloc, low, (place, text))? {
            return Ok(false);
        }
    }
    Ok(true)
}

/// How two names are shown.
fn shown(alloc: Global) -> Result<String, Fail> {
    let a = DagId::parse(alloc, "a")?;
    let b = DagId::parse(alloc, "b")?;
    Ok(format!(in alloc; "{a} {b:?}")?)
}

#[test]
fn names_in_order(rt: HostRuntime) -> Result<(), Fail> {
    for (place, text) in IN_ORDER.iter().enumerate() {
        let is_in_order = is_in_order(rt.alloc(), (place, text))?;
        holds(&rt, is_in_order, text);
    }
    let shown = shown(rt.alloc())?;
    holds(&rt, shown.as_str() == "a \"b\"", "how names are shown");
    Ok(())
}
