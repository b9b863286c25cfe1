//! Compiled policies beside the plain walk.
use crate::tests::making::{DAGS, USERS, action, dag_of, kind, made, part, user_of};
use crate::tests::numbers::Numbers;
use crate::tests::plain::{Asked, On, Plain};
use af_mask::{Compiled, Reader, View};
use af_names::{DagId, UserName};
use af_role::{DagPart, Need};
use std::alloc::Global;
use std::process::Abort;

/// How many policies are made.
const POLICIES: usize = 1_000;

/// How often each user is asked about under each policy.
const QUESTIONS: usize = 4;

/// The policy and the user of a row.
#[derive(Clone, Copy)]
struct Place {
    policy: usize,
    user: usize,
}

/// Ends the test where this does not hold of a row.
fn row_holds(rt: &impl Abort, holds: bool, what: &str, at: Place) {
    let policy = at.policy;
    let user = at.user;
    assert!(rt; holds, "{what}: policy {policy}, user {user}");
}

/// The next requirements, one to three.
fn needs(rt: &impl Abort, alloc: Global, numbers: &mut Numbers) -> Vec<Need> {
    let mut needs = Vec::new(alloc);
    for _ in 0..numbers.below(3) + 1 {
        let need = Need {
            action: action(numbers),
            kind: kind(numbers),
            at_dag: numbers.is_even(),
        };
        needs.push(need).expect(rt, "room for a requirement");
    }
    needs
}

/// The next DAGs that are there.
fn dags(rt: &impl Abort, alloc: Global, numbers: &mut Numbers) -> Vec<usize> {
    let mut dags = Vec::new(alloc);
    for dag in 0..DAGS.len() {
        if numbers.below(3) == 0 {
            dags.push(dag).expect(rt, "room for a DAG");
        }
    }
    dags
}

/// The ids of DAGs.
fn ids(rt: &impl Abort, alloc: Global, dags: &[usize]) -> Vec<DagId> {
    let mut ids = Vec::new(alloc);
    for dag in dags {
        ids.push(dag_of(rt, alloc, *dag))
            .expect(rt, "room for a DAG");
    }
    ids
}

/// What the compiled policy says is missing.
fn missing(
    rt: &impl Abort,
    alloc: Global,
    compiled: &Compiled,
    user: &UserName,
    asked: Asked<'_>,
) -> Option<Need> {
    let ids = ids(rt, alloc, asked.dags);
    match asked.dag {
        Some(dag) => {
            let dag = dag_of(rt, alloc, dag);
            compiled.missing(user, asked.needs, Some(&dag), ids.as_slice())
        }
        None => compiled.missing(user, asked.needs, None, ids.as_slice()),
    }
}

/// Whether the compiled policy says of the next question what the plain walk does.
fn is_same(
    rt: &impl Abort,
    alloc: Global,
    numbers: &mut Numbers,
    compiled: &Compiled,
    plain: &Plain,
    at: Place,
) -> bool {
    let user = user_of(rt, alloc, at.user);
    let needs = needs(rt, alloc, numbers);
    let dags = dags(rt, alloc, numbers);
    let dag = numbers.below(12);
    let asked = Asked {
        needs: needs.as_slice(),
        dag: if dag < 6 { Some(dag) } else { None },
        dags: dags.as_slice(),
    };
    missing(rt, alloc, compiled, &user, asked) == plain.missing(at.user, asked)
}

/// Whether the view of a user reads each DAG, and its runs, where the plain walk does.
fn reads_same(rt: &impl Abort, alloc: Global, view: &View<'_>, plain: &Plain, user: usize) -> bool {
    for dag in 0..DAGS.len() {
        let id = dag_of(rt, alloc, dag);
        if view.readable(&id) != plain.reads(user, DagPart::Itself, dag)
            || view.runs_readable(&id) != plain.reads(user, DagPart::Runs, dag)
        {
            return false;
        }
    }
    true
}

/// Whether the view of a user has the next action on each DAG, or on its runs, where the plain walk finds it.
fn holds_same(
    rt: &impl Abort,
    alloc: Global,
    numbers: &mut Numbers,
    view: &View<'_>,
    plain: &Plain,
    user: usize,
) -> bool {
    for dag in 0..DAGS.len() {
        let id = dag_of(rt, alloc, dag);
        let action = action(numbers);
        let part = part(numbers);
        if view.holds_on(part, action, &id) != plain.grants(user, action, On::Dag(part, dag)) {
            return false;
        }
    }
    true
}

/// Compares what the user of a row is granted.
fn compare(
    rt: &impl Abort,
    alloc: Global,
    numbers: &mut Numbers,
    compiled: &Compiled,
    plain: &Plain,
    at: Place,
) {
    for _ in 0..QUESTIONS {
        let is_same = is_same(rt, alloc, numbers, compiled, plain, at);
        row_holds(rt, is_same, "what is missing", at);
    }
    let user = user_of(rt, alloc, at.user);
    let view = compiled.view(&user);
    let reads_same = reads_same(rt, alloc, &view, plain, at.user);
    row_holds(rt, reads_same, "what is read", at);
    let holds_same = holds_same(rt, alloc, numbers, &view, plain, at.user);
    row_holds(rt, holds_same, "what is held", at);
}

#[test]
fn a_compiled_policy_grants_what_a_plain_walk_finds(rt: HostRuntime) {
    let alloc = rt.alloc();
    let mut numbers = Numbers::new();
    for number in 0..POLICIES {
        let (policy, plain) = made(&rt, alloc, &mut numbers);
        let compiled = Compiled::of(&policy).expect(&rt, "room for a policy");
        for user in 0..USERS.len() {
            let at = Place {
                policy: number,
                user,
            };
            compare(&rt, alloc, &mut numbers, &compiled, &plain, at);
        }
    }
}
