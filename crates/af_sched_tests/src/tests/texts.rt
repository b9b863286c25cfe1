use crate::tests::asserts::holds;
use af_sched::{AddDagFault, Outcome, ReportFault};
use std::alloc::Global;
use std::fmt::Display;
use std::process::Abort;

const OUTCOMES: &[(&str, Option<Outcome>)] = &[
    ("success", Some(Outcome::Success)),
    ("failed", Some(Outcome::Failed)),
    ("skipped", Some(Outcome::Skipped)),
    ("Success", None),
    ("", None),
];

const ADDED: &[(AddDagFault, &str)] = &[
    (
        AddDagFault::NoActiveRuns,
        "none of the DAG's runs may be running",
    ),
    (AddDagFault::NoStep, "the schedule is of 0 seconds"),
    (AddDagFault::NoSuchPool, "a task's pool is not there"),
    (AddDagFault::Exists, "a DAG has the id"),
    (AddDagFault::Full, "there are 1,024 DAGs"),
    (AddDagFault::OutOfMemory, "out of memory"),
];

const REPORTED: &[(ReportFault, &str)] = &[
    (ReportFault::NoSuchInstance, "no such instance"),
    (ReportFault::NotRunning, "the instance is not running"),
    (ReportFault::WrongTry, "the instance runs another try"),
];

/// Whether the text of an outcome is this one.
fn has_text(outcome: Option<Outcome>, text: &str) -> bool {
    match outcome {
        Some(outcome) => outcome.as_str() == text,
        None => true,
    }
}

#[test]
fn outcomes_are_read_by_their_texts(rt: HostRuntime) {
    for (text, wanted) in OUTCOMES {
        let outcome = Outcome::read(text);
        holds(&rt, outcome == *wanted, text);
        holds(&rt, has_text(outcome, text), text);
    }
}

/// Ends the test where one of these faults is not told so.
pub fn are_told<T: Display>(rt: &impl Abort, alloc: Global, rows: &[(T, &str)]) {
    for (fault, text) in rows {
        let is_told = is_told(rt, alloc, fault, text);
        holds(rt, is_told, text);
    }
}

/// Whether a fault is told so.
fn is_told<T: Display>(rt: &impl Abort, alloc: Global, fault: &T, text: &str) -> bool {
    let told = format!(in alloc; "{fault}").expect(rt, "the words of a fault");
    let is_told = told.as_str() == text;
    drop(told);
    is_told
}

#[test]
fn faults_of_adding_a_dag_have_texts(rt: HostRuntime) {
    are_told(&rt, rt.alloc(), ADDED);
}

#[test]
fn faults_of_a_report_have_texts(rt: HostRuntime) {
    are_told(&rt, rt.alloc(), REPORTED);
}
