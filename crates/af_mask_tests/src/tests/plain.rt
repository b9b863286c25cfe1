//! A policy in plain rows, and the plain walk over them.
use af_role::{Action, DagPart, Need, ResourceKind};
use std::alloc::Global;
use std::process::Abort;

/// What a permission is about: a kind, or the DAG of a number, or the runs of that DAG.
#[derive(Clone, Copy)]
pub enum On {
    Kind(ResourceKind),
    Dag(DagPart, usize),
}

/// A permission that the role of a number was given.
#[derive(Clone, Copy)]
pub struct Listed {
    pub role: usize,
    pub action: Action,
    pub on: On,
}

/// A role that the user of a number has.
#[derive(Clone, Copy)]
pub struct Had {
    pub user: usize,
    pub role: usize,
}

/// The permissions that roles were given, one after another, and the roles that users have.
#[derive(Drop)]
pub struct Plain {
    listed: Vec<Listed>,
    had: Vec<Had>,
}

/// What is asked for: requirements, the DAG of the request, if there is one, and the DAGs that are there.
#[derive(Clone, Copy)]
pub struct Asked<'a> {
    pub needs: &'a [Need],
    pub dag: Option<usize>,
    pub dags: &'a [usize],
}

fn is_same(one: On, other: On) -> bool {
    match (one, other) {
        (On::Kind(one), On::Kind(other)) => one == other,
        (On::Dag(part, one), On::Dag(its, other)) => part == its && one == other,
        _ => false,
    }
}

/// Whether it is the DAG of a number, or its runs.
fn is_on(on: On, dag: usize) -> bool {
    is_same(on, On::Dag(DagPart::Itself, dag)) || is_same(on, On::Dag(DagPart::Runs, dag))
}

/// The kind that all DAGs are, or the runs of all DAGs.
fn all_of(part: DagPart) -> ResourceKind {
    match part {
        DagPart::Itself => ResourceKind::Dags,
        DagPart::Runs => ResourceKind::DagRuns,
    }
}

impl Plain {
    /// No row.
    pub fn new(alloc: Global) -> Plain {
        Plain {
            listed: Vec::new(alloc),
            had: Vec::new(alloc),
        }
    }

    /// Adds a permission of a role.
    pub fn list(&mut self, rt: &impl Abort, listed: Listed) {
        self.listed.push(listed).expect(rt, "room for a permission");
    }

    /// Adds a role of a user.
    pub fn have(&mut self, rt: &impl Abort, had: Had) {
        self.had.push(had).expect(rt, "room for a role");
    }

    /// Takes out what is listed on one DAG alone, or on its runs.
    pub fn take_dag(&mut self, dag: usize) {
        self.listed.retain(|listed| !is_on(listed.on, dag));
    }

    fn lists(&self, role: usize, action: Action, on: On) -> bool {
        for listed in &self.listed {
            if listed.role == role && listed.action == action && is_same(listed.on, on) {
                return true;
            }
        }
        false
    }

    /// Whether some role of the user lists an action.
    pub fn grants(&self, user: usize, action: Action, on: On) -> bool {
        for had in &self.had {
            if had.user == user && self.lists(had.role, action, on) {
                return true;
            }
        }
        false
    }

    /// Whether the user reads a DAG, or its runs, by a permission on it or on all.
    pub fn reads(&self, user: usize, part: DagPart, dag: usize) -> bool {
        self.grants(user, Action::Read, On::Kind(all_of(part)))
            || self.grants(user, Action::Read, On::Dag(part, dag))
    }

    /// Whether the user has an action on one of these DAGs, or on the runs of one that the user reads.
    fn grants_some(&self, user: usize, part: DagPart, action: Action, dags: &[usize]) -> bool {
        for dag in dags {
            let counts = part == DagPart::Itself || self.reads(user, DagPart::Itself, *dag);
            if counts && self.grants(user, action, On::Dag(part, *dag)) {
                return true;
            }
        }
        false
    }

    /// Whether a requirement is met: by its own permission; one on `DAGs` at the DAG of the request also by a permission on that
    /// DAG, and one on all DAGs also by a permission on one of those that are there; and so one on `DAG Runs` by the runs of that
    /// DAG, or of one that is there and is read.
    fn meets(&self, user: usize, need: Need, asked: Asked<'_>) -> bool {
        if self.grants(user, need.action, On::Kind(need.kind)) {
            return true;
        }
        match need.kind {
            ResourceKind::Dags => self.meets_on(user, DagPart::Itself, need, asked),
            ResourceKind::DagRuns => self.meets_on(user, DagPart::Runs, need, asked),
            _ => false,
        }
    }

    fn meets_on(&self, user: usize, part: DagPart, need: Need, asked: Asked<'_>) -> bool {
        if !need.at_dag {
            return self.grants_some(user, part, need.action, asked.dags);
        }
        match asked.dag {
            Some(dag) => self.grants(user, need.action, On::Dag(part, dag)),
            None => false,
        }
    }

    /// The first requirement that is not met.
    pub fn missing(&self, user: usize, asked: Asked<'_>) -> Option<Need> {
        for need in asked.needs {
            if !self.meets(user, *need, asked) {
                return Some(*need);
            }
        }
        None
    }
}
