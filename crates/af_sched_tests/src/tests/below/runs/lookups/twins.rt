use super::super::making::moment;
use super::acts::{act_on_runs, all, new_run, run_id};
use super::filters::{agrees_at, agrees_of_dag};
use super::next_of;
use super::plain::{Plain, Which, act_on_plain, clear_between, nth, queued};
use crate::tests::below::runs::asserts::run_has_memory;
use af_names::{DagId, Instant, RunId};
use af_runs::{RunFault, RunFilter, Runs};
use std::alloc::Global;
use std::process::Abort;

/// Runs of three DAGs, and the plain list of them.
#[derive(Drop)]
pub struct Twins {
    alloc: Global,
    dags: Vec<DagId>,
    runs: Runs,
    pub plain: Vec<Plain>,
}

impl Twins {
    pub fn new(rt: &impl Abort, alloc: Global) -> Twins {
        Twins {
            alloc,
            dags: three_dags(rt, alloc),
            runs: Runs::new(alloc),
            plain: Vec::new(alloc),
        }
    }

    /// The number that the next run gets.
    pub fn next(&self) -> u64 {
        self.runs.next_number().unwrap_or(0)
    }

    /// Whether each look-up for a key, which is below 500, answers what a filter over the plain list answers.
    pub fn agrees(&self, rt: &impl Abort, key: u32) -> bool {
        let id = run_id(rt, self.alloc, key);
        let other = run_id(rt, self.alloc, key.saturating_add(500));
        self.agrees_of(key, (&id, &other), moment(key))
    }

    /// The same of the runs of these ids and this date.
    fn agrees_of(&self, key: u32, ids: (&RunId, &RunId), date: Instant) -> bool {
        let plain = self.plain.as_slice();
        for dag in self.dags.iter().enumerate() {
            if !agrees_of_dag(&self.runs, plain, dag, key, ids, date) {
                return false;
            }
        }
        agrees_at(&self.runs, plain, key)
    }

    /// The runs of a DAG whose dates are from a key on until another.
    fn filter(&self, rt: &impl Abort, dag: usize, key: u32, last: u32) -> RunFilter {
        let dag_id = self.dags.get(dag).expect(rt, "three DAGs");
        RunFilter {
            dag_id: dag_id
                .copied(self.alloc)
                .expect(rt, "the id of a DAG again"),
            run_id: None,
            start_date: Some(moment(key)),
            end_date: Some(moment(last)),
        }
    }

    /// Clears those of a DAG's runs whose dates are from a key on until the twentieth after it, in both.
    fn clear_some(&mut self, rt: &impl Abort, dag: usize, key: u32) {
        let last = key.saturating_add(20);
        let filter = self.filter(rt, dag, key, last);
        let all = all(rt, self.alloc);
        self.runs.clear(&filter, &all);
        drop(filter);
        drop(all);
        clear_between(&mut self.plain, dag, key, last);
    }

    /// Adds a run of a DAG in both, unless the plain list has it. Whether that is told.
    fn add(&mut self, rt: &impl Abort, dag: usize, key: u32) -> bool {
        let there = nth(self.plain.as_slice(), Which::Key(dag, key), 0).is_some();
        let dag_id = self.dags.get(dag).expect(rt, "three DAGs");
        let told = self.runs.add_run(new_run(rt, self.alloc, dag_id, key));
        run_has_memory(rt, told);
        match told {
            Ok(number) => {
                self.plain
                    .push(queued(number, dag, key))
                    .expect(rt, "room for a row");
                !there
            }
            Err(fault) => there && fault == RunFault::RunExists,
        }
    }

    /// Does the next act to both. Whether a run that was added is told.
    pub fn turn(&mut self, rt: &impl Abort, seed: &mut u64) -> bool {
        let key = (next_of(seed) % 500) as u32;
        let dag = (next_of(seed) % 3) as usize;
        let number = next_of(seed) % 1_500;
        let act = next_of(seed) % 13;
        act_on_runs(rt, self.alloc, &mut self.runs, act, number);
        act_on_plain(&mut self.plain, act, number);
        if act == 12 {
            self.clear_some(rt, dag, key);
        }
        if act > 3 && act < 8 {
            return self.add(rt, dag, key);
        }
        true
    }
}

const DAGS: &[&str] = &["a", "b", "a.b"];

/// The ids of three DAGs.
fn three_dags(rt: &impl Abort, alloc: Global) -> Vec<DagId> {
    let mut dags = Vec::new(alloc);
    for text in DAGS {
        let id = DagId::parse(alloc, text).expect(rt, "the id of a DAG");
        dags.push(id).expect(rt, "room for the id of a DAG");
    }
    dags
}
