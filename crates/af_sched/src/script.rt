ghost use Rattle.std.specs.Prelude.{◌≡◌};
ghost use Rattle.af_sched.specs.Scripts.{is_script_of, outcome_by};

use crate::claim::Claim;
use crate::outcome::Outcome;
use af_names::{DagId, TaskId};
use std::marker::Model;

/// The outcomes of a task's tries: those of the first, the second and so on; past the last each try succeeds.
pub struct Script {
    dag_id: DagId,
    task_id: TaskId,
    outcomes: Vec<Outcome>,
}

impl Drop for Script {
    fn drop(self) {
        let Script {
            dag_id: _,
            task_id: _,
            outcomes: _,
        } = self;
    }
}

impl Model for Script {
    ghost use Rattle.af_sched.specs.Scripts.{ScriptRow};

    ghost Value = { ScriptRow };

    ghost view = { λ script. record {
      dag_id = script.dag_id;
      task_id = script.task_id;
      outcomes = script.outcomes.items;
    } };
}

impl Script {
    /// These outcomes, of the tries of this task.
    pub fn new(dag_id: DagId, task_id: TaskId, outcomes: Vec<Outcome>) -> Script
        ensures { result ≡ record { dag_id = dag_id; task_id = task_id; outcomes = outcomes.items } }
    {
        Script {
            dag_id,
            task_id,
            outcomes,
        }
    }

    /// Whether it is that of the task of a claim.
    pub(crate) fn is_of(&self, claim: &Claim) -> bool
        ensures { result ≡ is_script_of claim.now self.now }
    {
        self.dag_id == claim.dag_id && self.task_id == claim.task_id
    }

    /// The outcome of a claim's try.
    pub(crate) fn outcome(&self, claim: &Claim) -> Outcome
        ensures { result ≡ outcome_by claim.now self.now }
    {
        let place = claim.try_number.saturating_sub(1) as usize;
        self.outcomes
            .get(place)
            .copied()
            .unwrap_or(Outcome::Success)
    }
}
