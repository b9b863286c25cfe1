ghost use Rattle.std.specs.Prelude.{◌≡◌, option_map, true};
ghost use Rattle.std.specs.List.{list_all};
ghost use Rattle.std.specs.Option.{option_copied};
ghost use Rattle.json.specs.Run.{is_plain};
ghost use Rattle.af_audit.specs.Logs.{act_dag, act_run, act_task, event_of, id_named};

use crate::run_name::{RunName, op_run};
use af_names::{DagId, Instant, TaskId};
use af_ops::Op;
use af_sched::{Claim, Outcome};

/// What was done.
pub enum Act {
    /// A user's operation.
    Did(Op),
    /// A tick of the scheduler.
    Tick,
    /// An executor claimed this instance.
    Claim(Claim),
    /// An executor reported this outcome of a try that it had claimed.
    Report(Claim, Outcome),
}

impl Drop for Act {
    fn drop(self) {
        match self {
            Act::Did(_) => {}
            Act::Tick => {}
            Act::Claim(_) => {}
            Act::Report(_, _) => {}
        }
    }
}

impl Act {
    /// The DAG that it names, if it names one.
    pub fn dag(&self) -> Option<&DagId>
        ensures { option_copied result ≡ act_dag self.now }
    {
        match self {
            Act::Did(op) => op.dag(),
            Act::Tick => None,
            Act::Claim(claim) | Act::Report(claim, _) => Some(&claim.dag_id),
        }
    }

    /// The run that it names where it is done at this moment, if it names one.
    pub fn run<'a>(&'a self, at: &'a Instant) -> Option<RunName<'a>>
        ensures { option_map id_named result ≡ act_run self.now at.now }
    {
        match self {
            Act::Did(op) => op_run(op, at),
            Act::Tick => None,
            Act::Claim(claim) | Act::Report(claim, _) => Some(RunName::Given(&claim.run_id)),
        }
    }

    /// The task that it names, if it names one.
    pub fn task(&self) -> Option<&TaskId>
        ensures { option_copied result ≡ act_task self.now }
    {
        match self {
            Act::Did(op) => op.task(),
            Act::Tick => None,
            Act::Claim(claim) | Act::Report(claim, _) => Some(&claim.task_id),
        }
    }

    /// The name of its event, of which no byte wants an escape.
    pub fn event(&self) -> &'static str
        ensures name { result.now ≡ event_of self.now }
        ensures plain { list_all is_plain result.now ≡ true }
    {
        match self {
            Act::Did(op) => op.event(),
            Act::Tick => "tick",
            Act::Claim(_) => "claim",
            Act::Report(_, _) => "report",
        }
    }
}
