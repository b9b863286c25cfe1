ghost use Rattle.std.specs.Prelude.{◌≡◌, true};
ghost use Rattle.std.specs.List.{list_all};
ghost use Rattle.json.specs.Run.{is_plain};
ghost use Rattle.af_ops.specs.Events.{op_event};

use crate::op::Op;

impl Op {
    /// The name of its event, by which event logs tell of it, of which no byte wants an escape; empty for one that never changes
    /// anything.
    pub fn event(&self) -> &'static str
        ensures name { result.now ≡ op_event self.now }
        ensures plain { list_all is_plain result.now ≡ true }
    {
        match self {
            Op::PauseDag(_, _) => "patch_dag",
            Op::TriggerRun(_, _) => "trigger_dag_run",
            Op::MarkRun(_, _, _) => "patch_dag_run",
            Op::DeleteRun(_, _) => "delete_dag_run",
            Op::ClearRun(_, _, _) => "clear_dag_run",
            Op::ClearInstances(_, _) => "clear_task_instances",
            Op::BackfillDag(_, _) => "backfill",
            Op::Pool(op) => op.event(),
            Op::Variable(op) => op.event(),
            _ => "",
        }
    }
}
