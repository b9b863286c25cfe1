// An instance as it is told.
ghost use Rattle.std.specs.Prelude.{◌≡◌, ◌∷◌, [], OnOk, IsTrue, true, false};
ghost use Rattle.af_ops.specs.Texts.{Adds, is_name};
ghost use Rattle.af_ops.specs.Rows.{instance_fields, instance_first, instance_last, state_data};

use crate::row::Row;
use crate::text::Text;
use af_graph::{TaskSpec, TaskState};
use af_runs::{Instance, Run};
use std::alloc::{AllocError, Global};
use std::marker::Model;

/// An instance with its run and its task, borrowed.
#[derive(Drop)]
pub(crate) struct InstanceRow<'a> {
    pub run: &'a Run,
    pub task: &'a TaskSpec,
    pub instance: &'a Instance,
}

impl<'a> Model for InstanceRow<'a> {
    ghost use Rattle.af_ops.specs.Rows.{InstanceTold};

    ghost Value = { InstanceTold };

    ghost view = { λ row. record { run = row.run.now; task = row.task.now; instance = row.instance.now } };
}

impl<'a> Row for InstanceRow<'a> {
    ghost fields = { instance_fields };

    fn put_fields(&self, alloc: Global, out: &mut Text) -> Result<(), AllocError> {
        put_first(alloc, out, self.run, self.task, self.instance)?;
        put_last(out, self.run, self.task, self.instance)?;
        Ok(())
    }
}

/// An instance's state, or null where it has none.
fn put_state(out: &mut Text, name: &str, state: TaskState) -> Result<(), AllocError>
    requires { IsTrue (is_name name.now) }
    ensures { OnOk result (Adds true out.old out.new ((name.now, state_data state) ∷ [])) }
{
    match state {
        TaskState::NoStatus => out.null(true, name),
        TaskState::Scheduled => out.plain(true, name, "scheduled"),
        TaskState::Queued => out.plain(true, name, "queued"),
        TaskState::Running => out.plain(true, name, "running"),
        TaskState::Success => out.plain(true, name, "success"),
        TaskState::Failed => out.plain(true, name, "failed"),
        TaskState::Skipped => out.plain(true, name, "skipped"),
        TaskState::UpstreamFailed => out.plain(true, name, "upstream_failed"),
        TaskState::UpForRetry => out.plain(true, name, "up_for_retry"),
    }
}

fn put_first(
    alloc: Global,
    out: &mut Text,
    run: &Run,
    task: &TaskSpec,
    instance: &Instance,
) -> Result<(), AllocError>
    ensures { OnOk result (Adds false out.old out.new (instance_first (record { run = run.now; task = task.now; instance = instance.now }))) }
{
    out.dag_id(false, "dag_id", &run.dag_id)?;
    out.run_id(true, "dag_run_id", &run.run_id)?;
    out.instant(true, "end_date", instance.end_date)?;
    out.text(alloc, true, "pool", task.pool.as_str())?;
    out.number(true, "pool_slots", task.pool_slots)?;
    Ok(())
}

fn put_last(
    out: &mut Text,
    run: &Run,
    task: &TaskSpec,
    instance: &Instance,
) -> Result<(), AllocError>
    ensures { OnOk result (Adds true out.old out.new (instance_last (record { run = run.now; task = task.now; instance = instance.now }))) }
{
    out.integer(true, "priority_weight", task.priority_weight)?;
    out.instant(true, "start_date", instance.start_date)?;
    put_state(out, "state", instance.state)?;
    out.task_id(true, "task_id", &task.task_id)?;
    out.number(true, "try_number", u64::from(instance.try_number))?;
    Ok(())
}
