// An instance that is cleared, as it is told.
ghost use Rattle.std.specs.Prelude.{◌≡◌, OnOk, false};
ghost use Rattle.af_ops.specs.Rows.{cleared_fields};
ghost use Rattle.af_ops.specs.Texts.{Adds};

use crate::row::Row;
use crate::text::Text;
use af_runs::Run;
use std::alloc::{AllocError, Global};
use std::marker::Model;

/// An instance that is cleared: its run, and the id of its task, borrowed.
#[derive(Drop)]
pub(crate) struct ClearedRow<'a> {
    pub run: &'a Run,
    pub task_id: &'a str,
}

impl<'a> Model for ClearedRow<'a> {
    ghost use Rattle.af_ops.specs.Rows.{ClearedTold};

    ghost Value = { ClearedTold };

    ghost view = { λ row. record { run = row.run.now; task_id = row.task_id.now } };
}

impl<'a> Row for ClearedRow<'a> {
    ghost fields = { cleared_fields };

    fn put_fields(&self, alloc: Global, out: &mut Text) -> Result<(), AllocError> {
        put_cleared(alloc, out, self.run, self.task_id)
    }
}

fn put_cleared(alloc: Global, out: &mut Text, run: &Run, task_id: &str) -> Result<(), AllocError>
    ensures { OnOk result (Adds false out.old out.new (cleared_fields (record { run = run.now; task_id = task_id.now }))) }
{
    out.dag_id(false, "dag_id", &run.dag_id)?;
    out.run_id(true, "dag_run_id", &run.run_id)?;
    out.instant(true, "logical_date", Some(run.logical_date))?;
    out.text(alloc, true, "task_id", task_id)?;
    Ok(())
}
