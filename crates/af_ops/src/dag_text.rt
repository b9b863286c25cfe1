// A DAG's row as it is told.
ghost use Rattle.std.specs.Prelude.{◌≡◌, ◌∷◌, [], OnOk, IsTrue, true, false};
ghost use Rattle.af_ops.specs.Texts.{Adds, is_name};
ghost use Rattle.af_ops.specs.Rows.{dag_fields, schedule_data};

use crate::row::Row;
use crate::text::Text;
use af_graph::{Points, Schedule};
use af_sched::DagRow;
use std::alloc::{AllocError, Global};
use std::marker::Model;

impl Row for DagRow {
    ghost fields = { dag_fields };

    fn put_fields(&self, alloc: Global, out: &mut Text) -> Result<(), AllocError> {
        put_dag(alloc, out, self, self.is_paused)
    }
}

/// A DAG's row as it stands once the DAG is paused, or not.
#[derive(Drop)]
pub(crate) struct PausedRow<'a> {
    pub row: &'a DagRow,
    pub is_paused: bool,
}

impl<'a> Model for PausedRow<'a> {
    ghost use Rattle.af_sched.specs.declared.dag_row.DagRow.{DagRow};

    ghost Value = { DagRow };

    ghost view = { λ row. record row.row.now { is_paused = row.is_paused } };
}

impl<'a> Row for PausedRow<'a> {
    ghost fields = { dag_fields };

    fn put_fields(&self, alloc: Global, out: &mut Text) -> Result<(), AllocError> {
        put_dag(alloc, out, self.row, self.is_paused)
    }
}

/// The members of a DAG's row, paused or not.
fn put_dag(alloc: Global, out: &mut Text, row: &DagRow, is_paused: bool) -> Result<(), AllocError>
    ensures { OnOk result (Adds false out.old out.new (dag_fields (record row.now { is_paused = is_paused }))) }
{
    out.dag_id(false, "dag_id", row.dag.dag_id())?;
    out.truth(true, "is_paused", is_paused)?;
    out.number(
        true,
        "max_active_runs",
        u64::from(row.dag.definition().max_active_runs),
    )?;
    out.instant(true, "next_dagrun", row.cursor)?;
    put_schedule(alloc, out, "schedule_interval", row.dag.schedule())?;
    Ok(())
}

/// A preset's text, a number of seconds, or null for no schedule.
#[inline(always)]
fn put_schedule(
    alloc: Global,
    out: &mut Text,
    name: &str,
    schedule: Option<Schedule>,
) -> Result<(), AllocError>
    requires { IsTrue (is_name name.now) }
    ensures { OnOk result (Adds true out.old out.new ((name.now, schedule_data schedule) ∷ [])) }
{
    match schedule {
        None => out.null(true, name),
        Some(it) => match it.points {
            Points::Preset(preset) => out.text(alloc, true, name, preset.as_str()),
            Points::Seconds(seconds) => out.number(true, name, u64::from(seconds)),
        },
    }
}
