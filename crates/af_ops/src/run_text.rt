// A run's row as it is told.
ghost use Rattle.std.specs.Prelude.{◌≡◌, OnOk, true, false, if◌then◌else◌};
ghost use Rattle.std.specs.List.{list_all};
ghost use Rattle.json.specs.Run.{is_plain};
ghost use Rattle.af_runs.specs.Marks.{is_in_state, marked_end, marked_run, marked_start};
ghost use Rattle.af_runs.specs.Runs.{queued_run};
ghost use Rattle.af_ops.specs.Rows.{run_fields, run_state_text, run_type_text};
ghost use Rattle.af_ops.specs.Texts.{Adds};

use crate::instant_text::InstantText;
use crate::row::Row;
use crate::text::Text;
use af_names::Instant;
use af_runs::{Mark, NewRun, Run, RunState, RunType};
use std::alloc::{AllocError, Global};
use std::marker::Model;

impl Row for Run {
    ghost fields = { run_fields };

    fn put_fields(&self, _alloc: Global, out: &mut Text) -> Result<(), AllocError> {
        put_run(
            out,
            self,
            self.state,
            self.start_date.get(),
            self.end_date.get(),
        )
    }
}

/// A run's row as it stands once the run is marked at a moment.
#[derive(Drop)]
pub(crate) struct MarkedRow<'a> {
    pub run: &'a Run,
    pub mark: Mark,
    pub at: Instant,
}

impl<'a> Model for MarkedRow<'a> {
    ghost use Rattle.af_runs.specs.Marks.{marked_run};
    ghost use Rattle.af_runs.specs.declared.run.Run.{Run};

    ghost Value = { Run };

    ghost view = { λ row. marked_run row.mark row.at row.run.now };
}

impl<'a> Row for MarkedRow<'a> {
    ghost fields = { run_fields };

    fn put_fields(&self, _alloc: Global, out: &mut Text) -> Result<(), AllocError> {
        put_marked(out, self.run, self.mark, self.at)
    }
}

/// The members of a run's row, as it stands once the run is marked at a moment: where it is in the state already, its dates stay.
fn put_marked(out: &mut Text, run: &Run, mark: Mark, at: Instant) -> Result<(), AllocError>
    ensures { OnOk result (Adds false out.old out.new (run_fields (marked_run mark at run.now))) }
{
    let start_date = start_of(run, mark);
    let end_date = end_of(run, mark, at);
    put_run(out, run, mark.state(), start_date, end_date)
}

/// The start of a run once it is marked: in that state already it keeps its own, and queued again it has none.
fn start_of(run: &Run, mark: Mark) -> Option<Instant>
    ensures { result ≡ (if is_in_state mark run.now then run.now.start_date else marked_start mark run.now.start_date) }
{
    if run.state == mark.state() {
        return run.start_date.get();
    }
    match mark {
        Mark::Success | Mark::Failed => run.start_date.get(),
        Mark::Queued => None,
    }
}

/// The end of a run once it is marked at a moment: in that state already it keeps its own, and queued again it has none.
fn end_of(run: &Run, mark: Mark, at: Instant) -> Option<Instant>
    ensures { result ≡ (if is_in_state mark run.now then run.now.end_date else marked_end mark at) }
{
    if run.state == mark.state() {
        return run.end_date.get();
    }
    match mark {
        Mark::Success | Mark::Failed => Some(at),
        Mark::Queued => None,
    }
}

/// The members of a run's row, in this state and with these dates of its start and end.
fn put_run(
    out: &mut Text,
    run: &Run,
    state: RunState,
    start_date: Option<Instant>,
    end_date: Option<Instant>,
) -> Result<(), AllocError>
    ensures { OnOk result (Adds false out.old out.new (run_fields (record run.now { state = state; start_date = start_date; end_date = end_date }))) }
{
    let date = InstantText::of(run.logical_date);
    out.dag_id(false, "dag_id", &run.dag_id)?;
    out.run_id(true, "dag_run_id", &run.run_id)?;
    out.instant_by(true, "data_interval_end", run.interval.end, &date)?;
    out.instant_by(true, "data_interval_start", run.interval.start, &date)?;
    out.instant(true, "end_date", end_date)?;
    out.instant_by(true, "logical_date", run.logical_date, &date)?;
    out.plain(true, "run_type", run_type_text(run.run_type))?;
    out.instant(true, "start_date", start_date)?;
    out.plain(true, "state", run_state_text(state))?;
    Ok(())
}

/// A run as it stands once it is added: queued, without start and end.
impl Row for NewRun {
    ghost fields = { λ new. run_fields (queued_run 0 new) };

    fn put_fields(&self, _alloc: Global, out: &mut Text) -> Result<(), AllocError> {
        let date = InstantText::of(self.logical_date);
        out.dag_id(false, "dag_id", &self.dag_id)?;
        out.run_id(true, "dag_run_id", &self.run_id)?;
        out.instant_by(true, "data_interval_end", self.interval.end, &date)?;
        out.instant_by(true, "data_interval_start", self.interval.start, &date)?;
        out.null(true, "end_date")?;
        out.instant_by(true, "logical_date", self.logical_date, &date)?;
        out.plain(true, "run_type", run_type_text(self.run_type))?;
        out.null(true, "start_date")?;
        out.plain(true, "state", "queued")?;
        Ok(())
    }
}

fn run_type_text(run_type: RunType) -> &'static str
    ensures text { result.now ≡ run_type_text run_type }
    ensures plain { list_all is_plain result.now ≡ true }
{
    match run_type {
        RunType::Manual => "manual",
        RunType::Scheduled => "scheduled",
        RunType::Backfill => "backfill",
    }
}

fn run_state_text(state: RunState) -> &'static str
    ensures text { result.now ≡ run_state_text state }
    ensures plain { list_all is_plain result.now ≡ true }
{
    match state {
        RunState::Queued => "queued",
        RunState::Running => "running",
        RunState::Success => "success",
        RunState::Failed => "failed",
    }
}
