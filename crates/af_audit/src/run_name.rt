// The run that an act names.
ghost use Rattle.std.specs.Prelude.{◌≡◌, option_map, unwrap_or};
ghost use Rattle.std.specs.Option.{option_copied};
ghost use Rattle.af_ops.specs.Effects.{id_or, made_id};
ghost use Rattle.af_audit.specs.Logs.{id_named, op_run, triggered_in};

use af_names::{Instant, RunId};
use af_ops::{BodyFault, Op, Trigger};
use arrayvec::ArrayString;

/// The id of a run.
#[derive(Clone, Copy)]
pub enum RunName<'a> {
    /// One that was given.
    Given(&'a RunId),
    /// The one that a trigger makes of this date: `manual__` and the date.
    Made(&'a Instant),
}

/// The run that an operation names at a moment, if it names one: the one that it triggers, or that of its path or its body.
pub(crate) fn op_run<'a>(op: &'a Op, at: &'a Instant) -> Option<RunName<'a>>
    ensures { option_map id_named result ≡ op_run op.now at.now }
{
    match op {
        Op::TriggerRun(_, input) => triggered_in(input, at),
        _ => given(op.run()),
    }
}

/// A run that is named by its id, if there is one.
fn given(run_id: Option<&RunId>) -> Option<RunName<'_>>
    ensures { option_map id_named result ≡ option_copied run_id.entry }
{
    match run_id {
        Some(run_id) => Some(RunName::Given(run_id)),
        None => None,
    }
}

/// The run that is triggered at a moment, by what was read of the body.
fn triggered_in<'a>(input: &'a Result<Trigger, BodyFault>, at: &'a Instant) -> Option<RunName<'a>>
    ensures { option_map id_named result ≡ triggered_in input.now at.now }
{
    match input {
        Ok(asked) => Some(triggered(asked, at)),
        Err(_) => None,
    }
}

/// The run that is triggered at a moment: its id is the one that is given, else it is made of its date.
fn triggered<'a>(asked: &'a Trigger, at: &'a Instant) -> RunName<'a>
    ensures { id_named result ≡ id_or asked.now.dag_run_id (unwrap_or asked.now.logical_date at.now) }
{
    match &asked.dag_run_id {
        Some(run_id) => RunName::Given(run_id),
        None => RunName::Made(asked.logical_date.as_ref().unwrap_or(at)),
    }
}

/// The id that is made of a date.
pub(crate) fn made_text(date: &Instant) -> ArrayString<64>
    ensures { result.bytes ≡ made_id date.now }
{
    let mut text = ArrayString::new();
    text.push_str("manual__");
    text.push_str(date.isoformat().as_str());
    text
}
