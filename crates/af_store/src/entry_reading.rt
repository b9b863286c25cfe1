// Reading entries.
ghost use Rattle.std.specs.Prelude.{◌≡◌, codes};
ghost use Rattle.af_base.specs.JsonValue.{view};
ghost use Rattle.af_base.specs.Readings.{OrMemory};
ghost use Rattle.af_store.specs.EntryReads.{by_user, claim_read, claimed_read, deed_by, deed_read, entry_in, op_read, outcome_in, outcome_value, reported_read, user_value};
ghost use Rattle.af_store.specs.Members.{required_in};

use crate::deed::Deed;
use crate::event::Event;
use crate::line_fault::LineFault;
use crate::members::{count, instant, name, short, text, text_of, value};
use crate::op_event::OpEvent;
use crate::op_reading::read_op;
use af_audit::{Act, Actor, Entry};
use af_base::Json;
use af_names::UserName;
use af_sched::{Claim, Outcome};
use std::alloc::Global;

/// The entry that the members say.
pub(crate) fn read_entry(alloc: Global, row: &Json<'_>) -> Result<Entry, LineFault>
    ensures { OrMemory LineFault.OutOfMemory (entry_in (view row.now)) result }
{
    let seq = short(row, "event_log_id")?;
    let moment = instant(row, "at")?;
    let version = short(row, "version")?;
    let deed = read_deed(alloc, row)?;
    Ok(deed.entered(seq, moment, version))
}

fn read_deed(alloc: Global, row: &Json<'_>) -> Result<Deed, LineFault>
    ensures { OrMemory LineFault.OutOfMemory (deed_read (view row.now)) result }
{
    let text = text(row, "event")?;
    let event = Event::read(text)?;
    read_by(alloc, row, event)
}

fn read_by(alloc: Global, row: &Json<'_>, event: Event) -> Result<Deed, LineFault>
    ensures { OrMemory LineFault.OutOfMemory (deed_by event (view row.now)) result }
{
    match event {
        Event::Tick => Ok(Deed {
            actor: Actor::Scheduler,
            act: Act::Tick,
        }),
        Event::Claim => read_claimed(alloc, row),
        Event::Report => read_reported(alloc, row),
        Event::Op(op) => read_by_user(alloc, row, op),
    }
}

/// An operation, and the user who asked for it.
fn read_by_user(alloc: Global, row: &Json<'_>, op: OpEvent) -> Result<Deed, LineFault>
    ensures { OrMemory LineFault.OutOfMemory (by_user op (view row.now)) result }
{
    let user = user(alloc, row)?;
    let op = read_op(alloc, row, op)?;
    Ok(Deed {
        actor: Actor::User(user),
        act: Act::Did(op),
    })
}

/// The name of the user, as in `{"user":..}`.
fn user(alloc: Global, row: &Json<'_>) -> Result<UserName, LineFault>
    ensures { OrMemory LineFault.OutOfMemory (required_in user_value (codes "by") (view row.now)) result }
{
    let by = value(row, "by")?;
    name(alloc, by, "user")
}

fn read_claimed(alloc: Global, row: &Json<'_>) -> Result<Deed, LineFault>
    ensures { OrMemory LineFault.OutOfMemory (claimed_read (view row.now)) result }
{
    let claim = read_claim(alloc, row)?;
    Ok(Deed {
        actor: Actor::Executor,
        act: Act::Claim(claim),
    })
}

fn read_reported(alloc: Global, row: &Json<'_>) -> Result<Deed, LineFault>
    ensures { OrMemory LineFault.OutOfMemory (reported_read (view row.now)) result }
{
    let claim = read_claim(alloc, row)?;
    let outcome = read_outcome(row)?;
    Ok(Deed {
        actor: Actor::Executor,
        act: Act::Report(claim, outcome),
    })
}

/// The instance that is claimed or reported, and which try of it.
fn read_claim(alloc: Global, row: &Json<'_>) -> Result<Claim, LineFault>
    ensures { OrMemory LineFault.OutOfMemory (claim_read (view row.now)) result }
{
    let run_number = count(row, "run_number")?;
    let dag_id = name(alloc, row, "dag_id")?;
    let run_id = name(alloc, row, "dag_run_id")?;
    let task_id = name(alloc, row, "task_id")?;
    let try_number = short(row, "try_number")?;
    Ok(Claim {
        run_number,
        dag_id,
        run_id,
        task_id,
        try_number,
    })
}

fn read_outcome(row: &Json<'_>) -> Result<Outcome, LineFault>
    ensures { result ≡ required_in outcome_value (codes "outcome") (view row.now) }
{
    let value = value(row, "outcome")?;
    outcome_of(value)
}

fn outcome_of(value: &Json<'_>) -> Result<Outcome, LineFault>
    ensures { result ≡ outcome_value (view value.now) }
{
    let text = text_of(value)?;
    outcome_in(text)
}

fn outcome_in(text: &str) -> Result<Outcome, LineFault>
    ensures { result ≡ outcome_in text.now }
{
    match Outcome::read(text) {
        Some(outcome) => Ok(outcome),
        None => Err(LineFault::NotALine),
    }
}
