// Telling entries.
ghost use Rattle.std.specs.Prelude.{◌≡◌, ◌++◌, ◌∷◌, [], codes, IfOk, map, OnOk, string_bytes};
ghost use Rattle.serde_json.specs.Data.{string};
ghost use Rattle.af_sched.specs.Outcomes.{outcome_text};
ghost use Rattle.af_base.specs.Readings.{OrMemory, seen};
ghost use Rattle.af_audit.specs.Acts.{is_by};
ghost use Rattle.af_store.specs.Bodies.{body_of};
ghost use Rattle.af_store.specs.EntryLines.{actor_told, entry_body, entry_fields, event_fields, head_fields, instance_parts, act_parts, told_by, version_fields};
ghost use Rattle.af_store.specs.Tellings.{field_of, fields_tokens, told_data};

use crate::body_text::BodyText;
use crate::line_fault::LineFault;
use crate::op_telling::op_text;
use crate::told::{Told, put_fields};
use af_audit::{Act, Actor, Entry};
use af_sched::{Claim, Outcome};
use std::alloc::{AllocError, Global};

/// The body of the line that tells an entry.
pub(crate) fn entry_text(alloc: Global, entry: &Entry) -> Result<String, LineFault>
    ensures { OrMemory LineFault.OutOfMemory (entry_body entry.now) (seen (λ text. string_bytes text) result) }
{
    if is_by(&entry.actor, &entry.act) {
        act_text(alloc, entry, &entry.act)
    } else {
        Err(LineFault::NotALine)
    }
}

/// Whether the act is one of this actor.
fn is_by(actor: &Actor, act: &Act) -> bool
    ensures { result ≡ is_by actor.now act.now }
{
    match act {
        Act::Did(_) => matches!(actor, Actor::User(_)),
        Act::Tick => matches!(actor, Actor::Scheduler),
        Act::Claim(_) | Act::Report(_, _) => matches!(actor, Actor::Executor),
    }
}

fn act_text<'x>(alloc: Global, entry: &'x Entry, act: &'x Act) -> Result<String, LineFault>
    ensures { OrMemory LineFault.OutOfMemory (told_by entry.now (act_parts act.now)) (seen (λ text. string_bytes text) result) }
{
    match act {
        Act::Did(op) => op_text(alloc, entry, op),
        Act::Tick => Ok(framed_text(alloc, entry, &[], &[])?),
        Act::Claim(claim) => Ok(claim_text(alloc, entry, claim)?),
        Act::Report(claim, outcome) => Ok(report_text(alloc, entry, claim, *outcome)?),
    }
}

fn claim_text<'x>(alloc: Global, entry: &'x Entry, claim: &'x Claim) -> Result<String, AllocError>
    ensures { IfOk result (λ text. string_bytes text ≡ body_of (entry_fields entry.now (instance_parts claim.now []))) }
{
    framed_text(
        alloc,
        entry,
        &[
            ("dag_id", Told::Text(claim.dag_id.as_str())),
            ("dag_run_id", Told::Text(claim.run_id.as_str())),
        ],
        &[
            ("run_number", Told::Count(claim.run_number)),
            ("task_id", Told::Text(claim.task_id.as_str())),
            ("try_number", Told::Count(u64::from(claim.try_number))),
        ],
    )
}

fn report_text<'x>(
    alloc: Global,
    entry: &'x Entry,
    claim: &'x Claim,
    outcome: Outcome,
) -> Result<String, AllocError>
    ensures { IfOk result (λ text. string_bytes text ≡ body_of (entry_fields entry.now (instance_parts claim.now ((codes "outcome", string (outcome_text outcome)) ∷ [])))) }
{
    let text = framed_text(
        alloc,
        entry,
        &[
            ("dag_id", Told::Text(claim.dag_id.as_str())),
            ("dag_run_id", Told::Text(claim.run_id.as_str())),
        ],
        &[
            ("outcome", Told::Text(outcome.as_str())),
            ("run_number", Told::Count(claim.run_number)),
            ("task_id", Told::Text(claim.task_id.as_str())),
            ("try_number", Told::Count(u64::from(claim.try_number))),
        ],
    )?;
    Ok(text)
}

/// The body of the line that tells an entry, with the members of its act in their places.
pub(crate) fn framed_text(
    alloc: Global,
    entry: &Entry,
    before: &[(&str, Told<'_>)],
    after: &[(&str, Told<'_>)],
) -> Result<String, AllocError>
    ensures { IfOk result (λ text. string_bytes text ≡ body_of (entry_fields entry.now (record { before = map field_of before.now; after = map field_of after.now }))) }
{
    let mut out = BodyText::new(alloc)?;
    out.begin_object()?;
    put_head(alloc, &mut out, entry)?;
    put_fields(alloc, &mut out, before)?;
    put_event(alloc, &mut out, entry)?;
    put_fields(alloc, &mut out, after)?;
    put_version(alloc, &mut out, entry)?;
    out.end_object()?;
    Ok(out.into_string())
}

fn put_head(alloc: Global, out: &mut BodyText, entry: &Entry) -> Result<(), AllocError>
    ensures { OnOk result (out.new ≡ out.old ++ fields_tokens (head_fields entry.now)) }
{
    put_fields(
        alloc,
        out,
        &[
            ("at", Told::Count(entry.moment.micros())),
            ("by", actor_told(&entry.actor)),
        ],
    )
}

fn put_event(alloc: Global, out: &mut BodyText, entry: &Entry) -> Result<(), AllocError>
    ensures { OnOk result (out.new ≡ out.old ++ fields_tokens (event_fields entry.now)) }
{
    put_fields(
        alloc,
        out,
        &[
            ("event", Told::Text(entry.act.event())),
            ("event_log_id", Told::Count(u64::from(entry.seq))),
        ],
    )?;
    Ok(())
}

fn put_version(alloc: Global, out: &mut BodyText, entry: &Entry) -> Result<(), AllocError>
    ensures { OnOk result (out.new ≡ out.old ++ fields_tokens (version_fields entry.now)) }
{
    put_fields(
        alloc,
        out,
        &[("version", Told::Count(u64::from(entry.version)))],
    )
}

/// A user by name, or else who it is.
fn actor_told(actor: &Actor) -> Told<'_>
    ensures { told_data result ≡ actor_told actor.now }
{
    match actor {
        Actor::User(user) => Told::User(user.as_str()),
        Actor::Scheduler => Told::Text("scheduler"),
        Actor::Executor => Told::Text("executor"),
    }
}
