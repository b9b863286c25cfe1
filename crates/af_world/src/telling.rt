// What the plane tells the scheduler and executors.
ghost use Rattle.std.specs.Prelude.{◌≡◌, IfOk, decimal, string_bytes};
ghost use Rattle.af_world.specs.Plane.{claim_text, claim_told, claim_word, full_told, plane_told, report_status, report_told, report_word, tick_told, tick_word};

use crate::reporting::Reporting;
use af_audit::Ledger;
use af_ops::{Body, Shown, Status};
use af_sched::{Claim, ReportFault};
use std::alloc::{AllocError, Global};

/// What is told where the ledger stands: a status, and a text.
fn plane_told(
    alloc: Global,
    ledger: &Ledger,
    status: Status,
    text: &str,
) -> Result<Shown, AllocError>
    ensures { IfOk result (λ shown. shown ≡ plane_told ledger.now status text.now) }
{
    let bytes = Vec::from_slice(alloc, text.as_bytes())?;
    let under = ledger.under();
    Ok(Shown {
        status,
        version: Some(under.version),
        seq: Some(under.seq),
        body: Some(Body::of(bytes)),
    })
}

/// A full history.
fn full_told(alloc: Global, ledger: &Ledger) -> Result<Shown, AllocError>
    ensures { IfOk result (λ shown. shown ≡ full_told ledger.now) }
{
    plane_told(alloc, ledger, Status::InsufficientStorage, "HistoryFull")
}

/// Whether a tick changed the state, or none where there is no room for its entry.
pub(crate) fn tick_told(
    alloc: Global,
    ledger: &Ledger,
    told: Option<bool>,
) -> Result<Shown, AllocError>
    ensures { IfOk result (λ shown. shown ≡ tick_told ledger.now told) }
{
    match told {
        None => full_told(alloc, ledger),
        Some(changed) => plane_told(alloc, ledger, Status::Ok, tick_word(changed)),
    }
}

fn tick_word(changed: bool) -> &'static str
    ensures { result.now ≡ tick_word changed }
{
    if changed { "changed" } else { "same" }
}

/// What was claimed, if anything, or none where there is no room for the entry.
pub(crate) fn claim_told(
    alloc: Global,
    ledger: &Ledger,
    told: &Option<Option<Claim>>,
) -> Result<Shown, AllocError>
    ensures { IfOk result (λ shown. shown ≡ claim_told ledger.now told.now) }
{
    match told {
        None => full_told(alloc, ledger),
        Some(None) => plane_told(alloc, ledger, Status::Ok, "none"),
        Some(Some(claim)) => {
            let text = claim_text(alloc, claim)?;
            plane_told(alloc, ledger, Status::Ok, text.as_str())
        }
    }
}

/// The number of the run, the task and the try.
fn claim_text(alloc: Global, claim: &Claim) -> Result<String, AllocError>
    ensures { IfOk result (λ text. string_bytes text ≡ claim_text claim.now) }
{
    let mut text = digits_of(alloc, claim.run_number)?;
    text.push_str(" ")?;
    text.push_str(claim.task_id.as_str())?;
    text.push_str(" ")?;
    let try_number = digits_of(alloc, u64::from(claim.try_number))?;
    text.push_str(try_number.as_str())?;
    Ok(text)
}

/// A number in decimal digits.
fn digits_of(alloc: Global, number: u64) -> Result<String, AllocError>
    ensures { IfOk result (λ text. string_bytes text ≡ decimal number) }
{
    format!(in alloc; "{number}")
}

/// What is told of a report.
pub(crate) fn report_told(
    alloc: Global,
    ledger: &Ledger,
    comes: &Reporting,
) -> Result<Shown, AllocError>
    ensures { IfOk result (λ shown. shown ≡ report_told ledger.now comes.now) }
{
    match comes {
        Reporting::Faulty(fault) => {
            plane_told(alloc, ledger, report_status(*fault), report_word(*fault))
        }
        Reporting::NoRoom => full_told(alloc, ledger),
        Reporting::Takes(_) => plane_told(alloc, ledger, Status::Ok, ""),
    }
}

fn report_status(fault: ReportFault) -> Status
    ensures { result ≡ report_status fault }
{
    match fault {
        ReportFault::NoSuchInstance => Status::NotFound,
        ReportFault::NotRunning | ReportFault::WrongTry => Status::Conflict,
    }
}

fn report_word(fault: ReportFault) -> &'static str
    ensures { result.now ≡ report_word fault }
{
    match fault {
        ReportFault::NoSuchInstance => "NoSuchInstance",
        ReportFault::NotRunning => "NotRunning",
        ReportFault::WrongTry => "WrongTry",
    }
}
