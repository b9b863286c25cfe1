// What is served of an operation on the policy under one of its versions.
ghost use Rattle.std.specs.Prelude.{◌≡◌, Some, option_map, IfOk};
ghost use Rattle.std.specs.Option.{option_copied};
ghost use Rattle.af_policy.specs.Reads.{me_of, read_of};
ghost use Rattle.af_policy.specs.Versions.{decided};
ghost use Rattle.af_policy.specs.declared.ask.Ask.TheVariants.{Bad};
ghost use Rattle.af_policy.specs.declared.bad_input.BadInput.TheVariants as input;
ghost use Rattle.af_ops.specs.PolicyFaults.{no_policy, submit_problem};
ghost use Rattle.af_ops.specs.PolicyUnder.{IsNoPolicyTold, IsToldUnder, IsUnreadRefused, openly_problem};
ghost use Rattle.af_ops.specs.PolicyVerdicts.{Refuses, me_verdict, read_verdict, unread_verdict};

use crate::body::Body;
use crate::policy_telling::{
    shown_me_fault, shown_read_fault, shown_submit_fault, shown_unread_fault,
};
use crate::policy_told::{me_told, read_told};
use crate::problem::ProblemRow;
use crate::row::row_text;
use crate::served::Served;
use crate::shown_answer::Shown;
use crate::status::Status;
use af_policy::{Ask, BadInput, ChangeKind, Policy, PolicyRead, Presented, Refusal};
use std::alloc::{AllocError, Global};

/// Reports who the token's owner is under a policy, which is the version of this number.
pub fn serve_me(
    alloc: Global,
    policy: &Policy,
    version: u32,
    token: Option<&Presented<'_>>,
) -> Served
    ensures { IsToldUnder version (me_verdict version (me_of policy.now (option_copied token.entry))) result }
{
    match me_told(alloc, policy, version, token) {
        Ok(shown) => Served::Shown(shown),
        Err(fault) => match shown_me_fault(alloc, fault, version) {
            Ok(shown) => Served::Shown(shown),
            Err(_) => Served::NothingDone,
        },
    }
}

/// Reports roles or users to the token's owner under a policy, which is the version of this number.
pub fn serve_read(
    alloc: Global,
    policy: &Policy,
    version: u32,
    token: Option<&Presented<'_>>,
    asked: &PolicyRead,
) -> Served
    ensures { IsToldUnder version (read_verdict asked.now (read_of policy.now (option_copied token.entry) asked.now)) result }
{
    match read_told(alloc, policy, version, token, asked) {
        Ok(shown) => Served::Shown(shown),
        Err(fault) => match shown_read_fault(alloc, asked, fault, version) {
            Ok(shown) => Served::Shown(shown),
            Err(_) => Served::NothingDone,
        },
    }
}

/// Reports why a change of this kind, whose body was not read, makes no version, under a policy, which is the version of this number.
/// `NothingDone` if the body decides.
pub fn serve_unread(
    alloc: Global,
    policy: &Policy,
    version: u32,
    token: Option<&Presented<'_>>,
    kind: ChangeKind,
) -> Served
    ensures { IsToldUnder version (unread_verdict (decided policy.now (option_copied token.entry) (Bad kind input.Body))) result }
{
    let ask = Ask::Bad(kind, BadInput::Body);
    let fault = unread_fault(alloc, policy, token, &ask);
    match shown_unread_fault(alloc, &fault, version) {
        Ok(shown) => Served::Shown(shown),
        Err(_) => Served::NothingDone,
    }
}

/// Why a change whose body was not read makes no version: whatever its body is, or that there was no memory to read it.
fn unread_fault(alloc: Global, policy: &Policy, token: Option<&Presented<'_>>, ask: &Ask) -> Refusal
    ensures { IsUnreadRefused policy.now (option_copied token.entry) ask.now result }
{
    match policy.decide(alloc, token, ask) {
        Ok(_) => Refusal::OutOfMemory,
        Err(fault) => fault,
    }
}

/// Reports why a change makes no version, under the version of this number. `NothingDone` if the fault is out of memory.
pub fn serve_fault(alloc: Global, ask: &Ask, fault: &Refusal, version: u32) -> Served
    ensures { IsToldUnder version (Refuses (submit_problem ask.now fault.now)) result }
{
    match shown_submit_fault(alloc, ask, fault, version) {
        Ok(shown) => Served::Shown(shown),
        Err(_) => Served::NothingDone,
    }
}

/// Reports, under no version, that the policy is not to be had.
pub fn serve_no_policy(alloc: Global) -> Served
    ensures { IsNoPolicyTold result }
{
    match shown_no_policy_openly(alloc) {
        Ok(shown) => Served::Shown(shown),
        Err(_) => Served::NothingDone,
    }
}

fn shown_no_policy_openly(alloc: Global) -> Result<Shown, AllocError>
    ensures { IfOk result (λ shown. option_map openly_problem no_policy ≡ Some shown) }
{
    let status = Status::Unavailable;
    let detail = "policy not found";
    let body = row_text(alloc, &ProblemRow { status, detail })?;
    Ok(Shown {
        status,
        version: None,
        seq: None,
        body: Some(Body::of(body)),
    })
}
