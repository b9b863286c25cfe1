// The details of faults of operations on the policy, and the names that they tell.
ghost use Rattle.std.specs.Prelude.{◌≡◌, ◌++◌, Some, IfOk, codes, decimal, option_map, string_bytes};
ghost use Rattle.af_ops.specs.Faults.{fault_of};
ghost use Rattle.af_ops.specs.PolicyFaults.{asked_name, bad_input, changed_name, denial, given_pair, no_policy, nobody, read_name};
ghost use Rattle.af_ops.specs.PolicyServed.{problem_at};

use crate::body::Body;
use crate::problem::ProblemRow;
use crate::row::row_text;
use crate::shown_answer::Shown;
use crate::status::Status;
use crate::telling::{denial, joined};
use af_policy::{Ask, BadInput, Change, PolicyRead};
use af_role::{Need, PairText};
use std::alloc::{AllocError, Global};

/// The name of the role or the user that is read, no text where there is none.
pub(crate) fn read_name(asked: &PolicyRead) -> &str
    ensures { result.now ≡ read_name asked.now }
{
    match asked {
        PolicyRead::Role(name) => name.as_str(),
        PolicyRead::User(name) => name.as_str(),
        PolicyRead::Roles(_) | PolicyRead::Users(_) | PolicyRead::Bad(_, _) => "",
    }
}

/// The name of the role or the user that a change is about, no text where there is none.
pub(crate) fn asked_name(ask: &Ask) -> &str
    ensures { result.now ≡ asked_name ask.now }
{
    match ask {
        Ask::Made(change) => changed_name(change),
        Ask::Bad(_, _) => "",
    }
}

fn changed_name(change: &Change) -> &str
    ensures { result.now ≡ changed_name change.now }
{
    match change {
        Change::AddRole(input) | Change::SetRole(input) => input.name.as_str(),
        Change::DropRole(name) => name.as_str(),
        Change::AddUser(user) => user.name().as_str(),
        Change::SetUser(patch) => patch.name.as_str(),
        Change::DropUser(name) => name.as_str(),
        Change::SyncDag(_) => "",
    }
}

pub(crate) fn shown_no_policy(alloc: Global, version: u32) -> Result<Shown, AllocError>
    ensures { IfOk result (λ shown. Some shown ≡ option_map (problem_at version) no_policy) }
{
    shown_problem(alloc, version, Status::Unavailable, "policy not found")
}

pub(crate) fn shown_nobody(alloc: Global, version: u32) -> Result<Shown, AllocError>
    ensures { IfOk result (λ shown. Some shown ≡ option_map (problem_at version) nobody) }
{
    shown_problem(
        alloc,
        version,
        Status::Unauthorized,
        "authentication required",
    )
}

pub(crate) fn shown_denial(alloc: Global, need: Need, version: u32) -> Result<Shown, AllocError>
    ensures { IfOk result (λ shown. Some shown ≡ option_map (problem_at version) (denial need)) }
{
    let detail = denial(alloc, need, None)?;
    shown_problem(alloc, version, Status::Forbidden, detail.as_str())
}

pub(crate) fn shown_bad_input(
    alloc: Global,
    it: BadInput,
    version: u32,
) -> Result<Shown, AllocError>
    ensures { IfOk result (λ shown. Some shown ≡ option_map (problem_at version) (bad_input it)) }
{
    match it {
        BadInput::Parameter(it) => { shown_bad(alloc, version, "bad parameter: ", it.text()) }
        BadInput::Body => shown_problem(alloc, version, Status::BadRequest, "bad body"),
        BadInput::Member(it) => { shown_bad(alloc, version, "bad member: ", it.text()) }
    }
}

pub(crate) fn shown_pair(alloc: Global, version: u32, pair: &PairText) -> Result<Shown, AllocError>
    ensures { IfOk result (λ shown. Some shown ≡ option_map (problem_at version) (fault_of Status.BadRequest (codes "pair not allowed: " ++ given_pair pair.now))) }
{
    let given = given_pair(alloc, pair)?;
    shown_bad(alloc, version, "pair not allowed: ", given.as_str())
}

/// `RESOURCE.ACTION`, as it was given.
fn given_pair(alloc: Global, pair: &PairText) -> Result<String, AllocError>
    ensures { IfOk result (λ text. string_bytes text ≡ given_pair pair.now) }
{
    let mut text = String::from_str(alloc, pair.resource.as_str())?;
    text.push_str(".")?;
    text.push_str(pair.action.as_str())?;
    Ok(text)
}

pub(crate) fn shown_moved(alloc: Global, other: u32, version: u32) -> Result<Shown, AllocError>
    ensures { IfOk result (λ shown. Some shown ≡ option_map (problem_at version) (fault_of Status.Conflict (codes "policy moved to version " ++ decimal other))) }
{
    let detail = format!(in alloc; "policy moved to version {other}")?;
    shown_problem(alloc, version, Status::Conflict, detail.as_str())
}

/// A fault whose detail is told in two pieces.
pub(crate) fn shown_two(
    alloc: Global,
    version: u32,
    status: Status,
    first: &str,
    second: &str,
) -> Result<Shown, AllocError>
    ensures { IfOk result (λ shown. Some shown ≡ option_map (problem_at version) (fault_of status (first.now ++ second.now))) }
{
    let detail = joined(alloc, first, second)?;
    shown_problem(alloc, version, status, detail.as_str())
}

/// What is wrong with a body, in two pieces.
pub(crate) fn shown_bad(
    alloc: Global,
    version: u32,
    first: &str,
    second: &str,
) -> Result<Shown, AllocError>
    ensures { IfOk result (λ shown. Some shown ≡ option_map (problem_at version) (fault_of Status.BadRequest (first.now ++ second.now))) }
{
    shown_two(alloc, version, Status::BadRequest, first, second)
}

/// What is not there, in two pieces.
pub(crate) fn shown_absent(
    alloc: Global,
    version: u32,
    first: &str,
    second: &str,
) -> Result<Shown, AllocError>
    ensures { IfOk result (λ shown. Some shown ≡ option_map (problem_at version) (fault_of Status.NotFound (first.now ++ second.now))) }
{
    shown_two(alloc, version, Status::NotFound, first, second)
}

/// What stands against a change, in two pieces.
pub(crate) fn shown_conflict(
    alloc: Global,
    version: u32,
    first: &str,
    second: &str,
) -> Result<Shown, AllocError>
    ensures { IfOk result (λ shown. Some shown ≡ option_map (problem_at version) (fault_of Status.Conflict (first.now ++ second.now))) }
{
    shown_two(alloc, version, Status::Conflict, first, second)
}

pub(crate) fn shown_problem(
    alloc: Global,
    version: u32,
    status: Status,
    detail: &str,
) -> Result<Shown, AllocError>
    ensures { IfOk result (λ shown. Some shown ≡ option_map (problem_at version) (fault_of status detail.now)) }
{
    let body = row_text(alloc, &ProblemRow { status, detail })?;
    Ok(Shown {
        status,
        version: Some(version),
        seq: None,
        body: Some(Body::of(body)),
    })
}
