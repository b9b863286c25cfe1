// What is told of operations on the policy: faults, and what is done. `AllocError` is given where the fault is out of memory, of which
// nothing is told, and else only where a growth was refused.
ghost use Rattle.std.specs.Prelude.{◌≡◌, Some, IfOk, option_map};
ghost use Rattle.af_ops.specs.PolicyFaults.{change_problem, me_problem, read_problem, submit_problem, unread_problem};
ghost use Rattle.af_ops.specs.PolicyServed.{problem_at};

use crate::policy_details::{
    asked_name, read_name, shown_absent, shown_bad, shown_bad_input, shown_conflict, shown_denial,
    shown_moved, shown_no_policy, shown_nobody, shown_pair, shown_problem,
};
use crate::shown_answer::Shown;
use crate::status::Status;
use af_policy::{Ask, ChangeFault, MeFault, PolicyRead, ReadFault, Refusal};
use std::alloc::{AllocError, Global};

/// What is told of why nobody is told who the bearer of a token is.
pub(crate) fn shown_me_fault(
    alloc: Global,
    fault: MeFault,
    version: u32,
) -> Result<Shown, AllocError>
    ensures { IfOk result (λ shown. Some shown ≡ option_map (problem_at version) (me_problem fault)) }
{
    match fault {
        MeFault::NotFound => shown_no_policy(alloc, version),
        MeFault::Unauthenticated => shown_nobody(alloc, version),
        MeFault::OutOfMemory => Err(AllocError),
    }
}

/// What is told of why roles or users are not read.
pub(crate) fn shown_read_fault(
    alloc: Global,
    asked: &PolicyRead,
    fault: ReadFault,
    version: u32,
) -> Result<Shown, AllocError>
    ensures { IfOk result (λ shown. Some shown ≡ option_map (problem_at version) (read_problem asked.now fault)) }
{
    match fault {
        ReadFault::NotFound => shown_no_policy(alloc, version),
        ReadFault::Unauthenticated => shown_nobody(alloc, version),
        ReadFault::Denied(need) => shown_denial(alloc, need, version),
        ReadFault::BadBody(it) => shown_bad_input(alloc, it, version),
        ReadFault::NoSuchRole => {
            shown_absent(alloc, version, "no such role: ", read_name(asked))
        }
        ReadFault::NoSuchUser => {
            shown_absent(alloc, version, "no such user: ", read_name(asked))
        }
        ReadFault::OutOfMemory => Err(AllocError),
    }
}

/// What is told of why a change makes no version, under the version of that number. `AllocError` where the fault is out of memory, of
/// which nothing is told, and else only where a growth was refused.
pub fn shown_submit_fault(
    alloc: Global,
    ask: &Ask,
    fault: &Refusal,
    version: u32,
) -> Result<Shown, AllocError>
    ensures { IfOk result (λ shown. Some shown ≡ option_map (problem_at version) (submit_problem ask.now fault.now)) }
{
    match fault {
        Refusal::NotFound => shown_no_policy(alloc, version),
        Refusal::Unauthenticated => shown_nobody(alloc, version),
        Refusal::Denied(need) => shown_denial(alloc, *need, version),
        Refusal::BadBody(it) => shown_bad_input(alloc, *it, version),
        Refusal::Refused(fault) => { shown_change_fault(alloc, asked_name(ask), fault, version) }
        Refusal::Full => {
            shown_problem(alloc, version, Status::InsufficientStorage, "versions full")
        }
        Refusal::OutOfMemory => Err(AllocError),
        Refusal::Moved(other) => shown_moved(alloc, *other, version),
    }
}

/// What is told of why a change whose body was not read makes no version; of the body nothing is.
pub(crate) fn shown_unread_fault(
    alloc: Global,
    fault: &Refusal,
    version: u32,
) -> Result<Shown, AllocError>
    ensures { IfOk result (λ shown. Some shown ≡ option_map (problem_at version) (unread_problem fault.now)) }
{
    match fault {
        Refusal::NotFound => shown_no_policy(alloc, version),
        Refusal::Unauthenticated => shown_nobody(alloc, version),
        Refusal::Denied(need) => shown_denial(alloc, *need, version),
        Refusal::BadBody(_) | Refusal::Refused(_) | Refusal::Full => Err(AllocError),
        Refusal::OutOfMemory | Refusal::Moved(_) => Err(AllocError),
    }
}

/// What is told of a fault of a change, which is about what has this name.
fn shown_change_fault(
    alloc: Global,
    name: &str,
    fault: &ChangeFault,
    version: u32,
) -> Result<Shown, AllocError>
    ensures { IfOk result (λ shown. Some shown ≡ option_map (problem_at version) (change_problem name.now fault.now)) }
{
    match fault {
        ChangeFault::BadAction(text) => shown_bad(alloc, version, "bad action: ", text.as_str()),
        ChangeFault::PairNotAllowed(pair) => shown_pair(alloc, version, pair),
        ChangeFault::UnknownRole(role) => {
            shown_bad(alloc, version, "unknown role: ", role.as_str())
        }
        ChangeFault::NoSuchRole => shown_absent(alloc, version, "no such role: ", name),
        ChangeFault::NoSuchUser => shown_absent(alloc, version, "no such user: ", name),
        ChangeFault::DefaultRole => shown_conflict(alloc, version, "default role: ", name),
        ChangeFault::Exists => shown_conflict(alloc, version, "exists: ", name),
        ChangeFault::RoleInUse => shown_conflict(alloc, version, "role in use: ", name),
        ChangeFault::LastAdmin => shown_problem(alloc, version, Status::Conflict, "last admin"),
        ChangeFault::TooMany => shown_problem(alloc, version, Status::Conflict, "too many"),
        ChangeFault::OutOfMemory => Err(AllocError),
    }
}
