ghost use Rattle.std.specs.Prelude.{◌≡◌, ◌++◌, [], Some, IfOk, codes, slice_index_or, string_bytes, unwrap_or};
ghost use Rattle.std.specs.Option.{option_copied};
ghost use Rattle.af_names.specs.Isoformat.{isoformat};
ghost use Rattle.af_role.specs.Needs.{need_text};
ghost use Rattle.af_ops.specs.Effects.{id_or};
ghost use Rattle.af_ops.specs.Faults.{fault_of, op_status, problem_of};
ghost use Rattle.af_ops.specs.Served.{fault_told, problem_told, told_under};

use crate::answer::{CallFault, OpFault, Under};
use crate::body::Body;
use crate::member_name::name_of;
use crate::op::Op;
use crate::operations::triggering::made_text;
use crate::problem::ProblemRow;
use crate::row::row_text;
use crate::shown_answer::Shown;
use crate::status::Status;
use af_names::{DagId, Instant, RunId, TaskId};
use af_role::Need;
use std::alloc::{AllocError, Global};

/// What is told of a fault that was decided under a policy. `AllocError` where the fault is out of memory, of which nothing is
/// told, and else only where a growth was refused.
pub fn shown_fault(
    alloc: Global,
    op: &Op,
    fault: CallFault,
    under: Under,
) -> Result<Shown, AllocError>
    ensures { IfOk result (λ shown. fault_told op.now under fault ≡ Some shown) }
{
    match fault {
        CallFault::Unauthenticated => {
            shown_problem(
                alloc,
                under,
                Status::Unauthorized,
                "authentication required",
            )
        }
        CallFault::Denied(need) => {
            let detail = denial(alloc, need, op.dag())?;
            shown_problem(alloc, under, Status::Forbidden, detail.as_str())
        }
        CallFault::Op(fault) => shown_op_fault(alloc, op, fault, under),
    }
}

fn shown_op_fault(alloc: Global, op: &Op, fault: OpFault, under: Under) -> Result<Shown, AllocError>
    ensures { IfOk result (λ shown. fault_told op.now under (CallFault.Op fault) ≡ Some shown) }
{
    let status = op_status(&fault);
    let detail = op_detail(alloc, op, fault)?;
    shown_problem(alloc, under, status, detail.as_str())
}

/// The status that a fault of an operation is told with; that of out of memory is the fixed text's, which is told without a detail.
fn op_status(fault: &OpFault) -> Status
    ensures { result ≡ op_status fault.now }
{
    match fault {
        OpFault::BadParameter(_) | OpFault::BadBody | OpFault::BadMember(_) => Status::BadRequest,
        OpFault::NoSuchDag | OpFault::NoSuchRun | OpFault::NoSuchTask => Status::NotFound,
        OpFault::NoSuchTaskAt(_) | OpFault::NoSuchPool | OpFault::NoSuchVariable => {
            Status::NotFound
        }
        OpFault::RunExists(_) | OpFault::DateTaken(_) | OpFault::Exists => Status::Conflict,
        OpFault::NoSchedule | OpFault::TooMany => Status::Conflict,
        OpFault::DefaultPool | OpFault::InUse => Status::Conflict,
        OpFault::HistoryFull => Status::InsufficientStorage,
        OpFault::OutOfMemory => Status::Unavailable,
    }
}

/// The detail of a fault of an operation.
fn op_detail(alloc: Global, op: &Op, fault: OpFault) -> Result<String, AllocError>
    ensures { IfOk result (λ text. problem_of op.now (CallFault.Op fault) ≡ fault_of (op_status fault) (string_bytes text)) }
{
    match fault {
        OpFault::BadParameter(it) => joined(alloc, "bad parameter: ", it.text()),
        OpFault::BadBody => String::from_str(alloc, "bad body"),
        OpFault::BadMember(it) => joined(alloc, "bad member: ", name_of(it)),
        OpFault::NoSuchDag => joined(alloc, "no such dag: ", id_text(op.dag())),
        OpFault::NoSuchRun => joined(alloc, "no such run: ", run_id_text(op.run())),
        OpFault::NoSuchTask => joined(alloc, "no such task: ", task_id_text(op.task())),
        OpFault::NoSuchTaskAt(place) => {
            joined(alloc, "no such task: ", id_at(op.task_ids(), place))
        }
        OpFault::NoSuchPool => joined(alloc, "no such pool: ", op.row_name()),
        OpFault::NoSuchVariable => joined(alloc, "no such variable: ", op.row_name()),
        OpFault::RunExists(date) => taken_id(alloc, op.given_id(), date),
        OpFault::DateTaken(date) => joined(alloc, "date taken: ", date.isoformat().as_str()),
        OpFault::Exists => joined(alloc, "exists: ", op.row_name()),
        OpFault::NoSchedule => String::from_str(alloc, "no schedule"),
        OpFault::TooMany => String::from_str(alloc, "too many"),
        OpFault::DefaultPool => String::from_str(alloc, "default pool"),
        OpFault::InUse => joined(alloc, "pool in use: ", op.row_name()),
        OpFault::HistoryFull => String::from_str(alloc, "history full"),
        OpFault::OutOfMemory => Err(AllocError),
    }
}

/// The detail of a denial.
pub(crate) fn denial(alloc: Global, need: Need, dag: Option<&DagId>) -> Result<String, AllocError>
    ensures { IfOk result
        (λ text. string_bytes text ≡ codes "missing permission " ++ need_text need (option_copied dag.entry)) }
{
    let mut detail = String::from_str(alloc, "missing permission ")?;
    detail.push_str(need.text(alloc, dag)?.as_str())?;
    Ok(detail)
}

/// A detail in two pieces.
pub(crate) fn joined(alloc: Global, first: &str, second: &str) -> Result<String, AllocError>
    ensures { IfOk result (λ text. string_bytes text ≡ first.now ++ second.now) }
{
    let mut detail = String::from_str(alloc, first)?;
    detail.push_str(second)?;
    Ok(detail)
}

/// The id of a run that is there: the one that was given, else the one that is made of the date.
fn taken_id(alloc: Global, given: Option<&RunId>, date: Instant) -> Result<String, AllocError>
    ensures { IfOk result (λ text. string_bytes text ≡ codes "run exists: " ++ id_or (option_copied given.entry) date) }
{
    match given {
        Some(run_id) => joined(alloc, "run exists: ", run_id.as_str()),
        None => joined(alloc, "run exists: ", made_text(date).as_str()),
    }
}

/// The text of a task's id, empty where there is none.
fn task_id_text(task: Option<&TaskId>) -> &str
    ensures { result.now ≡ unwrap_or (option_copied task.entry) [] }
{
    match task {
        Some(task_id) => task_id.as_str(),
        None => "",
    }
}

/// The text of the id at a place, empty past the last.
fn id_at(ids: &[TaskId], place: usize) -> &str
    ensures { result.now ≡ slice_index_or ids.now place [] }
{
    match ids.get(place) {
        Some(task_id) => task_id.as_str(),
        None => "",
    }
}

/// The text of a run's id, empty where there is none.
fn run_id_text(run: Option<&RunId>) -> &str
    ensures { result.now ≡ unwrap_or (option_copied run.entry) [] }
{
    match run {
        Some(run_id) => run_id.as_str(),
        None => "",
    }
}

/// The text of an id, empty where there is none.
fn id_text(dag: Option<&DagId>) -> &str
    ensures { result.now ≡ unwrap_or (option_copied dag.entry) [] }
{
    match dag {
        Some(dag_id) => dag_id.as_str(),
        None => "",
    }
}

fn shown_problem(
    alloc: Global,
    under: Under,
    status: Status,
    detail: &str,
) -> Result<Shown, AllocError>
    ensures { IfOk result (λ shown. shown ≡ problem_told under (record { status = status; detail = detail.now })) }
{
    let body = row_text(alloc, &ProblemRow { status, detail })?;
    Ok(shown_under(under, status, Body::of(body)))
}

/// What is told under a policy version.
fn shown_under(under: Under, status: Status, body: Body) -> Shown
    ensures { result ≡ told_under under status body }
{
    Shown {
        status,
        version: Some(under.version),
        seq: Some(under.seq),
        body: Some(body),
    }
}
