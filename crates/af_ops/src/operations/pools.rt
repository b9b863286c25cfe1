// The operations on pools.
ghost use Rattle.std.specs.Prelude.{◌≡◌, ◌==◌, IfOk, IsOk, None, Ok, true, if◌then◌else◌};
ghost use Rattle.serde_json.specs.Written.{compact_text};
ghost use Rattle.af_base.specs.Readings.{seen};
ghost use Rattle.af_pool.specs.Pools.{add_fault, set_fault};
ghost use Rattle.af_ops.specs.declared.answer.OpFault.TheVariants.{OutOfMemory};
ghost use Rattle.af_ops.specs.declared.edit.Edit.TheVariants.{Nothing, PoolSet};
ghost use Rattle.af_ops.specs.Decisions.{ChangesWhereDone};
ghost use Rattle.af_ops.specs.EffectParts.{input_or};
ghost use Rattle.af_ops.specs.PoolEffects.{adding, got_pool, listed, listed_pools, pool_added, pool_changed, pool_deleted, pool_effect, pool_or, pool_told, pools_data, settable, told_fault, unless_fault};
ghost use Rattle.af_ops.specs.PoolOps.{endpoint_of};
ghost use Rattle.af_ops.specs.Prepared.{CanDo, IsExact, MemoryLast, done_on};
ghost use Rattle.af_ops.specs.Table.{reads_only};

use crate::answer::OpFault;
use crate::body_fault::{BodyFault, Member};
use crate::edit::Edit;
use crate::operations::shared::{cut, input_fault, window_or};
use crate::pool_op::PoolOp;
use crate::pool_text::PoolRow;
use crate::prepared::Prepared;
use crate::row::{row_text, rows_text};
use af_listing::Window;
use af_names::PoolName;
use af_policy::Parameter;
use af_pool::{Pool, PoolFault};
use af_sched::{Held, State};
use std::alloc::{AllocError, Global};

pub(crate) fn prepare_pools(
    alloc: Global,
    state: &mut State,
    op: &PoolOp,
) -> Result<Prepared, OpFault>
    ensures told { MemoryLast OutOfMemory (pool_effect state.old.rows op.now) (seen (done_on state.old.rows) result) }
    ensures room { IfOk result (λ prepared. CanDo state.new prepared.edit) }
    ensures exact { IfOk result (λ prepared. IsExact state.old.rows prepared.edit) }
    ensures rows { state.new.rows ≡ state.old.rows }
{
    match op {
        PoolOp::List(_) | PoolOp::Get(_) => read_pools(alloc, state, op),
        PoolOp::Add(input) => pool_added(alloc, state, input),
        PoolOp::Change(name, input) => pool_changed(alloc, state, name, input),
        PoolOp::Delete(name) => pool_deleted(alloc, state, name),
    }
}

/// What an operation that only reads tells of the pools.
pub(crate) fn read_pools(alloc: Global, state: &State, op: &PoolOp) -> Result<Prepared, OpFault>
    requires { reads_only (endpoint_of op.now) ≡ true }
    ensures told { MemoryLast OutOfMemory (pool_effect state.now.rows op.now) (seen (done_on state.now.rows) result) }
    ensures room { IfOk result (λ prepared. CanDo state.now prepared.edit) }
    ensures exact { IfOk result (λ prepared. IsExact state.now.rows prepared.edit) }
{
    match op {
        PoolOp::List(asked) => listed_pools(alloc, state, asked),
        PoolOp::Get(name) => got_pool(alloc, state, name),
        PoolOp::Add(_) | PoolOp::Change(_, _) | PoolOp::Delete(_) => unreachable!(),
    }
}

/// Whether an operation changes the pools, where it is not refused. It takes no memory to tell.
pub(crate) fn would_change_pools(state: &State, op: &PoolOp) -> bool
    ensures { ChangesWhereDone (pool_effect state.now.rows op.now) result }
{
    match op {
        PoolOp::List(_) | PoolOp::Get(_) => false,
        PoolOp::Add(Ok(_)) | PoolOp::Delete(_) => true,
        PoolOp::Change(name, Ok(slots)) => would_set(state, name, *slots),
        PoolOp::Add(Err(_)) | PoolOp::Change(_, Err(_)) => false,
    }
}

/// Whether a pool has not these slots, where it is there.
fn would_set(state: &State, name: &PoolName, slots: u32) -> bool
    ensures { ChangesWhereDone (pool_changed state.now.rows name.now (Ok slots)) result }
{
    match state.pool(name) {
        Some(pool) => pool.slots != slots,
        None => false,
    }
}

fn listed_pools(
    alloc: Global,
    state: &State,
    asked: &Result<Window, Parameter>,
) -> Result<Prepared, OpFault>
    ensures told { MemoryLast OutOfMemory (listed_pools state.now.rows asked.now) (seen (done_on state.now.rows) result) }
    ensures room { IfOk result (λ prepared. CanDo state.now prepared.edit) }
    ensures exact { IfOk result (λ prepared. IsExact state.now.rows prepared.edit) }
{
    let window = window_or(asked)?;
    let body = pools_text(alloc, state, window)?;
    Ok(Prepared::of(body, Edit::Nothing))
}

/// The text of a page of the pools.
fn pools_text(alloc: Global, state: &State, window: Window) -> Result<Vec<u8>, AllocError>
    ensures { IfOk result (λ body. body.items ≡ compact_text (pools_data window state.now.rows)) }
{
    let all = state.pools();
    let held = state.each_held(alloc, window.limit(), window.offset())?;
    let told = each_told(alloc, cut(all, window), held.as_slice())?;
    let body = rows_text(alloc, "pools", told.as_slice(), all.len())?;
    Ok(body)
}

/// Pools, each with what instances hold of it, borrowed. `AllocError` only where a growth was refused.
fn each_told<'a>(
    alloc: Global,
    pools: &'a [Pool],
    held: &[Held],
) -> Result<Vec<PoolRow<'a>>, AllocError>
    ensures { IfOk result (λ told. told.items ≡ listed pools.now held.now) }
{
    let mut all = Vec::with_capacity(alloc, pools.len())?;
    for place in 0..pools.len().min(held.len()) {
        all.push(beside(&pools[place], &held[place]))?;
    }
    Ok(all)
}

fn beside<'a>(pool: &'a Pool, held: &Held) -> PoolRow<'a>
    ensures { result ≡ record { name = pool.now.name; slots = pool.now.slots; held = held.now } }
{
    PoolRow {
        name: &pool.name,
        slots: pool.slots,
        held: *held,
    }
}

/// A pool of this name and these slots, with what instances hold of it, borrowed.
fn told<'a>(state: &State, name: &'a PoolName, slots: u32) -> PoolRow<'a>
    ensures { result ≡ pool_told state.now.rows name.now slots }
{
    PoolRow {
        name,
        slots,
        held: state.held(name),
    }
}

fn pool_added(
    alloc: Global,
    state: &mut State,
    input: &Result<Pool, BodyFault>,
) -> Result<Prepared, OpFault>
    ensures told { MemoryLast OutOfMemory (pool_added state.old.rows input.now) (seen (done_on state.old.rows) result) }
    ensures room { IfOk result (λ prepared. CanDo state.new prepared.edit) }
    ensures exact { IfOk result (λ prepared. IsExact state.old.rows prepared.edit) }
    ensures rows { state.new.rows ≡ state.old.rows }
{
    let pool = added_or(input)?;
    unless_fault(state.add_pool_fault(&pool.name, u64::from(pool.slots)))?;
    let prepared = new_pool(alloc, state, pool)?;
    Ok(prepared)
}

/// A pool that may be added, with room for it, and the text of its reply.
fn new_pool(alloc: Global, state: &mut State, pool: &Pool) -> Result<Prepared, AllocError>
    requires free { add_fault state.old.rows.pools pool.now.name pool.now.slots ≡ None }
    ensures told { IfOk result (λ prepared. done_on state.old.rows prepared ≡ adding state.old.rows pool.now) }
    ensures room { IfOk result (λ prepared. CanDo state.new prepared.edit) }
    ensures exact { IfOk result (λ prepared. IsExact state.old.rows prepared.edit) }
    ensures rows { state.new.rows ≡ state.old.rows }
{
    state.reserve_pools(1)?;
    let body = row_text(alloc, &told(state, &pool.name, pool.slots))?;
    let name = pool.name.copied(alloc)?;
    Ok(Prepared::of(body, Edit::PoolAdded(name, pool.slots)))
}

fn got_pool(alloc: Global, state: &State, name: &PoolName) -> Result<Prepared, OpFault>
    ensures told { MemoryLast OutOfMemory (got_pool state.now.rows name.now) (seen (done_on state.now.rows) result) }
    ensures room { IfOk result (λ prepared. CanDo state.now prepared.edit) }
    ensures exact { IfOk result (λ prepared. IsExact state.now.rows prepared.edit) }
{
    let pool = pool_or(state, name)?;
    let body = row_text(alloc, &told(state, &pool.name, pool.slots))?;
    Ok(Prepared::of(body, Edit::Nothing))
}

fn pool_changed(
    alloc: Global,
    state: &State,
    name: &PoolName,
    input: &Result<u32, BodyFault>,
) -> Result<Prepared, OpFault>
    ensures told { MemoryLast OutOfMemory (pool_changed state.now.rows name.now input.now) (seen (done_on state.now.rows) result) }
    ensures room { IfOk result (λ prepared. CanDo state.now prepared.edit) }
    ensures exact { IfOk result (λ prepared. IsExact state.now.rows prepared.edit) }
{
    let slots = slots_or(input)?;
    let pool = settable(state, name, slots)?;
    let body = row_text(alloc, &told(state, &pool.name, slots))?;
    let edit = set_edit(alloc, pool, name, slots)?;
    Ok(Prepared::of(body, edit))
}

/// The edit that gives a pool these slots: nothing where it has them.
fn set_edit(alloc: Global, pool: &Pool, name: &PoolName, slots: u32) -> Result<Edit, AllocError>
    ensures { IfOk result (λ edit. edit ≡ (if pool.now.slots == slots then Nothing else PoolSet name.now slots)) }
{
    if pool.slots == slots {
        return Ok(Edit::Nothing);
    }
    let name = name.copied(alloc)?;
    Ok(Edit::PoolSet(name, slots))
}

fn pool_deleted(alloc: Global, state: &State, name: &PoolName) -> Result<Prepared, OpFault>
    ensures told { MemoryLast OutOfMemory (pool_deleted state.now.rows name.now) (seen (done_on state.now.rows) result) }
    ensures room { IfOk result (λ prepared. CanDo state.now prepared.edit) }
    ensures exact { IfOk result (λ prepared. IsExact state.now.rows prepared.edit) }
{
    unless_fault(state.remove_pool_fault(name))?;
    let name = name.copied(alloc)?;
    Ok(Prepared::without_reply(Edit::PoolRemoved(name)))
}

/// The pool of a name.
fn pool_or<'a>(state: &'a State, name: &PoolName) -> Result<&'a Pool, OpFault>
    ensures { seen (λ pool. pool.now) result ≡ pool_or state.now.rows name.now }
{
    state.pool(name).ok_or(OpFault::NoSuchPool)
}

/// The pool of a name, where it may have these slots.
fn settable<'a>(state: &'a State, name: &PoolName, slots: u32) -> Result<&'a Pool, OpFault>
    ensures told { seen (λ pool. pool.now) result ≡ settable state.now.rows name.now slots }
    ensures free { IsOk result → set_fault state.now.rows.pools name.now slots ≡ None }
{
    unless_fault(state.set_slots_fault(name, u64::from(slots)))?;
    pool_or(state, name)
}

/// The pool that was read of a body.
fn added_or(input: &Result<Pool, BodyFault>) -> Result<&Pool, OpFault>
    ensures { seen (λ pool. pool.now) result ≡ input_or input.now }
{
    match input {
        Ok(pool) => Ok(pool),
        Err(why) => Err(input_fault(*why)),
    }
}

/// The slots that were read of a body.
fn slots_or(input: &Result<u32, BodyFault>) -> Result<u32, OpFault>
    ensures { result ≡ input_or input.now }
{
    match input {
        Ok(slots) => Ok(*slots),
        Err(why) => Err(input_fault(*why)),
    }
}

fn unless_fault(fault: Option<PoolFault>) -> Result<(), OpFault>
    ensures { result ≡ unless_fault fault }
{
    match fault {
        Some(why) => Err(told_fault(why)),
        None => Ok(()),
    }
}

/// How the fault of a change of pools is told.
fn told_fault(why: PoolFault) -> OpFault
    ensures { result ≡ told_fault why }
{
    match why {
        PoolFault::BadSlots => OpFault::BadMember(Member::Slots),
        PoolFault::NoSuchPool => OpFault::NoSuchPool,
        PoolFault::Exists => OpFault::Exists,
        PoolFault::DefaultPool => OpFault::DefaultPool,
        PoolFault::InUse => OpFault::InUse,
        PoolFault::Full => OpFault::TooMany,
        PoolFault::OutOfMemory => OpFault::OutOfMemory,
    }
}
