ghost use Rattle.std.specs.Prelude.{◌≡◌, IfOk, true};
ghost use Rattle.std.specs.List.{list_all};
ghost use Rattle.json.specs.Run.{is_plain};
ghost use Rattle.af_ops.specs.Events.{pool_event};
ghost use Rattle.af_ops.specs.PoolOps.{added_name, endpoint_of, name_of};

use crate::body_fault::BodyFault;
use crate::endpoint::Endpoint;
use af_listing::Window;
use af_names::PoolName;
use af_policy::Parameter;
use af_pool::Pool;
use std::alloc::{AllocError, Global};

/// An operation on pools: the name of its path, and what was read of its query or of its body, where it reads one.
pub enum PoolOp {
    /// A page of the pools.
    List(Result<Window, Parameter>),
    /// A pool is added.
    Add(Result<Pool, BodyFault>),
    /// One pool.
    Get(PoolName),
    /// A pool gets other slots.
    Change(PoolName, Result<u32, BodyFault>),
    /// A pool is deleted.
    Delete(PoolName),
}

impl Drop for PoolOp {
    fn drop(self) {
        match self {
            PoolOp::List(_) => {}
            PoolOp::Add(_) => {}
            PoolOp::Get(_) => {}
            PoolOp::Change(_, _) => {}
            PoolOp::Delete(_) => {}
        }
    }
}

impl PoolOp {
    /// Its endpoint.
    pub fn endpoint(&self) -> Endpoint
        ensures { result ≡ endpoint_of self.now }
    {
        match self {
            PoolOp::List(_) => Endpoint::ListPools,
            PoolOp::Add(_) => Endpoint::AddPool,
            PoolOp::Get(_) => Endpoint::GetPool,
            PoolOp::Change(_, _) => Endpoint::ChangePool,
            PoolOp::Delete(_) => Endpoint::DeletePool,
        }
    }

    /// The name of the pool that it is about, in its path or in its body; no text where there is none.
    pub fn name(&self) -> &str
        ensures { result.now ≡ name_of self.now }
    {
        match self {
            PoolOp::List(_) => "",
            PoolOp::Add(input) => added_name(input),
            PoolOp::Get(name) => name.as_str(),
            PoolOp::Change(name, _) => name.as_str(),
            PoolOp::Delete(name) => name.as_str(),
        }
    }

    /// The name of its event, of which no byte wants an escape; empty for one that never changes anything.
    pub(crate) fn event(&self) -> &'static str
        ensures name { result.now ≡ pool_event self.now }
        ensures plain { list_all is_plain result.now ≡ true }
    {
        match self {
            PoolOp::Add(_) => "post_pool",
            PoolOp::Change(_, _) => "patch_pool",
            PoolOp::Delete(_) => "delete_pool",
            PoolOp::List(_) | PoolOp::Get(_) => "",
        }
    }

    /// The same operation again. `AllocError` only where a growth was refused.
    pub(crate) fn copied(&self, alloc: Global) -> Result<PoolOp, AllocError>
        ensures { IfOk result (λ copy. copy ≡ self.now) }
    {
        match self {
            PoolOp::List(asked) => Ok(PoolOp::List(*asked)),
            PoolOp::Add(input) => Ok(PoolOp::Add(copied_pool(alloc, input)?)),
            PoolOp::Get(name) => Ok(PoolOp::Get(name.copied(alloc)?)),
            PoolOp::Change(name, input) => Ok(PoolOp::Change(name.copied(alloc)?, *input)),
            PoolOp::Delete(name) => Ok(PoolOp::Delete(name.copied(alloc)?)),
        }
    }
}

fn added_name(input: &Result<Pool, BodyFault>) -> &str
    ensures { result.now ≡ added_name input.now }
{
    match input {
        Ok(pool) => pool.name.as_str(),
        Err(_) => "",
    }
}

/// What was read of a body that adds a pool, again.
fn copied_pool(
    alloc: Global,
    input: &Result<Pool, BodyFault>,
) -> Result<Result<Pool, BodyFault>, AllocError>
    ensures { IfOk result (λ copy. copy ≡ input.now) }
{
    match input {
        Ok(pool) => {
            let name = pool.name.copied(alloc)?;
            Ok(Ok(Pool {
                name,
                slots: pool.slots,
            }))
        }
        Err(fault) => Ok(Err(*fault)),
    }
}
