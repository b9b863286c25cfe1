// What a row of the table stands for, of those on pools and variables.
ghost use Rattle.std.specs.Prelude.{◌≡◌, [], IfOk, IsErr, IsSome, Some, map, string_bytes};
ghost use Rattle.af_ops.specs.declared.endpoint.Endpoint.TheVariants.{AddPool, AddVariable, ChangePool, ChangeVariable, DeletePool, DeleteVariable, GetPool, GetVariable, ListPools, ListVariables};
ghost use Rattle.af_ops.specs.Calls.{IsRead, call_of_row};

use crate::call::Call;
use crate::op::Op;
use crate::parts::first_name;
use crate::pool_op::PoolOp;
use crate::row_bodies::{read_pool, read_slots, read_value, read_variable};
use crate::variable_op::VariableOp;
use af_listing::Window;
use json::Scratch;
use std::alloc::{AllocError, Global};

/// A page of the pools.
pub(crate) fn list_pools(query: &[u8]) -> Call
    ensures { IsRead (call_of_row ListPools [] query.now []) (Some result) }
{
    Call::State(Op::Pool(PoolOp::List(Window::read(query))))
}

/// A pool is added.
pub(crate) fn add_pool(alloc: Global, body: &[u8], scratch: &mut Scratch) -> Call
    ensures { IsRead (call_of_row AddPool [] [] body.now) (Some result) }
{
    Call::State(Op::Pool(PoolOp::Add(read_pool(alloc, body, scratch))))
}

/// One pool.
pub(crate) fn get_pool(alloc: Global, parts: &[String]) -> Result<Option<Call>, AllocError>
    ensures ok { IfOk result (λ found. IsRead (call_of_row GetPool (map (λ part. string_bytes part) parts.now) [] []) found) }
    ensures memory { IsErr result → IsSome (call_of_row GetPool (map (λ part. string_bytes part) parts.now) [] []) }
{
    let Some(name) = first_name(alloc, parts)? else {
        return Ok(None);
    };
    Ok(Some(Call::State(Op::Pool(PoolOp::Get(name)))))
}

/// A pool gets other slots.
pub(crate) fn change_pool(
    alloc: Global,
    parts: &[String],
    body: &[u8],
    scratch: &mut Scratch,
) -> Result<Option<Call>, AllocError>
    ensures ok { IfOk result (λ found. IsRead (call_of_row ChangePool (map (λ part. string_bytes part) parts.now) [] body.now) found) }
    ensures memory { IsErr result → IsSome (call_of_row ChangePool (map (λ part. string_bytes part) parts.now) [] body.now) }
{
    let Some(name) = first_name(alloc, parts)? else {
        return Ok(None);
    };
    Ok(Some(Call::State(Op::Pool(PoolOp::Change(name, read_slots(alloc, body, scratch))))))
}

/// A pool is deleted.
pub(crate) fn delete_pool(alloc: Global, parts: &[String]) -> Result<Option<Call>, AllocError>
    ensures ok { IfOk result (λ found. IsRead (call_of_row DeletePool (map (λ part. string_bytes part) parts.now) [] []) found) }
    ensures memory { IsErr result → IsSome (call_of_row DeletePool (map (λ part. string_bytes part) parts.now) [] []) }
{
    let Some(name) = first_name(alloc, parts)? else {
        return Ok(None);
    };
    Ok(Some(Call::State(Op::Pool(PoolOp::Delete(name)))))
}

/// A page of the variables.
pub(crate) fn list_variables(query: &[u8]) -> Call
    ensures { IsRead (call_of_row ListVariables [] query.now []) (Some result) }
{
    Call::State(Op::Variable(VariableOp::List(Window::read(query))))
}

/// A variable is added.
pub(crate) fn add_variable(alloc: Global, body: &[u8], scratch: &mut Scratch) -> Call
    ensures { IsRead (call_of_row AddVariable [] [] body.now) (Some result) }
{
    Call::State(Op::Variable(VariableOp::Add(read_variable(alloc, body, scratch))))
}

/// One variable.
pub(crate) fn get_variable(alloc: Global, parts: &[String]) -> Result<Option<Call>, AllocError>
    ensures ok { IfOk result (λ found. IsRead (call_of_row GetVariable (map (λ part. string_bytes part) parts.now) [] []) found) }
    ensures memory { IsErr result → IsSome (call_of_row GetVariable (map (λ part. string_bytes part) parts.now) [] []) }
{
    let Some(key) = first_name(alloc, parts)? else {
        return Ok(None);
    };
    Ok(Some(Call::State(Op::Variable(VariableOp::Get(key)))))
}

/// A variable gets another text.
pub(crate) fn change_variable(
    alloc: Global,
    parts: &[String],
    body: &[u8],
    scratch: &mut Scratch,
) -> Result<Option<Call>, AllocError>
    ensures ok { IfOk result (λ found. IsRead (call_of_row ChangeVariable (map (λ part. string_bytes part) parts.now) [] body.now) found) }
    ensures memory { IsErr result → IsSome (call_of_row ChangeVariable (map (λ part. string_bytes part) parts.now) [] body.now) }
{
    let Some(key) = first_name(alloc, parts)? else {
        return Ok(None);
    };
    Ok(Some(Call::State(Op::Variable(VariableOp::Change(key, read_value(alloc, body, scratch))))))
}

/// A variable is deleted.
pub(crate) fn delete_variable(alloc: Global, parts: &[String]) -> Result<Option<Call>, AllocError>
    ensures ok { IfOk result (λ found. IsRead (call_of_row DeleteVariable (map (λ part. string_bytes part) parts.now) [] []) found) }
    ensures memory { IsErr result → IsSome (call_of_row DeleteVariable (map (λ part. string_bytes part) parts.now) [] []) }
{
    let Some(key) = first_name(alloc, parts)? else {
        return Ok(None);
    };
    Ok(Some(Call::State(Op::Variable(VariableOp::Delete(key)))))
}
