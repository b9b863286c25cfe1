ghost use Rattle.std.specs.Prelude.{◌≡◌, IfOk, true};
ghost use Rattle.std.specs.List.{list_all};
ghost use Rattle.json.specs.Run.{is_plain};
ghost use Rattle.af_ops.specs.Events.{variable_event};
ghost use Rattle.af_ops.specs.VariableOps.{added_key, endpoint_of, key_of};

use crate::body_fault::BodyFault;
use crate::endpoint::Endpoint;
use af_listing::Window;
use af_names::VarKey;
use af_policy::Parameter;
use af_vars::{VarText, Variable};
use std::alloc::{AllocError, Global};

/// An operation on variables: the key of its path, and what was read of its query or of its body, where it reads one.
pub enum VariableOp {
    /// A page of the variables.
    List(Result<Window, Parameter>),
    /// A variable is added.
    Add(Result<Variable, BodyFault>),
    /// One variable.
    Get(VarKey),
    /// A variable gets another text.
    Change(VarKey, Result<VarText, BodyFault>),
    /// A variable is deleted.
    Delete(VarKey),
}

impl Drop for VariableOp {
    fn drop(self) {
        match self {
            VariableOp::List(_) => {}
            VariableOp::Add(_) => {}
            VariableOp::Get(_) => {}
            VariableOp::Change(_, _) => {}
            VariableOp::Delete(_) => {}
        }
    }
}

impl VariableOp {
    /// Its endpoint.
    pub fn endpoint(&self) -> Endpoint
        ensures { result ≡ endpoint_of self.now }
    {
        match self {
            VariableOp::List(_) => Endpoint::ListVariables,
            VariableOp::Add(_) => Endpoint::AddVariable,
            VariableOp::Get(_) => Endpoint::GetVariable,
            VariableOp::Change(_, _) => Endpoint::ChangeVariable,
            VariableOp::Delete(_) => Endpoint::DeleteVariable,
        }
    }

    /// The key of the variable that it is about, in its path or in its body; no text where there is none.
    pub fn key(&self) -> &str
        ensures { result.now ≡ key_of self.now }
    {
        match self {
            VariableOp::List(_) => "",
            VariableOp::Add(input) => added_key(input),
            VariableOp::Get(key) => key.as_str(),
            VariableOp::Change(key, _) => key.as_str(),
            VariableOp::Delete(key) => key.as_str(),
        }
    }

    /// The name of its event, of which no byte wants an escape; empty for one that never changes anything.
    pub(crate) fn event(&self) -> &'static str
        ensures name { result.now ≡ variable_event self.now }
        ensures plain { list_all is_plain result.now ≡ true }
    {
        match self {
            VariableOp::Add(_) => "post_variable",
            VariableOp::Change(_, _) => "patch_variable",
            VariableOp::Delete(_) => "delete_variable",
            VariableOp::List(_) | VariableOp::Get(_) => "",
        }
    }

    /// The same operation again. `AllocError` only where a growth was refused.
    pub(crate) fn copied(&self, alloc: Global) -> Result<VariableOp, AllocError>
        ensures { IfOk result (λ copy. copy ≡ self.now) }
    {
        match self {
            VariableOp::List(asked) => Ok(VariableOp::List(*asked)),
            VariableOp::Add(input) => Ok(VariableOp::Add(copied_variable(alloc, input)?)),
            VariableOp::Get(key) => Ok(VariableOp::Get(key.copied(alloc)?)),
            VariableOp::Change(key, input) => {
                let key = key.copied(alloc)?;
                Ok(VariableOp::Change(key, copied_value(alloc, input)?))
            }
            VariableOp::Delete(key) => Ok(VariableOp::Delete(key.copied(alloc)?)),
        }
    }
}

fn added_key(input: &Result<Variable, BodyFault>) -> &str
    ensures { result.now ≡ added_key input.now }
{
    match input {
        Ok(variable) => variable.key.as_str(),
        Err(_) => "",
    }
}

/// What was read of a body that adds a variable, again.
fn copied_variable(
    alloc: Global,
    input: &Result<Variable, BodyFault>,
) -> Result<Result<Variable, BodyFault>, AllocError>
    ensures { IfOk result (λ copy. copy ≡ input.now) }
{
    match input {
        Ok(variable) => Ok(Ok(variable.copied(alloc)?)),
        Err(fault) => Ok(Err(*fault)),
    }
}

/// What was read of a body that changes a variable, again.
fn copied_value(
    alloc: Global,
    input: &Result<VarText, BodyFault>,
) -> Result<Result<VarText, BodyFault>, AllocError>
    ensures { IfOk result (λ copy. copy ≡ input.now) }
{
    match input {
        Ok(value) => Ok(Ok(value.copied(alloc)?)),
        Err(fault) => Ok(Err(*fault)),
    }
}
