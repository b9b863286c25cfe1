// What is told of what is done to the policy, or read of it.
ghost use Rattle.std.specs.Prelude.{◌≡◌, [], IfOk, Some, unwrap_or};
ghost use Rattle.af_ops.specs.PolicyOps.{synced_dag};
ghost use Rattle.af_ops.specs.PolicyServed.{reply_at};
ghost use Rattle.af_ops.specs.PolicyTexts.{change_text, made_text, sync_text};
ghost use Rattle.af_ops.specs.PolicyVerdicts.{asked_text};

use crate::answering::status_of;
use crate::body::Body;
use crate::me_text::SyncRow;
use crate::row::row_text;
use crate::shown_answer::Shown;
use crate::status::Status;
use af_policy::{Ask, Change, ChangeReply, Policy};
use std::alloc::{AllocError, Global};

/// The text of a change that left this policy as the version of that number; what is gone has none. `AllocError` only where a growth
/// was refused.
pub fn asked_text(
    alloc: Global,
    later: &Policy,
    ask: &Ask,
    version: u64,
) -> Result<Option<Body>, AllocError>
    ensures { IfOk result (λ reply. reply ≡ asked_text version later.now ask.now) }
{
    match ask {
        Ask::Made(change) => change_text(alloc, later, change, version),
        Ask::Bad(_, _) => Ok(None),
    }
}

fn change_text(
    alloc: Global,
    later: &Policy,
    change: &Change,
    version: u64,
) -> Result<Option<Body>, AllocError>
    ensures { IfOk result (λ reply. reply ≡ change_text version later.now change.now) }
{
    match later.reply(alloc, change)? {
        Some(told) => made_text(alloc, change, &told, version),
        None => Ok(None),
    }
}

fn made_text(
    alloc: Global,
    change: &Change,
    told: &ChangeReply<'_>,
    version: u64,
) -> Result<Option<Body>, AllocError>
    ensures { IfOk result (λ reply. reply ≡ made_text version change.now told.now) }
{
    match told {
        ChangeReply::Role(role) => Ok(Some(Body::of(row_text(alloc, role)?))),
        ChangeReply::User(user) => Ok(Some(Body::of(row_text(alloc, user)?))),
        ChangeReply::Gone => Ok(None),
        ChangeReply::Synced => Ok(Some(Body::of(sync_text(alloc, change, version)?))),
    }
}

fn sync_text(alloc: Global, change: &Change, version: u64) -> Result<Vec<u8>, AllocError>
    ensures { IfOk result (λ text. text.items ≡ sync_text version change.now) }
{
    let dag_id = synced_id(change);
    row_text(alloc, &SyncRow { dag_id, version })
}

/// The id of the DAG whose access control a change takes over, no text where it takes over none.
fn synced_id(change: &Change) -> &str
    ensures { result.now ≡ unwrap_or (synced_dag change.now) [] }
{
    match change {
        Change::SyncDag(access) => access.dag.as_str(),
        Change::AddRole(_) | Change::SetRole(_) | Change::DropRole(_) => "",
        Change::AddUser(_) | Change::SetUser(_) | Change::DropUser(_) => "",
    }
}

/// A text that is told under a version.
pub(crate) fn shown_told(version: u32, text: Vec<u8>) -> Shown
    ensures { result ≡ reply_at version (Some text.items) }
{
    Shown {
        status: Status::Ok,
        version: Some(version),
        seq: None,
        body: Some(Body::of(text)),
    }
}

/// What is told of a change, under the version that it made. It takes no memory.
pub fn shown_made(version: u32, reply: Option<Body>) -> Shown
    ensures { result ≡ reply_at version reply }
{
    Shown {
        status: status_of(&reply),
        version: Some(version),
        seq: None,
        body: reply,
    }
}
