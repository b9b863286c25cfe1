ghost use Rattle.std.specs.Prelude.{◌≡◌, ◌⊎◌, ◌<◌, ◌+◌, true, Err, IfOk, length};
ghost use Rattle.std.specs.Option.{option_copied};
ghost use Rattle.af_policy.specs.Versions.{Follows, decided_wants, submitted};
ghost use Rattle.af_ops.specs.PolicyServed.{IsPolicyServed, IsVerdictServed};
ghost use Rattle.af_ops.specs.PolicyVerdicts.{Publishes, asked_text};

use crate::versions::Versions;
use af_ops::{
    PolicyOp, Served, asked_text, serve_fault, serve_me, serve_read, serve_unread, shown_made,
};
use af_policy::{Ask, Decision, Policy, Presented, Refusal};
use std::alloc::Global;

/// Answers an operation on the policy for who holds the token, under the latest version, and makes the version that it asks for. The
/// text of the reply is made before that, so no reply is lost.
pub fn answer_policy(
    alloc: Global,
    versions: &mut Versions,
    token: Option<&[u8]>,
    asked: &PolicyOp,
) -> Served
    ensures served { IsPolicyServed asked.now versions.old (option_copied token.entry) result versions.new }
{
    let presented = Presented::of(token);
    answer_presented(alloc, versions, presented.as_ref(), asked)
}

/// The same, for a token that is hashed.
fn answer_presented(
    alloc: Global,
    versions: &mut Versions,
    token: Option<&Presented<'_>>,
    asked: &PolicyOp,
) -> Served
    ensures served { IsPolicyServed asked.now versions.old (option_copied token.entry) result versions.new }
{
    match asked {
        PolicyOp::Me => serve_me(alloc, versions.latest(), versions.current(), token),
        PolicyOp::Read(asked) => {
            serve_read(alloc, versions.latest(), versions.current(), token, asked)
        }
        PolicyOp::Change(ask) => answer_change(alloc, versions, token, ask),
        PolicyOp::Unread(kind) => {
            serve_unread(alloc, versions.latest(), versions.current(), token, *kind)
        }
    }
}

/// Makes the version that is asked for, or reports why there is none.
fn answer_change(
    alloc: Global,
    versions: &mut Versions,
    token: Option<&Presented<'_>>,
    ask: &Ask,
) -> Served
    ensures served { IsPolicyServed (PolicyOp.Change ask.now) versions.old (option_copied token.entry) result versions.new }
{
    match submitted(alloc, versions, token, ask) {
        Ok(later) => make(alloc, versions, ask, later),
        Err(fault) => serve_fault(alloc, ask, &fault, versions.current()),
    }
}

/// The policy that a change makes of the latest, where a version is left for it. Out of memory is given only where the change is
/// permitted and may want it, and then also in the place of `Full`.
fn submitted(
    alloc: Global,
    versions: &Versions,
    token: Option<&Presented<'_>>,
    ask: &Ask,
) -> Result<Policy, Refusal>
    ensures told { (result ≡ submitted versions.now (option_copied token.entry) ask.now) ⊎ (result ≡ Err Refusal.OutOfMemory) }
    ensures memory { result ≡ Err Refusal.OutOfMemory → decided_wants versions.now.latest (option_copied token.entry) ask.now ≡ true }
    ensures follows { IfOk result (λ later. Follows versions.now.latest later) }
    ensures room { IfOk result (λ later. length versions.now.earlier < versions.now.last) }
{
    let Decision { policy, .. } = versions.latest().decide(alloc, token, ask)?;
    if versions.is_full() {
        return Err(Refusal::Full);
    }
    Ok(policy)
}

/// Puts the policy that a change left behind the latest, and reports it.
fn make(alloc: Global, versions: &mut Versions, ask: &Ask, later: Policy) -> Served
    requires follows { Follows versions.old.latest later }
    requires room { length versions.old.earlier < versions.old.last }
    ensures served { IsVerdictServed (Publishes (asked_text (length versions.old.earlier + 1) later ask.now) later) versions.old result versions.new }
{
    let version = u64::from(versions.current()) + 1;
    let Ok(reply) = asked_text(alloc, &later, ask, version) else {
        return Served::NothingDone;
    };
    match versions.publish(later) {
        Ok(()) => Served::Shown(shown_made(versions.current(), reply)),
        Err(_) => Served::NothingDone,
    }
}
