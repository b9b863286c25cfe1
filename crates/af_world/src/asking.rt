// What is asked of the ledger under a policy, and of the versions of the policy. Each gives what is told, or `AllocError` where there
// was no memory; then nothing was done.
ghost use Rattle.std.specs.Prelude.{◌≡◌, ◌≤◌, IfOk, OnErr, OnOk, Some, length};
ghost use Rattle.std.specs.Option.{option_copied};
ghost use Rattle.af_policy.specs.Identity.{bearer_of};
ghost use Rattle.af_ops.specs.PolicyServed.{told_of, versions_after};
ghost use Rattle.af_ops.specs.PolicyVerdicts.{current, policy_verdict};
ghost use Rattle.af_ops.specs.Served.{answer_of};
ghost use Rattle.af_audit.specs.Answered.{ledger_left, standing_of, verdict_on};
ghost use Rattle.af_audit.specs.EventLogs.{entries_verdict, nameless};

use crate::policy_answering::answer_policy;
use crate::versions::Versions;
use af_audit::Ledger;
use af_audit::laws::verdicts_leave_one_ledger;
use af_listing::Window;
use af_names::Instant;
use af_ops::{Op, PolicyOp, Served, Shown};
use af_policy::{Parameter, Policy, Presented};
use std::alloc::{AllocError, Global};

/// Asks for an operation on the state with a token, at a moment.
pub(crate) fn ask_op(
    alloc: Global,
    ledger: &mut Ledger,
    policy: &Policy,
    token: Option<&[u8]>,
    op: &Op,
    now: Instant,
) -> Result<Shown, AllocError>
    ensures told { IfOk result (λ shown. answer_of op.now (standing_of ledger.old).under (verdict_on policy.now ledger.old (option_copied token.entry) op.now now) ≡ Some shown) }
    ensures left { OnOk result (ledger.new ≡ ledger_left (bearer_of policy.now (option_copied token.entry)) op.now now ledger.old (verdict_on policy.now ledger.old (option_copied token.entry) op.now now)) }
    ensures version { ledger.new.version ≡ ledger.old.version }
    ensures err { OnErr result (ledger.new ≡ ledger.old) }
{
    verdicts_leave_one_ledger();
    let presented = Presented::of(token);
    match ledger.answer(alloc, policy, presented.as_ref(), op, now) {
        Served::Shown(shown) => Ok(shown),
        Served::NothingDone => Err(AllocError),
    }
}

/// Asks for a page of the event logs with a token.
pub(crate) fn ask_logs(
    alloc: Global,
    ledger: &Ledger,
    policy: &Policy,
    token: Option<&[u8]>,
    window: &Result<Window, Parameter>,
) -> Result<Shown, AllocError>
    ensures { IfOk result (λ shown. answer_of nameless (standing_of ledger.now).under (entries_verdict policy.now ledger.now (option_copied token.entry) window.now) ≡ Some shown) }
{
    let presented = Presented::of(token);
    match ledger.entries(alloc, policy, presented.as_ref(), window) {
        Served::Shown(shown) => Ok(shown),
        Served::NothingDone => Err(AllocError),
    }
}

/// Asks for an operation on the policy with a token, under the latest version.
pub(crate) fn ask_policy(
    alloc: Global,
    versions: &mut Versions,
    token: Option<&[u8]>,
    asked: &PolicyOp,
) -> Result<Shown, AllocError>
    ensures told { IfOk result (λ shown. told_of (current versions.old) (policy_verdict versions.old (option_copied token.entry) asked.now) ≡ Some shown) }
    ensures left { OnOk result (versions.new ≡ versions_after (policy_verdict versions.old (option_copied token.entry) asked.now) versions.old) }
    ensures grown { length versions.old.earlier ≤ length versions.new.earlier }
    ensures err { OnErr result (versions.new ≡ versions.old) }
{
    match answer_policy(alloc, versions, token, asked) {
        Served::Shown(shown) => Ok(shown),
        Served::NothingDone => Err(AllocError),
    }
}
