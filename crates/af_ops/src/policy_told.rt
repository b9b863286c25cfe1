// What is told of who brings a token, and of roles and users, or why that is refused, which is yet to be told.
ghost use Rattle.std.specs.Prelude.{◌≡◌, Err, IfErr, IfOk, Ok, Some};
ghost use Rattle.std.specs.Option.{option_copied};
ghost use Rattle.af_policy.specs.Reads.{MemoryLast, me_of, read_of};
ghost use Rattle.af_ops.specs.PolicyServed.{told_of};
ghost use Rattle.af_ops.specs.PolicyVerdicts.{me_verdict, read_verdict};

use crate::me_text::me_text;
use crate::policy_reply::shown_told;
use crate::policy_text::reply_text;
use crate::shown_answer::Shown;
use af_policy::{Me, MeFault, Policy, PolicyRead, Presented, ReadFault};
use std::alloc::{AllocError, Global};

/// Who brings a token, under a policy, which is the version of this number.
pub(crate) fn me_told(
    alloc: Global,
    policy: &Policy,
    version: u32,
    token: Option<&Presented<'_>>,
) -> Result<Shown, MeFault>
    ensures told { IfOk result (λ shown. told_of version (me_verdict version (me_of policy.now (option_copied token.entry))) ≡ Some shown) }
    ensures refused { IfErr result (λ fault. MemoryLast MeFault.OutOfMemory (me_of policy.now (option_copied token.entry)) (Err fault)) }
{
    match policy.me(alloc, token) {
        Ok(me) => match shown_me(alloc, &me, version) {
            Ok(shown) => Ok(shown),
            Err(_) => Err(MeFault::OutOfMemory),
        },
        Err(fault) => Err(fault),
    }
}

fn shown_me(alloc: Global, me: &Me<'_>, version: u32) -> Result<Shown, AllocError>
    ensures { IfOk result (λ shown. Some shown ≡ told_of version (me_verdict version (Ok me.now))) }
{
    let text = me_text(alloc, me, version)?;
    Ok(shown_told(version, text))
}

/// Roles or users, under a policy, which is the version of this number.
pub(crate) fn read_told(
    alloc: Global,
    policy: &Policy,
    version: u32,
    token: Option<&Presented<'_>>,
    asked: &PolicyRead,
) -> Result<Shown, ReadFault>
    ensures told { IfOk result (λ shown. told_of version (read_verdict asked.now (read_of policy.now (option_copied token.entry) asked.now)) ≡ Some shown) }
    ensures refused { IfErr result (λ fault. MemoryLast ReadFault.OutOfMemory (read_of policy.now (option_copied token.entry) asked.now) (Err fault)) }
{
    match policy.read(alloc, token, asked) {
        Ok(reply) => match reply_text(alloc, &reply) {
            Ok(text) => Ok(shown_told(version, text)),
            Err(_) => Err(ReadFault::OutOfMemory),
        },
        Err(fault) => Err(fault),
    }
}
