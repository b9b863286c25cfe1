ghost use Rattle.std.specs.Prelude.{◌≡◌, ◌+◌, Err, IfErr, OnErr, OnOk, false, length, true};
ghost use Rattle.af_audit.specs.declared.act.Act.TheVariants.{Did};
ghost use Rattle.af_audit.specs.declared.actor.Actor.TheVariants.{User};
ghost use Rattle.af_audit.specs.Entries.{has_room, with_entry};

use crate::act::Act;
use crate::actor::Actor;
use crate::audit::Audit;
use af_names::{Instant, UserName};
use af_ops::{Op, OpFault};
use std::alloc::Global;

/// Adds the entry of a user's operation. A full history is told before memory is wanted; a fault leaves the audit as it was.
pub(crate) fn record(
    alloc: Global,
    audit: &mut Audit,
    user: &UserName,
    version: u32,
    op: &Op,
    now: Instant,
) -> Result<(), OpFault>
    ensures ok { OnOk result (audit.new ≡ with_entry audit.old (record {
      seq = length audit.old.entries + 1;
      moment = now;
      actor = User user.now;
      version = version;
      act = Did op.now;
    })) }
    ensures room { OnOk result (has_room audit.old ≡ true) }
    ensures full { has_room audit.old ≡ false → result ≡ Err OpFault.HistoryFull }
    ensures fault { has_room audit.old ≡ true → IfErr result (λ fault. fault ≡ OpFault.OutOfMemory) }
    ensures err { OnErr result (audit.new ≡ audit.old) }
{
    if !audit.has_room() {
        return Err(OpFault::HistoryFull);
    }
    let actor = Actor::User(user.copied(alloc)?);
    let act = Act::Did(op.copied(alloc)?);
    audit.enter(now, actor, version, act)?;
    Ok(())
}
