ghost use Rattle.std.specs.Prelude.{◌≡◌, ◌≤◌, ◌+◌, [], ◌∷◌, ◌++◌, length, Err, OnErr, OnOk, false, true};
ghost use Rattle.af_audit.specs.Entries.{AreNumbered, AuditRows, has_room, next_seq, with_entry};
ghost use Rattle.af_audit.specs.declared.entry.Entry.{Entry};

use crate::act::Act;
use crate::actor::Actor;
use crate::audit_fault::AuditFault;
use crate::entry::Entry;
use af_names::Instant;
use std::alloc::Global;
use std::marker::Model;

/// The entries, in the order in which they were made, at most so many. Their numbers go from 1 without gaps.
pub struct Audit {
    entries: Vec<Entry>,
    limit: u32,
}

impl Drop for Audit {
    fn drop(self) {
        let Audit {
            entries: _,
            limit: _,
        } = self;
    }
}

impl Model for Audit {
    ghost use Rattle.af_audit.specs.Entries.{AuditRows, IsAudit};

    ghost Value = { AuditRows };

    ghost view = { λ audit. record { entries = audit.entries.items; limit = audit.limit } };

    ghost invariant = { λ audit. IsAudit (record { entries = audit.entries.items; limit = audit.limit }) };
}

impl Audit {
    /// No entries, and room for so many. It takes no memory.
    pub fn new(alloc: Global, limit: u32) -> Audit
        ensures { result ≡ record { entries = []; limit = limit } }
    {
        Audit {
            entries: Vec::new(alloc),
            limit,
        }
    }

    /// The entries, in the order of their numbers.
    pub fn entries(&self) -> &[Entry]
        ensures entries { result.now ≡ self.now.entries }
        ensures numbered { AreNumbered self.now.entries }
    {
        self.entries.as_slice()
    }

    /// The most entries that there may be.
    pub fn limit(&self) -> u32
        ensures { result ≡ self.now.limit }
    {
        self.limit
    }

    /// How many entries there are.
    pub fn count(&self) -> u32
        ensures count { result ≡ length self.now.entries }
        ensures within { length self.now.entries ≤ self.now.limit }
    {
        let _limit = self.limit;
        self.entries.len() as u32
    }

    /// The number of the next entry, or none where there are as many as there may be.
    pub fn next_seq(&self) -> Option<u32>
        ensures { result ≡ next_seq self.now }
    {
        let limit = self.limit;
        let count = self.count();
        if count < limit { Some(count + 1) } else { None }
    }

    /// Whether there may be one entry more.
    pub fn has_room(&self) -> bool
        ensures { result ≡ has_room self.now }
    {
        self.count() < self.limit
    }

    /// Adds an entry, whose number is the next one. `HistoryFull` exactly where there are as many as there may be;
    /// `OutOfMemory` only where a growth was refused. A fault leaves the audit as it was, and the entry is given up.
    pub fn push(&mut self, entry: Entry) -> Result<(), AuditFault>
        requires { entry.seq ≡ length self.old.entries + 1 }
        ensures ok { OnOk result (self.new ≡ with_entry self.old entry) }
        ensures room { OnOk result (has_room self.old ≡ true) }
        ensures full { has_room self.old ≡ false → result ≡ Err AuditFault.HistoryFull }
        ensures full_only { result ≡ Err AuditFault.HistoryFull → has_room self.old ≡ false }
        ensures err { OnErr result (self.new ≡ self.old) }
    {
        if self.count() >= self.limit {
            return Err(AuditFault::HistoryFull);
        }
        self.entries.push(entry)?;
        Ok(())
    }

    /// Adds the entry of an act of an actor at a moment, under a policy version and the next number. Its faults are those of
    /// `push`.
    pub fn enter(
        &mut self,
        moment: Instant,
        actor: Actor,
        version: u32,
        act: Act,
    ) -> Result<(), AuditFault>
        ensures ok { OnOk result (self.new ≡ with_entry self.old (record {
          seq = length self.old.entries + 1;
          moment = moment;
          actor = actor;
          version = version;
          act = act;
        })) }
        ensures room { OnOk result (has_room self.old ≡ true) }
        ensures full { has_room self.old ≡ false → result ≡ Err AuditFault.HistoryFull }
        ensures full_only { result ≡ Err AuditFault.HistoryFull → has_room self.old ≡ false }
        ensures err { OnErr result (self.new ≡ self.old) }
    {
        let Some(seq) = self.next_seq() else {
            return Err(AuditFault::HistoryFull);
        };
        self.push(Entry {
            seq,
            moment,
            actor,
            version,
            act,
        })
    }

    /// Takes the last entry out again, where its act was not done after all.
    pub(crate) fn take_back(&mut self)
        ensures { (audit : AuditRows) (entry : Entry) → self.old ≡ with_entry audit entry → self.new ≡ audit }
    {
        let count = self.entries.len();
        self.entries.truncate(count.saturating_sub(1));
    }
}
