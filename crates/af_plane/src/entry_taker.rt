ghost use Rattle.std.specs.Prelude.{OnOk};
ghost use Rattle.af_audit.specs.declared.entry.Entry.{Entry};

use af_audit::Entry;

/// What takes entries, one after another.
pub trait EntryTaker {
    /// Why an entry is not taken.
    type Refusal;

    /// How it is after it has taken an entry.
    ghost takes: { Self → Entry → Self → Type 0 };

    /// Takes an entry.
    fn take(&mut self, entry: &Entry) -> Result<(), Self::Refusal>
        ensures { OnOk result (takes self.old entry.now self.new) };
}
