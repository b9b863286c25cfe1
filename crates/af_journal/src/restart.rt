ghost use Rattle.std.specs.Prelude.{◌≡◌, ◌⊎◌, ◌++◌, IsTrue, IfOk};
ghost use Rattle.af_journal.specs.Lines.{entries_of, HasEntries};
ghost use Rattle.af_journal.specs.Shown.{MayLeave};

use crate::journal::Journal;
use crate::line::Line;
use crate::refusal::Refusal;
use sqlite_trees::store::Reopen;
use std::alloc::Global;

/// Crashes a disk that can be made to, and reads what it left.
fn crash_and_read<S: Reopen + Drop>(
    alloc: Global,
    journal: Journal<S>,
) -> Result<(Journal<S>, Vec<Line>), Refusal>
    ensures found { IfOk result (λ r. IsTrue r.0.is_open → (db : _) × MayLeave S.Store journal db × HasEntries db r.0.entries) }
    ensures lines { IfOk result (λ r. IsTrue r.0.is_open → r.0.entries ≡ entries_of r.1.items) }
{
    let mut store = journal.into_store();
    store.crash_and_reopen()?;
    match Journal::over(alloc, store) {
        Ok(opened) => Ok(opened),
        Err((refusal, _store)) => Err(refusal),
    }
}

/// A theorem over a restart. Lines are added, the disk crashes, and what it left is read: the lines that were there, and all that were
/// added, or none of them.
pub fn append_crash_and_read<S: Reopen + Drop>(
    alloc: Global,
    mut journal: Journal<S>,
    lines: &[Line],
) -> Result<(Journal<S>, Vec<Line>), Refusal>
    requires opened { IsTrue journal.is_open }
    ensures lines { IfOk result (λ r. IsTrue r.0.is_open
        → (entries_of r.1.items ≡ journal.entries) ⊎ (entries_of r.1.items ≡ journal.entries ++ entries_of lines.now)) }
    ensures held { IfOk result (λ r. IsTrue r.0.is_open → r.0.entries ≡ entries_of r.1.items) }
{
    journal.leaves_its_lines();
    let _told = journal.append(lines);
    match crash_and_read(alloc, journal) {
        Ok(opened) => Ok(opened),
        Err(refusal) => Err(refusal),
    }
}
