ghost use Rattle.std.specs.Prelude.{◌≡◌, ◌⊎◌, ◌≤◌, ◌++◌, false, List, length, IsTrue, IfOk, IfErr, OnOk, OnErr};
ghost use Rattle.sqlite_disk.specs.Disk.{MoreFaults};
ghost use Rattle.sqlite_trees.specs.Tree.{Trees};
ghost use Rattle.sqlite_trees.specs.View.{IsClean, IsQuiet, doubt};
ghost use Rattle.af_journal.specs.Lines.{Entry, entries_of, HasEntries};
ghost use Rattle.af_journal.specs.Refusal.{only_looks};
ghost use Rattle.af_journal.specs.Rest.{IsFresh, KeepsCommit, IsAtRest, IsCause};

use crate::line::Line;
use crate::refusal::Refusal;
use crate::table::{put_all, read_all};
use sqlite_disk::{Disk, Files};
use sqlite_store::FileStore;
use sqlite_trees::error::StoreError;
use sqlite_trees::store::Store;
use sqlite_value::row::Row;
use std::alloc::Global;
use std::marker::Model;

/// Lines that are committed in a store. Between two calls nothing is pending.
#[derive(Drop)]
pub struct Journal<S: Store> {
    store: S,
    /// How many lines there are, which is also the number of the last one.
    count: u64,
    row: Row,
}

impl<S: Store> Model for Journal<S> {
    ghost use Rattle.af_journal.specs.Lines.{entries_in};
    ghost use Rattle.af_journal.specs.Rest.{IsAtRest};
    ghost use Rattle.af_journal.specs.Shown.{Shown, shown_code};

    ghost Value = { Shown S };

    ghost coded = { shown_code S.code };

    ghost view = { λ j. record {
      is_open = (S.Store.view j.store).is_open;
      entries = entries_in (S.Store.view j.store).committed;
      store = j.store;
    } };

    ghost invariant = { λ j. IsAtRest (S.Store.view j.store) j.count };
}

/// Adds the lines to the store in one commit, and answers the last number.
fn append_all<S: Store>(
    store: &mut S,
    row: &mut Row,
    count: u64,
    lines: &[Line],
) -> Result<u64, StoreError>
    requires { IsAtRest (S.Store.view store.old) count }
    ensures moves { IfOk result (λ n. IsAtRest (S.Store.view store.new) n) }
    ensures rests { OnErr result (IsAtRest (S.Store.view store.new) count) }
    ensures ok { OnOk result (IsTrue (S.Store.view store.new).is_open → IsTrue (S.Store.view store.old).is_open
        × ((before : List Entry) → HasEntries (S.Store.view store.old).committed before → HasEntries (S.Store.view store.new).committed (before ++ entries_of lines.now))) }
    ensures opened { OnOk result (IsClean (S.Store.view store.new) → IsTrue (S.Store.view store.new).is_open) }
    ensures err { OnErr result (IsTrue (S.Store.view store.new).is_open → KeepsCommit (S.Store.view store.old) (S.Store.view store.new)) }
    ensures crash { (db : Trees) → S.Store.recovers store.new db
        → S.Store.recovers store.old db ⊎ ((before : List Entry) × IsTrue (S.Store.view store.old).is_open × HasEntries (S.Store.view store.old).committed before × HasEntries db (before ++ entries_of lines.now)) }
    ensures cause { IsClean (S.Store.view store.new) → IfErr result (IsCause (MoreFaults (S.Store.faults store.old) (S.Store.faults store.new))) }
    ensures clean { doubt (S.Store.view store.old).is_clean ≤ doubt (S.Store.view store.new).is_clean }
    ensures counts { S.Store.faults store.old ≤ S.Store.faults store.new }
    ensures shield { S.Store.is_shielded store.old → S.Store.is_shielded store.new }
    ensures shuts { IsClean (S.Store.view store.new) → IsTrue (S.Store.view store.old).is_open
        → IsTrue (S.Store.view store.new).is_open ⊎ MoreFaults (S.Store.faults store.old) (S.Store.faults store.new) }
{
    let count = match put_all(store, row, count, lines) {
        Ok(count) => count,
        Err(error) => {
            store.rollback();
            return Err(error);
        }
    };
    store.commit()?;
    Ok(count)
}

impl<S: Store> Journal<S> {
    ghost use Rattle.af_journal.specs.Shown.{GoesOn, HasCause, IsHonest, MayLeave};

    /// Reads the lines of a store that was just opened.
    pub fn over(alloc: Global, mut store: S) -> Result<(Journal<S>, Vec<Line>), (Refusal, S)>
        requires fresh { IsFresh (S.Store.view store) }
        ensures lines { IfOk result (λ r. IsTrue r.0.is_open → r.0.entries ≡ entries_of r.1.items) }
        ensures held { IfOk result (λ r. IsTrue r.0.is_open → HasEntries (S.Store.view store).committed r.0.entries) }
        ensures open { IfOk result (λ r. r.0.is_open ≡ (S.Store.view r.0.store).is_open) }
        ensures still { IfOk result (λ r. IsClean (S.Store.view r.0.store) → r.0.is_open ≡ (S.Store.view store).is_open) }
        ensures quiet { IfOk result (λ r. IsQuiet S.Store.view S.Store.faults S.Store.recovers S.Store.is_shielded store r.0.store) }
        ensures late { IfErr result (λ e. only_looks e.0 ≡ false) }
    {
        match read_all(alloc, &mut store) {
            Ok(lines) => Ok((
                Journal {
                    store,
                    count: lines.len() as u64,
                    row: Row::new(alloc),
                },
                lines,
            )),
            Err(error) => Err((error, store)),
        }
    }

    /// Adds the lines in one commit. At `Ok` they are on the disk.
    pub fn append(&mut self, lines: &[Line]) -> Result<(), StoreError>
        // All of them, after those that were there.
        ensures ok { OnOk result (IsTrue self.new.is_open → IsTrue self.old.is_open × (self.new.entries ≡ self.old.entries ++ entries_of lines.now)) }

        // It is then open, unless a wrong answer of the disk was taken as true.
        ensures opened { OnOk result (IsHonest S.Store self.new → IsTrue self.new.is_open) }

        // None of them, and a journal that is still open can be used on.
        ensures err { OnErr result (IsTrue self.new.is_open → IsTrue self.old.is_open × (self.new.entries ≡ self.old.entries)) }

        // A crash at any moment of the call leaves what one could leave before it, or all of them after those that were there.
        ensures crash { (db : Trees) → MayLeave S.Store self.new db
            → MayLeave S.Store self.old db ⊎ (IsTrue self.old.is_open × HasEntries db (self.old.entries ++ entries_of lines.now)) }
        ensures cause { IfErr result (HasCause S.Store self.old self.new) }
        ensures goes_on { GoesOn S.Store self.old self.new }
    {
        self.count = append_all(&mut self.store, &mut self.row, self.count, lines)?;
        Ok(())
    }

    /// While the journal is open, a crash leaves its lines and nothing else, and no wrong answer of the disk has been taken as true.
    pub fn leaves_its_lines(&self)
        ensures left { IsTrue self.now.is_open → (db : Trees) → MayLeave S.Store self.now db → HasEntries db self.now.entries }
        ensures honest { IsTrue self.now.is_open → IsHonest S.Store self.now }
    {
        let _count = self.count;
    }

    /// How many lines there are, which is also the number of the last one.
    pub fn count(&self) -> u64
        ensures { IsTrue self.now.is_open → result ≡ length self.now.entries }
    {
        self.count
    }

    pub(crate) fn into_store(self) -> S
        ensures { result ≡ self.store }
    {
        let Journal {
            store,
            count: _,
            row: _,
        } = self;
        store
    }
}

impl<D: Disk> Journal<FileStore<D>> {
    ghost use Rattle.sqlite_store.specs.FileStore.{files};
    ghost use Rattle.af_journal.specs.Files.{over_files};
    ghost use Rattle.af_journal.specs.Shown.{GoesOn, HasCause, IsHonest, MayLeave};

    /// Copies the log into the database file, so that the log has no line. The lines stay as they are.
    pub fn checkpoint(&mut self) -> Result<(), StoreError>
        ensures opened { OnOk result (IsHonest over_files self.new → IsTrue self.new.is_open) }
        ensures same { IsTrue self.new.is_open → IsTrue self.old.is_open × (self.new.entries ≡ self.old.entries) }
        ensures crash { (db : Trees) → MayLeave over_files self.new db → MayLeave over_files self.old db }
        ensures cause { IfErr result (HasCause over_files self.old self.new) }
        ensures goes_on { GoesOn over_files self.old self.new }
    {
        self.store.checkpoint()
    }

    /// Gives the log and the database file back. Nothing is read or written.
    pub fn close(self) -> Files<D>
        ensures { (result.log, result.db) ≡ files self.store }
    {
        self.into_store().close()
    }
}
