ghost use Rattle.std.specs.Prelude.{◌≡◌, ◌⊎◌, false, [], ◌∷◌, IsTrue, IfOk, IfErr, OnOk};
ghost use Rattle.sqlite_store.specs.FileStore.{view, state, schema_of, IsReady, is_shielded};
ghost use Rattle.sqlite_store.specs.Unopened.{AreUsable, IsCatalogOf, files_of, image, state_of, wanted_by};
ghost use Rattle.sqlite_trees.specs.View.{IsClean};
ghost use Rattle.sqlite_wal.specs.Files.{seen_image};
ghost use Rattle.sqlite_wal.specs.PageSize.{bytes_of};
ghost use Rattle.sqlite_wal.specs.Reads.{AreClean, OnlyReads};
ghost use Rattle.af_journal.specs.Files.{Holds, HasNoDatabase, HasNoTable, IsFoundIn, IsReadFrom, journal_table, over_files};
ghost use Rattle.af_journal.specs.Lines.{entries_of};
ghost use Rattle.af_journal.specs.LogHeader.{IsDamaged};
ghost use Rattle.af_journal.specs.Refusal.{only_looks};
ghost use Rattle.af_journal.specs.Shown.{GoesOn, IsHonest};

use crate::journal::Journal;
use crate::line::Line;
use crate::log_header::{LogHeader, PAGE_SIZE, examine};
use crate::refusal::Refusal;
use crate::table::{SQL, journal_table};
use sqlite_disk::{Disk, Files};
use sqlite_pager::{Options, Pager};
use sqlite_pool::probe_blank;
use sqlite_store::{FileStore, Unopened};
use sqlite_value::row::Row;
use sqlite_value::value::ValueRef;
use sqlite_wal::{PageSize, probe_first_page, probe_page_size};
use std::alloc::{AllocFailed, Global};

/// Whether the database is still to be made. Files that are not a journal's are refused, and nothing is written.
fn look<D: Disk>(alloc: Global, files: &mut Files<D>, size: PageSize) -> Result<bool, Refusal>
    requires log { IsTrue (D.Disk.is_usable files.old.log) }
    requires db { IsTrue (D.Disk.is_usable files.old.db) }
    requires size { bytes_of size ≡ 4096 }
    ensures sound { OnOk result (AreClean D.Disk files.new.log files.new.db → ¬ IsDamaged (D.Disk.seen files.old.log)) }
    ensures blank { IfOk result (λ b. AreClean D.Disk files.new.log files.new.db → IsTrue b → HasNoDatabase (seen_image D.Disk files.old.log files.old.db)) }
    ensures log { OnlyReads D.Disk files.old.log files.new.log }
    ensures db { OnlyReads D.Disk files.old.db files.new.db }
{
    let header = examine(&mut files.log)?;
    if header == LogHeader::Damaged {
        return Err(Refusal::DamagedLogHeader);
    }
    if probe_blank(alloc, files, size, false)? {
        return if header == LogHeader::Short {
            Ok(true)
        } else {
            Err(Refusal::LogAlone)
        };
    }
    if !begins_well(alloc, files, size)? {
        return Err(Refusal::Foreign);
    }
    Ok(false)
}

/// Whether the database begins as SQLite's do, and has pages of this size. Nothing is written.
fn begins_well<D: Disk>(
    alloc: Global,
    files: &mut Files<D>,
    size: PageSize,
) -> Result<bool, Refusal>
    requires log { IsTrue (D.Disk.is_usable files.old.log) }
    requires db { IsTrue (D.Disk.is_usable files.old.db) }
    ensures log { OnlyReads D.Disk files.old.log files.new.log }
    ensures db { OnlyReads D.Disk files.old.db files.new.db }
{
    match probe_page_size(files)? {
        Some(found) if found.bytes() == size.bytes() => {}
        _ => return Ok(false),
    }
    let head = probe_first_page(alloc, files, size)?;
    Ok(head.0 == b'S')
}

/// The two files with the journal's table, of which nothing is read yet.
fn unopened<D: Disk>(
    alloc: Global,
    files: Files<D>,
    size: PageSize,
    options: Options,
) -> Result<Unopened<D>, Files<D>>
    requires size { bytes_of size ≡ 4096 }
    ensures files { IfOk result (λ it. files_of it ≡ (files.log, files.db)) }
    ensures schema { IfOk result (λ it. wanted_by it ≡ journal_table ∷ []) }
    ensures size { IfOk result (λ it. (state_of it).page_size ≡ 4096) }
{
    let pager = match Pager::new(alloc, files, size, options) {
        Ok(pager) => pager,
        Err(AllocFailed { value }) => return Err(value),
    };
    match Unopened::new(alloc, pager, &[journal_table()]) {
        Ok(files) => Ok(files),
        Err(AllocFailed { value }) => Err(value.close()),
    }
}

/// The row of `sqlite_schema` for the journal's table.
fn is_listing(row: &Row) -> bool {
    matches!(row.get(5), ValueRef::Text(text) if text == SQL.as_bytes())
}

/// Whether the database lists no table yet.
fn has_no_table<D: Disk>(files: &mut Unopened<D>) -> Result<bool, Refusal>
    requires { AreUsable files.old }
    ensures ok { IfOk result (λ none. IsTrue (state_of files.new).is_clean → (rows : _) × IsCatalogOf files.old files.new rows × (IsTrue none → rows ≡ [])) }
    ensures usable { OnOk result (AreUsable files.new) }
    ensures schema { wanted_by files.new ≡ wanted_by files.old }
    ensures size { IsTrue (state_of files.new).is_clean → (state_of files.new).page_size ≡ (state_of files.old).page_size }
    ensures honest { IsTrue (state_of files.new).is_clean → IsTrue (state_of files.old).is_clean }
    ensures late { IfErr result (λ e. only_looks e ≡ false) }
{
    let rows = files.read_catalog()?;
    if rows.is_empty() {
        return Ok(true);
    }
    if rows.len() == 1 && is_listing(&rows[0]) {
        return Ok(false);
    }
    Err(Refusal::OtherTables)
}

/// Makes the table in a commit of its own, where there is none.
fn make<D: Disk>(files: Unopened<D>) -> Result<FileStore<D>, (Refusal, Files<D>)>
    requires usable { AreUsable files }
    ensures ready { IfOk result IsReady }
    ensures empty { IfOk result (λ it. IsClean (view it) → (view it).committed 0 ≡ []) }
    ensures honest { IfOk result (λ it. IsClean (view it) → IsTrue (state_of files).is_clean) }
    ensures shielded { IfOk result (λ it. IsClean (view it) → is_shielded it) }
    ensures late { IfErr result (λ e. only_looks e.0 ≡ false) }
{
    match files.create() {
        Ok(store) => Ok(store),
        Err((error, left)) => Err((Refusal::from(error), left.close())),
    }
}

/// Opens a database that is there, and makes the table if it lists none.
fn take<D: Disk>(mut files: Unopened<D>) -> Result<FileStore<D>, (Refusal, Files<D>)>
    requires usable { AreUsable files }
    requires schema { wanted_by files ≡ journal_table ∷ [] }
    requires size { (state_of files).page_size ≡ 4096 }
    ensures ready { IfOk result IsReady }
    ensures found { IfOk result (λ it. IsClean (view it) → (HasNoTable (image files) × ((view it).committed 0 ≡ [])) ⊎ IsReadFrom (image files) (view it).committed) }
    ensures honest { IfOk result (λ it. IsClean (view it) → IsTrue (state_of files).is_clean) }
    ensures shielded { IfOk result (λ it. IsClean (view it) → is_shielded it) }
    ensures late { IfErr result (λ e. only_looks e.0 ≡ false) }
{
    match has_no_table(&mut files) {
        Ok(true) => make(files),
        Ok(false) => match files.open_numbered() {
            Ok(store) => Ok(store),
            Err((error, left)) => Err((Refusal::from(error), left.close())),
        },
        Err(refusal) => Err((refusal, files.close())),
    }
}

/// Looks at the files, and then opens them or makes the database.
fn open_store<D: Disk>(
    alloc: Global,
    mut files: Files<D>,
    options: Options,
) -> Result<FileStore<D>, (Refusal, Files<D>)>
    requires log { IsTrue (D.Disk.is_usable files.log) }
    requires db { IsTrue (D.Disk.is_usable files.db) }
    ensures ready { IfOk result IsReady }
    ensures found { IfOk result (λ it. IsClean (view it) → IsFoundIn (seen_image D.Disk files.log files.db) (view it).committed) }
    ensures sound { IfOk result (λ it. IsClean (view it) → ¬ IsDamaged (D.Disk.seen files.log)) }
    ensures shielded { IfOk result (λ it. IsClean (view it) → is_shielded it) }
    ensures spared { IfErr result (λ e. IsTrue (only_looks e.0) → OnlyReads D.Disk files.log e.1.log × OnlyReads D.Disk files.db e.1.db) }
{
    let size = PageSize::new(PAGE_SIZE).unwrap();
    let is_blank = match look(alloc, &mut files, size) {
        Ok(is_blank) => is_blank,
        Err(refusal) => return Err((refusal, files)),
    };
    let files = match unopened(alloc, files, size, options) {
        Ok(files) => files,
        Err(files) => return Err((Refusal::OutOfMemory, files)),
    };
    if is_blank { make(files) } else { take(files) }
}

/// Copies the log while there is no line, so that the table never stands in the log alone.
fn settle<D: Disk>(
    mut journal: Journal<FileStore<D>>,
    lines: Vec<Line>,
) -> Result<(Journal<FileStore<D>>, Vec<Line>), (Refusal, Files<D>)>
    ensures lines { IfOk result (λ r. r.1 ≡ lines) }
    ensures same { IfOk result (λ r. IsTrue r.0.is_open → IsTrue journal.is_open × (r.0.entries ≡ journal.entries)) }
    ensures opened { IfOk result (λ r. IsTrue journal.is_open → IsHonest over_files r.0 → IsTrue r.0.is_open) }
    ensures goes_on { IfOk result (λ r. GoesOn over_files journal r.0) }
    ensures late { IfErr result (λ e. only_looks e.0 ≡ false) }
{
    if !lines.is_empty() {
        return Ok((journal, lines));
    }
    match journal.checkpoint() {
        Ok(()) => Ok((journal, lines)),
        Err(error) => Err((Refusal::from(error), journal.close())),
    }
}

/// Opens the journal in two files, and gives its lines in order.
/// Files that are empty, or that an earlier open left half made, become a journal with no line.
pub fn open<D: Disk>(
    alloc: Global,
    files: Files<D>,
    options: Options,
) -> Result<(Journal<FileStore<D>>, Vec<Line>), (Refusal, Files<D>)>
    requires log { IsTrue (D.Disk.is_usable files.log) }
    requires db { IsTrue (D.Disk.is_usable files.db) }

    // It is open, unless a wrong answer of the disk was taken as true.
    ensures opened { IfOk result (λ r. IsHonest over_files r.0 → IsTrue r.0.is_open) }

    // The lines are those of the journal, which are just what the two files hold.
    ensures lines { IfOk result (λ r. IsTrue r.0.is_open → r.0.entries ≡ entries_of r.1.items) }
    ensures found { IfOk result (λ r. IsTrue r.0.is_open → Holds (seen_image D.Disk files.log files.db) r.0.entries) }

    // A log whose header is damaged is never taken.
    ensures sound { IfOk result (λ r. IsTrue r.0.is_open → ¬ IsDamaged (D.Disk.seen files.log)) }
    ensures shielded { IfOk result (λ r. IsTrue r.0.is_open → is_shielded r.0.store) }

    // What is refused at the first look is left as it was.
    ensures spared { IfErr result (λ e. IsTrue (only_looks e.0) → OnlyReads D.Disk files.log e.1.log × OnlyReads D.Disk files.db e.1.db) }
{
    let store = match open_store(alloc, files, options) {
        Ok(store) => store,
        Err((refusal, files)) => return Err((refusal, files)),
    };
    let (journal, lines) = match Journal::over(alloc, store) {
        Ok(opened) => opened,
        Err((refusal, store)) => return Err((refusal, store.close())),
    };
    settle(journal, lines)
}
