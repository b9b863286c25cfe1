//! Tables that share rows: what a change leaves of the table before it, and how long a search is.
use crate::tests::asserts::holds;
use af_policy::{Row, Table, front};
use std::alloc::{AllocError, AllocGlobal, Global};
use std::process::Abort;

/// A word, which is its own key.
#[derive(Drop)]
struct Word {
    bytes: [u8; 2],
}

impl Row for Word {
    ghost key = { λ word. word.bytes };

    fn key(&self) -> &[u8] {
        self.bytes.as_slice()
    }

    fn front(&self) -> u64 {
        front(self.key())
    }

    fn copied(&self) -> Result<Word, AllocError> {
        Ok(Word { bytes: self.bytes })
    }
}

/// The table of the words of two bytes whose first is below 16, put in by rising or by falling order.
fn words(rt: &impl Abort, alloc: Global, falling: bool) -> Table<Word> {
    let mut table = Table::new();
    for k in 0..4096u16 {
        let place = if falling { 4095 - k } else { k };
        let word = Word {
            bytes: place.to_be_bytes(),
        };
        table.put(alloc, word).expect(rt, "room for a word");
    }
    table
}

const TAKEN: [u8; 2] = [3, 7];

const BESIDE: [u8; 2] = [3, 8];

const ADDED: [u8; 2] = [255, 0];

const ABSENT: [u8; 2] = [200, 1];

/// How many words a table has, and whether it has the one that is taken out, the one beside it, and the one that is added.
fn shown(table: &Table<Word>) -> (usize, bool, bool, bool) {
    let taken = table.has(TAKEN.as_slice());
    let beside = table.has(BESIDE.as_slice());
    (table.len(), taken, beside, table.has(ADDED.as_slice()))
}

/// Whether a table is left as it was by changes that make two further ones of it: one without the word that is taken out, and of
/// that one with the word that is added.
fn is_left(rt: &impl Abort, alloc: Global, old: &Table<Word>) -> bool {
    let was = shown(old);
    let less = old
        .without(alloc, TAKEN.as_slice())
        .expect(rt, "a table with one word less");
    let more = less
        .with(alloc, Word { bytes: ADDED })
        .expect(rt, "a table with one word more");
    let are_changed = are_changed(&less, &more);
    drop(less);
    drop(more);
    let is_old = was == (4096, true, true, false) && shown(old) == (4096, true, true, false);
    is_old && are_changed
}

/// Whether the one table is without the word that is taken out, and the other has also the one that is added.
fn are_changed(less: &Table<Word>, more: &Table<Word>) -> bool {
    shown(less) == (4095, false, true, false) && shown(more) == (4096, false, true, true)
}

/// Whether all words are listed, and stay where one that is absent is taken out.
fn are_listed(rt: &impl Abort, alloc: Global, table: &Table<Word>) -> bool {
    let rows = table.rows(alloc).expect(rt, "the words");
    let count = rows.len();
    drop(rows);
    let same = table
        .without(alloc, ABSENT.as_slice())
        .expect(rt, "the same table");
    let left = same.len();
    drop(same);
    count == 4096 && left == 4096
}

/// Whether a search is short among all words, and among the upper half that is left of them.
fn is_short(rt: &impl Abort, alloc: Global, table: &mut Table<Word>) -> bool {
    let height = table.height();
    for k in 0..2048u16 {
        table
            .remove(alloc, k.to_be_bytes().as_slice())
            .expect(rt, "a table with one word less");
    }
    height <= 18 && table.len() == 2048 && table.height() <= 16
}

/// What is looked at in a table.
#[derive(Clone, Copy)]
enum Look {
    /// What changes of it leave.
    Left,
    /// All its words.
    Listed,
    /// How long a search is.
    Short,
}

/// Words are put in by rising order, and by falling order.
const ORDERS: &[bool] = &[false, true];

/// Ends the test where this is otherwise of a table of all words.
fn are_so(rt: &(impl AllocGlobal + Abort), look: Look, what: &str) {
    let alloc = rt.alloc();
    for falling in ORDERS {
        let mut table = words(rt, alloc, *falling);
        let is_so = match look {
            Look::Left => is_left(rt, alloc, &table),
            Look::Listed => are_listed(rt, alloc, &table),
            Look::Short => is_short(rt, alloc, &mut table),
        };
        drop(table);
        holds(rt, is_so, what);
    }
}

#[test]
fn a_change_leaves_the_older_version(rt: HostRuntime) {
    are_so(&rt, Look::Left, "the tables");
}

#[test]
fn all_words_are_listed(rt: HostRuntime) {
    are_so(&rt, Look::Listed, "the words");
}

#[test]
fn a_search_is_short(rt: HostRuntime) {
    are_so(&rt, Look::Short, "the height");
}
