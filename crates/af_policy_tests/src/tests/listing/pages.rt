use crate::tests::asserts::{holds, row_holds};
use crate::tests::listing::rows::{Who, page_for, page_of};
use crate::tests::openings::names;
use af_listing::{Page, Window};
use af_names::DagId;
use std::alloc::{AllocGlobal, Global};
use std::process::Abort;

const RUNS: &[&str] = &["*a", "*b", "*b", "*a", "*b"];

const SOME_WITHOUT: &[&str] = &["a", "-", "b", "-"];

/// Rows of which two are those of runs.
const FIVE: &[&str] = &["a", "-", "*b", "*a", "b"];

/// The DAGs of rows, a query, the places of the rows that are shown, and how many there are in all.
type Row = (
    &'static [&'static str],
    &'static [u8],
    &'static [usize],
    usize,
);

/// What who reads b and its runs is shown. Rows without a DAG are shown.
const PAGES: &[Row] = &[
    (RUNS, b"limit=2&offset=1", &[2, 4], 3),
    (RUNS, b"offset=9", &[], 3),
    (RUNS, b"limit=0", &[], 3),
    (RUNS, b"limit=1000", &[1, 2, 4], 3),
    (RUNS, b"", &[1, 2, 4], 3),
    (RUNS, b"limit=1&offset=2", &[4], 3),
    (RUNS, b"offset=999999999999999999999999999999", &[], 3),
    (SOME_WITHOUT, b"offset=1", &[2, 3], 3),
    (FIVE, b"limit=1&offset=1", &[2], 3),
];

/// What who reads b, and the runs of a, is shown: of runs none.
const WITHOUT_RUNS: &[Row] = &[
    (RUNS, b"", &[], 0),
    (FIVE, b"", &[1, 4], 2),
    (FIVE, b"limit=1&offset=1", &[4], 2),
];

/// Whether a page has these places of so many.
fn has(page: &Page, places: &[usize], total: usize) -> bool {
    page.places() == places && page.total() == total
}

/// Ends the test at the first of these pages that is not as it should be for a reader.
fn are_pages(rt: &(impl AllocGlobal + Abort), rows: &[Row], who: Who, what: &str) {
    for (number, (letters, query, places, total)) in rows.iter().enumerate() {
        let page = page_of(rt, rt.alloc(), letters, query, who);
        let is_page = has(&page, places, *total);
        drop(page);
        row_holds(rt, is_page, what, number);
    }
}

#[test]
fn pages_are_of_shown_rows(rt: HostRuntime) {
    are_pages(&rt, PAGES, Who::Of("b", "b"), "pages");
    are_pages(&rt, WITHOUT_RUNS, Who::Of("b", "a"), "pages without runs");
}

#[test]
fn ids_are_rows(rt: HostRuntime) {
    let ids: Vec<DagId> = names(&rt, rt.alloc(), &["a", "b"]);
    let page = page_for(
        &rt,
        rt.alloc(),
        ids.as_slice(),
        Who::Of("a", "b"),
        Window::first(),
    );
    drop(ids);
    let is_first = has(&page, &[0], 1);
    drop(page);
    holds(&rt, is_first, "the id that is read");
}

/// Two rows, of b and of a, over and over: so many times.
fn pairs(rt: &impl Abort, alloc: Global, times: usize) -> Vec<&'static str> {
    let mut letters = Vec::new(alloc);
    for _ in 0..times {
        letters
            .extend_from_slice(B_AND_A)
            .expect(rt, "room for two rows");
    }
    letters
}

const B_AND_A: &[&str] = &["b", "a"];

/// Whether a page has a hundred places, of which the last is that of the hundredth row of b, of 150.
fn is_full(page: &Page) -> bool {
    page.places().len() == 100 && page.places().last() == Some(&198) && page.total() == 150
}

/// Of 300 rows every other one names b; 101 are asked for.
#[test]
fn a_page_has_a_hundred_rows_at_most(rt: HostRuntime) {
    let letters = pairs(&rt, rt.alloc(), 150);
    let page = page_of(
        &rt,
        rt.alloc(),
        letters.as_slice(),
        b"limit=101",
        Who::Of("b", "a"),
    );
    drop(letters);
    let is_full = is_full(&page);
    drop(page);
    holds(&rt, is_full, "a page of many");
}

/// What who reads all DAGs and all runs is shown.
const WHOLE_PAGES: &[Row] = &[
    (FIVE, b"", &[0, 1, 2, 3, 4], 5),
    (FIVE, b"limit=2&offset=1", &[1, 2], 5),
    (FIVE, b"limit=2&offset=4", &[4], 5),
    (FIVE, b"offset=5", &[], 5),
    (FIVE, b"offset=6", &[], 5),
    (FIVE, b"limit=0", &[], 5),
    (FIVE, b"limit=1000&offset=3", &[3, 4], 5),
    (FIVE, b"limit=5", &[0, 1, 2, 3, 4], 5),
    (FIVE, b"offset=999999999999999999999999999999", &[], 5),
];

/// What who reads all DAGs and no runs is shown.
const ALL_BUT_RUNS: &[Row] = &[
    (FIVE, b"", &[0, 1, 4], 3),
    (FIVE, b"limit=1&offset=2", &[4], 3),
    (RUNS, b"", &[], 0),
];

#[test]
fn who_reads_all_is_shown_the_list_itself(rt: HostRuntime) {
    are_pages(&rt, WHOLE_PAGES, Who::All(true, true), "all, by one look");
    are_pages(&rt, WHOLE_PAGES, Who::All(false, true), "all, row by row");
    are_pages(&rt, ALL_BUT_RUNS, Who::All(true, false), "all but runs");
}
