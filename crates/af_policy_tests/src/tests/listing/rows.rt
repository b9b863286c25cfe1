use af_listing::{Listed, Page, Window, page};
use af_names::DagId;
use af_policy::Reader;
use std::alloc::Global;
use std::process::Abort;

/// A row that names a DAG, or none, and is that of a run or not.
#[derive(Drop)]
struct Row {
    dag: Option<DagId>,
    of_run: bool,
}

impl Listed for Row {
    ghost named = { λ row. row.dag };

    ghost of_run = { λ row. row.of_run };

    fn dag(&self) -> Option<&DagId> {
        self.dag.as_ref()
    }

    fn of_run(&self) -> bool {
        self.of_run
    }

    fn has_runs() -> bool {
        true
    }
}

/// Who reads one DAG, and the runs of one.
#[derive(Drop)]
struct ReaderOf {
    dag: DagId,
    runs: DagId,
}

impl Reader for ReaderOf {
    ghost use Rattle.std.specs.Prelude.{nat_eq};
    ghost use Rattle.std.specs.Cmp.Lexicographic.{pointwise};

    ghost reads = { λ reader. record { dags = λ dag. pointwise nat_eq dag reader.dag; runs = λ dag. pointwise nat_eq dag reader.runs } };

    fn readable(&self, dag: &DagId) -> bool {
        *dag == self.dag
    }

    fn runs_readable(&self, dag: &DagId) -> bool {
        *dag == self.runs
    }

    fn reads_all(&self) -> bool {
        false
    }

    fn reads_all_runs(&self) -> bool {
        false
    }
}

/// Who reads all DAGs, and says so or not, and the runs of all or of none.
#[derive(Clone, Copy)]
struct Everybody {
    says_so: bool,
    runs: bool,
}

impl Reader for Everybody {
    ghost use Rattle.std.specs.Prelude.{true};

    ghost reads = { λ reader. record { dags = λ dag. true; runs = λ dag. reader.runs } };

    fn readable(&self, _dag: &DagId) -> bool {
        true
    }

    fn runs_readable(&self, _dag: &DagId) -> bool {
        self.runs
    }

    fn reads_all(&self) -> bool {
        self.says_so
    }

    fn reads_all_runs(&self) -> bool {
        self.runs
    }
}

/// Who reads a list.
#[derive(Clone, Copy)]
pub enum Who {
    /// Who reads the DAG of the one id, and the runs of that of the other.
    Of(&'static str, &'static str),
    /// Who reads all DAGs, and says so or not, and the runs of all or of none.
    All(bool, bool),
}

/// The page of these rows for a reader.
pub fn page_for<T: Listed>(
    rt: &impl Abort,
    alloc: Global,
    rows: &[T],
    who: Who,
    window: Window,
) -> Page {
    match who {
        Who::Of(dag, runs) => {
            let dag = DagId::parse(alloc, dag).expect(rt, "the id of a DAG");
            let runs = DagId::parse(alloc, runs).expect(rt, "the id of a DAG with runs");
            let reader = ReaderOf { dag, runs };
            let page = page(alloc, rows, &reader, window);
            drop(reader);
            page.expect(rt, "a page")
        }
        Who::All(says_so, runs) => {
            page(alloc, rows, &Everybody { says_so, runs }, window).expect(rt, "a page of all")
        }
    }
}

/// The row of a letter.
fn row_of(rt: &impl Abort, alloc: Global, letter: &str) -> Row {
    if letter == "-" {
        return Row {
            dag: None,
            of_run: false,
        };
    }
    let (id, of_run) = match letter.strip_prefix("*") {
        Some(id) => (id, true),
        None => (letter, false),
    };
    Row {
        dag: Some(DagId::parse(alloc, id).expect(rt, "the id of a DAG")),
        of_run,
    }
}

/// A row for each letter, which names that DAG, and is that of a run where `*` stands before it; `-` names none.
fn rows_of(rt: &impl Abort, alloc: Global, letters: &[&str]) -> Vec<Row> {
    let mut rows = Vec::new(alloc);
    for letter in letters {
        rows.push(row_of(rt, alloc, letter))
            .expect(rt, "room for a row");
    }
    rows
}

/// The page that a query asks for of the rows of these letters, for a reader.
pub fn page_of(rt: &impl Abort, alloc: Global, letters: &[&str], query: &[u8], who: Who) -> Page {
    let window = Window::read(query).expect(rt, "a window");
    let rows = rows_of(rt, alloc, letters);
    let page = page_for(rt, alloc, rows.as_slice(), who, window);
    drop(rows);
    page
}
