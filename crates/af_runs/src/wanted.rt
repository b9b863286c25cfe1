ghost use Rattle.std.specs.Prelude.{◌≡◌};
ghost use Rattle.af_runs.specs.Wanted.{code_of, meets};

use crate::codes::{date_code, ids_code};
use crate::run::Run;
use af_names::{DagId, Instant};

/// What a run is looked up by.
#[derive(Clone, Copy)]
pub(crate) enum Wanted<'a> {
    /// The ids of its DAG and its own.
    Ids(&'a DagId, &'a str),
    /// The id of its DAG, and its logical date.
    Date(&'a DagId, Instant),
}

impl<'a> Wanted<'a> {
    /// The code of what is wanted.
    pub(crate) fn code(&self) -> u64
        ensures { result ≡ code_of self.now }
    {
        match self {
            Wanted::Ids(dag_id, run_id) => ids_code(dag_id, run_id),
            Wanted::Date(dag_id, logical_date) => date_code(dag_id, *logical_date),
        }
    }

    /// Whether the run is the one that is wanted.
    pub(crate) fn is_met(&self, run: &Run) -> bool
        ensures { result ≡ meets self.now run.now }
    {
        match self {
            Wanted::Ids(dag_id, run_id) => run.has_ids(dag_id, run_id),
            Wanted::Date(dag_id, logical_date) => run.has_date(dag_id, *logical_date),
        }
    }
}
