ghost use Rattle.std.specs.Prelude.{◌≡◌};
ghost use Rattle.af_runs.specs.Codes.{ids_code, date_code};

use af_names::{DagId, Instant};
use std::hash::{FoldHasher, Hasher};

/// The code of a DAG and a run by their ids.
pub(crate) fn ids_code(dag_id: &DagId, run_id: &str) -> u64
    ensures { result ≡ ids_code dag_id.now run_id.now }
{
    let mut hasher = FoldHasher::default();
    hasher.write(dag_id.as_str().as_bytes());
    hasher.write(run_id.as_bytes());
    hasher.finish()
}

/// The code of a DAG and a logical date.
pub(crate) fn date_code(dag_id: &DagId, logical_date: Instant) -> u64
    ensures { result ≡ date_code dag_id.now logical_date }
{
    let mut hasher = FoldHasher::default();
    hasher.write(dag_id.as_str().as_bytes());
    hasher.write_u64(logical_date.micros());
    hasher.finish()
}
