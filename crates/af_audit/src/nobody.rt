use af_names::DagId;
use af_policy::Reader;

/// Who reads no DAG, and no runs. Operations are done again for it, since no change depends on who reads.
#[derive(Clone, Copy)]
pub(crate) struct Nobody;

impl Reader for Nobody {
    ghost use Rattle.af_ops.specs.Effects.{nothing_readable};

    ghost reads = { λ reader. nothing_readable };

    fn readable(&self, _dag: &DagId) -> bool {
        false
    }

    fn runs_readable(&self, _dag: &DagId) -> bool {
        false
    }

    fn reads_all(&self) -> bool {
        false
    }

    fn reads_all_runs(&self) -> bool {
        false
    }
}
