ghost use Rattle.std.specs.Prelude.{◌≡◌, ◌<◌, ◌-◌, ◌%◌, ◌||◌, List, ℕ, false, nat_eq, get_or, length, replicate};
ghost use Rattle.af_role.specs.DagMarks.{is_marked, mark_of};

use af_names::DagId;
use std::marker::Model;

/// How many marks there are.
const MARKS: usize = 256;

/// Which marks the ids of some DAGs have. A DAG whose mark is not set is none of them. Where they are few, so are told apart most
/// other DAGs without a search. Contracts see whether each mark is set.
#[derive(Drop)]
pub(crate) struct DagMarks {
    set: [bool; 256],
}

impl Model for DagMarks {
    ghost use Rattle.std.specs.Prelude.{List, Bool};

    ghost Value = { List Bool };

    ghost view = { λ marks. marks.set };
}

impl DagMarks {
    /// No mark is set.
    pub(crate) fn new() -> DagMarks
        ensures { result ≡ replicate 256 false }
    {
        DagMarks {
            set: [false; MARKS],
        }
    }

    /// Whether the mark of a DAG is set.
    pub(crate) fn has(&self, dag: &DagId) -> bool
        ensures { result ≡ is_marked self.now dag.now }
    {
        self.set[mark_of(dag)]
    }

    /// Sets the mark of a DAG. The others stay.
    pub(crate) fn put(&mut self, dag: &DagId)
        ensures { (other : List ℕ) → is_marked self.new other ≡ (nat_eq (mark_of dag.now) (mark_of other) || is_marked self.old other) }
    {
        self.set[mark_of(dag)] = true;
    }
}

/// The mark of a DAG, by the lower halves of the last two bytes of its id: numbered ids that are alike differ there.
fn mark_of(dag: &DagId) -> usize
    ensures mark { result ≡ mark_of dag.now }
    ensures within { result < 256 }
{
    let id = dag.as_str().as_bytes();
    half(id, 2) * 16 + half(id, 1)
}

/// The lower half of a byte: of the last one for 1, of the one before it for 2. Of the first, where there are fewer; 0 of an empty text.
fn half(text: &[u8], from_end: usize) -> usize
    ensures half { result ≡ get_or text.now (length text.now - from_end) 0 % 16 }
    ensures within { result < 16 }
{
    match text.get(text.len().saturating_sub(from_end)) {
        Some(byte) => usize::from(*byte) % 16,
        None => 0,
    }
}
