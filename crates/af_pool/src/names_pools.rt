ghost use Rattle.std.specs.Prelude.{◌≡◌, List, ℕ};
ghost use Rattle.std.specs.List.{list_any};
ghost use Rattle.af_graph.specs.Graph.{same_name};
ghost use Rattle.af_pool.specs.Pools.{is_named};

use af_graph::{Dag, TaskSpec};
use af_names::PoolName;

/// A row that names pools, as a DAG does by its tasks. A caller's rows are read where they stand, and no name is copied.
pub trait NamesPools {
    /// The names of the pools.
    ghost pools: { Self → List (List ℕ) };

    /// Whether the row names the pool.
    fn names_pool(&self, name: &PoolName) -> bool
        ensures { result ≡ is_named (pools self.now) name.now };
}

impl NamesPools for Dag {
    ghost use Rattle.af_pool.specs.Pools.{pools_of};

    ghost pools = { pools_of };

    fn names_pool(&self, name: &PoolName) -> bool {
        some_task_names(self.tasks(), name)
    }
}

/// Whether one of the tasks names the pool.
fn some_task_names(tasks: &[TaskSpec], name: &PoolName) -> bool
    ensures { result ≡ list_any (λ task. same_name task.pool name.now) tasks.now }
{
    tasks.iter().any(|task| task.pool == *name)
}
