ghost use Rattle.std.specs.Prelude.{◌≡◌, ◌<◌, length};
ghost use Rattle.af_graph.specs.Definition.{id_at};
ghost use Rattle.af_graph.specs.Steps.{told, IsPlaced};

use crate::dag_fault::DagFault;
use crate::task_spec::{TaskSpec, TaskSpecs};
use af_names::TaskId;

/// Why tasks make no graph, with the place of the task that is told.
pub(crate) type Misfit = DagFault<usize>;

impl Misfit {
    /// The fault, with the task's id for its place.
    pub(crate) fn told(self, tasks: TaskSpecs) -> DagFault
        requires { IsPlaced (length tasks) self }
        ensures { result ≡ told tasks self }
    {
        match self {
            Misfit::NoTask => DagFault::NoTask,
            Misfit::TooMany => DagFault::TooMany,
            Misfit::Duplicate(place) => DagFault::Duplicate(id_at(tasks, place)),
            Misfit::UnknownUpstream(place) => DagFault::UnknownUpstream(id_at(tasks, place)),
            Misfit::Cycle(place) => DagFault::Cycle(id_at(tasks, place)),
            Misfit::BadSlots(place) => DagFault::BadSlots(id_at(tasks, place)),
            Misfit::OutOfMemory => DagFault::OutOfMemory,
        }
    }
}

/// The id of the task at a place.
fn id_at(tasks: TaskSpecs, place: usize) -> TaskId
    requires { place < length tasks }
    ensures { result ≡ id_at tasks place }
{
    let mut tasks = tasks.into_vec();
    tasks.swap_remove(place).task_id
}
