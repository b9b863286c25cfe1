ghost use Rattle.std.specs.Prelude.{◌≡◌, ◌<◌, length, None, IfOk, IfErr, OnOk, not, Bool};
ghost use Rattle.std.specs.List.{find, position};
ghost use Rattle.af_graph.specs.Rows.{places, turned, IsWithin};
ghost use Rattle.af_graph.specs.Order.{order_of};
ghost use Rattle.af_graph.specs.Definition.{fault_of, at_place, has_bad_slots};
ghost use Rattle.af_graph.specs.Steps.{IsTold, IsWiringOf, IsSameWiring};

use crate::index::Index;
use crate::links::Links;
use crate::misfit::Misfit;
use crate::taking::{first_left, take_all};
use crate::task_spec::TaskSpec;
use std::alloc::{AllocError, Global};

/// The most tasks that a DAG has.
pub const MOST_TASKS: usize = 512;

/// The most slots that a pool has, and that an instance of a task occupies.
pub const MOST_SLOTS: u64 = 1_000_000;

/// The graph of a definition's tasks, worked out.
#[derive(Drop)]
pub(crate) struct Wiring {
    pub(crate) upstream: Links,
    pub(crate) downstream: Links,
    pub(crate) order: Vec<u16>,
}

impl Wiring {
    /// Works the graph out, or tells the first misfit in the order of the faults. It takes time in
    /// the number of tasks and of edges, each of them at most times the logarithm of the tasks.
    pub(crate) fn of(alloc: Global, tasks: &[TaskSpec]) -> Result<Wiring, Misfit>
        ensures wired { IfOk result (λ wiring. IsWiringOf tasks.now wiring) }
        ensures ok { OnOk result (fault_of tasks.now ≡ None) }
        ensures err { IfErr result (λ misfit. IsTold tasks.now misfit) }
    {
        if tasks.is_empty() {
            return Err(Misfit::NoTask);
        }
        if tasks.len() > MOST_TASKS {
            return Err(Misfit::TooMany);
        }
        let index = Index::of(alloc, tasks)?;
        let named = index.named(alloc, tasks)?;
        let wiring = Wiring::of_links(alloc, &named)?;
        if let Some(place) = first_left(alloc, wiring.order.as_slice(), tasks.len())? {
            return Err(Misfit::Cycle(place));
        }
        if let Some(place) = first_bad_slots(tasks) {
            return Err(Misfit::BadSlots(place));
        }
        Ok(wiring)
    }

    /// The graph in which these stand upstream of each place, in any order and however often.
    fn of_links(alloc: Global, named: &Links) -> Result<Wiring, AllocError>
        requires within { IsWithin named.now }
        requires few { length named.now < 65_536 }
        ensures downstream { IfOk result (λ wiring. wiring.downstream ≡ turned named.now) }
        ensures upstream { IfOk result (λ wiring. wiring.upstream ≡ turned wiring.downstream) }
        ensures order { IfOk result (λ wiring. wiring.order.items ≡ order_of wiring.upstream) }
    {
        let downstream = named.turned(alloc)?;
        let upstream = downstream.turned(alloc)?;
        let order = take_all(alloc, &upstream, &downstream)?;
        Ok(Wiring {
            upstream,
            downstream,
            order,
        })
    }

    /// The same graph again.
    pub(crate) fn copied(&self, alloc: Global) -> Result<Wiring, AllocError>
        ensures { IfOk result (λ wiring. IsSameWiring self.now wiring) }
    {
        let upstream = self.upstream.copied(alloc)?;
        let downstream = self.downstream.copied(alloc)?;
        let order = Vec::from_slice(alloc, self.order.as_slice())?;
        Ok(Wiring {
            upstream,
            downstream,
            order,
        })
    }
}

/// The place of the first task whose slots are out of range.
pub(crate) fn first_bad_slots(tasks: &[TaskSpec]) -> Option<usize>
    ensures { result ≡ find (at_place tasks.now has_bad_slots) (places tasks.now) }
{
    position_of_bad_slots(tasks)
}

fn position_of_bad_slots(tasks: &[TaskSpec]) -> Option<usize>
    ensures { result ≡ position has_bad_slots tasks.now }
{
    tasks.iter().position(has_bad_slots)
}

/// Whether a task's slots are out of range.
fn has_bad_slots(task: &TaskSpec) -> bool
    ensures { result ≡ has_bad_slots task.now }
{
    !(1 <= task.pool_slots && task.pool_slots <= MOST_SLOTS)
}
