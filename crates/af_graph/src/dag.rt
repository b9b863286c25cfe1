ghost use Rattle.std.specs.Prelude.{◌≡◌, ◌<◌, ◌⊎◌, ℕ, length, Some, None, Ok, Err, IfOk, IfSome, MatchOption, Contains};
ghost use Rattle.std.specs.Option.{option_map};
ghost use Rattle.std.specs.List.{slice_get};
ghost use Rattle.af_graph.specs.Definition.{checked, fault_of};
ghost use Rattle.af_graph.specs.Order.{order_of, IsOrder};
ghost use Rattle.af_graph.specs.Graph.{upstream_of, downstream_of, upstream_rows, place_of};

use crate::dag_fault::DagFault;
use crate::dag_spec::DagSpec;
use crate::misfit::Misfit;
use crate::plain::{first_misfit, place_of};
use crate::rule::Rule;
use crate::schedule::Schedule;
use crate::task_spec::{TaskSpec, TaskSpecs};
use crate::wiring::Wiring;
use af_names::{DagId, TaskId};
use std::alloc::{AllocError, Global};
use std::marker::Model;

/// A DAG: a definition without a fault, with its graph worked out. Contracts see it as the definition.
pub struct Dag {
    spec: DagSpec,
    wiring: Wiring,
}

impl Drop for Dag {
    fn drop(self) {
        let Dag { spec: _, wiring: _ } = self;
    }
}

impl Model for Dag {
    ghost use Rattle.std.specs.Prelude.{◌≡◌, None};
    ghost use Rattle.af_graph.specs.declared.dag_spec.DagSpec.{DagSpec};
    ghost use Rattle.af_graph.specs.Definition.{fault_of};
    ghost use Rattle.af_graph.specs.Steps.{IsWiringOf};

    ghost Value = { DagSpec };

    ghost view = { λ dag. dag.spec };

    ghost invariant = { λ dag. (IsWiringOf dag.spec.tasks dag.wiring) × (fault_of dag.spec.tasks ≡ None) };
}

impl Dag {
    /// The DAG of a definition. Else the first fault of `DagFault`, in its order; `OutOfMemory`
    /// only where a growth was refused, and the definition has no fault: a fault is told, memory or not. It takes time in the number of tasks and of edges, each of
    /// them at most times the logarithm of the number of tasks.
    pub fn new(alloc: Global, spec: DagSpec) -> Result<Dag, DagFault>
        ensures told { (result ≡ checked spec) ⊎ (result ≡ Err DagFault.OutOfMemory) }
        ensures refused { IfSome (fault_of spec.tasks) (λ fault. result ≡ Err fault) }
    {
        match Wiring::of(alloc, spec.tasks.as_slice()) {
            Ok(wiring) => Ok(Dag { spec, wiring }),
            Err(Misfit::OutOfMemory) => Err(without_memory(spec.tasks)),
            Err(misfit) => Err(misfit.told(spec.tasks)),
        }
    }

    /// The same DAG again. `AllocError` only where a growth was refused.
    pub fn copied(&self, alloc: Global) -> Result<Dag, AllocError>
        ensures { IfOk result (λ dag. dag ≡ self.now) }
    {
        let spec = self.spec.copied(alloc)?;
        let wiring = self.wiring.copied(alloc)?;
        Ok(Dag { spec, wiring })
    }

    /// The definition, which has no fault.
    pub fn definition(&self) -> &DagSpec
        ensures value { result.now ≡ self.now }
        ensures sound { checked self.now ≡ Ok self.now }
    {
        &self.spec
    }

    pub fn dag_id(&self) -> &DagId
        ensures { result.now ≡ self.now.dag_id }
    {
        &self.spec.dag_id
    }

    /// The tasks in the order of the definition.
    pub fn tasks(&self) -> &[TaskSpec]
        ensures { result.now ≡ self.now.tasks }
    {
        self.spec.tasks.as_slice()
    }

    /// When runs fall due; none where they come by hand alone.
    pub fn schedule(&self) -> Option<Schedule>
        ensures { result ≡ self.now.schedule }
    {
        self.spec.schedule
    }

    /// The trigger rule of the task at a place.
    pub fn rule_of(&self, place: usize) -> Rule
        requires { place < length self.now.tasks }
        ensures { option_map (λ task. task.trigger_rule) (slice_get self.now.tasks place) ≡ Some result }
    {
        self.tasks()[place].trigger_rule
    }

    /// The places of the tasks directly upstream of the task at a place, in order, each once.
    pub fn upstream(&self, place: usize) -> &[u16]
        requires { place < length self.now.tasks }
        ensures { result.now ≡ upstream_of self.now.tasks place }
    {
        self.wiring.upstream.row(place)
    }

    /// The places of the tasks directly downstream of the task at a place, in order, each once.
    pub fn downstream(&self, place: usize) -> &[u16]
        requires { place < length self.now.tasks }
        ensures { result.now ≡ downstream_of self.now.tasks place }
    {
        self.wiring.downstream.row(place)
    }

    /// The places of the tasks in the order in which they are settled: of those whose upstream
    /// tasks have all been taken, the earliest in the definition. Each task stands there.
    pub fn order(&self) -> &[u16]
        ensures order { result.now ≡ order_of (upstream_rows self.now.tasks) }
        ensures rule { IsOrder (upstream_rows self.now.tasks) result.now }
        ensures whole { (place : ℕ) → place < length self.now.tasks → Contains result.now place }
    {
        self.wiring.order.as_slice()
    }

    /// The place of the task of an id, or none where no task has it.
    pub fn place_of(&self, task_id: &TaskId) -> Option<usize>
        ensures { result ≡ place_of self.now.tasks task_id.now }
    {
        place_of(self.tasks(), task_id)
    }
}

/// What is told of tasks where a growth was refused: their fault, if they have one.
fn without_memory(tasks: TaskSpecs) -> DagFault
    ensures { MatchOption (fault_of tasks) (result ≡ DagFault.OutOfMemory) (λ fault. result ≡ fault) }
{
    match first_misfit(tasks.as_slice()) {
        Some(misfit) => misfit.told(tasks),
        None => DagFault::OutOfMemory,
    }
}
