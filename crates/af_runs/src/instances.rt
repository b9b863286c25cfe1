ghost use Rattle.std.specs.Prelude.{◌≡◌, ◌↔◌, IfOk, map, true};
ghost use Rattle.af_runs.specs.Clears.{cleared_instances};
ghost use Rattle.af_runs.specs.Instances.{new_instances};
ghost use Rattle.af_runs.specs.Marks.{marked_instance};

use crate::instance::Instance;
use crate::mark::Mark;
use crate::selection::Selection;
use af_base::Items;
use af_graph::{Dag, TaskSpec};
use af_names::Instant;
use std::alloc::{AllocError, Global};

/// The instances of a run, in the order of the definition.
pub type Instances = Items<Instance>;

/// The instances of a new run of a DAG: for each task one in `NoStatus`, never tried. `AllocError` only where a growth was
/// refused.
pub fn new_instances(alloc: Global, dag: &Dag) -> Result<Instances, AllocError>
    ensures { IfOk result (λ instances. instances ≡ new_instances dag.now.tasks) }
{
    let items = items_of(alloc, dag.tasks())?;
    Ok(Instances::of(items))
}

/// For each of these tasks an instance in `NoStatus`, never tried. `AllocError` only where a growth was refused.
fn items_of(alloc: Global, tasks: &[TaskSpec]) -> Result<Vec<Instance>, AllocError>
    ensures { IfOk result (λ items. items.items ≡ new_instances tasks.now) }
{
    tasks.iter().map(|task| Instance::of(task)).collect(alloc)
}

/// Whether two lists have the same instances.
pub(crate) fn same_instances(one: &[Instance], other: &[Instance]) -> bool
    ensures { (result ≡ true) ↔ (one.now ≡ other.now) }
{
    if one.len() != other.len() {
        return false;
    }
    for place in 0..one.len() {
        if one[place] != other[place] {
            return false;
        }
    }
    true
}

/// Puts the instances of a run that is marked so at a moment into their states.
pub(crate) fn mark_all(instances: &mut Instances, mark: Mark, at: Instant)
    ensures { instances.new ≡ map (marked_instance mark at) instances.old }
{
    for place in 0..instances.as_slice().len() {
        let instance = instances.as_slice()[place];
        instances.set(place, mark.marked(instance, at));
    }
}

/// Clears those of the instances of a run that are chosen.
pub(crate) fn clear_all(instances: &mut Instances, selection: &Selection)
    ensures { instances.new ≡ cleared_instances selection.now instances.old }
{
    for place in 0..instances.as_slice().len() {
        let cleared = selection.after(place, &instances.as_slice()[place]);
        instances.set(place, cleared);
    }
}
