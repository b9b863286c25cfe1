ghost use Rattle.std.specs.Prelude.{◌≡◌, ◌++◌, ◌∷◌, [], OnOk, if◌then◌else◌};
ghost use Rattle.std.specs.List.{enumerate_from, list_all, list_any};
ghost use Rattle.af_runs.specs.Clears.{chosen_of, cleared_run, is_chosen, is_left_by, is_requeued, stays_in_clear};

use crate::chosen_instance::ChosenInstance;
use crate::instance::Instance;
use crate::instances::clear_all;
use crate::optional_instant::OptionalInstant;
use crate::run::Run;
use crate::run_state::RunState;
use crate::selection::Selection;
use std::alloc::AllocError;

impl Run {
    /// Clears those of its instances that are chosen. Where one is, and it has ended, it is queued again, without start and end.
    pub fn clear(&mut self, selection: &Selection)
        ensures { self.new ≡ cleared_run selection.now self.old }
    {
        if self.is_requeued(selection) {
            self.state = RunState::Queued;
            self.start_date = OptionalInstant::none();
            self.end_date = OptionalInstant::none();
        }
        clear_all(&mut self.instances, selection);
    }

    /// Whether clearing those of its instances that are chosen leaves it as it is: it is not queued again, and each instance
    /// stays whole.
    pub fn is_left_by(&self, selection: &Selection) -> bool
        ensures { result ≡ is_left_by selection.now self.now }
    {
        !self.is_requeued(selection) && are_left(self.instances.as_slice(), selection)
    }

    /// Whether it has ended, and an instance of it is chosen.
    fn is_requeued(&self, selection: &Selection) -> bool
        ensures { result ≡ is_requeued selection.now self.now }
    {
        self.state.is_finished() && is_any_chosen(self.instances.as_slice(), selection)
    }
}

/// Whether one of these instances of a run is chosen.
fn is_any_chosen(instances: &[Instance], selection: &Selection) -> bool
    ensures { result ≡ list_any (is_chosen selection.now) (enumerate_from 0 instances.now) }
{
    instances
        .iter()
        .enumerate()
        .any(|(place, instance)| selection.chooses(place, instance))
}

/// Whether clearing those of these instances of a run that are chosen leaves all as they are.
fn are_left(instances: &[Instance], selection: &Selection) -> bool
    ensures { result ≡ list_all (stays_in_clear selection.now) (enumerate_from 0 instances.now) }
{
    instances
        .iter()
        .enumerate()
        .all(|(place, instance)| selection.leaves(place, instance))
}

/// Puts the chosen instances of a run after others. `AllocError` only where a growth was refused.
pub(crate) fn list_chosen<'a>(
    run: &'a Run,
    selection: &Selection,
    all: &mut Vec<ChosenInstance<'a>>,
) -> Result<(), AllocError>
    ensures { OnOk result (all.new.items ≡ all.old.items ++ chosen_of selection.now run.now) }
{
    let instances = run.instances.as_slice();
    for place in 0..instances.len() {
        let is_chosen = selection.chooses(place, &instances[place]);
        push_if(is_chosen, ChosenInstance { run, place }, all)?;
    }
    Ok(())
}

/// Puts an instance after others, where it is to be there. `AllocError` only where a growth was refused.
fn push_if<'a>(
    is_chosen: bool,
    instance: ChosenInstance<'a>,
    all: &mut Vec<ChosenInstance<'a>>,
) -> Result<(), AllocError>
    ensures { OnOk result (all.new.items ≡ all.old.items ++ (if is_chosen then instance.entry ∷ [] else [])) }
{
    if is_chosen {
        all.push(instance)?;
    }
    Ok(())
}
