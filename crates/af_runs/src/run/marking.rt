ghost use Rattle.std.specs.Prelude.{◌≡◌};
ghost use Rattle.std.specs.List.{list_all};
ghost use Rattle.af_runs.specs.Marks.{is_marked, marked_run, stays_in};

use crate::instance::Instance;
use crate::instances::mark_all;
use crate::mark::Mark;
use crate::optional_instant::OptionalInstant;
use crate::run::Run;
use af_names::Instant;

impl Run {
    /// Marks it at a moment: it and its instances are put into the states that the mark says, and what ends has that moment
    /// as its end. What is in its state already stays whole.
    pub fn mark(&mut self, mark: Mark, at: Instant)
        ensures { self.new ≡ marked_run mark at self.old }
    {
        if self.state != mark.state() {
            self.start_date = OptionalInstant::from(mark.start_of(self.start_date.get()));
            self.end_date = OptionalInstant::from(mark.end_at(at));
        }
        self.state = mark.state();
        mark_all(&mut self.instances, mark, at);
    }

    /// Whether it is marked so already: marking it again changes nothing.
    pub fn is_marked(&self, mark: Mark) -> bool
        ensures { result ≡ is_marked mark self.now }
    {
        self.state == mark.state() && are_kept(self.instances.as_slice(), mark)
    }
}

/// Whether each of these instances of a run that is marked so stays whole.
fn are_kept(instances: &[Instance], mark: Mark) -> bool
    ensures { result ≡ list_all (λ instance. stays_in mark instance.state) instances.now }
{
    instances.iter().all(|instance| mark.keeps(instance.state))
}
