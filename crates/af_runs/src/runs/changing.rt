ghost use Rattle.std.specs.Prelude.{◌≡◌};
ghost use Rattle.af_runs.specs.Runs.{with_advanced, with_instance, with_state, without_run};

use crate::instance::Instance;
use crate::optional_instant::OptionalInstant;
use crate::run::Run;
use crate::run_state::RunState;
use crate::runs::Runs;
use af_names::Instant;

impl Runs {
    /// Takes the run of this number out; the number is not used again. Where there is no such run nothing changes. It takes
    /// no memory.
    pub fn remove(&mut self, number: u64)
        ensures { self.new ≡ record self.old { rows = without_run self.old.rows number } }
    {
        if let Some(place) = self.place_of(number) {
            let run = self.rows.remove(place);
            self.index.remove(place, &run);
        }
    }

    /// Puts the run of this number into a state, with its start and its end. Where there is no such run nothing changes.
    pub fn set_state(
        &mut self,
        number: u64,
        state: RunState,
        start_date: Option<Instant>,
        end_date: Option<Instant>,
    )
        ensures { self.new ≡ record self.old {
          rows = with_state self.old.rows number state start_date end_date;
        } }
    {
        if let Some(place) = self.place_of(number) {
            let run = &mut self.rows[place];
            run.state = state;
            run.start_date = OptionalInstant::from(start_date);
            run.end_date = OptionalInstant::from(end_date);
            self.index.keep_numbers(&self.rows[place]);
        }
    }

    /// Replaces the instance at a place of the run of this number. Where there is no such run or place nothing changes.
    pub fn set_instance(&mut self, number: u64, place: usize, instance: Instance)
        ensures { self.new ≡ record self.old {
          rows = with_instance self.old.rows number place instance;
        } }
    {
        if let Some(row) = self.place_of(number) {
            self.rows[row].instances.set(place, instance);
            self.index.keep_numbers(&self.rows[row]);
        }
    }

    /// Advances the run of the later one's number to it: its state, its start, its end and its instances become those
    /// of the later one. Where there is no such run nothing changes.
    pub fn advance(&mut self, later: Run)
        ensures { self.new ≡ record self.old { rows = with_advanced self.old.rows later } }
    {
        if let Some(place) = self.place_of(later.number) {
            let earlier = &mut self.rows[place];
            earlier.state = later.state;
            earlier.start_date = later.start_date;
            earlier.end_date = later.end_date;
            earlier.instances = later.instances;
            self.index.keep_numbers(&self.rows[place]);
        }
    }
}
