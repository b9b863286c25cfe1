ghost use Rattle.std.specs.Prelude.{◌≡◌, IfErr, IfOk, OnOk};
ghost use Rattle.std.specs.Bool.{Decides};
ghost use Rattle.af_base.specs.JsonValue.{view};
ghost use Rattle.af_base.specs.Readings.{Makes, OrMemory};
ghost use Rattle.af_trace.specs.declared.trace_fault.TraceFault.{TraceFault};
ghost use Rattle.af_trace.specs.Traces.{Agrees, empty, read_taken, trace_in, with_entry};

use crate::reading::{add_entries, entries_of, sessions_of};
use crate::trace_fault::TraceFault;
use af_base::Json;
use af_http::Routes;
use af_ops::Shown;
use af_world::{Opening, Step, check_trace};
use std::alloc::{AllocError, Global};
use std::marker::Model;

/// A trace: how many sessions there are, the steps, and what was answered to each.
pub struct Trace {
    sessions: u32,
    steps: Vec<Step>,
    answers: Vec<Option<Shown>>,
    /// Whether each answer that is recorded is one that may be given.
    possible: bool,
}

impl Drop for Trace {
    fn drop(self) {
        let Trace {
            sessions: _,
            steps: _,
            answers: _,
            possible: _,
        } = self;
    }
}

impl Model for Trace {
    ghost use Rattle.std.specs.Prelude.{Some, None, if◌then◌else◌};
    ghost use Rattle.af_trace.specs.Traces.{TraceRows};

    ghost Value = { TraceRows };

    ghost view = { λ trace. record {
      sessions = trace.sessions;
      steps = trace.steps.items;
      answers = if trace.possible then Some trace.answers.items else None;
    } };
}

impl Trace {
    /// Reads what a JSON object says, its configuration aside: `sessions`, and then `steps`, each with its answer. `Form` where it is not of
    /// the form of a trace; `OutOfMemory` only where a growth was refused before a fault was met.
    pub fn read(alloc: Global, row: &Json<'_>) -> Result<Trace, TraceFault>
        ensures { OrMemory TraceFault.OutOfMemory (trace_in (view row.now)) result }
    {
        let sessions = sessions_of(row)?;
        let entries = entries_of(row)?;
        let mut routes = Routes::new(alloc)?;
        let mut trace = Trace::empty(alloc, sessions);
        add_entries(alloc, &mut routes, &mut trace, entries)?;
        Ok(trace)
    }

    /// A trace of no steps.
    fn empty(alloc: Global, sessions: u32) -> Trace
        ensures { result ≡ empty sessions }
    {
        Trace {
            sessions,
            steps: Vec::new(alloc),
            answers: Vec::new(alloc),
            possible: true,
        }
    }

    /// How many sessions there are, from 0 to 1,024.
    pub fn sessions(&self) -> u32
        ensures { result ≡ self.now.sessions }
    {
        self.sessions
    }

    /// Whether a world that opens so gives these answers to these steps. `AllocError` only where a growth was refused.
    pub fn agrees(&self, alloc: Global, opening: &Opening) -> Result<bool, AllocError>
        ensures { IfOk result (λ yes. Decides yes (Agrees opening.now self.now)) }
    {
        if self.possible {
            check_trace(
                alloc,
                opening,
                self.steps.as_slice(),
                self.answers.as_slice(),
            )
        } else {
            Ok(false)
        }
    }

    /// Adds what was read as a step, with its answer.
    pub(crate) fn add_read(
        &mut self,
        step: Result<Step, TraceFault>,
        answer: Option<Option<Shown>>,
    ) -> Result<(), TraceFault>
        ensures { Makes TraceFault.OutOfMemory (read_taken self.old answer step) self.new result }
    {
        match step {
            Ok(step) => self.add(step, answer),
            Err(fault) => Err(fault),
        }
    }

    /// Adds a step with its answer; with none where an answer is recorded that nothing gives.
    fn add(&mut self, step: Step, answer: Option<Option<Shown>>) -> Result<(), TraceFault>
        ensures added { OnOk result (self.new ≡ with_entry self.old step answer) }
        ensures fault { IfErr result (λ fault. fault ≡ TraceFault.OutOfMemory) }
    {
        self.steps.push(step)?;
        match answer {
            Some(answer) if self.possible => self.answers.push(answer)?,
            _ => self.possible = false,
        }
        Ok(())
    }
}
