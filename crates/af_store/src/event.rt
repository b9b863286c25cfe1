ghost use Rattle.std.specs.Prelude.{◌≡◌};
ghost use Rattle.af_store.specs.EntryReads.{event_in, other_in};

use crate::line_fault::LineFault;
use crate::op_event::OpEvent;

/// What an entry tells of: an operation that changes the state, or an act of the scheduler or of an executor.
#[derive(Clone, Copy, Debug, PartialEq, Eq)]
pub enum Event {
    Op(OpEvent),
    Tick,
    Claim,
    Report,
}

impl Event {
    /// The event of this text.
    pub(crate) fn read(text: &str) -> Result<Event, LineFault>
        ensures { result ≡ event_in text.now }
    {
        match OpEvent::read(text) {
            Some(op) => Ok(Event::Op(op)),
            None => other_in(text),
        }
    }
}

fn other_in(text: &str) -> Result<Event, LineFault>
    ensures { result ≡ other_in text.now }
{
    match text {
        "tick" => Ok(Event::Tick),
        "claim" => Ok(Event::Claim),
        "report" => Ok(Event::Report),
        _ => Err(LineFault::NotALine),
    }
}
