// What is written to standard error.
ghost use Rattle.std.specs.Prelude.{◌≡◌};
ghost use Rattle.af_server.specs.Tellings.{Tells, refusal_line, said_of, status_of, usage_line};

use crate::reason::Reason;
use af_http::{Ended, Sink, write_all};

/// Says how the program is called. Status 2.
pub fn usage<E: Sink>(errors: &mut E) -> u8
    ensures status { result ≡ 2 }
    ensures told { Tells (E.taken errors.old) (E.taken errors.new) usage_line }
{
    tell(errors, USAGE);
    2
}

/// Says how a connection ended: nothing where there was one, and else why the configuration is refused. Status 0 where the
/// connection ended as connections do, 1 where it was cut short, 3 where the configuration is refused.
pub fn ended<E: Sink>(errors: &mut E, outcome: Result<Ended, Reason>) -> u8
    ensures status { result ≡ status_of outcome }
    ensures told { Tells (E.taken errors.old) (E.taken errors.new) (said_of outcome) }
{
    tell(errors, said(outcome));
    status(outcome)
}

fn status(outcome: Result<Ended, Reason>) -> u8
    ensures { result ≡ status_of outcome }
{
    match outcome {
        Ok(Ended::Closed) => 0,
        Ok(_) => 1,
        Err(_) => 3,
    }
}

fn said(outcome: Result<Ended, Reason>) -> &'static str
    ensures { result.now ≡ said_of outcome }
{
    match outcome {
        Ok(_) => "",
        Err(reason) => line_of(reason),
    }
}

/// How the program is called.
const USAGE: &str = "usage: afplane once CONFIG NOW | serve CONFIG PORT WORKERS | verify TRACE\n";

/// Why a configuration or a trace is refused, as a line.
pub fn line_of(reason: Reason) -> &'static str
    ensures { result.now ≡ refusal_line reason }
{
    match reason {
        Reason::Unreadable => "afplane: configuration refused: unreadable\n",
        Reason::Syntax => "afplane: configuration refused: syntax\n",
        Reason::Shape => "afplane: configuration refused: shape\n",
        Reason::Name => "afplane: configuration refused: name\n",
        Reason::Duplicate => "afplane: configuration refused: duplicate\n",
        Reason::Role => "afplane: configuration refused: role\n",
        Reason::Action => "afplane: configuration refused: action\n",
        Reason::Pair => "afplane: configuration refused: pair\n",
        Reason::Admin => "afplane: configuration refused: admin\n",
        Reason::Pool => "afplane: configuration refused: pool\n",
        Reason::Graph => "afplane: configuration refused: graph\n",
        Reason::Schedule => "afplane: configuration refused: schedule\n",
        Reason::Limit => "afplane: configuration refused: limit\n",
        Reason::Memory => "afplane: configuration refused: memory\n",
        Reason::Trace => "afplane: configuration refused: trace\n",
    }
}

/// Writes a text. Where a write fails, the rest is given up: there is nobody to tell.
pub fn tell<E: Sink>(errors: &mut E, text: &str)
    ensures { Tells (E.taken errors.old) (E.taken errors.new) text.now }
{
    let _told = write_all(errors, text.as_bytes());
}
