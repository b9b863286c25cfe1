// What is told of a trace.
ghost use Rattle.std.specs.Prelude.{◌≡◌};
ghost use Rattle.af_server.specs.Tellings.{Tells};
ghost use Rattle.af_server.specs.Verdicts.{printed_of, refused_of, status_of};

use crate::reason::Reason;
use crate::telling::{line_of, tell};
use af_http::Sink;

/// Prints what was found out of a trace, or says why it is refused, and gives the status.
pub fn conclude<W: Sink, E: Sink>(
    output: &mut W,
    errors: &mut E,
    outcome: Result<bool, Reason>,
) -> u8
    ensures printed { Tells (W.taken output.old) (W.taken output.new) (printed_of outcome) }
    ensures refused { Tells (E.taken errors.old) (E.taken errors.new) (refused_of outcome) }
    ensures status { result ≡ status_of outcome }
{
    print(output, outcome);
    refuse(errors, outcome);
    status(outcome)
}

/// Prints whether the answers agree, if that is known.
fn print<W: Sink>(output: &mut W, outcome: Result<bool, Reason>)
    ensures { Tells (W.taken output.old) (W.taken output.new) (printed_of outcome) }
{
    tell(output, printed(outcome));
}

/// Says why the trace is refused, if it is.
fn refuse<E: Sink>(errors: &mut E, outcome: Result<bool, Reason>)
    ensures { Tells (E.taken errors.old) (E.taken errors.new) (refused_of outcome) }
{
    tell(errors, refused(outcome));
}

fn printed(outcome: Result<bool, Reason>) -> &'static str
    ensures { result.now ≡ printed_of outcome }
{
    match outcome {
        Ok(true) => "agrees\n",
        Ok(false) => "differs\n",
        Err(_) => "",
    }
}

fn refused(outcome: Result<bool, Reason>) -> &'static str
    ensures { result.now ≡ refused_of outcome }
{
    match outcome {
        Ok(_) => "",
        Err(reason) => line_of(reason),
    }
}

fn status(outcome: Result<bool, Reason>) -> u8
    ensures { result ≡ status_of outcome }
{
    match outcome {
        Ok(true) => 0,
        Ok(false) => 1,
        Err(_) => 3,
    }
}
