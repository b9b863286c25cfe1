ghost use Rattle.std.specs.Prelude.{◌≡◌, ◌<◌, length, Err};
ghost use Rattle.af_http.specs.Connections.{Connects};
ghost use Rattle.af_server.specs.Configurations.{longest};
ghost use Rattle.af_server.specs.Desks.{Decides};
ghost use Rattle.af_server.specs.Once.{IsOnce};

use crate::config::Configuration;
use crate::desk::Desk;
use crate::reason::Reason;
use af_http::{Ended, Sink, Source, serve};
use af_names::Instant;
use std::alloc::Global;
use std::sync::Wait;

/// Answers the requests that come from the reader, one after another, each by the verdict on the desk that the one before left. That they
/// are one run of the world is the law `exchanges_are_one_run`.
pub fn converse<H: Wait, R: Source, W: Sink>(
    alloc: Global,
    desk: &mut Desk<'_, H>,
    reader: &mut R,
    writer: &mut W,
) -> Ended
    ensures { Connects Decides (R.given reader.old) (R.given reader.new) (W.taken writer.old) (W.taken writer.new) desk.old desk.new result }
{
    serve(alloc, reader, writer, desk)
}

/// One connection under a configuration, at one moment: a run of the world of two sessions, its own and one that may publish beside it,
/// from what the configuration says on. A configuration that is refused reads and writes nothing.
#[tactic(auto, using(crate::proofs::DeskLemmas::connects_kept))]
pub fn once<H: Wait, R: Source, W: Sink>(
    rt: &H,
    alloc: Global,
    config: &[u8],
    now: Instant,
    reader: &mut R,
    writer: &mut W,
) -> Result<Ended, Reason>
    ensures once { IsOnce config.now now (R.given reader.old) (R.given reader.new) (W.taken writer.old) (W.taken writer.new) result }
    ensures long { longest < length config.now → result ≡ Err Reason.Unreadable }
{
    let configuration = Configuration::read(alloc, config)?;
    let mut desk = Desk::open(rt, alloc, configuration, now)?;
    desk.conditions();
    let ended = converse(alloc, &mut desk, reader, writer);
    desk.conditions();
    drop(desk);
    Ok(ended)
}
