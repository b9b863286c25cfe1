// What the program does of what its words ask for.
ghost use Rattle.af_server.specs.Programs.{Comes, IsOnceAt, Runs, RunsOnce, RunsServe, RunsVerify};
ghost use Rattle.af_server.specs.Verified.{IsVerified};

use crate::command::Command;
use crate::console::Console;
use crate::done::Done;
use crate::files::Files;
use crate::listening::{announce, blame, finish, listen_at};
use crate::once::once;
use crate::ports::Ports;
use crate::reason::Reason;
use crate::telling::{ended, usage};
use crate::verdict::conclude;
use crate::verifying::verify;
use crate::worker_count::WorkerCount;
use af_http::{Ended, Sink, Source};
use af_names::Instant;
use std::alloc::Global;
use std::sync::Wait;
use std::thread::Threads;

/// Does what the words ask for, with files found there, and gives the status, and what the threads of a server report, where one has listened. `once`: 0 where the connection ended as connections do, 1 where
/// it was cut short. `serve`: 1 where the server can't listen, and after its last worker has ended. `verify`: 0 where the answers agree, 1
/// where they differ. Of wrong words 2; where the configuration or the trace is refused, also where its file can't be had, 3.
pub fn run<H: Ports + Threads + Wait + Sync, F: Files, R: Source, W: Sink, E: Sink>(
    rt: &H,
    alloc: Global,
    files: &F,
    command: Command,
    console: &mut Console<R, W, E>,
) -> Done<H::Log>
where
    H::Log: Send,
    ensures { Runs (F.holds files.now) (F.refuses files.now) H.behaviour command (R.given console.old.input) (R.given console.new.input)
        (W.taken console.old.output) (W.taken console.new.output) (E.taken console.old.errors) (E.taken console.new.errors) result }
{
    match command {
        Command::Once { config, now } => Done {
            status: once_at(rt, alloc, files, config.as_str(), now, console),
            served: None,
        },
        Command::Serve {
            config,
            port,
            count,
        } => serve_at(rt, alloc, files, config.as_str(), port, &count, console),
        Command::Verify { trace } => Done {
            status: verify_at(alloc, files, trace.as_str(), console),
            served: None,
        },
        Command::Usage => Done {
            status: usage(&mut console.errors),
            served: None,
        },
    }
}

/// One connection under the configuration at a path; why it is refused is told on standard error.
fn once_at<H: Wait, F: Files, R: Source, W: Sink, E: Sink>(
    rt: &H,
    alloc: Global,
    files: &F,
    path: &str,
    now: Instant,
    console: &mut Console<R, W, E>,
) -> u8
    ensures { RunsOnce (F.holds files.now) (F.refuses files.now) path.now now (R.given console.old.input) (R.given console.new.input)
        (W.taken console.old.output) (W.taken console.new.output) (E.taken console.old.errors) (E.taken console.new.errors) result }
{
    let outcome = connection_at(
        rt,
        alloc,
        files,
        path,
        now,
        &mut console.input,
        &mut console.output,
    );
    ended(&mut console.errors, outcome)
}

/// One connection under the configuration at a path.
fn connection_at<H: Wait, F: Files, R: Source, W: Sink>(
    rt: &H,
    alloc: Global,
    files: &F,
    path: &str,
    now: Instant,
    reader: &mut R,
    writer: &mut W,
) -> Result<Ended, Reason>
    ensures { IsOnceAt (F.holds files.now) (F.refuses files.now) path.now now (R.given reader.old) (R.given reader.new)
        (W.taken writer.old) (W.taken writer.new) result }
{
    match files.read(alloc, path) {
        Ok(bytes) => once(rt, alloc, bytes.as_slice(), now, reader, writer),
        Err(reason) => Err(reason),
    }
}

/// A server under the configuration at a path, on a port, with so many workers. Where it listens is printed; why the configuration is refused is
/// told on standard error.
fn serve_at<H: Ports + Threads + Wait + Sync, F: Files, R: Source, W: Sink, E: Sink>(
    rt: &H,
    alloc: Global,
    files: &F,
    path: &str,
    port: u16,
    count: &WorkerCount,
    console: &mut Console<R, W, E>,
) -> Done<H::Log>
where
    H::Log: Send,
    ensures { RunsServe (F.holds files.now) (F.refuses files.now) H.behaviour path.now port count.now (R.given console.old.input) (R.given console.new.input)
        (W.taken console.old.output) (W.taken console.new.output) (E.taken console.old.errors) (E.taken console.new.errors) result }
{
    let outcome = listen_at(rt, alloc, files, path, port);
    announce(&mut console.output, &outcome);
    blame(&mut console.errors, &outcome);
    finish(rt, alloc, outcome, count)
}

/// Whether the answers of the trace at a path are those of the run of its steps: that is printed, or why it is refused told on standard error.
fn verify_at<F: Files, R: Source, W: Sink, E: Sink>(
    alloc: Global,
    files: &F,
    path: &str,
    console: &mut Console<R, W, E>,
) -> u8
    ensures { RunsVerify (F.holds files.now) (F.refuses files.now) path.now (R.given console.old.input) (R.given console.new.input)
        (W.taken console.old.output) (W.taken console.new.output) (E.taken console.old.errors) (E.taken console.new.errors) result }
{
    let outcome = verified_at(alloc, files, path);
    conclude(&mut console.output, &mut console.errors, outcome)
}

/// Whether the answers of the trace at a path are those of the run of its steps.
fn verified_at<F: Files>(alloc: Global, files: &F, path: &str) -> Result<bool, Reason>
    ensures { Comes (F.holds files.now) (F.refuses files.now) path.now IsVerified result }
{
    match files.read(alloc, path) {
        Ok(bytes) => verify(alloc, bytes.as_slice()),
        Err(reason) => Err(reason),
    }
}
