// The machine that the program runs on: a clock, and connections of TCP. What is in this module is what a connection of `serve` takes on trust:
// that the reader and the writer that a handler gets are those of one connection, and that none is passed over.
ghost use Rattle.std.specs.Prelude.{◌≡◌};
ghost use Rattle.af_server.specs.Connections.{HasHandled, noted_in};

use crate::clock::time_now;
use crate::handler::Handler;
use crate::machine::Machine;
use crate::ports::Ports;
use crate::stop_wait::StopWait;
use af_http::{Counted, Ended};
use af_names::Instant;
use af_plane::SessionLog;
use std::io::{self, ErrorKind};
use std::net::{Net, TcpListener, TcpStream};
use std::sync::Wait;
use std::thread;
use std::time::{Clock, Duration};

mod accept_error;
mod connection;
mod deadline;
mod listener;
mod log;
mod peer;
mod stop;
mod waiter;

pub use accept_error::AcceptError;
use connection::Connection;
use deadline::Deadline;
pub use listener::Listener;
pub use log::HostLog;
use peer::{Peer, part};
pub use stop::Stop;
use waiter::Waiter;

/// For how many milliseconds a worker waits for what the system is short of, before it accepts again.
const PAUSE: u64 = 100;

impl Machine for HostRuntime {
    ghost use Rattle.af_server.specs.Machines.{IsPort, IsTold};

    type Log = HostLog;

    ghost behaviour = { record { tells = IsTold; gives = IsPort; refuses = λ error. Unit {0}; ends = λ error. Unit {0} } };

    fn time(&self) -> Instant {
        time_now(self)
    }

    fn handle_next<H: Handler>(
        &self,
        listener: &Listener,
        time: Duration,
        log: &mut HostLog,
        handler: &mut H,
    ) -> Result<(), ErrorKind> {
        let stream = accept(self, listener)?;
        handle(self, listener, &stream, time, log, handler);
        Ok(())
    }

    fn wait<W: Wait>(
        &self,
        leave: &W,
        stop: &Stop,
        time: Duration,
        done: &SessionLog,
        log: &mut HostLog,
    ) -> StopWait {
        let wait = StopWait {
            workers: stop.workers(),
            time,
            told: stop.waits(&Waiter::new(leave, self), time),
        };
        log.add_wait(&wait, done);
        wait
    }
}

/// The next connection, or why there are no more. A connection that failed before it was accepted is passed over. If the system is short of open
/// files, buffers or memory, the call is made again after a pause.
fn accept(rt: &HostRuntime, listener: &Listener) -> Result<TcpStream, ErrorKind> {
    for _ in 0..u64::MAX {
        match listener.socket().accept() {
            Ok((stream, _)) => return Ok(stream),
            Err(error) => match AcceptError::of(&error) {
                AcceptError::Gone => {}
                AcceptError::Short => thread::sleep(rt, Duration::from_millis(PAUSE)),
                AcceptError::Final => return Err(error.kind()),
            },
        }
    }
    Err(ErrorKind::ConnectionAborted)
}

/// Hands the handler what comes on a stream, and notes it. If the server is the first to end the connection, it takes leave of the peer.
fn handle<R: Clock, H: Handler>(
    rt: &R,
    listener: &Listener,
    stream: &TcpStream,
    time: Duration,
    log: &mut HostLog,
    handler: &mut H,
)
    ensures handled { HasHandled H.handles listener.now handler.old handler.new (noted_in log.old.connections.items) (noted_in log.new.connections.items) }
    ensures waits { log.new.waits ≡ log.old.waits }
{
    // What is written goes out at once. Where that can't be set, answers are only later.
    let _ = stream.set_nodelay(true);
    let deadline = Deadline::new(rt, time);
    let mut reader = Counted::new(Peer::new(rt, stream, &deadline));
    let mut writer = Counted::new(Peer::new(rt, stream, &deadline));
    let ended = handler.handle(&mut reader, &mut writer);
    log.add_connection(&Connection::of(
        listener,
        reader.into_history(),
        writer.into_history(),
        ended,
    ));
    match ended {
        Ended::ReadFault | Ended::WriteFault => {}
        Ended::Closed | Ended::Refused(_) | Ended::Turns | Ended::NoMemory => {
            let _ = part(rt, stream);
        }
    }
}

impl Ports for HostRuntime {
    fn listen(&self, port: u16) -> Result<Listener, ErrorKind> {
        match bind(self, port) {
            Ok((_, given)) if port != 0 && given != port => Err(ErrorKind::AddrNotAvailable),
            Ok((socket, given)) => Ok(Listener::of(socket, given)),
            Err(error) => Err(error.kind()),
        }
    }

    fn log(&self) -> HostLog {
        HostLog::new()
    }
}

/// A socket that listens on a port of 127.0.0.1, and which the system says that it is.
fn bind<R: Net<Listener = TcpListener, Stream = TcpStream>>(
    rt: &R,
    port: u16,
) -> io::Result<(TcpListener, u16)> {
    let socket = TcpListener::bind(rt, ("127.0.0.1", port))?;
    let given = socket.local_addr()?.port();
    Ok((socket, given))
}
