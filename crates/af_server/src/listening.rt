ghost use Rattle.std.specs.Prelude.{◌≡◌, IfErr, IfOk, string_bytes};
ghost use Rattle.af_server.specs.Listenings.{server_of};
ghost use Rattle.af_server.specs.Programs.{Comes, IsServed, announced, blamed, listening_line, served_status};
ghost use Rattle.af_server.specs.Servers.{HasServed, IsAt};
ghost use Rattle.af_server.specs.Tellings.{Tells};

use crate::config::Configuration;
use crate::done::Done;
use crate::files::Files;
use crate::host::Listener;
use crate::no_port::NoPort;
use crate::ports::Ports;
use crate::reason::Reason;
use crate::server::{Server, serve};
use crate::telling::{line_of, tell};
use crate::worker_count::WorkerCount;
use af_http::Sink;
use std::alloc::Global;
use std::marker::Model;
use std::sync::Wait;
use std::thread::Threads;

/// A server that listens on a port of 127.0.0.1. Contracts see the server and the port.
#[derive(Drop)]
pub struct Listening {
    server: Server,
    listener: Listener,
    line: String,
    ghost says: { string_bytes line ≡ listening_line listener },
}

impl Model for Listening {
    ghost use Rattle.af_server.specs.Listenings.{ListeningRows, server_of};

    ghost Value = { ListeningRows };

    ghost view = { λ listening. record {
      server = server_of listening.server.parts.board listening.server.parts.plane listening.server.scripted;
      port = listening.listener;
    } };
}

/// A server that listens, or why the machine gives it no port.
type Found = Result<Listening, NoPort>;

/// Listens under the configuration at a path.
pub fn listen_at<H: Ports, F: Files>(
    rt: &H,
    alloc: Global,
    files: &F,
    path: &str,
    port: u16,
) -> Result<Found, Reason>
    ensures served { Comes (F.holds files.now) (F.refuses files.now) path.now IsServed result }
    ensures port { IfOk result (IsAt H.behaviour port) }
{
    match files.read(alloc, path) {
        Ok(bytes) => listen_under(rt, alloc, bytes.as_slice(), port),
        Err(reason) => Err(reason),
    }
}

/// Listens under these bytes of a configuration.
fn listen_under<H: Ports>(rt: &H, alloc: Global, config: &[u8], port: u16) -> Result<Found, Reason>
    ensures served { IsServed config.now result }
    ensures port { IfOk result (IsAt H.behaviour port) }
{
    let configuration = Configuration::read(alloc, config)?;
    let server = Server::open(alloc, configuration)?;
    listen(rt, alloc, server, port)
}

/// Listens on a port, of which 0 is any that is free.
fn listen<H: Ports>(rt: &H, alloc: Global, server: Server, port: u16) -> Result<Found, Reason>
    ensures server { IfOk result (λ found. IfOk found (λ l. l.server ≡ server_of server.parts.board server.parts.plane server.scripted)) }
    ensures port { IfOk result (IsAt H.behaviour port) }
    ensures memory { IfErr result (λ reason. reason ≡ Reason.Memory) }
{
    match rt.listen(port) {
        Ok(listener) => {
            let line = listening_line(alloc, listener.port())?;
            Ok(Ok(Listening {
                server,
                listener,
                line,
            }))
        }
        Err(error) => Ok(Err(NoPort::of(alloc, port, error)?)),
    }
}

/// The line that says on which port a server listens.
fn listening_line(alloc: Global, port: u16) -> Result<String, Reason>
    ensures line { IfOk result (λ line. string_bytes line ≡ listening_line port) }
    ensures memory { IfErr result (λ reason. reason ≡ Reason.Memory) }
{
    Ok(format!(in alloc; "listening on 127.0.0.1:{port}\n")?)
}

/// Prints on which port the server listens, if it does.
pub fn announce<W: Sink>(output: &mut W, outcome: &Result<Found, Reason>)
    ensures { Tells (W.taken output.old) (W.taken output.new) (announced outcome.now) }
{
    tell(output, announced(outcome));
}

fn announced(outcome: &Result<Found, Reason>) -> &str
    ensures { result.now ≡ announced outcome.now }
{
    match outcome {
        Ok(Ok(listening)) => listening.line.as_str(),
        Ok(Err(_)) | Err(_) => "",
    }
}

/// Says why the configuration is refused, or why the server does not listen.
pub fn blame<E: Sink>(errors: &mut E, outcome: &Result<Found, Reason>)
    ensures { Tells (E.taken errors.old) (E.taken errors.new) (blamed outcome.now) }
{
    tell(errors, blamed(outcome));
}

fn blamed(outcome: &Result<Found, Reason>) -> &str
    ensures { result.now ≡ blamed outcome.now }
{
    match outcome {
        Ok(Ok(_)) => "",
        Ok(Err(none)) => none.line(),
        Err(reason) => line_of(*reason),
    }
}

/// Serves, if the server listens, with so many workers until all have ended, and gives the status.
pub fn finish<H: Threads + Wait + Ports + Sync>(
    rt: &H,
    alloc: Global,
    outcome: Result<Found, Reason>,
    count: &WorkerCount,
) -> Done<H::Log>
where
    H::Log: Send,
    ensures status { result.status ≡ served_status outcome }
    ensures served { HasServed H.behaviour count.now outcome result.served }
{
    match outcome {
        Ok(Ok(listening)) => {
            let Listening {
                server,
                listener,
                ..
            } = listening;
            Done {
                status: 1,
                served: Some(serve(rt, alloc, server, &listener, count)),
            }
        }
        Ok(Err(_)) => Done {
            status: 1,
            served: None,
        },
        Err(_) => Done {
            status: 3,
            served: None,
        },
    }
}
