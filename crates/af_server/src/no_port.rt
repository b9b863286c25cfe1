ghost use Rattle.std.specs.Prelude.{◌≡◌, IfErr, IfOk, string_bytes};
ghost use Rattle.af_server.specs.NoPorts.{no_port_line, why_text};

use crate::reason::Reason;
use std::alloc::Global;
use std::io::ErrorKind;
use std::marker::Model;

/// The port of 127.0.0.1 that a server was to listen on, and why the machine does not give it. Contracts see both.
#[derive(Drop)]
pub struct NoPort {
    port: u16,
    error: ErrorKind,
    line: String,
    ghost says: { string_bytes line ≡ no_port_line port error },
}

impl Model for NoPort {
    ghost use Rattle.af_server.specs.NoPorts.{NoPortRows};

    ghost Value = { NoPortRows };

    ghost view = { λ none. record { port = none.port; error = none.error } };
}

impl NoPort {
    /// The port that was asked for, and the error. `Memory` if an allocation failed.
    pub(crate) fn of(alloc: Global, port: u16, error: ErrorKind) -> Result<NoPort, Reason>
        ensures rows { IfOk result (λ none. none ≡ record { port = port; error = error }) }
        ensures memory { IfErr result (λ reason. reason ≡ Reason.Memory) }
    {
        let line = no_port_line(alloc, port, error)?;
        Ok(NoPort { port, error, line })
    }

    /// The line that says so.
    pub(crate) fn line(&self) -> &str
        ensures { result.now ≡ no_port_line self.now.port self.now.error }
    {
        self.line.as_str()
    }
}

/// The line that says which port is not to be had, and why.
fn no_port_line(alloc: Global, port: u16, error: ErrorKind) -> Result<String, Reason>
    ensures line { IfOk result (λ line. string_bytes line ≡ no_port_line port error) }
    ensures memory { IfErr result (λ reason. reason ≡ Reason.Memory) }
{
    let why = why_text(error);
    Ok(format!(in alloc; "afplane: cannot listen on 127.0.0.1:{port}: {why}\n")?)
}

/// Why the machine does not give a port.
fn why_text(error: ErrorKind) -> &'static str
    ensures { result.now ≡ why_text error }
{
    match error {
        ErrorKind::AddrInUse => "the port is in use",
        ErrorKind::AddrNotAvailable => "the address is not available",
        ErrorKind::PermissionDenied => "permission denied",
        _ => "the system gives no listener",
    }
}
