ghost use Rattle.std.specs.Prelude.{◌≡◌};
ghost use Rattle.std.specs.IoError.{raw_os_error};
ghost use Rattle.af_server.specs.AcceptErrors.{accept_error_of};

use std::io::Error;

/// What an error of `accept` says of the connections that come after it. The numbers are those of Linux.
#[derive(Clone, Copy, Debug, PartialEq, Eq)]
pub enum AcceptError {
    /// The connection that was to be accepted is gone, or a signal came first.
    Gone,
    /// The system is short of something that comes back: open files, buffers or memory.
    Short,
    /// The listener accepts no more.
    Final,
}

impl AcceptError {
    /// What this error says.
    pub fn of(error: &Error) -> AcceptError
        ensures { result ≡ accept_error_of (raw_os_error error.now) }
    {
        match error.raw_os_error() {
            Some(12 | 23 | 24 | 105) => AcceptError::Short,
            Some(1 | 4 | 64 | 71 | 92 | 95 | 100 | 101 | 103 | 110 | 112 | 113) =>
                AcceptError::Gone,
            _ => AcceptError::Final,
        }
    }
}
