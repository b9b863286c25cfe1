use crate::host::deadline::Deadline;
use std::cell::Cell;
use std::io::{self, ErrorKind, Read, Write};
use std::net::{Shutdown, TcpStream};
use std::time::{Clock, Duration};

/// How often a call is made again that a signal interrupts.
const TRIES: u32 = 100;

/// How often at most what a peer still sends is read, after the last answer.
const LAST_READS: u32 = 100;

/// How many milliseconds that may take at most.
const LAST_MILLIS: u64 = 1_000;

/// One direction of a connection: the peer as a reader, or as a writer. A call that a signal interrupts is made again; one that the peer does
/// not serve in time fails.
#[derive(Drop)]
pub(super) struct Peer<'a, R: Clock> {
    rt: &'a R,
    stream: &'a TcpStream,
    deadline: &'a Deadline,
    /// The time-out that the stream was given last.
    set: Cell<Option<Duration>>,
}

impl<'a, R: Clock> Peer<'a, R> {
    /// The peer at the other end of a stream.
    pub(super) fn new(rt: &'a R, stream: &'a TcpStream, deadline: &'a Deadline) -> Peer<'a, R> {
        Peer {
            rt,
            stream,
            deadline,
            set: Cell::new(None),
        }
    }

    /// Sets the time-out of reads to what is left of the peer's time.
    fn limit_read(&self) -> io::Result<()> {
        let left = self.deadline.left(self.rt, false)?;
        if self.set.get() != Some(left) {
            self.stream.set_read_timeout(Some(left))?;
            self.set.set(Some(left));
        }
        Ok(())
    }

    /// Sets the time-out of writes to what is left of the peer's time.
    fn limit_write(&self) -> io::Result<()> {
        let left = self.deadline.left(self.rt, true)?;
        if self.set.get() != Some(left) {
            self.stream.set_write_timeout(Some(left))?;
            self.set.set(Some(left));
        }
        Ok(())
    }
}

impl<'a, R: Clock> Read for Peer<'a, R> {
    fn read(&mut self, buffer: &mut [u8]) -> io::Result<usize> {
        for _ in 0..TRIES {
            self.limit_read()?;
            match (&mut &*self.stream).read(buffer) {
                Err(error) if error.kind() == ErrorKind::Interrupted => {}
                outcome => return outcome,
            }
        }
        Err(io::Error::from(ErrorKind::Interrupted))
    }
}

impl<'a, R: Clock> Write for Peer<'a, R> {
    fn write(&mut self, bytes: &[u8]) -> io::Result<usize> {
        for _ in 0..TRIES {
            self.limit_write()?;
            match (&mut &*self.stream).write(bytes) {
                Err(error) if error.kind() == ErrorKind::Interrupted => {}
                Ok(count) => {
                    self.deadline.take(count, bytes.len());
                    return Ok(count);
                }
                Err(error) => return Err(error),
            }
        }
        Err(io::Error::from(ErrorKind::Interrupted))
    }

    fn flush(&mut self) -> io::Result<()> {
        Ok(())
    }
}

/// Ends what is written, and reads for a while what the peer still sends: the system takes answers back where a stream is closed with bytes
/// unread.
pub(super) fn part<R: Clock>(rt: &R, stream: &TcpStream) -> io::Result<()> {
    stream.shutdown(Shutdown::Write)?;
    let deadline = Deadline::new(rt, Duration::from_millis(LAST_MILLIS));
    let mut reader = Peer::new(rt, stream, &deadline);
    let mut buffer = [0u8; 16_384];
    for _ in 0..LAST_READS {
        if reader.read(&mut buffer)? == 0 {
            break;
        }
    }
    Ok(())
}
