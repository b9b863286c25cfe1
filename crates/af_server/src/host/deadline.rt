use std::cell::Cell;
use std::io::{self, ErrorKind};
use std::time::{Clock, Duration};

/// The shortest time-out, in milliseconds: less counts as none, since the system takes a time-out of 0 for an endless
/// one.
const LEAST_MILLIS: u64 = 1;

/// The deadline of a peer whose turn it is: to send the next request whole, or to take whole what is written at once. Who trickles bytes gets no
/// more time.
#[derive(Drop)]
pub(super) struct Deadline {
    limit: Duration,
    since: Cell<Duration>,
    writing: Cell<bool>,
    /// All that was written was taken, so the next write is another turn.
    taken: Cell<bool>,
}

impl Deadline {
    /// It is the peer's turn to send, from now on. It has no time where the clock can't be read.
    pub(super) fn new<R: Clock>(rt: &R, limit: Duration) -> Deadline {
        Deadline {
            limit,
            since: Cell::new(rt.monotonic().unwrap_or(Duration::ZERO)),
            writing: Cell::new(false),
            taken: Cell::new(false),
        }
    }

    /// How much time is left for the peer to take what is written or to send what is read. `TimedOut` if there is none.
    pub(super) fn left<R: Clock>(&self, rt: &R, writing: bool) -> io::Result<Duration> {
        let now = rt.monotonic()?;
        if self.writing.get() != writing || self.taken.get() {
            self.writing.set(writing);
            self.taken.set(false);
            self.since.set(now);
            return Ok(self.limit);
        }
        let gone = now.saturating_sub(self.since.get());
        let left = self.limit.saturating_sub(gone);
        if left < Duration::from_millis(LEAST_MILLIS) {
            return Err(io::Error::from(ErrorKind::TimedOut));
        }
        Ok(left)
    }

    /// The peer has taken so many bytes of so many: if all, it is its turn anew.
    pub(super) fn take(&self, count: usize, of: usize) {
        self.taken.set(count == of);
    }
}
