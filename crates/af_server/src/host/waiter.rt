use std::io;
use std::sync::Wait;
use std::time::{Clock, Duration};

/// A caller's permission to wait, with the host's clock.
#[derive(Drop)]
pub(super) struct Waiter<'a, W: Wait> {
    leave: &'a W,
    clock: &'a HostRuntime,
}

impl<'a, W: Wait> Waiter<'a, W> {
    /// This permission, with this clock.
    pub(super) fn new(leave: &'a W, clock: &'a HostRuntime) -> Waiter<'a, W> {
        Waiter { leave, clock }
    }
}

impl<'a, W: Wait> Wait for Waiter<'a, W> {}

impl<'a, W: Wait> Clock for Waiter<'a, W> {
    fn monotonic(&self) -> io::Result<Duration> {
        self.clock.monotonic()
    }

    fn since_1970(&self) -> io::Result<Duration> {
        self.clock.since_1970()
    }

    fn sleep(&self, duration: Duration) {
        self.clock.sleep(duration)
    }
}
