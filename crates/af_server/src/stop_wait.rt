use std::time::Duration;

/// A wait to be told to stop, which is told when so many workers have reported: for how long at most it was, and whether it was told.
#[derive(Clone, Copy, Debug, Drop)]
pub struct StopWait {
    pub workers: u32,
    pub time: Duration,
    pub told: bool,
}
