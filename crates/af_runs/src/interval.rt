use af_names::Instant;

/// The data interval of a run: the time that the run is about.
#[derive(Clone, Copy, Debug, PartialEq, Eq)]
pub struct Interval {
    pub start: Instant,
    pub end: Instant,
}
