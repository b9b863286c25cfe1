/// Where an instance stands: the number of its run, and its place there.
#[derive(Clone, Copy, Debug, PartialEq, Eq)]
pub(crate) struct Seat {
    pub number: u64,
    pub place: usize,
}
