/// The slots of a pool that queued and that running instances hold, each the largest `u64` where it is more.
#[derive(Clone, Copy, Debug, PartialEq, Eq)]
pub struct Held {
    pub queued: u64,
    pub running: u64,
}

impl Held {
    /// No slots.
    pub(crate) const NONE: Held = Held {
        queued: 0,
        running: 0,
    };
}
