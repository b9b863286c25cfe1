use af_sched::{Claim, ReportFault};

/// What a report comes to.
#[derive(Drop)]
pub enum Reporting {
    /// It has this fault, the first one.
    Faulty(ReportFault),
    /// There is no room for its entry.
    NoRoom,
    /// It is taken, as one of this claim.
    Takes(Claim),
}
