use crate::Spent;

/// Why a policy has no place in the table.
#[derive(Drop)]
pub(crate) enum PushFault {
    /// An allocation failed.
    OutOfMemory,
    /// The places of the table are used up.
    Full(Spent),
}
