use std::alloc::AllocError;

/// Why a text is no name, in the order in which the faults are told.
#[derive(Clone, Copy, Debug, PartialEq, Eq)]
pub enum NameError {
    /// The text is empty, has a byte that this kind of name does not allow, or is reserved.
    BadName,
    /// The text has more bytes than this kind of name allows.
    TooLong,
    /// A growth of memory was refused.
    OutOfMemory,
}

impl From<AllocError> for NameError {
    ghost use Rattle.std.specs.Prelude.{◌≡◌};
    ghost use Rattle.af_names.specs.declared.name_error.NameError.TheVariants.{OutOfMemory};

    ghost from_gives = { λ _ e. e ≡ OutOfMemory };

    fn from(_error: AllocError) -> NameError {
        NameError::OutOfMemory
    }
}
