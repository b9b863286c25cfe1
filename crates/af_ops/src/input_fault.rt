use af_policy::BadInput;
use std::alloc::AllocError;

/// Why the body of a change of the policy was not read.
#[derive(Clone, Copy, Debug, PartialEq, Eq)]
pub(crate) enum InputFault {
    /// It is no body of its kind.
    Bad(BadInput),
    /// A growth of memory was refused.
    OutOfMemory,
}

impl From<AllocError> for InputFault {
    ghost use Rattle.std.specs.Prelude.{◌≡◌};
    ghost use Rattle.af_ops.specs.declared.input_fault.InputFault.TheVariants.{OutOfMemory};

    ghost from_gives = { λ _ fault. fault ≡ OutOfMemory };

    fn from(_error: AllocError) -> InputFault {
        InputFault::OutOfMemory
    }
}
