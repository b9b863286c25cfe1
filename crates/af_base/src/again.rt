ghost use Rattle.std.specs.Prelude.{◌≡◌, IfOk};

use af_names::{Name, NameKind};
use std::alloc::{AllocError, Global};

/// A value that can be made again.
pub trait Again: Drop {
    /// The same value again. `AllocError` only where a growth was refused.
    fn copied(&self, alloc: Global) -> Result<Self, AllocError>
        ensures { IfOk result (λ copy. copy ≡ self.now) };
}

impl<K: NameKind> Again for Name<K> {
    fn copied(&self, alloc: Global) -> Result<Name<K>, AllocError> {
        Name::<K>::copied(self, alloc)
    }
}
