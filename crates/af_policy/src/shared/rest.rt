ghost use Rattle.std.specs.Prelude.{◌≡◌, IfOk};

use crate::shared::Row;
use std::alloc::{AllocError, Global};
use std::marker::Model;
use std::sync::Arc;

/// The rows of a node behind its first, 24 at most, which nodes of different versions share. Contracts see it as these
/// rows.
#[derive(Drop)]
pub(crate) struct Rest<T: Row> {
    rows: Arc<Vec<T>>,
}

impl<T: Row> Model for Rest<T> {
    ghost use Rattle.std.specs.Prelude.{List};
    ghost use Rattle.std.specs.Arc.{arc_value};

    ghost Value = { List T };

    ghost view = { λ rest. (arc_value rest.rows).items };
}

impl<T: Row> Rest<T> {
    /// These rows.
    pub(crate) fn new(alloc: Global, rows: Vec<T>) -> Result<Rest<T>, AllocError>
        ensures { IfOk result (λ rest. rest ≡ rows.items) }
    {
        let rows = Arc::new(alloc, rows)?;
        Ok(Rest { rows })
    }

    /// The rows once more, which are shared.
    pub(crate) fn copied(&self) -> Result<Rest<T>, AllocError>
        ensures { IfOk result (λ copy. copy ≡ self.now) }
    {
        let rows = Arc::try_clone(&self.rows)?;
        Ok(Rest { rows })
    }

    /// The rows.
    pub(crate) fn as_slice(&self) -> &[T]
        ensures { result.now ≡ self.now }
    {
        self.rows.as_slice()
    }
}
