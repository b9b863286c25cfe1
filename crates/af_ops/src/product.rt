use crate::row::Row;
use crate::text::Text;
use std::alloc::{AllocError, Global};

/// What the server is.
#[derive(Clone, Copy)]
pub(crate) struct Product;

impl Row for Product {
    ghost use Rattle.af_ops.specs.Rows.{version_fields};

    ghost fields = { λ _. version_fields };

    fn put_fields(&self, _alloc: Global, out: &mut Text) -> Result<(), AllocError> {
        out.null(false, "git_version")?;
        out.plain(true, "version", "afplane 1")?;
        Ok(())
    }
}
