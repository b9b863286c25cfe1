ghost use Rattle.std.specs.Prelude.{◌≡◌, IfOk};
ghost use Rattle.af_base.specs.Ordered.{AreInOrder};
ghost use Rattle.af_pool.specs.Pools.{name_of};

use crate::pool::Pool;
use af_base::Ordered;
use std::alloc::{AllocError, Global};

/// The same pools again, which are in order of name. `AllocError` only where a growth was refused.
pub(crate) fn copied(alloc: Global, rows: &[Pool]) -> Result<Ordered<Pool>, AllocError>
    requires { AreInOrder name_of rows.now }
    ensures { IfOk result (λ copy. copy.rows ≡ rows.now) }
{
    let mut copy = Ordered::new(alloc);
    for place in 0..rows.len() {
        let row = rows[place].copied(alloc)?;
        copy.insert_at(place, row)?;
    }
    Ok(copy)
}
