ghost use Rattle.std.specs.Prelude.{◌≡◌, IfOk};
ghost use Rattle.af_base.specs.Ordered.{AreInOrder};
ghost use Rattle.af_vars.specs.Variables.{key_of};

use crate::variable::Variable;
use af_base::Ordered;
use std::alloc::{AllocError, Global};

/// The same variables again, which are in order of key. `AllocError` only where a growth was refused.
pub(crate) fn copied(alloc: Global, rows: &[Variable]) -> Result<Ordered<Variable>, AllocError>
    requires { AreInOrder key_of rows.now }
    ensures { IfOk result (λ copy. copy.rows ≡ rows.now) }
{
    let mut copy = Ordered::new(alloc);
    for place in 0..rows.len() {
        let row = rows[place].copied(alloc)?;
        copy.insert_at(place, row)?;
    }
    Ok(copy)
}
