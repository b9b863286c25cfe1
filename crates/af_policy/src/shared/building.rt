ghost use Rattle.std.specs.Prelude.{◌≡◌, ◌-◌, ◌++◌, ◌∷◌, ◌<◌, [], length, IfOk, OnOk, IfSome, IsNone};
ghost use Rattle.af_policy.specs.SharedTrees.{link_rows};

use crate::shared::Row;
use crate::shared::node::{Link, joined};
use crate::shared::rest::Rest;
use std::alloc::{AllocError, Global};

/// How many rows a node is given at first, so that some more find room.
const FILL: usize = 18;

/// A part of the last rows of a list, so many, which are taken off it, with as many on each side as on the other, or one
/// less.
pub(crate) fn built<T: Row>(
    alloc: Global,
    rows: &mut Vec<T>,
    count: usize,
) -> Result<Link<T>, AllocError>
    ensures rows { IfOk result (λ made. rows.new.items ++ link_rows made ≡ rows.old.items) }
    ensures left { OnOk result (length rows.new.items ≡ length rows.old.items - count) }
{
    if count == 0 {
        return Ok(None);
    }
    let own = count.min(FILL);
    let high = (count - own) / 2;
    let right = built(alloc, rows, high)?;
    match taken_off(alloc, rows, own)? {
        Some((low, rest)) => {
            let left = built(alloc, rows, count - own - high)?;
            let made = joined(alloc, low, rest, left, right)?;
            Ok(Some(made))
        }
        None => Ok(right),
    }
}

/// The last rows of a list, so many, which are taken off it: the first of them, and the others. None where the list is empty.
pub(crate) fn taken_off<T: Row>(
    alloc: Global,
    rows: &mut Vec<T>,
    count: usize,
) -> Result<Option<(T, Rest<T>)>, AllocError>
    requires { 0 < count }
    ensures some { IfOk result (λ taken. IfSome taken (λ r. rows.new.items ++ r.0 ∷ r.1 ≡ rows.old.items)) }
    ensures none { IfOk result (λ taken. IsNone taken → (rows.new.items ≡ rows.old.items) × (length rows.old.items ≡ 0)) }
    ensures left { OnOk result (length rows.new.items ≡ length rows.old.items - count) }
{
    let len = rows.len();
    if len == 0 {
        return Ok(None);
    }
    let behind = rows.split_off(len - (count - 1).min(len - 1))?;
    let rest = Rest::new(alloc, behind)?;
    match rows.pop() {
        Some(low) => Ok(Some((low, rest))),
        None => Ok(None),
    }
}
