ghost use Rattle.std.specs.Prelude.{◌≡◌, ◌++◌, ◌∷◌, List, true, false, IfOk, OnOk};
ghost use Rattle.std.specs.List.{AllByRecursion};
ghost use Rattle.std.specs.Option.{option_copied};
ghost use Rattle.std.specs.Ordering.{nat_cmp};
ghost use Rattle.std.specs.declared.cmp.Ordering.TheVariants.{Less};
ghost use Rattle.std.specs.Cmp.Lexicographic.{slice_cmp};
ghost use Rattle.af_policy.specs.SharedRows.{Ascend, found, with_row, without};

use crate::shared::Row;
use crate::shared::sought::{Sought, row_order};
use std::alloc::{AllocError, Global};
use std::cmp::Ordering;

/// The row of a key among rows in order, found by binary search.
pub(crate) fn found_in<'a, T: Row>(rows: &'a [T], key: &Sought<'_>) -> Option<&'a T>
    ensures { Ascend T.key rows.now → option_copied result ≡ found T.key rows.now key.now }
{
    let (low, high) = rows.split_at(rows.len() / 2);
    match high.split_first() {
        Some((row, above)) => match key.order(row) {
            Ordering::Less => found_in(low, key),
            Ordering::Equal => Some(row),
            Ordering::Greater => found_in(above, key),
        },
        None => None,
    }
}

/// Whether a key is above those of all rows, which are in order; if not, it is below those of all rows that follow them.
pub(crate) fn is_past<T: Row>(rows: &[T], key: &Sought<'_>) -> bool
    ensures past { result ≡ true → Ascend T.key rows.now → AllByRecursion (λ row. slice_cmp nat_cmp (T.key row) key.now ≡ Less) rows.now }
    ensures within { result ≡ false → (more : List T) → Ascend T.key (rows.now ++ more) → AllByRecursion (λ row. slice_cmp nat_cmp key.now (T.key row) ≡ Less) more }
{
    match rows.split_last() {
        Some((last, _)) => match key.order(last) {
            Ordering::Less => false,
            Ordering::Equal => false,
            Ordering::Greater => true,
        },
        None => true,
    }
}

/// Rows in order with one more at its place, or in the place of the row of its key. It looks for the place by binary search.
pub(crate) fn rows_with<T: Row>(alloc: Global, rows: &[T], row: T) -> Result<Vec<T>, AllocError>
    ensures { IfOk result (λ made. Ascend T.key rows.now → made.items ≡ with_row T.key rows.now row) }
{
    let mut made = Vec::with_capacity(alloc, rows.len().saturating_add(1))?;
    put_all(rows, row, &mut made)?;
    Ok(made)
}

/// Puts rows in order behind others, with one more at its place, or in the place of the row of its key.
fn put_all<T: Row>(rows: &[T], row: T, into: &mut Vec<T>) -> Result<(), AllocError>
    ensures { OnOk result (Ascend T.key rows.now → into.new.items ≡ into.old.items ++ with_row T.key rows.now row) }
{
    let (low, high) = rows.split_at(rows.len() / 2);
    match high.split_first() {
        Some((first, above)) => match row_order(&row, first) {
            Ordering::Less => {
                put_all(low, row, into)?;
                copy_all(high, into)?;
            }
            Ordering::Equal => {
                copy_all(low, into)?;
                into.push(row)?;
                copy_all(above, into)?;
            }
            Ordering::Greater => {
                copy_all(low, into)?;
                into.push(first.copied()?)?;
                put_all(above, row, into)?;
            }
        },
        None => into.push(row)?,
    }
    Ok(())
}

/// A row with others behind it, which are copied.
pub(crate) fn rows_behind<T: Row>(alloc: Global, row: T, rows: &[T]) -> Result<Vec<T>, AllocError>
    ensures { IfOk result (λ made. made.items ≡ row ∷ rows.now) }
{
    let mut made = Vec::with_capacity(alloc, rows.len().saturating_add(1))?;
    made.push(row)?;
    copy_all(rows, &mut made)?;
    Ok(made)
}

/// The rows once more.
pub(crate) fn rows_again<T: Row>(alloc: Global, rows: &[T]) -> Result<Vec<T>, AllocError>
    ensures { IfOk result (λ made. made.items ≡ rows.now) }
{
    let mut made = Vec::with_capacity(alloc, rows.len())?;
    copy_all(rows, &mut made)?;
    Ok(made)
}

/// Puts rows behind others.
fn copy_all<T: Row>(rows: &[T], into: &mut Vec<T>) -> Result<(), AllocError>
    ensures { OnOk result (into.new.items ≡ into.old.items ++ rows.now) }
{
    for row in rows {
        into.push(row.copied()?)?;
    }
    Ok(())
}

/// The rows but for that of a key.
pub(crate) fn rows_without<T: Row>(
    alloc: Global,
    rows: &[T],
    key: &Sought<'_>,
) -> Result<Vec<T>, AllocError>
    ensures { IfOk result (λ made. made.items ≡ without T.key rows.now key.now) }
{
    let mut made = Vec::with_capacity(alloc, rows.len())?;
    leave_all(rows, key, &mut made)?;
    Ok(made)
}

/// Puts rows behind others, but for that of a key.
#[tactic(auto, using(crate::proofs::OrderLemmas::without_same, crate::proofs::OrderLemmas::without_other))]
fn leave_all<T: Row>(rows: &[T], key: &Sought<'_>, into: &mut Vec<T>) -> Result<(), AllocError>
    ensures { OnOk result (into.new.items ≡ into.old.items ++ without T.key rows.now key.now) }
{
    match rows.split_first() {
        Some((first, others)) => {
            if key.is_of(first) {
                leave_all(others, key, into)
            } else {
                into.push(first.copied()?)?;
                leave_all(others, key, into)
            }
        }
        None => Ok(()),
    }
}
