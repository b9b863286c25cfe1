ghost use Rattle.std.specs.Prelude.{◌≡◌, [], ◌∷◌, ◌++◌, OnOk, map};
ghost use Rattle.af_policy.specs.declared.shared.node.Node.{out-Node};
ghost use Rattle.af_policy.specs.SharedTrees.{rows};
ghost use Rattle.af_policy.specs.SharedRows.{seen};
ghost use Rattle.af_policy.specs.Shown.{filled};

use crate::shared::Row;
use crate::shared::node::Node;
use std::alloc::AllocError;

/// Lists the rows of a node behind those that are listed, in the order of their keys.
pub(crate) fn list<'a, T: Row>(node: &'a Node<T>, into: &mut Vec<&'a T>) -> Result<(), AllocError>
    ensures { OnOk result (seen into.new.items ≡ seen into.old.items ++ rows node.now) }
{
    if let Some(left) = &node.left {
        list(left, into)?;
    }
    into.push(&node.low)?;
    list_all(node.rest.as_slice(), into)?;
    if let Some(right) = &node.right {
        list(right, into)?;
    }
    Ok(())
}

/// Lists rows behind those that are listed.
fn list_all<'a, T: Row>(rows: &'a [T], into: &mut Vec<&'a T>) -> Result<(), AllocError>
    ensures { OnOk result (seen into.new.items ≡ seen into.old.items ++ rows.now) }
{
    for row in rows {
        into.push(row)?;
    }
    Ok(())
}

/// Lists rows of a node behind those that are listed, in the order of their keys, until so many are listed in all.
pub(crate) fn fill<'a, T: Row>(
    node: &'a Node<T>,
    bound: usize,
    into: &mut Vec<&'a T>,
) -> Result<(), AllocError>
    ensures { OnOk result (seen into.new.items ≡ filled bound (seen into.old.items) (rows node.now)) }
{
    if into.len() >= bound {
        return Ok(());
    }
    if let Some(left) = &node.left {
        fill(left, bound, into)?;
    }
    fill_own(node, bound, into)?;
    if let Some(right) = &node.right {
        fill(right, bound, into)?;
    }
    Ok(())
}

/// Lists the rows of a node itself behind those that are listed, until so many are listed in all.
fn fill_own<'a, T: Row>(
    node: &'a Node<T>,
    bound: usize,
    into: &mut Vec<&'a T>,
) -> Result<(), AllocError>
    ensures { OnOk result (seen into.new.items ≡ filled bound (seen into.old.items) ((out-Node _ node.now).low ∷ (out-Node _ node.now).rest)) }
{
    fill_one(&node.low, bound, into)?;
    fill_all(node.rest.as_slice(), bound, into)?;
    Ok(())
}

/// Lists rows behind those that are listed, until so many are listed in all.
fn fill_all<'a, T: Row>(
    rows: &'a [T],
    bound: usize,
    into: &mut Vec<&'a T>,
) -> Result<(), AllocError>
    ensures { OnOk result (seen into.new.items ≡ filled bound (seen into.old.items) rows.now) }
{
    for row in rows {
        fill_one(row, bound, into)?;
    }
    Ok(())
}

/// Lists a row behind those that are listed, where they are not so many yet.
#[tactic(auto, using(crate::proofs::ShownLemmas::filled_room, crate::proofs::ShownLemmas::filled_full))]
fn fill_one<'a, T: Row>(row: &'a T, bound: usize, into: &mut Vec<&'a T>) -> Result<(), AllocError>
    ensures { OnOk result (seen into.new.items ≡ filled bound (seen into.old.items) (row.now ∷ [])) }
{
    if into.len() < bound {
        into.push(row)?;
    }
    Ok(())
}
