ghost use Rattle.std.specs.Prelude.{◌≡◌, ◌<◌, ◌∷◌, ◌++◌, length, IfOk};
ghost use Rattle.af_policy.specs.SharedRows.{Ascend, with_row, without};
ghost use Rattle.af_policy.specs.declared.shared.node.Node.{out-Node};
ghost use Rattle.af_policy.specs.SharedTrees.{rows, link_rows};

use crate::shared::Row;
use crate::shared::balance::{balanced, glued, on_left, on_right, with_first};
use crate::shared::building::taken_off;
use crate::shared::node::{Link, Node, copied, joined};
use crate::shared::rest::Rest;
use crate::shared::run::{is_past, rows_again, rows_behind, rows_with, rows_without};
use crate::shared::sought::{Sought, row_order};
use std::alloc::{AllocError, Global};
use std::cmp::Ordering;
use std::sync::Arc;

/// How many rows stand behind the first of a node, at most.
const MOST: usize = 24;

/// The rows with one more at its place, or in the place of the row of its key. Only the nodes on the way to it are made
/// anew.
pub(crate) fn with<T: Row>(
    alloc: Global,
    node: &Node<T>,
    row: T,
) -> Result<Arc<Node<T>>, AllocError>
    ensures { IfOk result (λ made. Ascend T.key (rows node.now) → rows made.value ≡ with_row T.key (rows node.now) row) }
{
    match row_order(&row, &node.low) {
        Ordering::Less => match &node.left {
            Some(left) => {
                let left = with(alloc, left, row)?;
                let made = on_left(alloc, node, Some(left))?;
                Ok(made)
            }
            None => {
                let made = before_low(alloc, node, row)?;
                Ok(made)
            }
        },
        Ordering::Equal => {
            let made = for_low(alloc, node, row)?;
            Ok(made)
        }
        Ordering::Greater => match &node.right {
            Some(right) => {
                if is_past(node.rest.as_slice(), &Sought::of_row(&row)) {
                    let right = with(alloc, right, row)?;
                    let made = on_right(alloc, node, Some(right))?;
                    Ok(made)
                } else {
                    let made = into_rest(alloc, node, row)?;
                    Ok(made)
                }
            }
            None => {
                let made = into_rest(alloc, node, row)?;
                Ok(made)
            }
        },
    }
}

/// The node with a row before its first.
fn before_low<T: Row>(alloc: Global, node: &Node<T>, row: T) -> Result<Arc<Node<T>>, AllocError>
    ensures { IfOk result (λ made. rows made.value ≡ link_rows (out-Node _ node.now).left ++ row ∷ (out-Node _ node.now).low ∷ ((out-Node _ node.now).rest ++ link_rows (out-Node _ node.now).right)) }
{
    let low = node.low.copied()?;
    let behind = rows_behind(alloc, low, node.rest.as_slice())?;
    let made = spread(alloc, row, behind, &node.left, &node.right)?;
    Ok(made)
}

/// The node with another first row.
fn for_low<T: Row>(alloc: Global, node: &Node<T>, row: T) -> Result<Arc<Node<T>>, AllocError>
    ensures { IfOk result (λ made. rows made.value ≡ link_rows (out-Node _ node.now).left ++ row ∷ ((out-Node _ node.now).rest ++ link_rows (out-Node _ node.now).right)) }
{
    let rest = node.rest.copied()?;
    let made = between_parts(alloc, row, rest, node)?;
    Ok(made)
}

/// The node, whose rows are in order, with one more row behind its first, or another one there.
fn into_rest<T: Row>(alloc: Global, node: &Node<T>, row: T) -> Result<Arc<Node<T>>, AllocError>
    ensures { IfOk result (λ made. Ascend T.key (out-Node _ node.now).rest → rows made.value ≡ link_rows (out-Node _ node.now).left ++ (out-Node _ node.now).low ∷ (with_row T.key (out-Node _ node.now).rest row ++ link_rows (out-Node _ node.now).right)) }
{
    let low = node.low.copied()?;
    let behind = rows_with(alloc, node.rest.as_slice(), row)?;
    let made = spread(alloc, low, behind, &node.left, &node.right)?;
    Ok(made)
}

/// A row and those behind it between two parts: one node, or two where they are too many for one.
fn spread<T: Row>(
    alloc: Global,
    low: T,
    behind: Vec<T>,
    left: &Link<T>,
    right: &Link<T>,
) -> Result<Arc<Node<T>>, AllocError>
    ensures { IfOk result (λ made. rows made.value ≡ link_rows left.now ++ low ∷ (behind.items ++ link_rows right.now)) }
{
    let left = copied(left)?;
    if behind.len() > MOST {
        return halved(alloc, low, behind, left, right);
    }
    let rest = Rest::new(alloc, behind)?;
    let right = copied(right)?;
    let made = joined(alloc, low, rest, left, right)?;
    Ok(made)
}

/// A row and those behind it between two parts, in two nodes.
#[tactic(auto, using(crate::proofs::ShapeLemmas::put_apart))]
fn halved<T: Row>(
    alloc: Global,
    low: T,
    behind: Vec<T>,
    left: Link<T>,
    right: &Link<T>,
) -> Result<Arc<Node<T>>, AllocError>
    requires { 0 < length behind.items }
    ensures { IfOk result (λ made. rows made.value ≡ link_rows left ++ low ∷ (behind.items ++ link_rows right.now)) }
{
    let mut behind = behind;
    let count = behind.len() / 2 + 1;
    match taken_off(alloc, &mut behind, count)? {
        Some((middle, above)) => {
            let right = with_first(alloc, right, middle, above)?;
            let rest = Rest::new(alloc, behind)?;
            balanced(alloc, low, rest, left, Some(right))
        }
        None => unreachable!(),
    }
}

/// The rows but for that of a key.
pub(crate) fn without<T: Row>(
    alloc: Global,
    node: &Node<T>,
    key: &Sought<'_>,
) -> Result<Link<T>, AllocError>
    ensures { IfOk result (λ made. Ascend T.key (rows node.now) → link_rows made ≡ without T.key (rows node.now) key.now) }
{
    match key.order(&node.low) {
        Ordering::Less => match &node.left {
            Some(left) => {
                let left = without(alloc, left, key)?;
                let made = on_left(alloc, node, left)?;
                Ok(Some(made))
            }
            None => {
                let made = on_left(alloc, node, None)?;
                Ok(Some(made))
            }
        },
        Ordering::Equal => {
            let made = without_low(alloc, node)?;
            Ok(made)
        }
        Ordering::Greater => match &node.right {
            Some(right) => {
                if is_past(node.rest.as_slice(), key) {
                    let right = without(alloc, right, key)?;
                    let made = on_right(alloc, node, right)?;
                    Ok(Some(made))
                } else {
                    let made = out_of_rest(alloc, node, key)?;
                    Ok(Some(made))
                }
            }
            None => {
                let made = out_of_rest(alloc, node, key)?;
                Ok(Some(made))
            }
        },
    }
}

/// The rows of a node but for its first.
fn without_low<T: Row>(alloc: Global, node: &Node<T>) -> Result<Link<T>, AllocError>
    ensures { IfOk result (λ made. link_rows made ≡ link_rows (out-Node _ node.now).left ++ ((out-Node _ node.now).rest ++ link_rows (out-Node _ node.now).right)) }
{
    match node.rest.as_slice().split_first() {
        Some((low, others)) => {
            let low = low.copied()?;
            let others = rows_again(alloc, others)?;
            let rest = Rest::new(alloc, others)?;
            let made = between_parts(alloc, low, rest, node)?;
            Ok(Some(made))
        }
        None => {
            let made = glued(alloc, node)?;
            Ok(made)
        }
    }
}

/// The node without the row of a key behind its first.
fn out_of_rest<T: Row>(
    alloc: Global,
    node: &Node<T>,
    key: &Sought<'_>,
) -> Result<Arc<Node<T>>, AllocError>
    ensures { IfOk result (λ made. rows made.value ≡ link_rows (out-Node _ node.now).left ++ (out-Node _ node.now).low ∷ (without T.key (out-Node _ node.now).rest key.now ++ link_rows (out-Node _ node.now).right)) }
{
    let low = node.low.copied()?;
    let others = rows_without(alloc, node.rest.as_slice(), key)?;
    let rest = Rest::new(alloc, others)?;
    let made = between_parts(alloc, low, rest, node)?;
    Ok(made)
}

/// Other rows between the parts of a node.
fn between_parts<T: Row>(
    alloc: Global,
    low: T,
    rest: Rest<T>,
    node: &Node<T>,
) -> Result<Arc<Node<T>>, AllocError>
    ensures { IfOk result (λ made. rows made.value ≡ link_rows (out-Node _ node.now).left ++ low ∷ (rest ++ link_rows (out-Node _ node.now).right)) }
{
    let left = copied(&node.left)?;
    let right = copied(&node.right)?;
    let made = joined(alloc, low, rest, left, right)?;
    Ok(made)
}

/// The rows with one more at its place, or in the place of the row of its key.
pub(crate) fn with_link<T: Row>(
    alloc: Global,
    link: &Link<T>,
    row: T,
) -> Result<Link<T>, AllocError>
    requires { Ascend T.key (link_rows link.now) }
    ensures { IfOk result (λ made. link_rows made ≡ with_row T.key (link_rows link.now) row) }
{
    match link {
        Some(node) => {
            let made = with(alloc, node, row)?;
            Ok(Some(made))
        }
        None => {
            let rest = Rest::new(alloc, Vec::new(alloc))?;
            let made = joined(alloc, row, rest, None, None)?;
            Ok(Some(made))
        }
    }
}

/// The rows but for that of a key.
pub(crate) fn without_link<T: Row>(
    alloc: Global,
    link: &Link<T>,
    key: &Sought<'_>,
) -> Result<Link<T>, AllocError>
    requires { Ascend T.key (link_rows link.now) }
    ensures { IfOk result (λ made. link_rows made ≡ without T.key (link_rows link.now) key.now) }
{
    match link {
        Some(node) => without(alloc, node, key),
        None => Ok(None),
    }
}
