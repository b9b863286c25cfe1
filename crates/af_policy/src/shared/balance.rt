ghost use Rattle.std.specs.Prelude.{◌≡◌, ◌∷◌, ◌++◌, IfOk};
ghost use Rattle.af_policy.specs.declared.shared.node.Node.{out-Node};
ghost use Rattle.af_policy.specs.SharedTrees.{rows, link_rows};

use crate::shared::Row;
use crate::shared::node::{Link, Node, between, copied, height, joined};
use crate::shared::rest::Rest;
use std::alloc::{AllocError, Global};
use std::sync::Arc;

/// The node with another part on its left.
pub(crate) fn on_left<T: Row>(
    alloc: Global,
    node: &Node<T>,
    left: Link<T>,
) -> Result<Arc<Node<T>>, AllocError>
    ensures { IfOk result (λ made. rows made.value ≡ link_rows left ++ (out-Node _ node.now).low ∷ ((out-Node _ node.now).rest ++ link_rows (out-Node _ node.now).right)) }
{
    balanced(
        alloc,
        node.low.copied()?,
        node.rest.copied()?,
        left,
        copied(&node.right)?,
    )
}

/// The node with another part on its right.
pub(crate) fn on_right<T: Row>(
    alloc: Global,
    node: &Node<T>,
    right: Link<T>,
) -> Result<Arc<Node<T>>, AllocError>
    ensures { IfOk result (λ made. rows made.value ≡ link_rows (out-Node _ node.now).left ++ (out-Node _ node.now).low ∷ ((out-Node _ node.now).rest ++ link_rows right)) }
{
    balanced(
        alloc,
        node.low.copied()?,
        node.rest.copied()?,
        copied(&node.left)?,
        right,
    )
}

/// The same rows, with the right part raised into the place of the node.
#[tactic(auto, using(crate::proofs::ShapeLemmas::turn_left))]
fn turned_left<T: Row>(alloc: Global, node: &Node<T>) -> Result<Arc<Node<T>>, AllocError>
    ensures { IfOk result (λ made. rows made.value ≡ rows node.now) }
{
    match &node.right {
        Some(right) => {
            let low = between(alloc, node, copied(&node.left)?, copied(&right.left)?)?;
            between(alloc, right, Some(low), copied(&right.right)?)
        }
        None => between(alloc, node, copied(&node.left)?, None),
    }
}

/// The same rows, with the left part raised into the place of the node.
#[tactic(auto, using(crate::proofs::ShapeLemmas::turn_right))]
fn turned_right<T: Row>(alloc: Global, node: &Node<T>) -> Result<Arc<Node<T>>, AllocError>
    ensures { IfOk result (λ made. rows made.value ≡ rows node.now) }
{
    match &node.left {
        Some(left) => {
            let high = between(alloc, node, copied(&left.right)?, copied(&node.right)?)?;
            between(alloc, left, copied(&left.left)?, Some(high))
        }
        None => between(alloc, node, None, copied(&node.right)?),
    }
}

/// A part that does not lean to the right.
fn raised_left<T: Row>(alloc: Global, link: &Link<T>) -> Result<Link<T>, AllocError>
    ensures { IfOk result (λ made. link_rows made ≡ link_rows link.now) }
{
    match link {
        Some(node) => {
            if height(&node.right) > height(&node.left) {
                Ok(Some(turned_left(alloc, node)?))
            } else {
                Ok(Some(Arc::try_clone(node)?))
            }
        }
        None => Ok(None),
    }
}

/// A part that does not lean to the left.
fn raised_right<T: Row>(alloc: Global, link: &Link<T>) -> Result<Link<T>, AllocError>
    ensures { IfOk result (λ made. link_rows made ≡ link_rows link.now) }
{
    match link {
        Some(node) => {
            if height(&node.left) > height(&node.right) {
                Ok(Some(turned_right(alloc, node)?))
            } else {
                Ok(Some(Arc::try_clone(node)?))
            }
        }
        None => Ok(None),
    }
}

/// The rows between two parts, of which neither is much higher than the other, or one by two.
pub(crate) fn balanced<T: Row>(
    alloc: Global,
    low: T,
    rest: Rest<T>,
    left: Link<T>,
    right: Link<T>,
) -> Result<Arc<Node<T>>, AllocError>
    ensures { IfOk result (λ made. rows made.value ≡ link_rows left ++ low ∷ (rest ++ link_rows right)) }
{
    let (on_left, on_right) = (height(&left), height(&right));
    if on_left > on_right.saturating_add(1) {
        let left = raised_left(alloc, &left)?;
        let node = joined(alloc, low, rest, left, right)?;
        turned_right(alloc, &node)
    } else if on_right > on_left.saturating_add(1) {
        let right = raised_right(alloc, &right)?;
        let node = joined(alloc, low, rest, left, right)?;
        turned_left(alloc, &node)
    } else {
        joined(alloc, low, rest, left, right)
    }
}

/// The rows of the first node, and all others.
#[tactic(auto, using(crate::proofs::ShapeLemmas::first_of_none, crate::proofs::ShapeLemmas::first_of_some))]
fn taken<T: Row>(alloc: Global, node: &Node<T>) -> Result<(T, Rest<T>, Link<T>), AllocError>
    ensures { IfOk result (λ r. r.0 ∷ (r.1 ++ link_rows r.2) ≡ rows node.now) }
{
    match &node.left {
        None => Ok((
            node.low.copied()?,
            node.rest.copied()?,
            copied(&node.right)?,
        )),
        Some(left) => {
            let (low, rest, others) = taken(alloc, left)?;
            Ok((low, rest, Some(on_left(alloc, node, others)?)))
        }
    }
}

/// The rows on the left and those on the right, without the node's own between them.
pub(crate) fn glued<T: Row>(alloc: Global, node: &Node<T>) -> Result<Link<T>, AllocError>
    ensures { IfOk result (λ made. link_rows made ≡ link_rows (out-Node _ node.now).left ++ link_rows (out-Node _ node.now).right) }
{
    match &node.right {
        None => copied(&node.left),
        Some(right) => {
            let (low, rest, others) = taken(alloc, right)?;
            Ok(Some(balanced(alloc, low, rest, copied(&node.left)?, others)?))
        }
    }
}

/// The part with a node of these rows before all others.
#[tactic(auto, using(crate::proofs::ShapeLemmas::put_first))]
pub(crate) fn with_first<T: Row>(
    alloc: Global,
    link: &Link<T>,
    low: T,
    rest: Rest<T>,
) -> Result<Arc<Node<T>>, AllocError>
    ensures { IfOk result (λ made. rows made.value ≡ low ∷ (rest ++ link_rows link.now)) }
{
    match link {
        Some(node) => {
            let left = with_first(alloc, &node.left, low, rest)?;
            on_left(alloc, node, Some(left))
        }
        None => joined(alloc, low, rest, None, None),
    }
}
