ghost use Rattle.std.specs.Prelude.{◌≡◌, ◌∷◌, ◌++◌, IfOk};
ghost use Rattle.af_policy.specs.declared.shared.node.Node.{out-Node};
ghost use Rattle.af_policy.specs.SharedTrees.{rows, link_rows};

use crate::shared::Row;
use crate::shared::rest::Rest;
use std::alloc::{AllocError, Global};
use std::sync::Arc;

/// A part of a tree, or nothing.
pub(crate) type Link<T> = Option<Arc<Node<T>>>;

/// Some rows that follow each other, with those below them on the left and those above them on the right. Trees of different
/// versions share nodes. The first row stands in the node, so that a search reads the others of one node alone.
#[derive(Drop)]
pub(crate) struct Node<T: Row> {
    pub(crate) low: T,
    pub(crate) rest: Rest<T>,
    pub(crate) left: Link<T>,
    pub(crate) right: Link<T>,
    /// One more than the greater height of the two sides; where it is wrong, a search may only take longer.
    height: u8,
}

/// The height of a part.
pub(crate) fn height<T: Row>(link: &Link<T>) -> u8 {
    match link {
        Some(node) => node.height,
        None => 0,
    }
}

/// The part once more, which shares its nodes.
pub(crate) fn copied<T: Row>(link: &Link<T>) -> Result<Link<T>, AllocError>
    ensures { IfOk result (λ copy. link_rows copy ≡ link_rows link.now) }
{
    match link {
        Some(node) => Ok(Some(Arc::try_clone(node)?)),
        None => Ok(None),
    }
}

/// A node of its own.
pub(crate) fn joined<T: Row>(
    alloc: Global,
    low: T,
    rest: Rest<T>,
    left: Link<T>,
    right: Link<T>,
) -> Result<Arc<Node<T>>, AllocError>
    ensures { IfOk result (λ made. rows made.value ≡ link_rows left ++ low ∷ (rest ++ link_rows right)) }
{
    let height = height(&left).max(height(&right)).saturating_add(1);
    Ok(Arc::new(
        alloc,
        Node {
            low,
            rest,
            left,
            right,
            height,
        },
    )?)
}

/// The rows of the node itself, which it shares, between two other parts.
pub(crate) fn between<T: Row>(
    alloc: Global,
    node: &Node<T>,
    left: Link<T>,
    right: Link<T>,
) -> Result<Arc<Node<T>>, AllocError>
    ensures { IfOk result (λ made. rows made.value ≡ link_rows left ++ (out-Node _ node.now).low ∷ ((out-Node _ node.now).rest ++ link_rows right)) }
{
    joined(alloc, node.low.copied()?, node.rest.copied()?, left, right)
}
