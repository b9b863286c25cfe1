ghost use Rattle.std.specs.Prelude.{◌≡◌, ◌++◌};
ghost use Rattle.std.specs.Option.{option_copied};
ghost use Rattle.af_policy.specs.SharedRows.{Ascend, found};
ghost use Rattle.af_policy.specs.SharedTrees.{rows};

use crate::shared::Row;
use crate::shared::node::Node;
use crate::shared::rest::Rest;
use crate::shared::run::found_in;
use crate::shared::sought::Sought;
use std::cmp::Ordering;

/// The row of a key among those of a node.
pub(crate) fn find<'a, T: Row>(node: &'a Node<T>, key: &Sought<'_>) -> Option<&'a T>
    ensures { Ascend T.key (rows node.now) → option_copied result ≡ found T.key (rows node.now) key.now }
{
    match key.order(&node.low) {
        Ordering::Less => match &node.left {
            Some(left) => find(left, key),
            None => None,
        },
        Ordering::Equal => Some(&node.low),
        Ordering::Greater => match &node.right {
            Some(right) => find_behind(&node.rest, right, key),
            None => found_in(node.rest.as_slice(), key),
        },
    }
}

/// The row of a key among rows that stand right before those of a node, and those of the node. So a search compares the first row of
/// each node on its way and then the others of one. It looks at no others: they stand elsewhere in memory.
#[tactic(auto, using(crate::proofs::ShapeLemmas::found_in_middle))]
fn find_behind<'a, T: Row>(
    before: &'a Rest<T>,
    node: &'a Node<T>,
    key: &Sought<'_>,
) -> Option<&'a T>
    ensures { Ascend T.key (before.now ++ rows node.now) → option_copied result ≡ found T.key (before.now ++ rows node.now) key.now }
{
    match key.order(&node.low) {
        Ordering::Less => match &node.left {
            Some(left) => find_behind(before, left, key),
            None => found_in(before.as_slice(), key),
        },
        Ordering::Equal => Some(&node.low),
        Ordering::Greater => match &node.right {
            Some(right) => find_behind(&node.rest, right, key),
            None => found_in(node.rest.as_slice(), key),
        },
    }
}
