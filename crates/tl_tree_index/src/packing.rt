//! The tree over all items.

ghost use Rattle.std.specs.Prelude.{◌≤◌, ◌<◌, ◌^◌, length, All, IfOk};
ghost use Rattle.tl_tree_index.specs.Fits.{Fits};
ghost use Rattle.tl_tree_index.specs.Preorder.{IsPreorder};
ghost use Rattle.tl_tree_index.specs.Trees.{depth, tree_of};
ghost use Rattle.tl_tree_index.specs.Packed.{IsFilled, IsShallow, IsEvenlySplit};

use crate::order::order_items;
use crate::tree::tree_over;
use crate::{Items, TreeNode};
use std::alloc::{AllocError, Global};

/// The tree over all items, its nodes in preorder: leaves of at most eight items, and inner nodes of two to eight children.
/// There is no node where there is no item. Which items stand together is open.
///
/// While it runs it takes eight bytes an item beside the nodes. The error comes where memory was refused.
pub fn pack<I: Items>(alloc: Global, items: &I) -> Result<Vec<TreeNode>, AllocError>
    // The nodes are one whole tree, or there is none.
    ensures whole { IfOk result (λ nodes. IsPreorder nodes.items) }
    // Each item stands in one leaf, once, and each rectangle holds those of the items below it.
    ensures fits { IfOk result (λ nodes. Fits (tree_of nodes.items) (I.count items.now) (I.bounds_of items.now)) }
    // The tree is no deeper than so many items need.
    ensures shallow { IfOk result (λ nodes. IsShallow (I.count items.now) (tree_of nodes.items)) }
    ensures levels { IfOk result (λ nodes. depth (tree_of nodes.items) ≤ 11) }
    // It is split evenly: of more than eight items an inner node has the lesser of 8 and an eighth, rounded up, children,
    // whose numbers of items differ by at most one, and of eight or fewer there is a leaf.
    ensures split { IfOk result (λ nodes. IsEvenlySplit (tree_of nodes.items)) }
    // No leaf is empty, and a number of 32 bits counts the nodes.
    ensures filled { IfOk result (λ nodes. All IsFilled nodes.items) }
    ensures few { IfOk result (λ nodes. length nodes.items < 2 ^ 32) }
{
    let order = order_items(alloc, items)?;
    let nodes = tree_over(alloc, items, &order)?;
    Ok(nodes)
}
