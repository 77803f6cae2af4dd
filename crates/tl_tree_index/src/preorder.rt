//! Which lists of nodes are a whole tree in preorder.
ghost use Rattle.std.specs.Prelude.{◌↔◌, IsTrue};
ghost use Rattle.tl_tree_index.specs.Preorder.{IsPreorder};

use crate::TreeNode;

// How many children an inner node has, at least and at most.
const LEAST: u8 = 2;

const MOST: u8 = 8;

/// Whether the nodes are one whole tree in preorder, where each inner node has 2 to 8 children, or there is no node.
pub fn is_preorder(nodes: &[TreeNode]) -> bool
    ensures { IsTrue result ↔ IsPreorder nodes.now }
{
    if nodes.is_empty() {
        return true;
    }
    let mut awaited: u128 = 1;
    for node in nodes {
        if awaited == 0 {
            return false;
        }
        match node {
            TreeNode::Leaf(_, _) => awaited -= 1,
            TreeNode::Inner(_, children) => {
                if *children < LEAST || MOST < *children {
                    return false;
                }
                awaited = awaited - 1 + u128::from(*children);
            }
        }
    }
    awaited == 0
}
