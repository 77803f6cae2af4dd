//! Laws of the definitions, each the contract of a function that does nothing.
ghost use Rattle.std.specs.Prelude.{◌≡◌, ◌↔◌, IsTrue, length};
ghost use Rattle.tl_geom.specs.Rectangle.{AreMeeting};
ghost use Rattle.tl_tree_index.specs.Pairs.{overlaps};
ghost use Rattle.tl_tree_index.specs.Preorder.{IsPreorder};
ghost use Rattle.tl_tree_index.specs.Trees.{tree_of, node_count};

use crate::TreeNode;
use tl_geom::Rect;

/// The test by which pairs are counted says exactly that two rectangles meet.
pub fn overlapping_rectangles_meet(r: Rect, q: Rect)
    ensures { IsTrue (overlaps r q) ↔ AreMeeting r q }
{}

/// A whole tree in preorder is one tree that has all its nodes.
pub fn preorder_has_each_node(nodes: &[TreeNode])
    ensures { IsPreorder nodes.now → node_count (tree_of nodes.now) ≡ length nodes.now }
{}
