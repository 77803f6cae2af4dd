//! The nodes of a tree, as they stand in a list in preorder.
ghost use Rattle.std.specs.Prelude.{◌↔◌, IsTrue};

use arrayvec::ArrayVec;
use tl_geom::Rect;

/// A node: an inner one with its rectangle and its number of children, which is from 2 to 8 in a whole tree, or a leaf
/// with its rectangle and its items.
#[derive(Drop)]
pub enum TreeNode {
    Inner(Rect, u8),
    Leaf(Rect, ArrayVec<u32, 8>),
}
