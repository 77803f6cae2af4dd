//! How deep trees are.
ghost use Rattle.std.specs.Prelude.{◌≤◌, ◌↔◌, IsTrue};
ghost use Rattle.tl_tree_index.specs.Trees.{depth};

use crate::walk::{Below, Trees};

/// Whether no node has a depth above `allowed`, where roots have depth 1.
pub fn is_within_depth<W: Trees>(trees: &W, allowed: u32) -> bool
    ensures { IsTrue result ↔ depth (W.forest trees.now) ≤ allowed }
{
    let Some((tree, rest)) = trees.split_first() else {
        return true;
    };
    if allowed == 0 {
        return false;
    }
    let below = match &tree.below {
        Below::Items(_) => true,
        Below::Children(children) => is_within_depth(children, allowed - 1),
    };
    below && is_within_depth(&rest, allowed)
}
