//! Walks over trees, whatever holds their nodes.
ghost use Rattle.tl_tree_index.specs.Trees.{Forest};

use tl_geom::Rect;

/// A tree whose children are walked by a `W`.
#[derive(Drop)]
pub struct Tree<'a, W> {
    pub rect: Rect,
    pub below: Below<'a, W>,
}

/// What is below the root of a tree: a leaf's items, or the children of an inner node.
#[derive(Drop)]
pub enum Below<'a, W> {
    Items(&'a [u32]),
    Children(W),
}

/// Some trees in order.
pub trait Trees: Copy {
    ghost use Rattle.std.specs.Prelude.{◌≤◌, IsTrue, length};
    ghost use Rattle.tl_tree.specs.Keeping.Marking.{roots};
    ghost use Rattle.tl_tree.specs.Keeping.Walking.{Splits};

    // The trees.
    ghost forest: { Self → Forest };

    /// The first tree and the others.
    fn split_first(&self) -> Option<(Tree<'_, Self>, Self)>
        ensures { Splits forest (forest self.now) result };

    /// Whether it is known, with no walk, that there are at most four trees.
    fn are_few(&self) -> bool
        ensures { IsTrue result → length (roots (forest self.now)) ≤ 4 };
}
