//! A walk over a list of nodes in preorder.
ghost use Rattle.std.specs.Prelude.{◌≡◌, drop};
ghost use Rattle.tl_tree_index.specs.Trees.{first_trees, tree_of, trees_of};
ghost use Rattle.tl_tree.specs.Keeping.Sizes.{AreSizesFrom};

use crate::TreeNode;
use crate::walk::{Below, Tree, Trees};

/// Nodes in preorder, and for each the number of nodes of the tree below it.
#[derive(Drop)]
pub struct Lists<'a> {
    pub nodes: &'a [TreeNode],
    pub sizes: &'a [u32],
    ghost sized: { AreSizesFrom 0 nodes.now sizes.now },
}

impl Lists<'_> {
    /// The walk over the whole tree.
    pub fn root(&self) -> Cursor<'_>
        ensures { first_trees result.count (trees_of (drop result.at result.lists.now.nodes.now)) ≡
            tree_of self.now.nodes.now }
    {
        Cursor {
            lists: self,
            at: 0,
            count: 1,
        }
    }
}

/// The first `count` trees from node `at` on, or as many as there are.
#[derive(Clone, Copy)]
pub struct Cursor<'a> {
    pub lists: &'a Lists<'a>,
    pub at: usize,
    pub count: usize,
}

impl Trees for Cursor<'_> {
    ghost forest = { λ c. first_trees c.count (trees_of (drop c.at c.lists.now.nodes.now)) };

    fn split_first(&self) -> Option<(Tree<'_, Self>, Self)> {
        let lists = self.lists;
        if self.count == 0 || self.at >= lists.nodes.len() {
            return None;
        }
        let rest = Cursor {
            lists,
            at: self.at + lists.sizes[self.at] as usize,
            count: self.count - 1,
        };
        match &lists.nodes[self.at] {
            TreeNode::Leaf(rect, items) => {
                let below = Below::Items(items.as_slice());
                Some((Tree { rect: *rect, below }, rest))
            }
            TreeNode::Inner(rect, children) => {
                let below = Below::Children(Cursor {
                    lists,
                    at: self.at + 1,
                    count: *children as usize,
                });
                Some((Tree { rect: *rect, below }, rest))
            }
        }
    }

    fn are_few(&self) -> bool {
        self.count <= 4
    }
}
