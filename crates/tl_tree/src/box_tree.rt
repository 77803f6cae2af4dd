//! The boxed tree: nodes that own their children.
ghost use Rattle.std.specs.Prelude.{◌≡◌, ◌<◌, ◌≤◌, ◌^◌, ◌↔◌, None, length, IfOk, IfErr};
ghost use Rattle.tl_tree_index.specs.declared.fault.TreeStop.TheVariants.{TooDeep};
ghost use Rattle.tl_tree.specs.Keeping.Branches.{forest_of};
ghost use Rattle.tl_tree_index.specs.Fits.{Fits, MayFind};
ghost use Rattle.tl_tree_index.specs.Preorder.{IsPreorder};
ghost use Rattle.tl_tree_index.specs.Trees.{depth, tree_of, node_count};

use crate::branch::{Branch, copy_trees};
use crate::check::check_all;
use crate::hits::collect_all;
use crate::near::ROOM;
use crate::search::search_trees;
use crate::{BoxIndex, FlatTree, Items, Memory, Probe, Search, TreeFault, TreeNode, TreeStop};
use std::alloc::Global;

/// A tree whose nodes own their children. [`FlatTree`] does the same over a list of nodes that it borrows.
#[derive(Drop)]
pub struct BoxTree {
    root: Branch,
    ghost numbered: { node_count (forest_of root) < 2 ^ 32 },
}

impl BoxTree {
    ghost use Rattle.tl_tree.specs.Keeping.Boxed.{unboxed};

    /// The tree of a list of nodes that [`is_preorder`](crate::is_preorder) takes, fewer than 4,294,967,296 of them.
    /// `TooDeep` comes exactly where a node has a depth above 64, unless memory was refused first.
    pub fn from_nodes(alloc: Global, nodes: &[TreeNode]) -> Result<BoxTree, TreeStop>
        requires whole { IsPreorder nodes.now }
        requires numbered { length nodes.now < 2 ^ 32 }
        // The tree is the one that the nodes spell.
        ensures tree { IfOk result (λ tree. unboxed tree ≡ tree_of nodes.now) }
        ensures shallow { IfOk result (λ _. depth (tree_of nodes.now) ≤ 64) }
        ensures deep { IfErr result (λ stop. stop ≡ TooDeep → 64 < depth (tree_of nodes.now)) }
    {
        let flat = FlatTree::from_nodes(alloc, nodes)?;
        match copy_trees(alloc, &flat.lists().root()) {
            Ok(root) => Ok(BoxTree { root }),
            Err(_) => Err(TreeStop::Memory),
        }
    }

    /// Checks the tree against items: nothing exactly where it fits them, else a fault that is true. `Memory` comes
    /// where the marks of the items were refused.
    pub fn check<I: Items>(&self, alloc: Global, items: &I) -> Result<Option<TreeFault>, Memory>
        ensures found { IfOk result (MayFind (unboxed self.now) (I.count items.now) (I.bounds_of items.now)) }
        ensures exact { IfOk result (λ found.
            found ≡ None ↔ Fits (unboxed self.now) (I.count items.now) (I.bounds_of items.now)) }
    {
        check_all(alloc, items, &&self.root)
    }
}

impl BoxIndex for BoxTree {
    ghost use Rattle.tl_tree.specs.Keeping.Boxed.{unboxed};
    ghost use Rattle.tl_tree_index.specs.Fits.{Fits};

    ghost fits = { λ tree n bounds. Fits (unboxed tree) n bounds };

    fn first_conflict<I: Items>(&self, items: &I, budget: u64) -> Search<I::C> {
        let mut room = [&self.root; ROOM];
        search_trees(items, &&self.root, &mut room, budget)
    }

    fn collect_hits<I: Items, P: Probe<I>>(
        &self,
        items: &I,
        probe: &P,
        out: &mut Vec<u32>,
    ) -> Result<(), Memory> {
        collect_all(items, probe, &&self.root, out)
    }
}
