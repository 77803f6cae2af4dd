//! The flat tree: a list of nodes in preorder, lent, and the size of each subtree.
ghost use Rattle.std.specs.Prelude.{◌≡◌, ◌<◌, ◌≤◌, ◌+◌, ◌^◌, ◌↔◌, None, IsTrue, length, drop, IfOk, IfErr};
ghost use Rattle.tl_tree_index.specs.declared.fault.TreeStop.TheVariants.{TooDeep};
ghost use Rattle.tl_tree_index.specs.Fits.{Fits, MayFind};
ghost use Rattle.tl_tree_index.specs.Preorder.{IsPreorder};
ghost use Rattle.tl_tree.specs.Keeping.Sizes.{AreSizesFrom};
ghost use Rattle.tl_tree_index.specs.Searches.{MayAnswer};
ghost use Rattle.tl_tree_index.specs.Trees.{depth, tree_of, first_trees, trees_of, node_count};

use crate::check::check_all;
use crate::cursor::{Cursor, Lists};
use crate::depth::is_within_depth;
use crate::hits::collect_all;
use crate::near::ROOM;
use crate::search::search_trees;
use crate::{BoxIndex, Items, Memory, Probe, Search, TreeFault, TreeNode, TreeStop};
use std::alloc::{AllocError, Global};
use std::marker::Model;

/// A tree over a list of nodes in preorder, which it borrows. Beside them it keeps the number of nodes of each subtree.
#[derive(Drop)]
pub struct FlatTree<'a> {
    nodes: &'a [TreeNode],
    sizes: Vec<u32>,
}

impl<'a> Model for FlatTree<'a> {
    ghost use Rattle.std.specs.Prelude.{List, length, ◌<◌, ◌^◌};
    ghost use Rattle.tl_tree_index.specs.declared.node.TreeNode.{TreeNode};
    ghost use Rattle.tl_tree.specs.Keeping.Sizes.{AreSizesFrom};

    ghost Value = { List TreeNode };

    ghost view = { λ tree. tree.nodes.now };

    ghost invariant = { λ tree.
        AreSizesFrom 0 tree.nodes.now tree.sizes.items × length tree.nodes.now < 2 ^ 32 };
}

impl<'a> FlatTree<'a> {
    /// The tree of a list of nodes that [`is_preorder`](crate::is_preorder) takes, fewer than 4,294,967,296 of them.
    /// `TooDeep` comes exactly where a node has a depth above 64, unless memory was refused first.
    pub fn from_nodes(alloc: Global, nodes: &'a [TreeNode]) -> Result<FlatTree<'a>, TreeStop>
        requires whole { IsPreorder nodes.now }
        requires numbered { length nodes.now < 2 ^ 32 }
        // The tree is the one that the nodes spell.
        ensures tree { IfOk result (λ tree. tree ≡ nodes.now) }
        ensures shallow { IfOk result (λ _. depth (tree_of nodes.now) ≤ 64) }
        ensures deep { IfErr result (λ stop. stop ≡ TooDeep → 64 < depth (tree_of nodes.now)) }
    {
        let Ok(sizes) = subtree_sizes(alloc, nodes) else {
            return Err(TreeStop::Memory);
        };
        let tree = FlatTree { nodes, sizes };
        if tree.is_shallow() {
            Ok(tree)
        } else {
            Err(TreeStop::TooDeep)
        }
    }

    /// Checks the tree against items: nothing exactly where it fits them, else a fault that is true. `Memory` comes
    /// where the marks of the items were refused.
    pub fn check<I: Items>(&self, alloc: Global, items: &I) -> Result<Option<TreeFault>, Memory>
        ensures found { IfOk result
            (MayFind (tree_of self.now) (I.count items.now) (I.bounds_of items.now)) }
        ensures exact { IfOk result (λ found.
            found ≡ None ↔ Fits (tree_of self.now) (I.count items.now) (I.bounds_of items.now)) }
    {
        check_all(alloc, items, &self.lists().root())
    }

    /// Whether no node has a depth above 64.
    fn is_shallow(&self) -> bool
        ensures { IsTrue result ↔ depth (tree_of self.now) ≤ 64 }
    {
        is_within_depth(&self.lists().root(), 64)
    }

    /// The nodes, and the sizes of their trees.
    pub(crate) fn lists(&self) -> Lists<'_>
        ensures nodes { result.nodes.now ≡ self.now }
        ensures numbered { node_count (tree_of self.now) < 2 ^ 32 }
    {
        Lists {
            nodes: self.nodes,
            sizes: self.sizes.as_slice(),
        }
    }
}

/// The number of nodes of the tree below each node.
fn subtree_sizes(alloc: Global, nodes: &[TreeNode]) -> Result<Vec<u32>, AllocError>
    requires { length nodes.now < 2 ^ 32 }
    ensures { IfOk result (λ sizes. AreSizesFrom 0 nodes.now sizes.items) }
{
    let mut sizes = vec![in alloc; 0u32; nodes.len()]?;
    for k in (0..nodes.len()).rev() {
        let size = match &nodes[k] {
            TreeNode::Leaf(_, _) => 1,
            TreeNode::Inner(_, children) => trees_end(nodes, sizes.as_slice(), k + 1, *children)
                - k,
        };
        sizes[k] = size as u32;
    }
    Ok(sizes)
}

/// Where the first `count` trees from node `first` on end.
fn trees_end(nodes: &[TreeNode], sizes: &[u32], first: usize, count: u8) -> usize
    requires within { first ≤ length nodes.now }
    requires sized { AreSizesFrom first nodes.now sizes.now }
    ensures value { result ≡ first + node_count (first_trees count (trees_of (drop first nodes.now))) }
    ensures end { result ≤ length nodes.now }
{
    let mut at = first;
    for _i in 0..count {
        if at < nodes.len() {
            at += sizes[at] as usize;
        }
    }
    at
}

/// Looks for two items that conflict, by a walk over trees that fit the items.
fn search_walk<I: Items>(items: &I, root: Cursor<'_>, budget: u64) -> Search<I::C>
    requires { Fits (first_trees root.count (trees_of (drop root.at root.lists.now.nodes.now)))
        (I.count items.now) (I.bounds_of items.now) }
    ensures { MayAnswer (I.count items.now) (I.bounds_of items.now) (I.tells items.now) budget result }
{
    let mut room = [root; ROOM];
    search_trees(items, &root, &mut room, budget)
}

impl BoxIndex for FlatTree<'_> {
    ghost use Rattle.tl_tree_index.specs.Fits.{Fits};
    ghost use Rattle.tl_tree_index.specs.Trees.{tree_of};

    ghost fits = { λ tree n bounds. Fits (tree_of tree) n bounds };

    fn first_conflict<I: Items>(&self, items: &I, budget: u64) -> Search<I::C> {
        search_walk(items, self.lists().root(), budget)
    }

    fn collect_hits<I: Items, P: Probe<I>>(
        &self,
        items: &I,
        probe: &P,
        out: &mut Vec<u32>,
    ) -> Result<(), Memory> {
        collect_all(items, probe, &self.lists().root(), out)
    }
}
