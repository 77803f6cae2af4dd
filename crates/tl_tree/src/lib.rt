//! Trees of rectangles over any items.
//!
//! An index finds two items that conflict, or shows by its answer that no two do; and it lists what a probe hits. Items
//! and probes are traits with one law each: items that conflict have rectangles that meet, and an item that is hit has
//! a rectangle that meets the probe's region. A tree that a stranger made is checked against the items: the answer is
//! exactly whether it fits them, and if not, why.
//!
//! [`PlainList::new`] and `first_conflict` of each index take no memory. Tests show, and no contract says, that items
//! are asked whether they conflict only where their rectangles meet, and of no pair twice, and that subtrees that lie
//! apart aren't searched against each other.
#![tactic(auto)]

mod box_tree;
mod branch;
mod cells;
mod check;
mod cursor;
mod depth;
mod flat_tree;
mod hits;
mod hull;
mod lanes;
pub mod laws;
mod leaf;
mod near;
mod near_items;
mod own_pairs;
mod plain_list;
mod search;
mod walk;

pub use box_tree::BoxTree;
pub use flat_tree::FlatTree;
pub use plain_list::PlainList;
pub use tl_tree_index::{
    BoxIndex, Items, Memory, Probe, Search, TreeFault, TreeNode, TreeStop, is_preorder,
};
