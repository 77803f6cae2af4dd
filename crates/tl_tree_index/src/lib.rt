//! What an index over items is asked and what it answers, and the nodes of which trees of rectangles are made.
//!
//! Items and probes are traits with one law each: items that conflict have rectangles that meet, and an item that is hit has a
//! rectangle that meets the probe's region. What an index answers of any such items is one contract, [`BoxIndex`]. `tl_tree` has
//! the indexes.
#![tactic(auto)]

mod curve;
mod fault;
mod index;
mod items;
mod node;
mod order;
mod packing;
mod preorder;
mod probe;
mod tree;

pub use fault::{TreeFault, TreeStop};
pub use index::{BoxIndex, Memory};
pub use items::{Conflict, Items, Search};
pub use node::TreeNode;
pub use order::{Placed, order_items};
pub use packing::pack;
pub use preorder::is_preorder;
pub use probe::Probe;
