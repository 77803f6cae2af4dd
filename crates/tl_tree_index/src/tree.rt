//! The tree of rectangles over items in an order.

ghost use Rattle.std.specs.Prelude.{◌≡◌, ◌+◌, ◌/◌, ◌^◌, ◌<◌, ◌≤◌, zero, min, length, IfOk};
ghost use Rattle.tl_tree_index.specs.Lists.{items_in, AreItemsBelow};
ghost use Rattle.tl_tree_index.specs.Keeping.Nodes.{Push, AreNodesOver};

use crate::order::Placed;
use crate::{Items, TreeNode};
use arrayvec::ArrayVec;
use std::alloc::{AllocError, Global};
use tl_geom::Rect;

// How many items a leaf has at most, and how many children an inner node.
const LEAF: usize = 8;

const CHILDREN: usize = 8;

/// The tree over items in an order, its nodes in preorder.
pub fn tree_over<I: Items>(
    alloc: Global,
    items: &I,
    order: &[Placed],
) -> Result<Vec<TreeNode>, AllocError>
    requires known { AreItemsBelow (I.count items.now) order.now }
    requires counted { length order.now < 2 ^ 32 }
    ensures { IfOk result (λ nodes. AreNodesOver (I.bounds_of items.now) nodes.items (items_in order.now)) }
{
    let mut nodes = Vec::new(alloc);
    if order.is_empty() {
        return Ok(nodes);
    }
    let _ = push_tree(items, order, &mut nodes)?;
    Ok(nodes)
}

/// Pushes the tree over some items, and tells its rectangle.
fn push_tree<I: Items>(
    items: &I,
    part: &[Placed],
    nodes: &mut Vec<TreeNode>,
) -> Result<Rect, AllocError>
    requires some { zero < length part.now }
    requires known { AreItemsBelow (I.count items.now) part.now }
    ensures { IfOk result (λ rect. Push (I.bounds_of items.now) 1 (length part.now) (length part.now)
        nodes.old.items nodes.new.items (items_in part.now) rect) }
{
    if part.len() <= LEAF {
        return push_leaf(items, part, nodes);
    }
    let children = child_count(part.len());
    let root = nodes.len();
    nodes.push(TreeNode::Inner(Rect::NOTHING, children))?;
    let mut rect = Rect::NOTHING;
    let mut rest = part;
    for pushed in 0..children {
        let (child, behind) = rest.split_at(rest.len() / (children - pushed) as usize);
        rect = rect.join(push_tree(items, child, nodes)?);
        rest = behind;
    }
    nodes[root] = TreeNode::Inner(rect, children);
    Ok(rect)
}

/// How many children the root of a tree over so many items has.
fn child_count(items: usize) -> u8
    requires { 8 < items }
    ensures count { result ≡ min 8 ((items + 7) / 8) }
    ensures several { 2 ≤ result }
    ensures few { result ≤ 8 }
{
    items.div_ceil(LEAF).min(CHILDREN) as u8
}

/// Pushes a leaf of some items, and tells its rectangle.
fn push_leaf<I: Items>(
    items: &I,
    part: &[Placed],
    nodes: &mut Vec<TreeNode>,
) -> Result<Rect, AllocError>
    requires some { zero < length part.now }
    requires few { length part.now ≤ 8 }
    requires known { AreItemsBelow (I.count items.now) part.now }
    ensures { IfOk result (λ rect. Push (I.bounds_of items.now) 1 (length part.now) (length part.now)
        nodes.old.items nodes.new.items (items_in part.now) rect) }
{
    let mut rect = Rect::NOTHING;
    let mut held = ArrayVec::new();
    for placed in part {
        held.push(placed.item);
        rect = rect.join(items.bounds(placed.item));
    }
    nodes.push(TreeNode::Leaf(rect, held))?;
    Ok(rect)
}
