//! What indexes over the same items answer.
ghost use Rattle.std.specs.Prelude.{◌<◌, ◌^◌, length};
ghost use Rattle.tl_tree_index.specs.Preorder.{IsPreorder};

use crate::tree::items::{Counting, Pin, rect};
use arrayvec::ArrayVec;
use std::alloc::{AllocError, Global};
use tl_geom::{Point, Rect};
use tl_tree::{
    BoxIndex, BoxTree, FlatTree, Items, PlainList, Search, TreeFault, TreeNode, is_preorder,
};
use tl_tree_index::pack;

fn leaf(bounds: Rect, items: &[u32]) -> TreeNode {
    let mut kept = ArrayVec::new();
    for i in items {
        let _ = kept.try_push(*i);
    }
    TreeNode::Leaf(bounds, kept)
}

/// A root over two leaves.
fn two_leaves((first, some): (Rect, &[u32]), (second, others): (Rect, &[u32])) -> [TreeNode; 3] {
    [
        TreeNode::Inner(first.join(second), 2),
        leaf(first, some),
        leaf(second, others),
    ]
}

/// Whether an index asks each of so many pairs once, and answers with one less as budget that it is spent.
fn asks<X: BoxIndex>(index: &X, items: &Counting, pairs: u64) -> bool
    requires { X.fits index.now (⟦<Counting as Items>⟧.count items.now) (⟦<Counting as Items>⟧.bounds_of items.now) }
{
    let _ = items.asked();
    let clear = index.first_conflict(items, pairs) == Search::Clear;
    let all = items.asked() == Some(pairs);
    let spent = pairs == 0 || index.first_conflict(items, pairs - 1) == Search::Budget;
    clear && all && spent
}

/// The items at a point, in rising order, behind a number that stood there before.
fn hits<X: BoxIndex>(alloc: Global, index: &X, items: &Counting, at: Point) -> Option<Vec<u32>>
    requires { X.fits index.now (⟦<Counting as Items>⟧.count items.now) (⟦<Counting as Items>⟧.bounds_of items.now) }
{
    let Ok(mut out) = vec![in alloc; 99] else {
        return None;
    };
    if index.collect_hits(items, &Pin(at), &mut out).is_err() {
        return None;
    }
    out.sort_unstable();
    Some(out)
}

/// Whether an index finds the hits of a plain list.
fn has_hits_of_a_list<X: BoxIndex>(alloc: Global, index: &X, items: &Counting, at: Point) -> bool
    requires { X.fits index.now (⟦<Counting as Items>⟧.count items.now) (⟦<Counting as Items>⟧.bounds_of items.now) }
{
    match hits(alloc, index, items, at) {
        Some(found) => has_hits(alloc, items, at, &found),
        None => false,
    }
}

/// Whether these are the hits of a plain list.
fn has_hits(alloc: Global, items: &Counting, at: Point, wanted: &[u32]) -> bool {
    match hits(alloc, &PlainList::new(items.len()), items, at) {
        Some(found) => found.as_slice() == wanted,
        None => false,
    }
}

/// Whether an index asks so many pairs and finds the hits of a plain list.
fn agrees<X: BoxIndex>(alloc: Global, index: &X, items: &Counting, pairs: u64) -> bool
    requires { X.fits index.now (⟦<Counting as Items>⟧.count items.now) (⟦<Counting as Items>⟧.bounds_of items.now) }
{
    for (x, y) in [(10, 30), (20, 20), (30, 43), (79, 79)] {
        if !has_hits_of_a_list(alloc, index, items, Point { x, y }) {
            return false;
        }
    }
    asks(index, items, pairs)
}

/// Whether a flat tree does.
fn agrees_flat(alloc: Global, items: &Counting, nodes: &[TreeNode], pairs: u64) -> bool
    requires whole { IsPreorder nodes.now }
    requires few { length nodes.now < 2 ^ 32 }
{
    let Ok(tree) = FlatTree::from_nodes(alloc, nodes) else {
        return false;
    };
    match tree.check(alloc, items) {
        Ok(None) => agrees(alloc, &tree, items, pairs),
        _ => false,
    }
}

/// Whether boxes do.
fn agrees_in_boxes(alloc: Global, items: &Counting, nodes: &[TreeNode], pairs: u64) -> bool
    requires whole { IsPreorder nodes.now }
    requires few { length nodes.now < 2 ^ 32 }
{
    let Ok(tree) = BoxTree::from_nodes(alloc, nodes) else {
        return false;
    };
    match tree.check(alloc, items) {
        Ok(None) => agrees(alloc, &tree, items, pairs),
        _ => false,
    }
}

/// Whether the plain list asks so many pairs, and by nodes both trees agree with it.
fn agree(alloc: Global, items: &Counting, nodes: &[TreeNode], pairs: u64) -> bool {
    asks(&PlainList::new(items.len()), items, pairs)
        && nodes.len() < 99
        && is_preorder(nodes)
        && agrees_flat(alloc, items, nodes, pairs)
        && agrees_in_boxes(alloc, items, nodes, pairs)
}

/// The sides of a square: each meets the two beside it.
fn square() -> [Rect; 4] {
    [
        rect(10, 10, 30, 10),
        rect(30, 10, 30, 30),
        rect(10, 30, 30, 30),
        rect(10, 10, 10, 30),
    ]
}

const ALL: Rect = Rect {
    xmin: 10,
    ymin: 10,
    xmax: 30,
    ymax: 30,
};

fn agree_on_a_square(alloc: Global) -> bool {
    let nodes = two_leaves((ALL, &[3, 0]), (ALL, &[1, 2]));
    match Counting::of(alloc, &square()) {
        Ok(items) => {
            agree(alloc, &items, &nodes, 4)
                && has_hits(alloc, &items, Point { x: 10, y: 30 }, &[2, 3, 99])
        }
        Err(_) => false,
    }
}

fn agree_on_items_apart(alloc: Global) -> bool {
    let rects = [
        rect(0, 0, 0, 0),
        rect(0, 9, 0, 9),
        rect(100, 0, 100, 0),
        rect(100, 9, 100, 9),
    ];
    let nodes = two_leaves((rect(0, 0, 0, 9), &[0, 1]), (rect(100, 0, 100, 9), &[2, 3]));
    match Counting::of(alloc, &rects) {
        Ok(items) => agree(alloc, &items, &nodes, 0),
        Err(_) => false,
    }
}

/// Sixty-four rectangles of up to 16 by 16 in a square of 64 by 64.
fn scattered() -> [Rect; 64] {
    let mut rects = [rect(0, 0, 0, 0); 64];
    let mut state = 2006u32;
    for place in rects.iter_mut() {
        state = state.wrapping_mul(1664525).wrapping_add(1013904223);
        let (x, y) = (((state >> 8) & 63) as i32, ((state >> 14) & 63) as i32);
        let (width, height) = (((state >> 20) & 15) as i32, ((state >> 24) & 15) as i32);
        *place = rect(x, y, x.wrapping_add(width), y.wrapping_add(height));
    }
    rects
}

/// Whether indexes agree on items by the tree that is packed of them.
fn agree_on_packed(alloc: Global, items: &Counting) -> bool {
    let pairs = items.meeting_pairs();
    match pack(alloc, items) {
        Ok(nodes) => 64 < pairs && pairs < 1000 && agree(alloc, items, &nodes, pairs),
        Err(_) => false,
    }
}

fn agree_on_scattered_items(alloc: Global) -> bool {
    match Counting::of(alloc, &scattered()) {
        Ok(items) => agree_on_packed(alloc, &items),
        Err(_) => false,
    }
}

#[test]
fn indexes_agree(rt: HostRuntime) {
    assert!(rt; agree_on_a_square(rt.alloc()));
    assert!(rt; agree_on_items_apart(rt.alloc()));
    assert!(rt; agree_on_scattered_items(rt.alloc()));
}

/// What the check of a flat tree finds.
fn fault_of_flat(alloc: Global, items: &Counting, nodes: &[TreeNode]) -> Option<TreeFault>
    requires whole { IsPreorder nodes.now }
    requires few { length nodes.now < 2 ^ 32 }
{
    match FlatTree::from_nodes(alloc, nodes) {
        Ok(tree) => tree.check(alloc, items).unwrap_or(None),
        Err(_) => None,
    }
}

/// What that of boxes finds.
fn fault_of_boxes(alloc: Global, items: &Counting, nodes: &[TreeNode]) -> Option<TreeFault>
    requires whole { IsPreorder nodes.now }
    requires few { length nodes.now < 2 ^ 32 }
{
    match BoxTree::from_nodes(alloc, nodes) {
        Ok(tree) => tree.check(alloc, items).unwrap_or(None),
        Err(_) => None,
    }
}

/// What both find, where it is the same.
fn fault_of(alloc: Global, items: &Counting, nodes: &[TreeNode]) -> Option<TreeFault> {
    if nodes.len() > 99 || !is_preorder(nodes) {
        return None;
    }
    let found = fault_of_flat(alloc, items, nodes);
    if fault_of_boxes(alloc, items, nodes) == found {
        found
    } else {
        None
    }
}

#[test]
fn faults(rt: HostRuntime) {
    let short = rect(10, 10, 30, 29);
    for (second, others, wanted) in [
        (ALL, [2, 2].as_slice(), TreeFault::IndexTwice(2)),
        (ALL, [2, 4].as_slice(), TreeFault::UnknownIndex(4)),
        (ALL, [3].as_slice(), TreeFault::IndexMissing(2)),
        (short, [2, 3].as_slice(), TreeFault::RectTooSmall(2)),
    ] {
        let nodes = two_leaves((ALL, &[0, 1]), (second, others));
        let fault = match Counting::of(rt.alloc(), &square()) {
            Ok(items) => fault_of(rt.alloc(), &items, &nodes),
            Err(_) => None,
        };
        assert!(rt; fault == Some(wanted));
    }
}

/// Whether nodes are a whole tree: a byte of 0 for a leaf, else of the number of children.
fn is_whole(alloc: Global, shape: &[u8]) -> Result<bool, AllocError> {
    let mut nodes = Vec::new(alloc);
    for children in shape {
        nodes.push(if *children == 0 {
            leaf(ALL, &[])
        } else {
            TreeNode::Inner(ALL, *children)
        })?;
    }
    Ok(is_preorder(&nodes))
}

#[test]
fn preorders(rt: HostRuntime) {
    for (shape, whole) in [
        (b"".as_slice(), true),
        (b"\0".as_slice(), true),
        (b"\0\0".as_slice(), false),
        (b"\x01\0".as_slice(), false),
        (b"\x02\0".as_slice(), false),
        (b"\x02\0\0".as_slice(), true),
        (b"\x08\0\0\0\0\0\0\0\0".as_slice(), true),
        (b"\x09\0\0\0\0\0\0\0\0\0".as_slice(), false),
    ] {
        assert!(rt; is_whole(rt.alloc(), shape) == Ok(whole), "{shape:?}");
    }
}
