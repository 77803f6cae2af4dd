//! Packed trees: how many nodes they have, and how deep they are.

use crate::tree::items::{Counting, rect};
use std::alloc::{AllocError, Global};
use tl_tree::{FlatTree, TreeNode};
use tl_tree_index::pack;

/// The nodes in preorder: of an inner node how many children it has, of a leaf how many items.
fn shape(alloc: Global, nodes: &[TreeNode]) -> Result<String, AllocError> {
    let mut shape = String::new(alloc);
    for node in nodes {
        match node {
            TreeNode::Inner(_, children) => write!(shape, " {children} of")?,
            TreeNode::Leaf(_, items) => write!(shape, " {}", items.len())?,
        }
    }
    Ok(shape)
}

/// Whether the tree of these items fits them and has this shape.
fn has_shape(alloc: Global, items: &Counting, wanted: &str) -> bool {
    let Ok(nodes) = pack(alloc, items) else {
        return false;
    };
    let Ok(tree) = FlatTree::from_nodes(alloc, &nodes) else {
        return false;
    };
    let fits = matches!(tree.check(alloc, items), Ok(None));
    match shape(alloc, &nodes) {
        Ok(found) => fits && found.as_str() == wanted,
        Err(_) => false,
    }
}

#[test]
fn trees_are_no_deeper_than_they_need_be(rt: HostRuntime) {
    // squares in a row
    let mut rects = [rect(0, 0, 0, 0); 65];
    let mut west = 0i32;
    for place in rects.iter_mut() {
        *place = rect(west, 0, west.wrapping_add(3), 3);
        west = west.wrapping_add(4);
    }
    for (squares, wanted) in [
        (0, ""),
        (1, " 1"),
        (8, " 8"),
        (9, " 2 of 4 5"),
        (64, " 8 of 8 8 8 8 8 8 8 8"),
        (65, " 8 of 8 8 8 8 8 8 8 2 of 4 5"),
    ] {
        let well = match Counting::of(rt.alloc(), &rects[..squares]) {
            Ok(items) => has_shape(rt.alloc(), &items, wanted),
            Err(_) => false,
        };
        assert!(rt; well, "{squares} squares");
    }
}
