//! Where points of the island lie, by each index.

ghost use Rattle.std.specs.Prelude.{◌<◌, ◌^◌, length};
ghost use Rattle.tl_map_county.specs.Segments.{segments_before};
ghost use Rattle.tl_check_planar.specs.Rectangles.{segment_rect};
ghost use Rattle.tl_tree_index.specs.Preorder.{IsPreorder};

use std::alloc::Global;
use tl_check_inside::{Place, locate};
use tl_check_planar::Segments;
use tl_geom::Point;
use tl_map_county::Map;
use tl_tree::{BoxIndex, BoxTree, FlatTree, PlainList, TreeNode};
use tl_tree_index::pack;

/// Points, and the chain that each lies on, or in which polygon and on which landmark.
const PLACES: [(i32, i32, Option<u32>, &[u32], &[u32]); 9] = [
    (20, 20, None, &[0], &[0]),
    (16, 16, None, &[1], &[0]),
    (12, 14, None, &[0], &[0]),
    (12, 18, None, &[0], &[0]),
    (31, 14, None, &[], &[]),
    (5, 30, None, &[], &[]),
    (10, 30, Some(0), &[], &[]),
    (30, 17, Some(0), &[], &[]),
    (16, 18, Some(1), &[], &[]),
];

/// Whether a point lies there.
fn is_right(place: &Place, chain: Option<u32>, within: &[u32], on: &[u32]) -> bool {
    match place {
        Place::OnChain(found) => chain == Some(*found),
        Place::In {
            polygons,
            landmarks,
        } => chain.is_none() && polygons.as_slice() == within && landmarks.as_slice() == on,
    }
}

/// Whether by an index each of the points lies where it has to.
fn are_right<X: BoxIndex>(alloc: Global, map: &Map, index: &X) -> bool
    requires fits { X.fits index.now (segments_before map.now.chains (length map.now.chains)) (segment_rect map.now.chains) }
{
    for (x, y, chain, within, on) in PLACES {
        let is_right = match locate(alloc, map, index, Point { x, y }) {
            Ok(place) => is_right(&place, chain, within, on),
            Err(_) => false,
        };
        if !is_right {
            return false;
        }
    }
    true
}

/// Whether they do by the flat tree of these nodes.
fn are_right_by_nodes(alloc: Global, map: &Map, nodes: &[TreeNode]) -> bool
    requires whole { IsPreorder nodes.now }
    requires few { length nodes.now < 2 ^ 32 }
{
    let Ok(flat) = FlatTree::from_nodes(alloc, nodes) else {
        return false;
    };
    match flat.check(alloc, &Segments::new(map)) {
        Ok(None) => are_right(alloc, map, &flat),
        _ => false,
    }
}

/// Whether they do by boxes of these nodes.
fn are_right_by_boxes(alloc: Global, map: &Map, nodes: &[TreeNode]) -> bool
    requires whole { IsPreorder nodes.now }
    requires few { length nodes.now < 2 ^ 32 }
{
    let Ok(boxes) = BoxTree::from_nodes(alloc, nodes) else {
        return false;
    };
    match boxes.check(alloc, &Segments::new(map)) {
        Ok(None) => are_right(alloc, map, &boxes),
        _ => false,
    }
}

/// Whether they do by both trees.
fn are_right_by_trees(alloc: Global, map: &Map) -> bool {
    match pack(alloc, &Segments::new(map)) {
        Ok(nodes) => {
            are_right_by_nodes(alloc, map, &nodes) && are_right_by_boxes(alloc, map, &nodes)
        }
        Err(_) => false,
    }
}

/// Whether they do by each index.
pub fn are_right_by_all(alloc: Global, map: &Map) -> bool {
    are_right(alloc, map, &PlainList::new(map.segments())) && are_right_by_trees(alloc, map)
}
