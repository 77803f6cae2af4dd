//! The certificate of a county that isn't there: of each kind of lines as many as a county of so many chains has.

use arrayvec::ArrayVec;
use std::alloc::{AllocError, Global};
use tl_cert::{Certificate, Counts};
use tl_geom::Rect;
use tl_tree::TreeNode;

// How many items a leaf has; a chain has half as many segments.
const ITEMS: u32 = 8;

const WEST: i32 = -76_700_000;

const SOUTH: i32 = 39_200_000;

// How many darts start at a node: three or four.
const ROUND: [u32; 3] = [3, 3, 4];

// How many darts a ring has.
const WALK: [u32; 1] = [5];

/// A rectangle some way into the county.
fn rect_at(step: u32) -> Rect {
    let (east, north) = (
        (step % 1000) as i32 * 1200,
        (step / 1000 % 1000) as i32 * 1200,
    );
    Rect {
        xmin: WEST + east,
        ymin: SOUTH + north,
        xmax: WEST + east + 1200,
        ymax: SOUTH + north + 1200,
    }
}

/// So many leaves, each but the last the first child of a node.
fn tree(alloc: Global, leaves: u32) -> Result<Vec<TreeNode>, AllocError> {
    let mut nodes = Vec::new(alloc);
    for leaf in 0..leaves {
        let rect = rect_at(leaf);
        if leaf.wrapping_add(1) < leaves {
            nodes.push(TreeNode::Inner(rect, 2))?;
        }
        let mut items = ArrayVec::new();
        for item in 0..ITEMS {
            let _ = items.try_push(leaf.wrapping_mul(ITEMS).wrapping_add(item));
        }
        nodes.push(TreeNode::Leaf(rect, items))?;
    }
    Ok(nodes)
}

/// So many darts, in lists of these lengths, one after the other.
fn lists(alloc: Global, darts: u32, lengths: &[u32]) -> Result<Vec<Vec<u32>>, AllocError> {
    let mut lists = Vec::new(alloc);
    let mut list = Vec::new(alloc);
    let mut room = 0u32;
    for dart in 0..darts {
        if room == 0 {
            room = lengths
                .get(lists.len().checked_rem(lengths.len()).unwrap_or(0))
                .copied()
                .unwrap_or(1);
        }
        list.push(dart)?;
        room = room.wrapping_sub(1);
        if room == 0 || dart.wrapping_add(1) == darts {
            lists.push(std::mem::replace(&mut list, Vec::new(alloc)))?;
        }
    }
    Ok(lists)
}

/// The certificate of a county of so many chains, each of four segments, in version 1. It has ten lines a chain: of the
/// tree one for each segment, and one for each leaf and each node above; one for each round and each walk, and in both
/// one for each dart.
pub fn made_certificate(alloc: Global, chains: u32) -> Result<Option<Certificate>, AllocError> {
    let segments = chains.wrapping_mul(ITEMS / 2);
    let darts = chains.wrapping_mul(2);
    let tree = tree(alloc, segments / ITEMS)?;
    let rounds = lists(alloc, darts, &ROUND)?;
    let walks = lists(alloc, darts, &WALK)?;
    let counts = Counts {
        chains,
        segments,
        nodes: u32::try_from(rounds.len()).unwrap_or(0),
        polygons: u32::try_from(walks.len()).unwrap_or(0),
    };
    Ok(Certificate::new(counts, tree, rounds, walks, 1))
}
