//! The labels at a vertex.
ghost use Rattle.std.specs.Prelude.{◌≡◌, ℕ, List, ◌++◌, Some, IfOk, IsTrue, length};
ghost use Rattle.tl_check_active.specs.Blocks.Lined.{list_of};
ghost use Rattle.tl_check_gaps.specs.Keeping.Facing.{raised};
ghost use Rattle.tl_check_points.specs.Keeping.Ways.{AreKept};
ghost use Rattle.tl_check_points.specs.Keeping.Labels.{AreLabelled, IsOnce};

use crate::agreeing::{are_alike, are_balanced};
use crate::labels::Labels;
use std::alloc::AllocError;
use tl_check_active::blocks::Line;
use tl_map_county::Map;

/// Labels the segments that begin at a vertex, where they stand before the place in the stead of those that end there; and, where the
/// sides of these and those disagree, all that stand west of them too. At a bend of a chain, the commonest vertex, the label of the one
/// segment serves the other. It answers no where there are gaps enough.
pub fn label_vertex(
    map: &Map,
    labels: &mut Labels,
    line: &Line,
    outs: &[u32],
    ins: &[u32],
    front: &mut Vec<u32>,
) -> Result<bool, AllocError>
    ensures kept { IfOk result (λ done. AreKept (length map.now.polygons) labels.old.gaps.items labels.new.gaps.items) }
    ensures labelled { IfOk result (λ done. IsTrue done → (west : List ℕ) → line.now.front ≡ west ++ ins.now → IsOnce (list_of line.now) →
        AreLabelled (length map.now.polygons) (raised map.now.chains) labels.old.gaps.items labels.old.labels.items
        (west ++ (outs.now ++ line.now.back)) →
        AreLabelled (length map.now.polygons) (raised map.now.chains) labels.new.gaps.items labels.new.labels.items (list_of line.now)) }
{
    if outs.len() == 1 && ins.len() == 1 && are_alike(map, outs[0], ins[0]) {
        return Ok(labels.hand_on(outs[0], ins[0]));
    }
    label_anew(map, labels, line, outs, ins, front)
}

/// Does so by new gaps.
fn label_anew(
    map: &Map,
    labels: &mut Labels,
    line: &Line,
    outs: &[u32],
    ins: &[u32],
    front: &mut Vec<u32>,
) -> Result<bool, AllocError>
    ensures kept { IfOk result (λ done. AreKept (length map.now.polygons) labels.old.gaps.items labels.new.gaps.items) }
    ensures labelled { IfOk result (λ done. IsTrue done → (west : List ℕ) → line.now.front ≡ west ++ ins.now → IsOnce (list_of line.now) →
        AreLabelled (length map.now.polygons) (raised map.now.chains) labels.old.gaps.items labels.old.labels.items
        (west ++ (outs.now ++ line.now.back)) →
        AreLabelled (length map.now.polygons) (raised map.now.chains) labels.new.gaps.items labels.new.labels.items (list_of line.now)) }
{
    let east = labels.gap_at(line);
    if are_balanced(map, outs, ins) {
        return Ok(is_some(labels.enter_all(map, ins, east)?));
    }
    line.list_front(front)?;
    Ok(is_some(labels.enter_all(map, front, east)?))
}

/// Whether there is a number.
fn is_some(number: Option<u32>) -> bool
    ensures { IsTrue result → (g : ℕ) × (number ≡ Some g) }
{
    match number {
        Some(_) => true,
        None => false,
    }
}
