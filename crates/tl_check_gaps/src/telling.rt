//! The gaps of a list whose facing sides differ, told about the segments that came in at a vertex.
ghost use Rattle.std.specs.Prelude.{◌≡◌, ◌+◌, ◌≤◌, ◌++◌, ◌↔◌, List, ℕ, IfOk, IsTrue, length, take, drop, slice_get};
ghost use Rattle.tl_check_planar.specs.ByHeight.Heights.{widest};
ghost use Rattle.tl_check_active.specs.Blocks.Lined.{last_of};
ghost use Rattle.tl_check_gaps.specs.Gaps.{DifferAcross};
ghost use Rattle.tl_check_gaps.specs.Telling.{IsToldAt, AreToldAbout};

use crate::facing::{are_same, far_of, near_of};
use std::alloc::AllocError;
use tl_check_faces::OddGap;
use tl_geom::Point;
use tl_map_county::Map;

/// The last of so many segments that came in, or the one before them.
fn west_of(front: Option<u32>, ins: &[u32], k: usize) -> Option<u32>
    requires { k ≤ length ins.now }
    ensures { (list : List ℕ) → front ≡ last_of list → result ≡ last_of (list ++ take k ins.now) }
{
    if k == 0 {
        return front;
    }
    Some(ins[k - 1])
}

/// The first of the segments that came in behind so many, or the one behind them.
fn east_of(ins: &[u32], k: usize, back: Option<u32>) -> Option<u32>
    requires { k ≤ length ins.now }
    ensures { (list : List ℕ) → back ≡ slice_get list 0 → result ≡ slice_get (drop k ins.now ++ list) 0 }
{
    if k == ins.len() {
        return back;
    }
    Some(ins[k])
}

/// Whether the sides differ that are named on both sides of a gap.
fn are_at_odds(map: &Map, west: Option<u32>, east: Option<u32>) -> bool
    ensures { IsTrue result ↔ DifferAcross widest map.now.chains west east }
{
    match (far_of(map, west), near_of(map, east)) {
        (Some(one), Some(other)) => !are_same(one, other),
        (None, _) => false,
        (Some(_), None) => false,
    }
}

/// Tells of the gap between two segments, or between one and the outside, if the sides there differ.
fn push_between(
    map: &Map,
    p: Point,
    west: Option<u32>,
    east: Option<u32>,
    gaps: &mut Vec<OddGap>,
) -> Result<(), AllocError>
    ensures { IfOk result (λ done. (front back : List ℕ) → west ≡ last_of front → east ≡ slice_get back 0 →
        IsToldAt map.now.chains p front back gaps.old.items gaps.new.items) }
{
    if are_at_odds(map, west, east) {
        gaps.push(OddGap { at: p, west, east })?;
    }
    Ok(())
}

/// Tells of the gap behind so many of the segments that came in, if sides differ there.
fn push_at(
    map: &Map,
    p: Point,
    front: Option<u32>,
    ins: &[u32],
    k: usize,
    back: Option<u32>,
    gaps: &mut Vec<OddGap>,
) -> Result<(), AllocError>
    requires { k ≤ length ins.now }
    ensures { IfOk result (λ done. (west east : List ℕ) → front ≡ last_of west → back ≡ slice_get east 0 →
        IsToldAt map.now.chains p (west ++ take k ins.now) (drop k ins.now ++ east) gaps.old.items gaps.new.items) }
{
    push_between(map, p, west_of(front, ins, k), east_of(ins, k, back), gaps)?;
    Ok(())
}

/// Tells of the gaps before, between and behind the segments that came in at a vertex, where sides differ. The error is that memory
/// was refused.
pub fn push_about(
    map: &Map,
    p: Point,
    front: Option<u32>,
    ins: &[u32],
    back: Option<u32>,
    gaps: &mut Vec<OddGap>,
) -> Result<(), AllocError>
    ensures { IfOk result (λ done. (west east : List ℕ) → front ≡ last_of west → back ≡ slice_get east 0 →
        AreToldAbout map.now.chains p (record { west = west; ins = ins.now; east = east }) (length ins.now + 1) gaps.old.items
        gaps.new.items) }
{
    for k in 0..ins.len() {
        push_at(map, p, front, ins, k, back, gaps)?;
    }
    push_at(map, p, front, ins, ins.len(), back, gaps)?;
    Ok(())
}
