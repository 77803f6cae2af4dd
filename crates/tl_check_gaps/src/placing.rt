//! Whether the list of active segments shows that a polygon's point is placed.
ghost use Rattle.std.specs.Prelude.{◌≡◌, ◌<◌, ◌≤◌, ◌-◌, ◌+ℤ◌, ◌<ℤ◌, ℕ, pos, Some, IfOk, IsTrue, length, slice_index_or};
ghost use Rattle.tl_map_county.specs.declared.sides.Side.TheVariants.{Polygon};
ghost use Rattle.tl_check_active.specs.declared.events.Event.{Event};
ghost use Rattle.tl_check_gaps.specs.Beside.{IsEastOf, IsWestOfIt, IsEastOfLast, IsWestOfFirst, seen_side};
ghost use Rattle.tl_check_planar.specs.ByHeight.Heights.{widest};
ghost use Rattle.tl_check_gaps.specs.Keeping.Facing.{IsCounted, raised};
ghost use Rattle.tl_check_active.specs.Blocks.Lined.{list_of};
ghost use Rattle.tl_check_active.specs.Events.{before, joined, AreEvents, AreEventsRising};
ghost use Rattle.tl_check_active.specs.Ranges.{AreInRange};
ghost use Rattle.tl_check_gaps.specs.Keeping.Spotted.{IsPlacedPolygon};
ghost use Rattle.tl_check_gaps.specs.Keeping.Swept.{IsSwept};

use crate::facing::near_side;
use std::alloc::AllocError;
use tl_check_active::blocks::Line;
use tl_check_active::{Events, ends, go_to, height};
use tl_geom::{Point, turn};
use tl_map_county::{Map, Side};

/// Whether the point of a polygon is found to be placed, between the events up to a place and those behind it, where the
/// list has so many places where facing sides differ.
pub fn is_placed(
    map: &Map,
    line: &mut Line,
    events: &Events,
    from: usize,
    gaps: Option<u64>,
    polygon: u32,
) -> Result<bool, AllocError>
    requires events { AreEvents map.now.chains (joined events.now) }
    requires rising { AreEventsRising (joined events.now) }
    requires ranges { AreInRange map.now.chains }
    requires within { from < length events.now }
    requires swept { IsSwept map.now.chains (joined events.now) (before from events.now) (list_of line.old) }
    requires counted { IsCounted map.now.chains gaps (list_of line.old) }
    ensures list { IfOk result (λ done. list_of line.new ≡ list_of line.old) }
    ensures placed { IfOk result (λ done. IsTrue done → IsPlacedPolygon map.now polygon) }
{
    if !are_facing(gaps) || polygon >= map.polygons() {
        return Ok(false);
    }
    let p = map.polygon(polygon).point;
    if !is_between(events, from, height(p)) {
        return Ok(false);
    }
    go_to(map, line, p)?;
    Ok(sees(map, line, p, polygon))
}

/// Whether there is a count, and it is 0.
fn are_facing(gaps: Option<u64>) -> bool
    ensures { IsTrue result → gaps ≡ Some 0 }
{
    gaps == Some(0)
}

/// Whether a height is above the events before a place, and below those from it on.
pub fn is_between(events: &Events, from: usize, h: i64) -> bool
    requires { from < length events.now }
    ensures below { IsTrue result → (d : Event) → 0 < before from events.now →
        (slice_index_or (joined events.now) (before from events.now - 1) d).height <ℤ h }
    ensures above { IsTrue result → (d : Event) → h <ℤ (slice_index_or (joined events.now) (before from events.now) d).height }
{
    if from > 0 && height(events.point(from - 1)) >= h {
        return false;
    }
    h < height(events.point(from))
}

/// Whether a point lies strictly between those that stand before and behind the place, and sees a polygon to its east.
fn sees(map: &Map, line: &Line, p: Point, polygon: u32) -> bool
    ensures east { IsTrue result → IsEastOfLast widest map.now.chains p line.now.front }
    ensures west { IsTrue result → IsWestOfFirst widest map.now.chains p line.now.back }
    ensures sees { IsTrue result → seen_side (raised map.now.chains) line.now.back ≡ Polygon polygon }
{
    if !is_east_of(map, line.previous(), p) {
        return false;
    }
    if !is_west_of(map, line.next(), p) {
        return false;
    }
    near_side(map, line) == Some(Side::Polygon(polygon))
}

/// Whether a point lies strictly east of a segment, if there is one.
pub fn is_east_of(map: &Map, s: Option<u32>, p: Point) -> bool
    ensures { IsTrue result → (t : ℕ) → s ≡ Some t → IsEastOf widest map.now.chains p t }
{
    let Some(s) = s else {
        return true;
    };
    if s >= map.segments() {
        return false;
    }
    let (a, b) = ends(map.segment(s));
    turn(a, b, p).is_lt()
}

/// Whether a point lies strictly west of a segment, if there is one.
pub fn is_west_of(map: &Map, s: Option<u32>, p: Point) -> bool
    ensures { IsTrue result → (t : ℕ) → s ≡ Some t → IsWestOfIt widest map.now.chains p t }
{
    let Some(s) = s else {
        return true;
    };
    if s >= map.segments() {
        return false;
    }
    let (a, b) = ends(map.segment(s));
    turn(a, b, p).is_gt()
}
