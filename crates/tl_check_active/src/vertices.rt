//! The segments that end at a point, and those that begin there.
ghost use Rattle.std.specs.Prelude.{◌≡◌, ◌≢◌, ◌∷◌, [], ◌+◌, ◌<◌, ℕ, IfOk, IsTrue, IsFalse, List, length, count_by, slice_index_or};
ghost use Rattle.tl_tree_index.specs.Hits.{times};
ghost use Rattle.tl_check_planar.specs.ByHeight.Heights.{height, widest};
ghost use Rattle.tl_check_active.specs.Events.{begins_at, ends_at, AreAt};
ghost use Rattle.tl_check_active.specs.Gathered.{AreGathered, IsElsewhere};
ghost use Rattle.tl_check_active.specs.declared.events.Event.{Event};

use crate::events::{Event, Events};
use crate::heights::is_lower;
use std::alloc::AllocError;
use std::cmp::Ordering;
use tl_geom::{Point, Segment, turn};
use tl_map_county::Map;

/// Notes the segment of an event, where it ends there or begins there.
#[inline]
fn note(event: Event, outs: &mut Vec<u32>, ins: &mut Vec<u32>) -> Result<(), AllocError>
    ensures outs { IfOk result (λ done. (s : ℕ) → times s outs.new.items ≡ times s outs.old.items + count_by (ends_at s) (event ∷ [])) }
    ensures ins { IfOk result (λ done. (s : ℕ) → times s ins.new.items ≡ times s ins.old.items + count_by (begins_at s) (event ∷ [])) }
{
    if event.begins {
        ins.push(event.segment)?;
    } else {
        outs.push(event.segment)?;
    }
    Ok(())
}

/// Notes the segments of the events at a place.
#[inline]
fn note_all(
    events: &Events,
    place: usize,
    outs: &mut Vec<u32>,
    ins: &mut Vec<u32>,
) -> Result<(), AllocError>
    requires { place < length events.now }
    ensures outs { IfOk result (λ done. (s : ℕ) (d : List Event) → times s outs.new.items ≡
        times s outs.old.items + count_by (ends_at s) (slice_index_or events.now place d)) }
    ensures ins { IfOk result (λ done. (s : ℕ) (d : List Event) → times s ins.new.items ≡
        times s ins.old.items + count_by (begins_at s) (slice_index_or events.now place d)) }
{
    let (event, next) = events.at(place);
    note(event, outs, ins)?;
    match next {
        Some(next) => note(next, outs, ins),
        None => Ok(()),
    }
}

/// The segments that end at the point of a place's events, and those that begin there; and how far these events go. The error is
/// that memory was refused.
#[inline(always)]
pub fn gather(
    events: &Events,
    from: usize,
    outs: &mut Vec<u32>,
    ins: &mut Vec<u32>,
) -> Result<usize, AllocError>
    requires { from < length events.now }
    ensures { IfOk result (λ to. AreGathered events.now from to outs.new.items ins.new.items) }
{
    outs.clear();
    ins.clear();
    let count = events.len();
    let p = events.point(from);
    let mut to = from;
    while to < count && are_there(events, from, to, p) {
        note_all(events, to, outs, ins)?;
        to += 1;
    }
    Ok(to)
}

/// Whether the events at a place are at the point of those at another, the first one that is looked at.
#[inline]
fn are_there(events: &Events, first: usize, place: usize, p: Point) -> bool
    requires known { place < length events.now }
    requires first { (d : List Event) → AreAt p (slice_index_or events.now first d) }
    ensures there { IsTrue result → (d : List Event) → AreAt p (slice_index_or events.now place d) }
    ensures other { IsFalse result → place ≢ first }
    ensures elsewhere { IsFalse result → IsElsewhere p events.now place }
{
    place == first || are_one(events.point(place), p)
}

/// Whether two points are one. If they aren't, their heights differ.
#[inline]
pub fn are_one(p: Point, q: Point) -> bool
    ensures one { IsTrue result → p ≡ q }
    ensures differ { IsFalse result → height widest p ≢ height widest q }
{
    // that their longitudes are within the range of an i32
    let (_p, _q) = (p.x, q.x);
    p == q
}

/// The segment of a number, if there is one.
fn segment_of(map: &Map, s: u32) -> Option<Segment> {
    if s < map.segments() {
        Some(map.segment(s))
    } else {
        None
    }
}

/// The end of a segment that is at a point, if one is, and the other end.
fn from_point(s: Segment, p: Point) -> (Point, Point) {
    if s.a() == p {
        (p, s.b())
    } else {
        (s.b(), s.a())
    }
}

/// Which of two segments that share their low end, or their high end, comes first from west to east.
fn west_first(map: &Map, s: u32, t: u32) -> Ordering {
    match (segment_of(map, s), segment_of(map, t)) {
        (Some(s), Some(t)) => {
            let (p, one) = from_point(s, shared_end(s, t));
            let (_, other) = from_point(t, p);
            if is_lower(p, one) {
                turn(p, one, other)
            } else {
                turn(one, p, other)
            }
        }
        (None, _) => Ordering::Equal,
        (Some(_), None) => Ordering::Equal,
    }
}

/// The end that two segments share, if they share one.
fn shared_end(s: Segment, t: Segment) -> Point {
    if s.a() == t.a() || s.a() == t.b() {
        s.a()
    } else {
        s.b()
    }
}

/// Sorts segments that share their low end, or their high end, from west to east, if there are more than one.
#[inline(always)]
pub fn order(map: &Map, numbers: &mut Vec<u32>)
    ensures { (s : ℕ) → times s numbers.new.items ≡ times s numbers.old.items }
{
    if numbers.len() > 1 {
        order_some(map, numbers);
    }
}

/// Sorts two such segments or more.
fn order_some(map: &Map, numbers: &mut Vec<u32>)
    ensures { (s : ℕ) → times s numbers.new.items ≡ times s numbers.old.items }
{
    if numbers.len() > 2 {
        numbers.sort_unstable_by(|s, t| west_first(map, *s, *t));
    } else if numbers.len() == 2 && west_first(map, numbers[1], numbers[0]).is_lt() {
        numbers.swap(0, 1);
    }
}
