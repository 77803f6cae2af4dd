//! What is tested at vertices.
ghost use Rattle.std.specs.Prelude.{◌≡◌, ◌<◌, ◌≤ℤ◌, ℕ, All, None, IfSome, IsTrue, length};
ghost use Rattle.tl_map_county.specs.Segments.{segments_before};
ghost use Rattle.tl_check_faces.specs.Crossings.Headings.{AreProper};
ghost use Rattle.tl_check_planar.specs.ByHeight.Heights.{widest};
ghost use Rattle.tl_check_planar.specs.ByHeight.Neighbours.{IsWide};
ghost use Rattle.tl_check_planar.specs.ByHeight.Slabs.{AreVerticesTested};
ghost use Rattle.tl_check_planar.specs.Searching.{IsTrueMeet};
ghost use Rattle.tl_check_active.specs.Events.{joined, AreEvents, AreEventsRising, IsEvent, one_or_two, AreMet};
ghost use Rattle.tl_check_active.specs.Ranges.{AreInRange};
ghost use Rattle.tl_check_active.specs.Vertices.{IsAtPlace, IsEndOfChain, MayMeet};
ghost use Rattle.tl_check_gaps.specs.Keeping.Vertices.{IsLast, AreInOrder, IsInOrderAt};

use crate::suspects::meet_about;
use tl_check_active::{Event, Events, are_one};
use tl_check_planar::Meet;
use tl_map_county::Map;

/// Whether an event is at an end of its chain.
fn is_chain_end(map: &Map, e: Event) -> bool
    requires { e.segment < segments_before map.now.chains (length map.now.chains) }
    ensures { IsTrue result → (c p : ℕ) → IsAtPlace map.now.chains e c p → IsEndOfChain map.now.chains c p }
{
    let count = map.segments();
    let own = map.segment_chain(e.segment);
    if e.first {
        e.segment == 0 || map.segment_chain(e.segment - 1) != own
    } else {
        e.segment + 1 == count || map.segment_chain(e.segment + 1) != own
    }
}

/// Whether the segment of `f` follows that of `e` in one chain, and both events are at the point between them.
fn follows(map: &Map, e: Event, f: Event) -> bool
    requires one { e.segment < segments_before map.now.chains (length map.now.chains) }
    requires other { f.segment < segments_before map.now.chains (length map.now.chains) }
    ensures { IsTrue result → MayMeet map.now.chains e f }
{
    if e.first || !f.first || f.segment == 0 || e.segment != f.segment - 1 {
        return false;
    }
    map.segment_chain(e.segment) == map.segment_chain(f.segment)
}

/// Whether two events may be at one point.
#[inline(always)]
pub fn may_meet(map: &Map, e: Event, f: Event) -> bool
    ensures { IsTrue result → MayMeet map.now.chains e f }
{
    let count = map.segments();
    if e.segment >= count || f.segment >= count {
        return false;
    }
    if follows(map, e, f) || follows(map, f, e) {
        return true;
    }
    is_chain_end(map, e) && is_chain_end(map, f)
}

/// Whether an event isn't higher than another, and may meet it if it is as high.
#[inline]
fn are_in_order(map: &Map, e: Event, f: Event) -> bool
    ensures { IsTrue result → AreInOrder map.now.chains e f }
{
    e.height < f.height || e.height == f.height && may_meet(map, e, f)
}

/// A meet that two events tell, of which the second isn't lower, if they are at one point where they may not be: of their segments, or of
/// one of these and an end of its own chain.
fn meet_of_events(map: &Map, e: Event, f: Event) -> Option<Meet>
    requires one { IsEvent map.now.chains e }
    requires other { IsEvent map.now.chains f }
    requires rising { e.height ≤ℤ f.height }
    requires ranges { AreInRange map.now.chains }
    requires proper { AreProper map.now.chains }
    ensures meet { IfSome result (IsTrueMeet map.now.chains) }
    ensures none { result ≡ None → AreInOrder map.now.chains e f }
{
    if are_in_order(map, e, f) {
        return None;
    }
    meet_about(map, e.segment, f.segment)
}

/// A meet of the last of the events before a place and the first one there, if they are at one point where they may not be. Most points
/// differ from the one before.
#[inline]
fn meet_before(map: &Map, events: &Events, k: usize) -> Option<Meet>
    requires some { 0 < k }
    requires within { k < length events.now }
    requires events { AreEvents map.now.chains (joined events.now) }
    requires rising { AreEventsRising (joined events.now) }
    requires ranges { AreInRange map.now.chains }
    requires proper { AreProper map.now.chains }
    ensures meet { IfSome result (IsTrueMeet map.now.chains) }
    ensures none { result ≡ None → IsInOrderAt map.now.chains events.now k }
{
    let (event, next) = events.at(k - 1);
    let last = last_of(event, next);
    let (first, _second) = events.at(k);
    if !are_one(events.point(k - 1), events.point(k)) {
        return None;
    }
    meet_of_events(map, last, first)
}

/// A meet at a vertex where chains have points that may not be one, if there is such; else vertices are tested.
pub fn meet_at_vertex(map: &Map, events: &Events) -> Option<Meet>
    requires events { AreEvents map.now.chains (joined events.now) }
    requires rising { AreEventsRising (joined events.now) }
    requires met { All (AreMet map.now.chains) events.now }
    requires wide { IsWide widest map.now.chains }
    requires ranges { AreInRange map.now.chains }
    requires proper { AreProper map.now.chains }
    ensures meet { IfSome result (IsTrueMeet map.now.chains) }
    ensures none { result ≡ None → AreVerticesTested map.now.chains }
{
    if events.len() == 0 {
        return None;
    }
    // that the first events are one or two
    let _first = events.at(0);
    for k in 1..events.len() {
        match meet_before(map, events, k) {
            Some(meet) => return Some(meet),
            None => {}
        }
    }
    None
}

/// The last of an event and another one, if there is one.
#[inline]
pub fn last_of(event: Event, next: Option<Event>) -> Event
    ensures { IsLast result (one_or_two event next) }
{
    match next {
        Some(next) => next,
        None => event,
    }
}
