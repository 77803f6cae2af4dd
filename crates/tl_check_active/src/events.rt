//! The events of a sweep: the ends of all segments, by height.
ghost use Rattle.std.specs.Prelude.{◌≡◌, ◌+◌, ◌/◌, ◌%◌, ◌==◌, ◌^◌, ◌<◌, ◌∷◌, [], true, false};
ghost use Rattle.std.specs.Prelude.{All, IfOk, IfSome, IsTrue, Some, length};
ghost use Rattle.tl_geom.specs.Plane.{end_a, end_b};
ghost use Rattle.tl_map_county.specs.Segments.{segments_before};
ghost use Rattle.tl_check_planar.specs.ByHeight.Heights.{widest};
ghost use Rattle.tl_check_planar.specs.ByHeight.Neighbours.{IsNumbered, IsWide};
ghost use Rattle.tl_check_active.specs.declared.events.Event.{Event};
ghost use Rattle.tl_check_active.specs.Keeping.Ended.{event_by, events_at, events_in, AreEndsRising, AreListed, IsNextAlong};
ghost use Rattle.tl_check_active.specs.Events.{one_or_two, AreMet, AreEvents, joined};
ghost use Rattle.tl_check_active.specs.Ranges.{IsInRange, AreInRange};

use crate::heights::{height, is_lower, is_no_higher};
use std::alloc::{AllocError, Global};
use std::marker::Model;
use tl_geom::{Point, Segment};
use tl_map_county::{Map, Ranked, presort_by_rank};

/// An end of a segment, by its height.
#[derive(Clone, Copy)]
pub struct Event {
    pub height: i64,
    pub segment: u32,
    /// Whether it is the segment's lower end, where it begins.
    pub begins: bool,
    /// Whether it is the first end of the segment on the way along its chain.
    pub first: bool,
}

/// An end of a segment, as it is kept; at a bend of a chain, together with the first end of the next one.
#[derive(Clone, Copy)]
pub struct End {
    pub point: Point,
    /// Sixteen times the segment's number, and 8 more at a bend, 4 more where the next segment begins there, 2 more where this one
    /// does, and 1 more at its first end.
    pub number: u32,
}

impl Ranked for End {
    /// Its height above the least that there is.
    fn rank(&self) -> u64 {
        height(self.point).abs_diff(i64::MIN)
    }
}

/// The events of a map's segments, those of each bend together.
#[derive(Drop)]
pub struct Events {
    ends: Vec<End>,
}

impl Model for Events {
    ghost use Rattle.std.specs.Prelude.{List};
    ghost use Rattle.tl_check_active.specs.declared.events.Event.{Event};
    ghost use Rattle.tl_check_active.specs.Keeping.Ended.{events_in};

    ghost Value = { List (List Event) };

    ghost view = { λ events. events_in events.ends.items };
}

impl Events {
    ghost use Rattle.std.specs.Prelude.{◌≡◌, ◌<◌, All, IfOk, List, Some, length, slice_index_or};
    ghost use Rattle.std.specs.List.Sorted.{IsPermutation};
    ghost use Rattle.tl_check_planar.specs.ByHeight.Heights.{widest};
    ghost use Rattle.tl_check_active.specs.declared.events.Event.{Event};
    ghost use Rattle.tl_check_planar.specs.ByHeight.Neighbours.{IsWide};
    ghost use Rattle.tl_check_active.specs.Events.{AreAt, AreMet, AreEventsRising, one_or_two, AreEvents, joined};
    ghost use Rattle.tl_check_active.specs.Ranges.{AreInRange};

    /// The events of all segments of a map, by the segments' numbers.
    pub fn new(alloc: Global, map: &Map) -> Result<Events, AllocError>
        ensures events { IfOk result (λ events. AreEvents map.now.chains (joined events)) }
        ensures met { IfOk result (λ events. All (AreMet map.now.chains) events) }
        ensures wide { IfOk result (λ events. IsWide widest map.now.chains) }
        ensures ranges { IfOk result (λ events. AreInRange map.now.chains) }
    {
        let ends = list_ends(alloc, map)?;
        Ok(Events { ends })
    }

    /// How many places they have: a bend is one.
    pub fn len(&self) -> usize
        ensures { result ≡ length self.now }
    {
        self.ends.len()
    }

    /// The event at a place, and at a bend the other one there.
    pub fn at(&self, place: usize) -> (Event, Option<Event>)
        requires { place < length self.now }
        ensures events { (d : List Event) → slice_index_or self.now place d ≡ one_or_two result.0 result.1 }
        ensures level { (next : Event) → result.1 ≡ Some next → result.0.height ≡ next.height }
    {
        both_at(self.ends[place])
    }

    /// The point of the events at a place.
    pub fn point(&self, place: usize) -> Point
        requires { place < length self.now }
        ensures { (d : List Event) → AreAt result (slice_index_or self.now place d) }
    {
        self.ends[place].point
    }

    /// Sorts them by height. As a rule they stand by height where they are presorted, and else they are sorted then. The error is that memory
    /// was refused.
    pub fn sort(&mut self, alloc: Global) -> Result<(), AllocError>
        ensures moved { IsPermutation self.old self.new }
        ensures rising { IfOk result (λ done. AreEventsRising (joined self.new)) }
    {
        presort_by_rank(alloc, &mut self.ends)?;
        if !are_rising(&self.ends) {
            self.ends.sort_by_key(|end| height(end.point))?;
        }
        Ok(())
    }
}

/// Whether none of these is higher than the next.
fn are_rising(ends: &[End]) -> bool
    ensures { IsTrue result → AreEndsRising ends.now }
{
    for k in 1..ends.len() {
        if !is_no_higher(ends[k - 1].point, ends[k].point) {
            return false;
        }
    }
    true
}

/// The events at what is kept.
#[inline]
fn both_at(end: End) -> (Event, Option<Event>)
    ensures events { events_at end ≡ one_or_two result.0 result.1 }
    ensures level { (next : Event) → result.1 ≡ Some next → result.0.height ≡ next.height }
{
    let height = height(end.point);
    let event = Event {
        height,
        segment: end.number / 16,
        begins: end.number / 2 % 2 == 1,
        first: end.number % 2 == 1,
    };
    if end.number / 8 % 2 != 1 {
        return (event, None);
    }
    let next = Event {
        height,
        segment: end.number / 16 + 1,
        begins: end.number / 4 % 2 == 1,
        first: true,
    };
    (event, Some(next))
}

/// The number of an end that stands alone.
#[inline]
fn number_of(s: u32, begins: bool, first: bool) -> u32
    requires { s < 2 ^ 28 }
    ensures segment { result / 16 ≡ s }
    ensures alone { (result / 8 % 2 == 1) ≡ false }
    ensures begins { (result / 2 % 2 == 1) ≡ begins }
    ensures first { (result % 2 == 1) ≡ first }
{
    match (begins, first) {
        (true, true) => 16 * s + 3,
        (true, false) => 16 * s + 2,
        (false, true) => 16 * s + 1,
        (false, false) => 16 * s,
    }
}

/// The number of the last end of a segment at a bend.
#[inline]
fn number_of_bend(s: u32, begins: bool, next_begins: bool) -> u32
    requires { s < 2 ^ 28 }
    ensures segment { result / 16 ≡ s }
    ensures both { (result / 8 % 2 == 1) ≡ true }
    ensures next { (result / 4 % 2 == 1) ≡ next_begins }
    ensures begins { (result / 2 % 2 == 1) ≡ begins }
    ensures first { (result % 2 == 1) ≡ false }
{
    match (begins, next_begins) {
        (true, true) => 16 * s + 14,
        (true, false) => 16 * s + 10,
        (false, true) => 16 * s + 12,
        (false, false) => 16 * s + 8,
    }
}

/// The first end of the segment of a number, alone.
#[inline]
fn first_end(segment: Segment, s: u32) -> End
    requires { s < 2 ^ 28 }
    ensures { events_at result ≡ event_by s true segment ∷ [] }
{
    End {
        point: segment.a(),
        number: number_of(s, is_lower(segment.a(), segment.b()), true),
    }
}

/// The last one, alone.
#[inline]
fn last_end(segment: Segment, s: u32) -> End
    requires { s < 2 ^ 28 }
    ensures events { events_at result ≡ event_by s false segment ∷ [] }
    ensures ranges { IsInRange (end_a segment) × IsInRange (end_b segment) }
{
    let begins = !is_lower(segment.a(), segment.b());
    End {
        point: segment.b(),
        number: number_of(s, begins, false),
    }
}

/// The last one, and at the same point the first one of the next segment.
#[inline]
fn bend(segment: Segment, s: u32, next: Segment) -> End
    requires few { s < 2 ^ 28 }
    requires joined { end_b segment ≡ end_a next }
    ensures events { events_at result ≡ event_by s false segment ∷ event_by (s + 1) true next ∷ [] }
    ensures ranges { IsInRange (end_a segment) × IsInRange (end_b segment) }
{
    let begins = !is_lower(segment.a(), segment.b());
    let next_begins = is_lower(next.a(), next.b());
    End {
        point: segment.b(),
        number: number_of_bend(s, begins, next_begins),
    }
}

/// The ends of all segments of a map, by the segments' numbers.
fn list_ends(alloc: Global, map: &Map) -> Result<Vec<End>, AllocError>
    ensures events { IfOk result (λ ends. AreEvents map.now.chains (joined (events_in ends.items))) }
    ensures met { IfOk result (λ ends. All (AreMet map.now.chains) (events_in ends.items)) }
    ensures wide { IfOk result (λ ends. IsWide widest map.now.chains) }
    ensures ranges { IfOk result (λ ends. AreInRange map.now.chains) }
{
    let count = map.segments();
    let mut ends = Vec::with_capacity(alloc, count as usize + map.chains() as usize)?;
    let mut is_begun = false;
    for s in 0..count {
        is_begun = list_segment(map, s, is_begun, &mut ends)?;
    }
    Ok(ends)
}

/// Lists the ends of a segment, of which the first one may be listed already, and at a bend the first one of the next segment,
/// which is answered.
#[inline]
fn list_segment(map: &Map, s: u32, is_begun: bool, ends: &mut Vec<End>) -> Result<bool, AllocError>
    requires known { s < segments_before map.now.chains (length map.now.chains) }
    requires few { s < 2 ^ 28 }
    requires listed { AreListed map.now.chains s is_begun ends.old.items }
    ensures { IfOk result (λ more. AreListed map.now.chains (s + 1) more ends.new.items) }
{
    let segment = map.segment(s);
    begin_segment(map, segment, s, is_begun, ends)?;
    match next_along(map, s, segment) {
        Some(next) => {
            ends.push(bend(segment, s, next))?;
            Ok(true)
        }
        None => {
            ends.push(last_end(segment, s))?;
            Ok(false)
        }
    }
}

/// Lists the first end of a segment, if it isn't listed already.
#[inline]
fn begin_segment(
    map: &Map,
    segment: Segment,
    s: u32,
    is_begun: bool,
    ends: &mut Vec<End>,
) -> Result<(), AllocError>
    requires number { IsNumbered map.now.chains s segment }
    requires few { s < 2 ^ 28 }
    requires listed { AreListed map.now.chains s is_begun ends.old.items }
    ensures { IfOk result (λ done. AreListed map.now.chains s true ends.new.items) }
{
    if is_begun {
        return Ok(());
    }
    ends.push(first_end(segment, s))?;
    Ok(())
}

/// The next segment of the same chain, if there is one.
#[inline]
fn next_along(map: &Map, s: u32, segment: Segment) -> Option<Segment>
    requires { s < segments_before map.now.chains (length map.now.chains) }
    ensures { IfSome result (IsNextAlong map.now.chains s segment) }
{
    let count = map.segments();
    let next = s + 1;
    if next >= count || map.segment_chain(next) != map.segment_chain(s) {
        return None;
    }
    let other = map.segment(next);
    if segment.b() == other.a() {
        Some(other)
    } else {
        None
    }
}
