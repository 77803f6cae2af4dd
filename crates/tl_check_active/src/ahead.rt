//! A look at what comes next. What is read for one event hangs on what was read for it before, and a processor waits for each; what is
//! read for many events together it waits for at the same time.

ghost use Rattle.std.specs.Prelude.{◌<◌, length};

use crate::blocks::{AHEAD, Line, Places, SeeksMany};
use crate::events::Events;
use crate::finding::is_east_by_products;
use tl_geom::{Point, Segment};
use tl_map_county::Map;

/// The points of the events that come next, each of which is sought in a list of a map's segments.
#[derive(Clone, Copy)]
struct Ahead<'a> {
    map: &'a Map,
    points: [Point; AHEAD],
}

impl<'a> SeeksMany for Ahead<'a> {
    fn is_east_of(&self, one: usize, number: u32) -> bool {
        one < AHEAD
            && number < self.map.segments()
            && is_east_by_products(self.map.segment(number), self.points[one])
    }
}

/// Looks at the events from a place on, if the list is long, the last vertices were far from one another, and it wasn't looked ahead to
/// there: in which blocks of the list the segments stand that end there, and where these entered it. Nothing rests on it.
#[inline(always)]
pub fn look_ahead(map: &Map, events: &Events, from: usize, line: &Line, places: &mut Places) {
    if line.is_long() && !places.are_ahead(from) && places.goes_far(from.saturating_add(AHEAD)) {
        look_at_next(map, events, from, line, places);
    }
}

/// Looks at as many events as are looked at together.
#[inline(never)]
fn look_at_next(map: &Map, events: &Events, from: usize, line: &Line, places: &mut Places) {
    let mut outs = [u32::MAX; AHEAD];
    let mut points = [Point { x: 0, y: 0 }; AHEAD];
    for one in 0..AHEAD {
        let place = from.saturating_add(one);
        if place < events.len() {
            points[one] = events.point(place);
            outs[one] = ending(map, events, place);
        }
    }
    places.look_ahead(&Ahead { map, points }, line, &outs);
}

/// The segment that ends at a place's events, or else one that begins there or none. At a bend that is as a rule the one that doesn't
/// begin there.
#[inline]
fn ending(map: &Map, events: &Events, place: usize) -> u32
    requires { place < length events.now }
{
    let (event, _next) = events.at(place);
    let s = event.segment.wrapping_add(u32::from(event.begins));
    if s < map.segments() && is_end(map.segment(s), events.point(place)) {
        s
    } else {
        u32::MAX
    }
}

/// Whether a point is an end of a segment.
#[inline]
fn is_end(s: Segment, p: Point) -> bool {
    (s.a() == p) | (s.b() == p)
}
