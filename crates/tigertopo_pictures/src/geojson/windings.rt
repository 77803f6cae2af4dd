//! How rings wind about a point, and the northernmost point of a ring.

ghost use Rattle.std.specs.Prelude.{◌≡◌, ◌+◌, ◌*◌, ◌<◌, ◌≤◌, ◌^◌, ◌+ℤ◌, ℕ, Some, length, slice_index, unsigned_abs};
ghost use Rattle.tl_map_county.specs.Darts.{directed};
ghost use Rattle.tigertopo_pictures.specs.Geojson.Holes.{norther as norther_of, northernmost as northernmost_of, ring_north as ring_north_of};
ghost use Rattle.tigertopo_pictures.specs.Geojson.Holes.{is_upward as is_upward_at, is_downward as is_downward_at, crossing as crossing_by};
ghost use Rattle.tigertopo_pictures.specs.Geojson.Holes.{dart_crossings as dart_crossings_of, winding as winding_of};

use crate::rings::point_at;
use tl_geom::{Point, turn};
use tl_map_county::Map;

/// The northernmost point of a ring, and of several the first.
pub fn ring_north(map: &Map, walk: &[u32]) -> Point
    requires some { 0 < length walk.now }
    requires darts { (k : ℕ) → k < length walk.now → slice_index walk.now k < 2 * length map.now.chains }
    ensures { ring_north_of map.now.chains walk.now ≡ Some result }
{
    let mut found = map.dart_start(walk[0]);
    for dart in walk {
        found = northernmost(found, map.chain(*dart / 2).points, *dart % 2 == 0);
    }
    found
}

// The northernmost of a point and those of a chain, taken from its first point or from its last.
fn northernmost(point: Point, points: &[Point], is_along: bool) -> Point
    ensures { result ≡ northernmost_of point (directed is_along points.now) }
{
    let mut found = point;
    for place in 0..points.len() {
        found = norther(found, point_at(points, is_along, place));
    }
    found
}

// Of two points the one further north, and of two as far north the first.
fn norther(p: Point, q: Point) -> Point
    ensures { result ≡ norther_of p q }
{
    if p.y < q.y { q } else { p }
}

/// How often a ring winds about a point.
pub fn winding(map: &Map, walk: &[u32], q: Point) -> i64
    requires few { length walk.now < 2 ^ 32 }
    requires darts { (k : ℕ) → k < length walk.now → slice_index walk.now k < 2 * length map.now.chains }
    ensures { result ≡ winding_of map.now.chains q walk.now }
{
    let mut sum = 0;
    for dart in walk {
        sum = plus(sum, dart_crossings(map, *dart, q));
    }
    sum
}

// How often the steps of a dart cross the way from a point to the east upward, less how often they cross it downward.
fn dart_crossings(map: &Map, dart: u32, q: Point) -> i64
    requires { dart < 2 * length map.now.chains }
    ensures value { result ≡ dart_crossings_of map.now.chains q dart }
    ensures bound { unsigned_abs result ≤ 2 ^ 24 }
{
    // So a chain has at most as many segments.
    let _few = map.segments();
    let points = map.chain(dart / 2).points;
    let mut sum = 0;
    for place in 1..points.len() {
        let step = crossing(
            q,
            point_at(points, dart % 2 == 0, place - 1),
            point_at(points, dart % 2 == 0, place),
        );
        sum = plus(sum, step);
    }
    sum
}

// A sum.
fn plus(a: i64, b: i64) -> i64
    requires { unsigned_abs a + unsigned_abs b < 2 ^ 63 }
    ensures value { result ≡ a +ℤ b }
    ensures bound { unsigned_abs result ≤ unsigned_abs a + unsigned_abs b }
{
    a + b
}

// 1 where the step from one point to another crosses the way from `q` to the east upward, -1 where it does so downward, and else 0.
fn crossing(q: Point, a: Point, b: Point) -> i64
    ensures value { result ≡ crossing_by q a b }
    ensures bound { unsigned_abs result ≤ 1 }
{
    if is_upward(q, a, b) {
        1
    } else if is_downward(q, a, b) {
        -1
    } else {
        0
    }
}

fn is_upward(q: Point, a: Point, b: Point) -> bool
    ensures { result ≡ is_upward_at q a b }
{
    (a.y <= q.y) & (q.y < b.y) & turn(a, b, q).is_gt()
}

fn is_downward(q: Point, a: Point, b: Point) -> bool
    ensures { result ≡ is_downward_at q a b }
{
    (b.y <= q.y) & (q.y < a.y) & turn(a, b, q).is_lt()
}
