//! Rectangles about points.

ghost use Rattle.std.specs.Prelude.{◌≡◌};
ghost use Rattle.std.specs.Int.{int_min, int_max};
ghost use Rattle.tigertopo_pictures.specs.Svg.Frames.{widened, around_points, around_chains, around_place, around_places, no_points};

use crate::svg::places::corner_if;
use tl_geom::{Point, Rational, Rect};
use tl_map_county::Map;

/// The rectangle about the points of the map's chains.
pub fn bounds_of(map: &Map) -> Rect
    ensures { result ≡ around_chains no_points map.now.chains }
{
    let mut rect = Rect::NOTHING;
    for chain in 0..map.chains() {
        rect = around(rect, map.chain(chain).points);
    }
    rect
}

/// The rectangle, so widened that it holds the corners of these places.
pub fn around_places(rect: Rect, places: &[Option<Rational>]) -> Rect
    ensures { result ≡ around_places rect places.now }
{
    let mut rect = rect;
    for place in places {
        rect = around_place(rect, *place);
    }
    rect
}

// The same of a place, if there is one.
fn around_place(rect: Rect, place: Option<Rational>) -> Rect
    ensures { result ≡ around_place rect place }
{
    match corner_if(place) {
        Some(corner) => widen(rect, corner),
        None => rect,
    }
}

/// The rectangle, so widened that it holds these points.
pub fn around(rect: Rect, points: &[Point]) -> Rect
    ensures { result ≡ around_points rect points.now }
{
    let mut rect = rect;
    for point in points {
        rect = widen(rect, *point);
    }
    rect
}

// The rectangle, so widened that it holds the point.
fn widen(rect: Rect, p: Point) -> Rect
    ensures { result ≡ widened rect p }
{
    Rect {
        xmin: least(rect.xmin, p.x),
        ymin: least(rect.ymin, p.y),
        xmax: greatest(rect.xmax, p.x),
        ymax: greatest(rect.ymax, p.y),
    }
}

// The lesser of two coordinates.
fn least(a: i32, b: i32) -> i32
    ensures { result ≡ int_min a b }
{
    a.min(b)
}

// The greater of two coordinates.
fn greatest(a: i32, b: i32) -> i32
    ensures { result ≡ int_max a b }
{
    a.max(b)
}
