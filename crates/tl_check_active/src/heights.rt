//! The heights of points, and the ends of segments by them.
ghost use Rattle.std.specs.Prelude.{◌≡◌, ◌+ℤ◌, ◌≤ℤ◌, pos, int_lt, IsTrue};
ghost use Rattle.tl_check_planar.specs.ByHeight.Heights.{height as height_by, widest, low_end, high_end};

use tl_geom::{Point, Segment};

/// The height of a point, above which are the points further north and, of its own latitude, those further west. It is moved
/// by the greatest `i32`, so that an `i64` holds each.
#[inline]
pub fn height(p: Point) -> i64
    ensures { result ≡ height_by widest p +ℤ pos 2147483647 }
{
    i64::from(p.y) * 4_294_967_296 + (2_147_483_647 - i64::from(p.x))
}

/// Whether one point is lower than another.
#[inline]
pub fn is_lower(p: Point, q: Point) -> bool
    ensures { result ≡ int_lt (height_by widest p) (height_by widest q) }
{
    height(p) < height(q)
}

/// Whether one point isn't higher than another: as a rule latitudes tell it.
#[inline]
pub fn is_no_higher(p: Point, q: Point) -> bool
    ensures { IsTrue result → height_by widest p ≤ℤ height_by widest q }
{
    // that their longitudes are within the range of an i32
    let (_p, _q) = (p.x, q.x);
    p.y < q.y || !is_lower(q, p)
}

/// The ends of a segment: the lower one, and the higher one.
#[inline]
pub fn ends(s: Segment) -> (Point, Point)
    ensures low { result.0 ≡ low_end widest s }
    ensures high { result.1 ≡ high_end widest s }
{
    if is_lower(s.a(), s.b()) {
        (s.a(), s.b())
    } else {
        (s.b(), s.a())
    }
}
