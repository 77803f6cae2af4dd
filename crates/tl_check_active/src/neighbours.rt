//! What is tested of segments that stand side by side.
ghost use Rattle.std.specs.Prelude.{◌≤ℤ◌, ◌⊎◌, pos, IsTrue};
ghost use Rattle.tl_geom.specs.Plane.{turn_of};
ghost use Rattle.tl_check_planar.specs.ByHeight.Heights.{widest};
ghost use Rattle.tl_check_planar.specs.ByHeight.Neighbours.{IsWestOf, AreApartOrAtEnds, AreTested};

use crate::heights::{ends, is_lower};
use tl_geom::{Contact, Point, Rect, Segment, contact, turn};
use tl_map_county::Map;

/// Whether the lines aren't out of order at `p` of the first, if `first`; else at `q` of the second.
#[inline]
fn is_in_order_at(first: bool, a: Point, b: Point, p: Point, c: Point, e: Point, q: Point) -> bool
    ensures { IsTrue result → (pos 0 ≤ℤ turn_of c e p) ⊎ (turn_of a b q ≤ℤ pos 0) }
{
    if first {
        turn(c, e, p).is_ge()
    } else {
        turn(a, b, q).is_le()
    }
}

/// Whether the rectangle about `u` is west of that about `w`, and both have a latitude in common, as those of most neighbours.
#[inline]
fn is_beside(u: Segment, w: Segment) -> bool
    ensures west { IsTrue result → IsWestOf widest u w }
    ensures apart { IsTrue result → AreApartOrAtEnds u w }
{
    // that the ends are within the range of an i32
    let (_a, _b) = (u.a().x, u.b().x);
    let (_c, _e) = (w.a().x, w.b().x);
    let (west, east) = (Rect::of(u), Rect::of(w));
    if west.xmax >= east.xmin || west.ymin > east.ymax {
        return false;
    }
    east.ymin <= west.ymax
}

/// Whether two segments are apart or share an end of both alone.
#[inline]
fn are_free(u: Segment, w: Segment) -> bool
    ensures { IsTrue result → AreApartOrAtEnds u w }
{
    match contact(u, w) {
        Contact::Apart => true,
        Contact::AtEnds(_) => true,
        Contact::Crossing(_) => false,
    }
}

/// Whether `u` is west of `w`, and they are apart or share an end of both alone, where the rectangles about them don't tell. The
/// higher of their low ends is asked, and the lower of their high ends; most such segments share an end, so that the turns there
/// don't tell that they are apart. It is kept out of where it is called, so that most neighbours take the short way.
#[inline(never)]
fn are_closely_tested(u: Segment, w: Segment) -> bool
    ensures west { IsTrue result → IsWestOf widest u w }
    ensures apart { IsTrue result → AreApartOrAtEnds u w }
{
    let (a, b) = ends(u);
    let (c, e) = ends(w);
    is_in_order_at(is_lower(c, a), a, b, a, c, e, c)
        && is_in_order_at(is_lower(b, e), a, b, b, c, e, e)
        && are_free(u, w)
}

/// Whether segment `s` is west of segment `t`, and they are apart or share an end of both alone. It is not so of numbers of
/// no segments.
pub fn are_tested(map: &Map, s: u32, t: u32) -> bool
    ensures { IsTrue result → AreTested widest map.now.chains s t }
{
    let count = map.segments();
    if s >= count || t >= count {
        return false;
    }
    let (one, other) = (map.segment(s), map.segment(t));
    is_beside(one, other) || are_closely_tested(one, other)
}
