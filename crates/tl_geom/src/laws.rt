//! Laws of the definitions, each the contract of a function that does nothing.
ghost use Rattle.std.specs.Prelude.{◌≡◌, ◌↔◌, ◌⊎◌};
ghost use Rattle.tl_geom.specs.declared.rational.Rational.{Rational};
ghost use Rattle.tl_geom.specs.Plane.{IsOn, whole};
ghost use Rattle.tl_geom.specs.Contact.{IsShared};
ghost use Rattle.tl_geom.specs.Ray.{Crosses};
ghost use Rattle.tl_geom.specs.Rectangle.{AreMeeting, Holds, rect_of, ray_rect};
ghost use Rattle.tl_geom.specs.Turning.{IsBelow, IsOneDirection, IsWithin};

use crate::{Direction, Point, Segment};

/// The order of directions is transitive and the same for steps of one direction, and it tells what lies strictly within a
/// turn: for `u` below `w` what is above `u` and below `w`, and for `w` below `u`, where the turn passes east, what is above
/// `u` or below `w`.
pub fn order_of_directions(u: Direction, v: Direction, w: Direction)
    ensures transitive { IsBelow u v → IsBelow v w → IsBelow u w }
    ensures one_direction_below { IsOneDirection u v → IsBelow v w → IsBelow u w }
    ensures one_direction_above { IsOneDirection u v → IsBelow w v → IsBelow w u }
    ensures between { IsBelow u w → IsWithin u w v ↔ (IsBelow u v × IsBelow v w) }
    ensures around { IsBelow w u → IsWithin u w v ↔ (IsBelow u v ⊎ IsBelow v w) }
{}

/// Segments that share a rational point have rectangles that meet.
pub fn shared_point(s: Segment, t: Segment)
    ensures { (r : Rational) → IsShared s t r → AreMeeting (rect_of s) (rect_of t) }
{}

/// The rectangle of a segment holds each point on it.
pub fn point_on_segment(s: Segment, p: Point)
    ensures { IsOn s (whole p) → Holds (rect_of s) p }
{}

/// A ray to the east meets the rectangle of each segment that it crosses. The ray of `q` lies in the rectangle from `q` to
/// the greatest `i32` at the height of `q`.
pub fn crossed_segment(s: Segment, q: Point)
    ensures { Crosses s (whole q) → AreMeeting (rect_of s) (ray_rect q) }
{
    // that the ends are within the range of an i32
    let (_first, _last) = (s.a().x, s.b().x);
}
