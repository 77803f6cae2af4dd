//! Where a point lies about a line and a segment.
ghost use Rattle.std.specs.Prelude.{◌≡◌, ◌↔◌, IsTrue, pos};
ghost use Rattle.std.specs.Ordering.{int_cmp};
ghost use Rattle.tl_geom.specs.Plane.{turn_of, IsOn, whole};

use crate::difference::cross_of_steps;
use crate::{Point, Rect, Segment};
use std::cmp::Ordering;

/// Which way the path from `p` by `q` to `r` turns: `Greater` where `r` lies to the left of the line from `p` to `q`,
/// `Less` where it lies to the right, `Equal` where it lies on the line or `p` is `q`.
pub fn turn(p: Point, q: Point, r: Point) -> Ordering
    ensures { result ≡ int_cmp (turn_of p q r) (pos 0) }
{
    cross_of_steps(p, q, p, r).cmp(&0)
}

/// Whether the point lies on the segment, its ends included.
pub fn on(s: Segment, p: Point) -> bool
    ensures { IsTrue result ↔ IsOn s (whole p) }
{
    // As a rule the rectangle tells it, and costs less.
    Rect::of(s).holds(p) && turn(s.a(), s.b(), p).is_eq()
}
