//! Segments with a common end.
ghost use Rattle.std.specs.Prelude.{◌≡◌, ◌≢◌, ◌↔◌, ◌⊎◌, ◌-ℤ◌, ◌*ℤ◌, pos, IfSome, IsTrue};
ghost use Rattle.std.specs.Int.{int_wrap, w32};
ghost use Rattle.tl_geom.specs.Plane.{end_a, end_b, step_cross};
ghost use Rattle.tl_geom.specs.Contact.{MeetAtEnds};
ghost use Rattle.tl_geom.specs.Keeping.Lines.{IsEndOfBoth};

use crate::{Point, Segment};

/// The one point that two segments share, where it is an end of both and their directions differ.
#[inline]
pub fn end_alone(s: Segment, t: Segment) -> Option<Point>
    ensures { IfSome result (MeetAtEnds s t) }
{
    if are_joined(s, t) && are_crossed(s, t) {
        Some(end_of_both(s, t))
    } else {
        None
    }
}

/// Whether an end of one segment is an end of the other, told without a branch: no one foresees which ends these are.
#[inline]
fn are_joined(s: Segment, t: Segment) -> bool
    ensures { IsTrue result → IsEndOfBoth s t (end_a s) ⊎ IsEndOfBoth s t (end_b s) }
{
    is_either(is_end(t, s.a()), is_end(t, s.b()))
}

/// A point that is an end of both segments.
#[inline]
fn end_of_both(s: Segment, t: Segment) -> Point
    requires joined { IsEndOfBoth s t (end_a s) ⊎ IsEndOfBoth s t (end_b s) }
    ensures { IsEndOfBoth s t result }
{
    if is_end(t, s.a()) { s.a() } else { s.b() }
}

/// Whether the point is an end of the segment.
#[inline]
fn is_end(s: Segment, p: Point) -> bool
    ensures { IsTrue result ↔ ((p ≡ end_a s) ⊎ (p ≡ end_b s)) }
{
    is_either(is_same(p, s.a()), is_same(p, s.b()))
}

/// Whether one of both is so.
#[inline]
fn is_either(first: bool, second: bool) -> bool
    ensures { IsTrue result ↔ (IsTrue first ⊎ IsTrue second) }
{
    first | second
}

/// Whether two points are one.
#[inline]
fn is_same(p: Point, q: Point) -> bool
    ensures { IsTrue result ↔ (p ≡ q) }
{
    p == q
}

/// Whether the lines of two segments are known to cross in one point: the two products that their cross product is the
/// difference of differ in their last 32 bits. Where these agree, as they do of parallel lines, it is left open.
#[inline]
fn are_crossed(s: Segment, t: Segment) -> bool
    ensures { IsTrue result → step_cross (end_a s) (end_b s) (end_a t) (end_b t) ≢ pos 0 }
{
    let (a, b) = (s.a(), s.b());
    let (p, q) = (t.a(), t.b());
    let first = low_product(low_difference(b.x, a.x), low_difference(q.y, p.y));
    let second = low_product(low_difference(b.y, a.y), low_difference(q.x, p.x));
    first != second
}

/// The last 32 bits of a difference.
#[inline]
fn low_difference(a: i32, b: i32) -> i32
    ensures { result ≡ int_wrap w32 (a -ℤ b) }
{
    a.wrapping_sub(b)
}

/// The last 32 bits of a product.
#[inline]
fn low_product(a: i32, b: i32) -> i32
    ensures { result ≡ int_wrap w32 (a *ℤ b) }
{
    a.wrapping_mul(b)
}
