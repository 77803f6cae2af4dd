//! The order of directions about a point.
ghost use Rattle.std.specs.Prelude.{◌≡◌, ◌↔◌, ◌*ℤ◌, pos, IsTrue, IsFalse};
ghost use Rattle.std.specs.Ordering.{int_cmp};
ghost use Rattle.tl_geom.specs.Turning.{IsBelow, IsOneDirection, IsFirstHalf, IsSecondHalf, cross_of};

use crate::Direction;
use std::cmp::Ordering;

/// The order of directions counter-clockwise from east, which is the lowest: this project's own choice of a first
/// direction. `Equal` says that both are one direction, not that they are steps of one length.
pub fn round_cmp(u: Direction, v: Direction) -> Ordering
    // `Less` is answered exactly where `u` is below `v`.
    ensures below { (result ≡ Ordering.Less) ↔ IsBelow u v }
    // `Equal` is answered exactly where both are one direction.
    ensures same { (result ≡ Ordering.Equal) ↔ IsOneDirection u v }
    // `Greater` is answered exactly where `v` is below `u`.
    ensures above { (result ≡ Ordering.Greater) ↔ IsBelow v u }
{
    if is_first_half(u) {
        if is_first_half(v) {
            left_cmp(u, v)
        } else {
            Ordering::Less
        }
    } else if is_first_half(v) {
        Ordering::Greater
    } else {
        left_cmp(u, v)
    }
}

/// Whether the direction comes before west in a turn counter-clockwise from east.
fn is_first_half(u: Direction) -> bool
    ensures first { IsTrue result → IsFirstHalf u }
    ensures second { IsFalse result → IsSecondHalf u }
{
    u.y > 0 || u.y == 0 && u.x > 0
}

/// `Less` where `v` is to the left of `u`, `Greater` where it is to the right.
fn left_cmp(u: Direction, v: Direction) -> Ordering
    ensures { result ≡ int_cmp (u.y *ℤ v.x) (u.x *ℤ v.y) }
{
    product(u.y, v.x).cmp(&product(u.x, v.y))
}

/// The product of two coordinates, which an `i128` holds whatever they are.
fn product(a: i64, b: i64) -> i128
    ensures { result ≡ a *ℤ b }
{
    i128::from(a) * i128::from(b)
}
