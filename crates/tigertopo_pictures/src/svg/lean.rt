//! On which side of a line the corners of a picture lie.

ghost use Rattle.std.specs.Prelude.{◌≡◌, ◌≤◌, ◌^◌, ◌-ℤ◌, ◌*ℤ◌, pos, unsigned_abs};
ghost use Rattle.tigertopo_pictures.specs.Svg.Frames.{lean, are_above, are_below, are_one_sided, is_beside, first_corner, last_corner};

use crate::svg::frame::{Frame, Position, WHOLE, difference};
use tl_geom::Point;

/// Whether all corners of the picture lie on one side of the line through two points.
pub fn is_beside(frame: Frame, p: Point, q: Point, first: Position, last: Position) -> bool
    requires first { first ≡ first_corner frame }
    requires last { last ≡ last_corner frame }
    ensures { result ≡ is_beside frame p q }
{
    let a = lean(frame, p, q, first.x, first.y);
    let b = lean(frame, p, q, first.x, last.y);
    let c = lean(frame, p, q, last.x, first.y);
    let d = lean(frame, p, q, last.x, last.y);
    are_one_sided(a, b, c, d)
}

// On which side of the line through two points a position lies: on it where this is 0.
fn lean(frame: Frame, p: Point, q: Point, x: i64, y: i64) -> i128
    ensures { result ≡ lean frame p q x y }
{
    let at = frame.position(p);
    let east = product(run(p.x, q.x, frame.cosine), gap(at.y, y));
    let north = product(run(q.y, p.y, WHOLE), gap(at.x, x));
    apart(east, north)
}

// How far it is from one coordinate to another, by a weight.
fn run(from: i32, to: i32, weight: u16) -> i64
    ensures value { result ≡ (to -ℤ from) *ℤ pos weight }
    ensures bound { unsigned_abs result ≤ 2 ^ 48 }
{
    times(difference(from, to), weight)
}

fn times(n: i64, weight: u16) -> i64
    requires { unsigned_abs n ≤ 2 ^ 32 }
    ensures value { result ≡ n *ℤ pos weight }
    ensures bound { unsigned_abs result ≤ 2 ^ 48 }
{
    n * i64::from(weight)
}

// How far it is from one place to another along an axis.
fn gap(from: i64, to: i64) -> i128
    ensures value { result ≡ to -ℤ from }
    ensures bound { unsigned_abs result ≤ 2 ^ 64 }
{
    i128::from(to) - i128::from(from)
}

fn product(a: i64, b: i128) -> i128
    requires first { unsigned_abs a ≤ 2 ^ 48 }
    requires second { unsigned_abs b ≤ 2 ^ 64 }
    ensures value { result ≡ a *ℤ b }
    ensures bound { unsigned_abs result ≤ 2 ^ 112 }
{
    i128::from(a) * b
}

fn apart(a: i128, b: i128) -> i128
    requires first { unsigned_abs a ≤ 2 ^ 112 }
    requires second { unsigned_abs b ≤ 2 ^ 112 }
    ensures value { result ≡ a -ℤ b }
    ensures bound { unsigned_abs result ≤ 2 ^ 113 }
{
    a - b
}

// Whether four numbers are above 0, or below it.
fn are_one_sided(a: i128, b: i128, c: i128, d: i128) -> bool
    ensures { result ≡ are_one_sided a b c d }
{
    are_above(a, b, c, d) || are_below(a, b, c, d)
}

fn are_above(a: i128, b: i128, c: i128, d: i128) -> bool
    ensures { result ≡ are_above a b c d }
{
    0 < a && 0 < b && 0 < c && 0 < d
}

fn are_below(a: i128, b: i128, c: i128, d: i128) -> bool
    ensures { result ≡ are_below a b c d }
{
    a < 0 && b < 0 && c < 0 && d < 0
}
