//! Differences, products and cross products that fit their types.
ghost use Rattle.std.specs.Prelude.{◌≡◌, ◌<◌, ◌^◌, ◌-ℤ◌, ◌*ℤ◌, unsigned_abs};
ghost use Rattle.tl_geom.specs.Plane.{step_cross};

use crate::Point;

/// How far `a` is past `b`.
pub fn difference(a: i32, b: i32) -> i64
    ensures value { result ≡ a -ℤ b }
    ensures bound { unsigned_abs result < 2 ^ 32 }
{
    i64::from(a) - i64::from(b)
}

/// The product of two differences.
fn product(a: i64, b: i64) -> i128
    requires first { unsigned_abs a < 2 ^ 32 }
    requires second { unsigned_abs b < 2 ^ 32 }
    ensures value { result ≡ a *ℤ b }
    ensures bound { unsigned_abs result < 2 ^ 64 }
{
    i128::from(a) * i128::from(b)
}

/// The difference of two products.
fn spread(a: i128, b: i128) -> i128
    requires first { unsigned_abs a < 2 ^ 64 }
    requires second { unsigned_abs b < 2 ^ 64 }
    ensures value { result ≡ a -ℤ b }
    ensures bound { unsigned_abs result < 2 ^ 65 }
{
    a - b
}

/// The cross product of the step from `a` to `b` and the step from `p` to `q`.
pub fn cross_of_steps(a: Point, b: Point, p: Point, q: Point) -> i128
    ensures value { result ≡ step_cross a b p q }
    ensures bound { unsigned_abs result < 2 ^ 65 }
{
    let (ux, uy) = (difference(b.x, a.x), difference(b.y, a.y));
    let (vx, vy) = (difference(q.x, p.x), difference(q.y, p.y));
    spread(product(ux, vy), product(uy, vx))
}
