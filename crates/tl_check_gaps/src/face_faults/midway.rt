//! Places of segments midway between a height and the next.
ghost use Rattle.std.specs.Prelude.{◌≡◌, ◌<◌, ◌^◌, ◌-ℤ◌, ◌+ℤ◌, ◌*ℤ◌, ◌<ℤ◌, pos, unsigned_abs};
ghost use Rattle.tl_check_planar.specs.ByHeight.Heights.{height as height_by, widest, low_end, high_end};
ghost use Rattle.tl_check_faces.specs.Disagreements.{IsMidway};

use tl_check_active::{ends, height};
use tl_geom::{Point, Rational, Segment};

/// The place of a segment's line midway between the height of a point and the next.
pub fn midway(segment: Segment, at: Point) -> Rational
    ensures { IsMidway widest (height_by widest at) segment result }
{
    let (low, high) = ends_by_height(segment);
    let rise = twice(way_up(low, high));
    let risen = next(twice(way_up(low, at)));
    Rational {
        x: coordinate(rise, risen, low.x, high.x),
        y: coordinate(rise, risen, low.y, high.y),
        d: rise,
    }
}

/// The ends of a segment: the lower one, and the higher one.
fn ends_by_height(segment: Segment) -> (Point, Point)
    ensures low { result.0 ≡ low_end widest segment }
    ensures high { result.1 ≡ high_end widest segment }
    ensures rising { height_by widest result.0 <ℤ height_by widest result.1 }
{
    ends(segment)
}

/// How much higher a point is than another.
fn way_up(from: Point, to: Point) -> i128
    ensures value { result ≡ height_by widest to -ℤ height_by widest from }
    ensures bound { unsigned_abs result < 2 ^ 65 }
{
    i128::from(height(to)) - i128::from(height(from))
}

/// Twice a difference of heights.
fn twice(a: i128) -> i128
    requires { unsigned_abs a < 2 ^ 65 }
    ensures value { result ≡ pos 2 *ℤ a }
    ensures bound { unsigned_abs result < 2 ^ 66 }
{
    a + a
}

/// The next number.
fn next(a: i128) -> i128
    requires { unsigned_abs a < 2 ^ 66 }
    ensures value { result ≡ a +ℤ pos 1 }
    ensures bound { unsigned_abs result < 2 ^ 67 }
{
    a + 1
}

/// One coordinate of that place.
fn coordinate(rise: i128, risen: i128, low: i32, high: i32) -> i128
    requires rise { unsigned_abs rise < 2 ^ 67 }
    requires risen { unsigned_abs risen < 2 ^ 67 }
    ensures { result ≡ rise *ℤ low +ℤ risen *ℤ (high -ℤ low) }
{
    sum(scaled(rise, way(0, low)), scaled(risen, way(low, high)))
}

/// How far a coordinate is past another.
fn way(from: i32, to: i32) -> i128
    ensures value { result ≡ to -ℤ from }
    ensures bound { unsigned_abs result < 2 ^ 32 }
{
    i128::from(to) - i128::from(from)
}

/// A product that stays far within its type.
fn scaled(a: i128, b: i128) -> i128
    requires first { unsigned_abs a < 2 ^ 67 }
    requires second { unsigned_abs b < 2 ^ 32 }
    ensures value { result ≡ a *ℤ b }
    ensures bound { unsigned_abs result < 2 ^ 99 }
{
    a * b
}

/// The sum of two such products.
fn sum(a: i128, b: i128) -> i128
    requires first { unsigned_abs a < 2 ^ 99 }
    requires second { unsigned_abs b < 2 ^ 99 }
    ensures { result ≡ a +ℤ b }
{
    a + b
}
