//! Where faults lie in a picture.

ghost use Rattle.std.specs.Prelude.{◌≡◌, ◌<◌, ◌≤◌, ◌^◌, ◌*◌, pos, ◌+ℤ◌, ◌-ℤ◌, ◌<ℤ◌, unsigned_abs, IfSome};
ghost use Rattle.tigertopo_pictures.specs.Svg.Frames.{coordinate, floor_of, corner_of, corner_if};
ghost use Rattle.tigertopo_pictures.specs.Svg.Pictures.{part_of, beyond, beyond_up, mark_at, mark_of, mark_if, is_place_inside};

use crate::svg::frame::{Frame, Position};
use tl_geom::{Point, Rational};

// The denominators of places that can be marked are below this, as those of all crossings of two segments are.
const REACH: u128 = 1 << 96;

/// A place in a picture: the whole millionths of a degree to its south-west, and where it lies.
#[derive(Clone, Copy)]
pub struct Mark {
    pub corner: Point,
    pub at: Position,
}

/// Whether a place lies in the picture, if there is one.
pub fn is_place_inside(frame: Frame, place: Option<Rational>) -> bool
    ensures { result ≡ is_place_inside frame place }
{
    match mark_if(frame, place) {
        Some(mark) => frame.holds(mark.at),
        None => false,
    }
}

/// Where a place lies in a picture, if there is one.
pub fn mark_if(frame: Frame, place: Option<Rational>) -> Option<Mark>
    ensures { result ≡ mark_if frame place }
{
    match place {
        Some(place) => mark_of(frame, place),
        None => None,
    }
}

// A place in a picture, where it can be marked.
fn mark_of(frame: Frame, r: Rational) -> Option<Mark>
    ensures { result ≡ mark_of frame r }
{
    match corner_of(r) {
        Some(corner) => Some(mark_at(frame, r, corner)),
        None => None,
    }
}

// A place in a picture, beyond the whole millionths of a degree to its south-west.
fn mark_at(frame: Frame, r: Rational, corner: Point) -> Mark
    requires { unsigned_abs r.d < 2 ^ 96 }
    ensures { result ≡ mark_at frame r corner }
{
    let d = r.d.unsigned_abs();
    let weight = 4_900 * u32::from(frame.cosine);
    let east = beyond(part_of(r.x, r.d), d, weight);
    let north = beyond_up(part_of(r.y, r.d), d, 49_000_000);
    Mark {
        corner,
        at: Position {
            x: past(frame.east(corner.x), east),
            y: short_of(frame.south(corner.y), north),
        },
    }
}

fn past(a: i64, b: i64) -> i64
    requires far { unsigned_abs a < 2 ^ 62 }
    requires near { unsigned_abs b ≤ 2 ^ 30 }
    ensures { result ≡ a +ℤ b }
{
    a + b
}

fn short_of(a: i64, b: i64) -> i64
    requires far { unsigned_abs a < 2 ^ 62 }
    requires near { unsigned_abs b ≤ 2 ^ 30 }
    ensures { result ≡ a -ℤ b }
{
    a - b
}

// How far a number is above the last multiple of a divisor.
fn part_of(z: i128, d: i128) -> u128
    requires { pos 0 <ℤ d }
    ensures value { result ≡ part_of z d }
    ensures bound { result < unsigned_abs d }
{
    z.rem_euclid(d).unsigned_abs()
}

// How far a part of a millionth of a degree is, rounded down.
fn beyond(part: u128, d: u128, weight: u32) -> i64
    requires part { part < d }
    requires few { d < 2 ^ 96 }
    requires small { weight ≤ 322000000 }
    ensures value { result ≡ pos (beyond part d weight) }
    ensures bound { unsigned_abs result ≤ 2 ^ 30 }
{
    (scaled(part, weight) / d) as i64
}

// The same, rounded up.
fn beyond_up(part: u128, d: u128, weight: u32) -> i64
    requires part { part < d }
    requires few { d < 2 ^ 96 }
    requires small { weight ≤ 322000000 }
    ensures value { result ≡ pos (beyond_up part d weight) }
    ensures bound { unsigned_abs result ≤ 2 ^ 30 }
{
    ((scaled(part, weight) + (d - 1)) / d) as i64
}

// A part by twice a weight.
fn scaled(part: u128, weight: u32) -> u128
    requires few { part < 2 ^ 96 }
    requires small { weight ≤ 322000000 }
    ensures value { result ≡ part * (2 * weight) }
    ensures bound { result < 2 ^ 126 }
{
    part * (2 * u128::from(weight))
}

/// The whole millionths of a degree to the south-west of a place that can be marked, if there is one.
pub fn corner_if(place: Option<Rational>) -> Option<Point>
    ensures { result ≡ corner_if place }
{
    match place {
        Some(place) => corner_of(place),
        None => None,
    }
}

// The same of a place, where its denominator isn't too great.
fn corner_of(r: Rational) -> Option<Point>
    ensures corner { result ≡ corner_of r }
    ensures few { IfSome result (λ corner. unsigned_abs r.d < 2 ^ 96) }
{
    if r.d.unsigned_abs() < REACH {
        floor_of(r)
    } else {
        None
    }
}

// The point of a rational point, each coordinate rounded down.
fn floor_of(r: Rational) -> Option<Point>
    ensures { result ≡ floor_of r }
{
    let x = coordinate(r.x.div_euclid(r.d))?;
    let y = coordinate(r.y.div_euclid(r.d))?;
    Some(Point { x, y })
}

// A whole number as a coordinate, where it is one.
fn coordinate(z: i128) -> Option<i32>
    ensures { result ≡ coordinate z }
{
    if i128::from(i32::MIN) <= z && z <= i128::from(i32::MAX) {
        Some(z as i32)
    } else {
        None
    }
}
