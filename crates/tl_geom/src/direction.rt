//! Directions in the plane.
ghost use Rattle.std.specs.Prelude.{◌≡◌, ◌≢◌, ◌↔◌, ◌-ℤ◌, pos, IsNone, IfSome};

use crate::Point;
use crate::difference::difference;

/// The way that a step of `x` to the east and `y` to the north goes, never a step of nothing. Steps of any length that go
/// one way are one direction, so `==` tells more apart than `round_cmp` does.
#[derive(Clone, Copy, Debug, PartialEq, Eq)]
pub struct Direction {
    pub x: i64,
    pub y: i64,
    pub ghost nonzero: { x ≡ pos 0 → y ≢ pos 0 },
}

impl Direction {
    /// The direction from `a` to `b`, or `None` where they are one point.
    pub fn between(a: Point, b: Point) -> Option<Direction>
        ensures none { IsNone result ↔ (a ≡ b) }
        ensures step { IfSome result (λ u. (u.x ≡ b.x -ℤ a.x) × (u.y ≡ b.y -ℤ a.y)) }
    {
        let x = difference(b.x, a.x);
        let y = difference(b.y, a.y);
        if x == 0 && y == 0 {
            None
        } else {
            Some(Direction { x, y })
        }
    }
}
