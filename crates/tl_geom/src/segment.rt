//! Segments of the plane.
ghost use Rattle.std.specs.Prelude.{◌≡◌, ◌≢◌, ◌↔◌, IsNone, IfSome};

use crate::Point;

/// A straight segment with two different ends, as the points of a chain are joined in the records of a county: their
/// coordinates are millionths of a degree there, and any `i32` here.
#[derive(Clone, Copy, Debug, PartialEq, Eq)]
pub struct Segment {
    a: Point,
    b: Point,
    pub ghost different: { a ≢ b },
}

impl Segment {
    ghost use Rattle.std.specs.Prelude.{◌≡◌, ◌≢◌};
    ghost use Rattle.tl_geom.specs.Plane.{end_a, end_b};

    /// The segment from `a` to `b`, or `None` where they are one point.
    pub fn new(a: Point, b: Point) -> Option<Segment>
        ensures none { IsNone result ↔ (a ≡ b) }
        ensures ends { IfSome result (λ s. (end_a s ≡ a) × (end_b s ≡ b)) }
    {
        if a == b { None } else { Some(Segment { a, b }) }
    }

    /// The segment between two points that are known to differ.
    #[inline]
    pub fn between(a: Point, b: Point) -> Segment
        requires { a ≢ b }
        ensures from { end_a result ≡ a }
        ensures to { end_b result ≡ b }
    {
        Segment { a, b }
    }

    /// The first end.
    pub fn a(self) -> Point
        ensures { result ≡ end_a self }
    {
        self.a
    }

    /// The last end.
    pub fn b(self) -> Point
        ensures { result ≡ end_b self }
    {
        self.b
    }
}
