//! Points with rational coordinates.
ghost use Rattle.std.specs.Prelude.{◌<ℤ◌, ◌≡◌, pos};

use crate::Point;

/// The point `(x/d, y/d)`, with `d` above 0, in the unit of the points that it came from. It is not reduced, so `==` tells apart two ways to write one point.
#[derive(Clone, Copy, Debug, PartialEq, Eq)]
pub struct Rational {
    pub x: i128,
    pub y: i128,
    pub d: i128,
    pub ghost above_zero: { pos 0 <ℤ d },
}

impl From<Point> for Rational {
    ghost use Rattle.tl_geom.specs.Plane.{whole};

    ghost from_gives = { λ p r. r ≡ whole p };

    fn from(p: Point) -> Rational {
        Rational {
            x: i128::from(p.x),
            y: i128::from(p.y),
            d: 1,
        }
    }
}
