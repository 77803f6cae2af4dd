//! Rays to the east.
ghost use Rattle.std.specs.Prelude.{◌↔◌, IsTrue};
ghost use Rattle.tl_geom.specs.Plane.{whole};
ghost use Rattle.tl_geom.specs.Ray.{Crosses};

use crate::{Point, Segment, turn};

/// Whether the segment crosses the ray that runs from `q` to the east: one of its ends is above the height of `q`, the
/// other is not, and its point at that height lies strictly east of `q`. So a vertex at that height counts for one of two
/// segments that go on upward or downward, and a horizontal segment never counts. The half-open rule is this project's own
/// choice, the usual one for crossing counts.
pub fn crosses_ray(s: Segment, q: Point) -> bool
    ensures { IsTrue result ↔ Crosses s (whole q) }
{
    let (a, b) = (s.a(), s.b());
    if a.y <= q.y && q.y < b.y {
        turn(a, b, q).is_gt()
    } else if b.y <= q.y && q.y < a.y {
        turn(a, b, q).is_lt()
    } else {
        false
    }
}
