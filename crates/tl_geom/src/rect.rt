//! Rectangles with sides along the axes.
ghost use Rattle.std.specs.Prelude.{◌≡◌, ◌↔◌, ◌≤ℤ◌, IsTrue};
ghost use Rattle.std.specs.Int.{int_max, int_min};

use crate::{Point, Segment};

/// The points from `xmin` to `xmax` and from `ymin` to `ymax`, borders included, in the unit of their coordinates. It is
/// empty where a minimum exceeds its maximum.
#[derive(Clone, Copy, Debug, PartialEq, Eq)]
pub struct Rect {
    pub xmin: i32,
    pub ymin: i32,
    pub xmax: i32,
    pub ymax: i32,
}

impl Rect {
    ghost use Rattle.tl_geom.specs.Plane.{end_a, end_b, IsBetween};
    ghost use Rattle.tl_geom.specs.Rectangle.{Holds, AreMeeting, IsEmpty, Covers, rect_of, spot_rect};

    /// A rectangle that holds no point, and widens no other that it is joined to.
    pub const NOTHING: Rect = Rect {
        xmin: i32::MAX,
        ymin: i32::MAX,
        xmax: i32::MIN,
        ymax: i32::MIN,
    };

    /// The rectangle that holds one point alone.
    pub fn at(p: Point) -> Rect
        ensures value { result ≡ spot_rect p }
        ensures holds { Holds result p }
    {
        let Point { x, y } = p;
        Rect {
            xmin: x,
            ymin: y,
            xmax: x,
            ymax: y,
        }
    }

    /// The least rectangle that holds the segment.
    pub fn of(s: Segment) -> Rect
        ensures value { result ≡ rect_of s }
        ensures points { (p : Point) →
            Holds result p ↔ (IsBetween (end_a s).x (end_b s).x p.x × IsBetween (end_a s).y (end_b s).y p.y) }
    {
        let (a, b) = (s.a(), s.b());
        Rect {
            xmin: a.x.min(b.x),
            ymin: a.y.min(b.y),
            xmax: a.x.max(b.x),
            ymax: a.y.max(b.y),
        }
    }

    /// Whether the rectangle holds the point, its borders included.
    pub fn holds(self, p: Point) -> bool
        ensures { IsTrue result ↔ Holds self p }
    {
        is_within(self.xmin, p.x, self.xmax) && is_within(self.ymin, p.y, self.ymax)
    }

    /// Whether some point is in both rectangles.
    #[tactic(auto, using(crate::proofs::Rectangles::meeting_by, crate::proofs::Rectangles::by_meeting))]
    pub fn meets(self, other: Rect) -> bool
        ensures { IsTrue result ↔ AreMeeting self other }
    {
        overlap(self.xmin, self.xmax, other.xmin, other.xmax)
            && overlap(self.ymin, self.ymax, other.ymin, other.ymax)
    }

    /// A rectangle that holds both, the least one where neither is empty.
    pub fn join(self, other: Rect) -> Rect
        ensures holds_first { Covers result self }
        ensures holds_second { Covers result other }
        ensures least { ¬ IsEmpty self → ¬ IsEmpty other →
            (r : Rect) → Covers r self → Covers r other → Covers r result }
    {
        Rect {
            xmin: self.xmin.min(other.xmin),
            ymin: self.ymin.min(other.ymin),
            xmax: self.xmax.max(other.xmax),
            ymax: self.ymax.max(other.ymax),
        }
    }
}

/// Whether `v` lies from `low` to `high`.
fn is_within(low: i32, v: i32, high: i32) -> bool
    ensures { IsTrue result ↔ ((low ≤ℤ v) × (v ≤ℤ high)) }
{
    low <= v && v <= high
}

/// Whether some number lies from `low` to `high` and from `low2` to `high2`.
fn overlap(low: i32, high: i32, low2: i32, high2: i32) -> bool
    ensures { IsTrue result ↔ (int_max low low2 ≤ℤ int_min high high2) }
{
    low.max(low2) <= high.min(high2)
}
