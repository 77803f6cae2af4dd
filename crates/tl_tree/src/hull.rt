//! Rectangles around others.
ghost use Rattle.std.specs.Prelude.{◌↔◌, ◌<ℤ◌, ◌≤ℤ◌, IsTrue};
ghost use Rattle.tl_geom.specs.Rectangle.{Covers, IsEmpty};
ghost use Rattle.tl_geom.specs.declared.rect.Rect.{Rect};
ghost use Rattle.tl_tree.specs.Keeping.Checking.{IsHull};
ghost use Rattle.tl_tree_index.specs.Fits.{AreBelow};

use crate::Items;
use tl_geom::Rect;

/// A rectangle that holds no point.
pub const NOTHING: Rect = Rect {
    xmin: 1,
    ymin: 1,
    xmax: 0,
    ymax: 0,
};

/// Whether no number lies from `low` to `high`.
fn is_reversed(low: i32, high: i32) -> bool
    ensures { IsTrue result ↔ high <ℤ low }
{
    high < low
}

/// Whether all numbers from `low2` to `high2` lie from `low` to `high`, where there are any.
fn spans(low: i32, high: i32, low2: i32, high2: i32) -> bool
    ensures { IsTrue result ↔ ((low ≤ℤ low2) × (high2 ≤ℤ high)) }
{
    low <= low2 && high2 <= high
}

/// Whether the rectangle holds no point.
fn is_empty(r: Rect) -> bool
    ensures { IsTrue result ↔ IsEmpty r }
{
    is_reversed(r.xmin, r.xmax) || is_reversed(r.ymin, r.ymax)
}

/// Whether the first rectangle holds each point that the second one holds.
pub fn covers(r: Rect, q: Rect) -> bool
    ensures { IsTrue result ↔ Covers r q }
{
    if is_empty(q) {
        return true;
    }
    spans(r.xmin, r.xmax, q.xmin, q.xmax) && spans(r.ymin, r.ymax, q.ymin, q.ymax)
}

/// The least rectangle that holds what both hold.
pub fn hull_of(r: Rect, q: Rect) -> Rect
    ensures { (s : Rect) → Covers s result ↔ (Covers s r × Covers s q) }
{
    if is_empty(r) {
        q
    } else if is_empty(q) {
        r
    } else {
        r.join(q)
    }
}

/// The least rectangle that holds what the bounds of some items hold.
pub fn hull_of_items<I: Items>(items: &I, some: &[u32]) -> Rect
    requires { AreBelow (I.count items.now) some.now }
    ensures { IsHull (I.bounds_of items.now) some.now result }
{
    let mut hull = NOTHING;
    for i in some {
        hull = hull_of(hull, items.bounds(*i));
    }
    hull
}
