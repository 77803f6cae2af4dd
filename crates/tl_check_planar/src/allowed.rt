//! The points that two segments of a map may share.
ghost use Rattle.std.specs.Prelude.{◌≡◌, ◌⊎◌, ◌↔◌, ℕ, ◌+◌, ◌-◌, ◌<◌, ◌≤◌, ◌*ℤ◌, Some, length, slice_get, IsTrue};
ghost use Rattle.tl_geom.specs.declared.rational.Rational.{Rational};
ghost use Rattle.tl_geom.specs.Plane.{IsSame, whole};
ghost use Rattle.tl_map_county.specs.Segments.{segments_before, IsSegmentOf, Joins};
ghost use Rattle.tl_check_planar.specs.Planar.{IsChainEnd, IsClosingPoint, MayShareWithin};
ghost use Rattle.tl_check_planar.specs.Meets.{IsSharedBy, IsAllowed};

use tl_geom::{Point, Rational, Segment};
use tl_map_county::Map;

/// The points that two segments may share, two at most.
#[derive(Clone, Copy)]
pub struct Allowed {
    pub one: Option<Point>,
    pub other: Option<Point>,
}

impl Allowed {
    ghost use Rattle.tl_check_planar.specs.Keeping.Allowing.{IsOneOf};

    /// Whether the rational point is allowed.
    pub fn has(self, r: Rational) -> bool
        ensures { IsTrue result ↔ IsOneOf self r }
    {
        is_at(self.one, r) || is_at(self.other, r)
    }

    /// Whether the point is allowed.
    pub fn has_point(self, p: Point) -> bool
        ensures { IsTrue result ↔ IsOneOf self (whole p) }
    {
        self.one == Some(p) || self.other == Some(p)
    }
}

ghost use Rattle.tl_check_planar.specs.Keeping.Allowing.{IsAt, IsOneOf};

/// Whether the rational point is at the point, if there is one.
fn is_at(place: Option<Point>, r: Rational) -> bool
    ensures { IsTrue result ↔ IsAt place r }
{
    match place {
        Some(p) => is_product(r.x, p.x, r.d) && is_product(r.y, p.y, r.d),
        None => false,
    }
}

/// Whether `x` is the product of `a` and `d`.
fn is_product(x: i128, a: i32, d: i128) -> bool
    ensures { IsTrue result ↔ (x ≡ a *ℤ d) }
{
    match i128::from(a).checked_mul(d) {
        Some(product) => x == product,
        None => false,
    }
}

/// The points that segments `s` and `t` may share. `one` is segment `s`.
pub fn allowed_points(map: &Map, s: u32, t: u32, one: Segment) -> Allowed
    requires ordered { s < t }
    requires known { t < segments_before map.now.chains (length map.now.chains) }
    requires first { (c : ℕ) × (k : ℕ) × IsSegmentOf map.now.chains s c k × Joins map.now.chains c k one }
    ensures { (r : Rational) (m : IsSharedBy map.now.chains s t r) →
        IsOneOf result r ↔ IsAllowed map.now.chains s t r m }
{
    let (c, d) = (map.segment_chain(s), map.segment_chain(t));
    let points = map.chain(c).points;
    if c == d {
        allowed_within(points, one.b(), t - s)
    } else {
        allowed_between(points, map.chain(d).points)
    }
}

/// The points that two chains may share: those that are ends of both.
fn allowed_between(points: &[Point], others: &[Point]) -> Allowed
    requires one { 1 ≤ length points.now }
    requires other { 1 ≤ length others.now }
    ensures { (r : Rational) → IsOneOf result r ↔ (IsChainEnd points.now r × IsChainEnd others.now r) }
{
    Allowed {
        one: end_of_both(points[0], others),
        other: end_of_both(points[points.len() - 1], others),
    }
}

/// The point, where it is an end of a chain with these points.
fn end_of_both(p: Point, points: &[Point]) -> Option<Point>
    requires { 1 ≤ length points.now }
    ensures { (r : Rational) → IsAt result r ↔ (IsSame r (whole p) × IsChainEnd points.now r) }
{
    if is_end(p, points) { Some(p) } else { None }
}

/// Whether the point is the first or the last of a chain's points.
fn is_end(p: Point, points: &[Point]) -> bool
    requires { 1 ≤ length points.now }
    ensures { IsTrue result ↔ ((slice_get points.now 0 ≡ Some p)
        ⊎ (slice_get points.now (length points.now - 1) ≡ Some p)) }
{
    is_same(p, points[0]) || is_same(p, points[points.len() - 1])
}

/// Whether two points are one.
fn is_same(p: Point, q: Point) -> bool
    ensures { IsTrue result ↔ (p ≡ q) }
{
    p == q
}

/// The points that two segments of a chain with these points may share, of which the second is so many `steps` behind the
/// first, and `vertex` is the end of the first.
fn allowed_within(points: &[Point], vertex: Point, steps: u32) -> Allowed
    requires { 1 ≤ length points.now }
    ensures { (i j : ℕ) (r : Rational) → j ≡ i + steps → j + 1 < length points.now →
        slice_get points.now (i + 1) ≡ Some vertex → IsOneOf result r ↔ MayShareWithin points.now i j r }
{
    let one = if steps == 1 { Some(vertex) } else { None };
    Allowed {
        one,
        other: closing_point(points, steps),
    }
}

/// The start of a closed chain, where its first and its last segment are so many steps apart.
fn closing_point(points: &[Point], steps: u32) -> Option<Point>
    requires { 1 ≤ length points.now }
    ensures { (i j : ℕ) (r : Rational) → j ≡ i + steps → j + 1 < length points.now →
        IsAt result r ↔ IsClosingPoint points.now i j r }
{
    if steps as usize + 2 != points.len() {
        None
    } else if is_closed(points) {
        Some(points[0])
    } else {
        None
    }
}

/// Whether the first and the last of a chain's points are one.
fn is_closed(points: &[Point]) -> bool
    requires { 1 ≤ length points.now }
    ensures { IsTrue result ↔ (slice_get points.now 0 ≡ slice_get points.now (length points.now - 1)) }
{
    is_same(points[0], points[points.len() - 1])
}
