//! Where two segments meet.
ghost use Rattle.std.specs.Prelude.{◌≡◌, ◌≢◌, ◌↔◌, ◌⊎◌, ◌<◌, ◌^◌, neg_ℤ, pos};
ghost use Rattle.std.specs.Prelude.{◌≤ℤ◌, ◌<ℤ◌, ◌+ℤ◌, ◌-ℤ◌, ◌*ℤ◌};
ghost use Rattle.std.specs.Prelude.{unsigned_abs, IfSome, IfNone, IsTrue, IsFalse};
ghost use Rattle.tl_geom.specs.declared.segment.Segment.{Segment};
ghost use Rattle.tl_geom.specs.Plane.{place_x, place_y, whole};
ghost use Rattle.tl_geom.specs.Contact.{AreApart, MeetAtEnds, IsCrossing, IsShared, AreBothEnded, IfCrossing};
ghost use Rattle.tl_geom.specs.Contact.{IsContact, IsOverlap};
ghost use Rattle.tl_geom.specs.Keeping.Lines.{AreShares, IsEndAt, IsInside, AreInLine, AreInOrder, AreEndsInOrder};
ghost use Rattle.tl_geom.specs.Keeping.Lines.{IsLater, IsEarlier};

use crate::common_end::end_alone;
use crate::difference::{cross_of_steps, difference};
use crate::{Contact, Point, Rational, Segment};

/// What two segments share, ends included.
///
/// The point of a crossing is not reduced. For an overlap of positive length it is the middle, as the sum of the overlap's
/// ends over 2; for an end of one segment inside the other it is that end over 1; for a proper crossing it is over the
/// absolute cross product of the two directions.
#[inline]
pub fn contact(s: Segment, t: Segment) -> Contact
    // They are apart exactly where they share no rational point.
    ensures apart { (result ≡ Contact.Apart) ↔ AreApart s t }
    // They meet at ends exactly where they share one point alone, and it is an end of both.
    ensures at_ends { (p : Point) → (result ≡ Contact.AtEnds p) ↔ MeetAtEnds s t p }
    // The point of a crossing lies on both.
    ensures shared { IfCrossing result (IsShared s t) }
    // It isn't an end of both.
    ensures not_both_ends { IfCrossing result (λ r. ¬ AreBothEnded s t r) }
    // It is the middle of the overlap, over 2; or an end of one inside the other, over 1; or a point inside both, over
    // the absolute cross product of the directions.
    ensures crossing { IfCrossing result (IsCrossing s t) }
{
    meeting(s, t)
}

/// The segment of all points that two segments share, or `None` where they share one point at most.
pub fn overlap(s: Segment, t: Segment) -> Option<Segment>
    // The points of a segment that is answered are exactly those that both share.
    ensures overlap { IfSome result (IsOverlap s t) }
    // None is answered only where no segment has exactly these points.
    ensures none { IfNone result ((o : Segment) → ¬ IsOverlap s t o) }
{
    if are_in_line(s, t) {
        overlap_in_line(s, t)
    } else {
        None
    }
}

/// Whether two segments are parts of one line.
fn are_in_line(s: Segment, t: Segment) -> bool
    ensures { IsTrue result ↔ AreInLine s t }
{
    cross_of_steps(s.a(), s.b(), t.a(), t.b()) == 0
        && cross_of_steps(s.a(), s.b(), t.a(), s.a()) == 0
}

/// The overlap of two segments of one line.
fn overlap_in_line(s: Segment, t: Segment) -> Option<Segment>
    requires { AreInLine s t }
    ensures overlap { IfSome result (IsOverlap s t) }
    ensures none { IfNone result ((o : Segment) → ¬ IsOverlap s t o) }
{
    let (s_first, s_last) = in_order(s);
    let (t_first, t_last) = in_order(t);
    let first = later(s_first, t_first);
    let last = earlier(s_last, t_last);
    if precedes(first, last) {
        Segment::new(first, last)
    } else {
        None
    }
}

/// What two segments share. Neighbours in a chain and around a node, the commonest pairs, are told by one cross
/// product.
#[inline]
fn meeting(s: Segment, t: Segment) -> Contact
    ensures { IsContact s t result }
{
    match end_alone(s, t) {
        Some(end) => Contact::AtEnds(end),
        None => meeting_by_lines(s, t),
    }
}

/// What two segments share, by the crossing of their lines.
#[inline(never)]
fn meeting_by_lines(s: Segment, t: Segment) -> Contact
    ensures { IsContact s t result }
{
    let (a, b) = (s.a(), s.b());
    let (p, q) = (t.a(), t.b());
    let across = cross_of_steps(a, b, p, q);
    let along_s = cross_of_steps(p, q, p, a);
    let along_t = cross_of_steps(a, b, p, a);
    if across > 0 {
        meeting_of_lines(s, t, across, along_s, along_t)
    } else if across < 0 {
        meeting_of_lines(s, t, opposite(across), opposite(along_s), opposite(along_t))
    } else if along_t == 0 {
        meeting_in_line(s, t)
    } else {
        Contact::Apart
    }
}

/// The opposite of a cross product.
fn opposite(a: i128) -> i128
    requires { unsigned_abs a < 2 ^ 65 }
    ensures value { result ≡ neg_ℤ a }
    ensures bound { unsigned_abs result < 2 ^ 65 }
{
    -a
}

/// What two segments share whose lines cross `along_s` of `parts` along the first and `along_t` of `parts` along the
/// second.
fn meeting_of_lines(s: Segment, t: Segment, parts: i128, along_s: i128, along_t: i128) -> Contact
    requires shares { AreShares s t parts along_s along_t }
    requires bound { unsigned_abs parts < 2 ^ 65 }
    ensures { IsContact s t result }
{
    if along_s < 0 || parts < along_s || along_t < 0 || parts < along_t {
        return Contact::Apart;
    }
    match (end_at(s, parts, along_s), end_at(t, parts, along_t)) {
        (Some(p), Some(_)) => Contact::AtEnds(p),
        (Some(p), None) => touch(p),
        (None, Some(p)) => touch(p),
        (None, None) => Contact::Crossing(place(s, parts, along_s)),
    }
}

/// The contact where an end of one segment is inside the other.
fn touch(end: Point) -> Contact
    ensures { result ≡ Contact.Crossing (whole end) }
{
    Contact::Crossing(Rational::from(end))
}

/// The end of a segment that `along` of `parts` lead to, if they lead to an end.
fn end_at(s: Segment, parts: i128, along: i128) -> Option<Point>
    ensures end { IfSome result (IsEndAt s parts along) }
    ensures inside { IfNone result (IsInside parts along) }
{
    if along == 0 {
        Some(s.a())
    } else if along == parts {
        Some(s.b())
    } else {
        None
    }
}

/// The point that is `along` of `parts` along a segment, over `parts`.
fn place(s: Segment, parts: i128, along: i128) -> Rational
    requires above { pos 0 <ℤ parts }
    requires bound { unsigned_abs parts < 2 ^ 65 }
    requires from { pos 0 ≤ℤ along }
    requires to { along ≤ℤ parts }
    ensures x { result.x ≡ place_x s parts along }
    ensures y { result.y ≡ place_y s parts along }
    ensures d { result.d ≡ parts }
{
    Rational {
        x: coordinate(s.a().x, s.b().x, parts, along),
        y: coordinate(s.a().y, s.b().y, parts, along),
        d: parts,
    }
}

/// One coordinate of that point.
fn coordinate(a: i32, b: i32, parts: i128, along: i128) -> i128
    requires bound { unsigned_abs parts < 2 ^ 65 }
    requires from { pos 0 ≤ℤ along }
    requires to { along ≤ℤ parts }
    ensures { result ≡ parts *ℤ a +ℤ along *ℤ (b -ℤ a) }
{
    sum(
        scaled(parts, i128::from(a)),
        scaled(along, i128::from(difference(b, a))),
    )
}

/// A product that stays far within its type.
fn scaled(a: i128, b: i128) -> i128
    requires first { unsigned_abs a < 2 ^ 65 }
    requires second { unsigned_abs b < 2 ^ 32 }
    ensures value { result ≡ a *ℤ b }
    ensures bound { unsigned_abs result < 2 ^ 97 }
{
    a * b
}

/// The sum of two such products.
fn sum(a: i128, b: i128) -> i128
    requires first { unsigned_abs a < 2 ^ 97 }
    requires second { unsigned_abs b < 2 ^ 97 }
    ensures { result ≡ a +ℤ b }
{
    a + b
}

/// What two segments of one line share.
fn meeting_in_line(s: Segment, t: Segment) -> Contact
    requires { AreInLine s t }
    ensures { IsContact s t result }
{
    let (s_first, s_last) = in_order(s);
    let (t_first, t_last) = in_order(t);
    let first = later(s_first, t_first);
    let last = earlier(s_last, t_last);
    if first == last {
        Contact::AtEnds(first)
    } else if precedes(first, last) {
        Contact::Crossing(middle(first, last))
    } else {
        Contact::Apart
    }
}

/// The ends of a segment in the order of points along a line.
fn in_order(s: Segment) -> (Point, Point)
    ensures { AreEndsInOrder s result.0 result.1 }
{
    if precedes(s.a(), s.b()) {
        (s.a(), s.b())
    } else {
        (s.b(), s.a())
    }
}

/// The later of two points of a line.
fn later(p: Point, q: Point) -> Point
    ensures { IsLater p q result }
{
    if precedes(p, q) { q } else { p }
}

/// The earlier of two points of a line.
fn earlier(p: Point, q: Point) -> Point
    ensures { IsEarlier p q result }
{
    if precedes(p, q) { p } else { q }
}

/// Whether `p` comes before `q` in the order of points along a line, by x and then by y, or is `q`.
fn precedes(p: Point, q: Point) -> bool
    ensures before { IsTrue result → AreInOrder p q }
    ensures after { IsFalse result → AreInOrder q p }
{
    p.x < q.x || p.x == q.x && p.y <= q.y
}

/// The middle of two points, as their sum over 2.
fn middle(p: Point, q: Point) -> Rational
    ensures x { result.x ≡ p.x +ℤ q.x }
    ensures y { result.y ≡ p.y +ℤ q.y }
    ensures d { result.d ≡ pos 2 }
{
    Rational {
        x: i128::from(p.x) + i128::from(q.x),
        y: i128::from(p.y) + i128::from(q.y),
        d: 2,
    }
}
