//! Two segments that may share some points and no others.
ghost use Rattle.std.specs.Prelude.{◌≡◌, ◌⊎◌};
ghost use Rattle.tl_geom.specs.declared.rational.Rational.{Rational};
ghost use Rattle.tl_geom.specs.Plane.{end_a, end_b, whole};
ghost use Rattle.tl_geom.specs.Contact.{IsCrossing};
ghost use Rattle.tl_check_planar.specs.Keeping.Allowing.{IsOneOf, MayRefuse};

use crate::allowed::Allowed;
use tl_geom::{Contact, Point, Rational, Segment, contact, overlap};

/// A point that two segments share and that isn't allowed, if there is one: that of their contact, or where that one is
/// allowed an end of their overlap.
pub fn refused_point(s: Segment, t: Segment, allowed: Allowed) -> Option<Rational>
    ensures { MayRefuse s t allowed result }
{
    match contact(s, t) {
        Contact::Apart => None,
        Contact::AtEnds(p) => {
            if allowed.has_point(p) {
                None
            } else {
                Some(Rational::from(p))
            }
        }
        Contact::Crossing(r) => {
            if allowed.has(r) {
                refused_end(s, t, allowed)
            } else {
                Some(r)
            }
        }
    }
}

/// An end of the overlap of two segments, if they overlap: one that isn't allowed, where the point of their contact is.
fn refused_end(s: Segment, t: Segment, allowed: Allowed) -> Option<Rational>
    ensures { (m : Rational) → IsCrossing s t m → IsOneOf allowed m → MayRefuse s t allowed result }
{
    match overlap(s, t) {
        Some(o) => Some(Rational::from(other_end(o, allowed))),
        None => None,
    }
}

/// The last end of a segment, where its first is allowed, else the first.
fn other_end(o: Segment, allowed: Allowed) -> Point
    ensures { ((result ≡ end_a o) × ¬ IsOneOf allowed (whole (end_a o)))
        ⊎ ((result ≡ end_b o) × IsOneOf allowed (whole (end_a o))) }
{
    if allowed.has_point(o.a()) {
        o.b()
    } else {
        o.a()
    }
}
