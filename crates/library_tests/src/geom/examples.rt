//! Worked examples with answers from outside.
ghost use Rattle.std.specs.Prelude.{◌<ℤ◌, pos};

use std::cmp::Ordering;
use tl_geom::{
    Contact, Direction, Point, Rational, Rect, Rect8, Segment, contact, crosses_ray, on, overlap,
    round_cmp, turn,
};

const LEAST: i32 = i32::MIN;

const MOST: i32 = i32::MAX;

fn point(x: i32, y: i32) -> Point {
    Point { x, y }
}

fn segment(a: (i32, i32), b: (i32, i32)) -> Option<Segment> {
    Segment::new(point(a.0, a.1), point(b.0, b.1))
}

fn contact_of(a: (i32, i32), b: (i32, i32), p: (i32, i32), q: (i32, i32)) -> Option<Contact> {
    Some(contact(segment(a, b)?, segment(p, q)?))
}

#[test]
fn segments_and_directions_have_two_ends(rt: HostRuntime) {
    let (low, high) = (point(LEAST, MOST), point(MOST, LEAST));
    assert!(rt; Segment::new(low, low).is_none() && Direction::between(low, low).is_none());
    let ends = Segment::new(low, high).map(|s| (s.a(), s.b()));
    assert!(rt; ends == Some((low, high)));
    let steps = Direction::between(high, low).map(|u| (u.x, u.y));
    assert!(rt; steps == Some((-4_294_967_295, 4_294_967_295)));
}

#[test]
fn turns(rt: HostRuntime) {
    for (a, b, c, turned) in [
        ((0, 0), (1, 0), (1, 1), Ordering::Greater),
        ((0, 0), (1, 0), (1, -1), Ordering::Less),
        ((0, 0), (1, 0), (-7, 0), Ordering::Equal),
        ((5, 5), (5, 5), (1, 2), Ordering::Equal),
        (
            (LEAST, LEAST),
            (MOST, MOST),
            (LEAST, MOST),
            Ordering::Greater,
        ),
        (
            (LEAST, LEAST),
            (MOST, MOST),
            (MOST, MOST - 1),
            Ordering::Less,
        ),
        ((LEAST, LEAST), (MOST, MOST), (0, 0), Ordering::Equal),
    ] {
        let found = turn(point(a.0, a.1), point(b.0, b.1), point(c.0, c.1));
        assert!(rt; found == turned);
    }
}

#[test]
fn points_on_segments_and_rays(rt: HostRuntime) {
    let (low, high) = ((LEAST, LEAST), (MOST, MOST));
    for (a, b, p, is_on, is_crossed) in [
        ((0, 0), (4, 2), (0, 0), true, false),
        ((0, 0), (4, 2), (4, 2), true, false),
        ((0, 0), (4, 2), (2, 1), true, false),
        ((0, 0), (4, 2), (3, 1), false, false),
        ((0, 0), (4, 2), (6, 3), false, false),
        ((0, 0), (4, 2), (-2, -1), false, false),
        (low, high, (17, 17), true, false),
        (low, high, (17, 18), false, true),
        ((20, 10), (30, 20), (20, 20), false, false),
        ((30, 20), (20, 30), (20, 20), false, true),
        ((30, 20), (40, 20), (20, 20), false, false),
        ((10, 10), (10, 30), (20, 20), false, false),
        ((20, 10), (20, 30), (20, 20), true, false),
        ((30, 30), (30, 10), (20, 20), false, true),
        ((MOST, LEAST), high, (LEAST, MOST - 1), false, true),
        ((MOST, LEAST), (LEAST, MOST), (MOST, MOST - 1), false, false),
    ] {
        let at = point(p.0, p.1);
        let found = segment(a, b).map(|s| (on(s, at), crosses_ray(s, at)));
        assert!(rt; found == Some((is_on, is_crossed)));
    }
}

/// The ends of an overlap, in either order.
fn has_ends(found: Option<Segment>, wanted: Option<((i32, i32), (i32, i32))>) -> bool {
    match (found, wanted) {
        (Some(o), Some((a, b))) => {
            let (first, last) = (point(a.0, a.1), point(b.0, b.1));
            (o.a(), o.b()) == (first, last) || (o.a(), o.b()) == (last, first)
        }
        (None, None) => true,
        _ => false,
    }
}

#[test]
fn overlaps(rt: HostRuntime) {
    for (a, b, p, q, wanted) in [
        ((0, 0), (4, 0), (1, 0), (9, 0), Some(((1, 0), (4, 0)))),
        ((0, 9), (0, 0), (0, 2), (0, 7), Some(((0, 2), (0, 7)))),
        (
            (LEAST, LEAST),
            (MOST, MOST),
            (MOST, MOST),
            (LEAST, LEAST),
            Some(((LEAST, LEAST), (MOST, MOST))),
        ),
        ((0, 0), (4, 0), (4, 0), (9, 0), None),
        ((0, 0), (2, 2), (3, 3), (5, 5), None),
        ((0, 0), (4, 0), (0, 1), (4, 1), None),
        ((0, 0), (4, 0), (2, -1), (2, 5), None),
    ] {
        let found = match (segment(a, b), segment(p, q)) {
            (Some(s), Some(t)) => has_ends(overlap(s, t), wanted),
            _ => false,
        };
        assert!(rt; found);
    }
}

fn crossing(x: i128, y: i128, d: i128) -> Contact
    requires { pos 0 <ℤ d }
{
    Contact::Crossing(Rational { x, y, d })
}

#[test]
fn contacts(rt: HostRuntime) {
    let at = |x, y| Contact::AtEnds(point(x, y));
    let middle = crossing(
        -18446744065119617025,
        -18446744065119617025,
        36893488130239234050,
    );
    let (low, high) = ((LEAST, LEAST), (MOST, MOST));
    for (a, b, p, q, wanted) in [
        ((0, 0), (2, 2), (3, 3), (5, 5), Contact::Apart),
        ((0, 0), (4, 0), (0, 1), (4, 1), Contact::Apart),
        ((0, 0), (4, 0), (5, 1), (5, -1), Contact::Apart),
        (low, (LEAST, MOST), (MOST, LEAST), high, Contact::Apart),
        ((0, 0), (4, 0), (4, 0), (9, 0), at(4, 0)),
        ((0, 0), (4, 0), (4, 0), (4, 7), at(4, 0)),
        ((LEAST, MOST), (0, 0), (0, 0), (MOST, LEAST), at(0, 0)),
        // a proper one
        (
            (10, 10),
            (14, 12),
            (10, 12),
            (12, 9),
            crossing(176, 168, 16),
        ),
        // overlaps
        ((0, 0), (4, 0), (1, 0), (9, 0), crossing(5, 0, 2)),
        ((0, 0), (4, 0), (0, 0), (9, 0), crossing(4, 0, 2)),
        // an end inside
        ((0, 0), (4, 0), (2, 0), (2, 5), crossing(2, 0, 1)),
        // diagonals
        (low, high, (LEAST, MOST), (MOST, LEAST), middle),
        // sides of the plane
        (
            low,
            (MOST, LEAST),
            (MOST, LEAST),
            low,
            crossing(-1, -4294967296, 2),
        ),
        (
            (MOST, LEAST),
            high,
            (MOST, 0),
            high,
            crossing(4294967294, 2147483647, 2),
        ),
        // tools in floating point place this one on the wrong side
        (
            (-151166796, -80923608),
            (157002569, 87457533),
            (688715, 2048962),
            (-995096, 5130655),
            crossing(
                849327051787711420829,
                2526790987106507540445,
                1233205392343296,
            ),
        ),
        // tools that are handed decimal degrees miss this one
        (
            (-76568325, 39482222),
            (-76568141, 39482708),
            (-76568233, 39482465),
            (-76568476, 39482557),
            crossing(-76568233, 39482465, 1),
        ),
    ] {
        assert!(rt; contact_of(a, b, p, q) == Some(wanted));
    }
}

fn rect(xmin: i32, ymin: i32, xmax: i32, ymax: i32) -> Rect {
    Rect {
        xmin,
        ymin,
        xmax,
        ymax,
    }
}

/// Whether the rectangle about a segment from (4, -2) to (1, 7) is as it has to be, beside that of the whole plane.
fn are_right(r: Rect, whole: Rect) -> bool {
    r == rect(1, -2, 4, 7)
        && r.holds(point(1, 7))
        && !r.holds(point(0, 7))
        && r.meets(rect(4, 7, 9, 9))
        && !r.meets(rect(5, -2, 9, 7))
        && !r.meets(rect(3, 0, 2, 0))
        && r.join(rect(9, 0, 12, 1)) == rect(1, -2, 12, 7)
        && whole.holds(point(MOST, LEAST))
        && whole.join(r) == whole
}

/// Whether nothing adds nothing.
fn is_nothing(nothing: Rect, r: Rect) -> bool {
    nothing.join(r) == r && r.join(nothing) == r && !nothing.meets(r)
}

#[test]
fn rectangles(rt: HostRuntime) {
    let r = match (
        segment((4, -2), (1, 7)),
        segment((LEAST, MOST), (MOST, LEAST)),
    ) {
        (Some(s), Some(t)) => are_right(Rect::of(s), Rect::of(t)),
        _ => false,
    };
    assert!(rt; r && is_nothing(Rect::NOTHING, rect(1, -2, 4, 7)));
    assert!(rt; Rect::at(point(3, -4)) == rect(3, -4, 3, -4));
}

fn rises(u: Direction, v: Direction) -> bool {
    round_cmp(u, v) == Ordering::Less && round_cmp(v, u) == Ordering::Greater
}

#[test]
fn directions_in_rising_order(rt: HostRuntime) {
    let (least, most) = (i64::MIN, i64::MAX);
    let southwest = Direction { x: least, y: least };
    let rising = [
        Direction { x: 1, y: 0 },
        Direction { x: 5, y: 1 },
        Direction { x: 5, y: 5 },
        Direction { x: 0, y: 20 },
        Direction { x: -1, y: 1 },
        Direction { x: least, y: most },
        Direction { x: -3, y: 0 },
        southwest,
        Direction { x: 0, y: -7 },
        Direction { x: most, y: least },
        Direction { x: 5, y: -1 },
    ];
    for i in 0..rising.len() {
        for j in 0..i {
            assert!(rt; rises(rising[j], rising[i]), "{j} {i}");
        }
    }
    let one = round_cmp(southwest, Direction { x: -1, y: -1 });
    assert!(rt; one == Ordering::Equal);
}

#[test]
fn some_of_eight_rectangles_meet(rt: HostRuntime) {
    let corner = rect(0, 0, 4, 4);
    let all = rect(LEAST, LEAST, MOST, MOST);
    let rects = [
        corner,
        rect(4, 4, 9, 9),
        rect(3, 0, 1, 4),
        rect(10, 0, 12, 4),
        all,
    ];
    for (rects, with, marks) in [
        (rects.as_slice(), corner, 19),
        (rects.as_slice(), all, 27),
        (rects.as_slice(), Rect::NOTHING, 0),
        ([].as_slice(), all, 0),
    ] {
        assert_eq!(rt; Rect8::gather(rects).meets8(with), marks);
    }
}
