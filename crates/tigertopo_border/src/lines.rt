//! Lines of records, each with its line feed.

ghost use Rattle.std.specs.Prelude.{◌≡◌, ◌+◌, ◌<◌, ◌≤◌, ◌^◌, length, slice_get};
ghost use Rattle.std.specs.List.{flat_map};
ghost use Rattle.tl_cert_output.specs.Writing.{line_of};
ghost use Rattle.tigertopo_border.specs.Spelling.{chain_line, shape_line, sides_line, point_line, pair_fields};
ghost use Rattle.tigertopo_border.specs.Border.{inner, pairs_from};

use crate::fields::{print_blanks, print_key, print_number, print_pair, print_point, print_side};
use tl_cert_output::Page;
use tl_geom::Point;
use tl_record_key::PolyKey;

/// Prints the line of a type 1 record.
pub fn print_chain_line<P: Page>(tlid: u64, from: Point, to: Point, page: &mut P)
    ensures { P.adds page.old page.new (line_of (chain_line tlid from to)) }
{
    page.add(b"1EDGE");
    print_number(10, tlid, page);
    print_blanks(175, page);
    print_point(from, page);
    print_point(to, page);
    page.add(b"\n");
}

/// Prints the line of a type 2 record, with the shape pairs of a chain's inner points from this one on.
pub fn print_shape_line<P: Page>(tlid: u64, rtsq: u64, points: &[Point], first: usize, page: &mut P)
    requires { first < 2 ^ 33 }
    ensures { P.adds page.old page.new (line_of (shape_line tlid rtsq (pairs_from (inner points.now) first 10))) }
{
    page.add(b"2EDGE");
    print_number(10, tlid, page);
    print_number(3, rtsq, page);
    print_pairs(points, first, 10, page);
    page.add(b"\n");
}

// Prints so many of the shape pairs of a chain's inner points, from this one on.
fn print_pairs<P: Page>(points: &[Point], first: usize, count: usize, page: &mut P)
    requires { first + count < 2 ^ 34 }
    ensures { P.adds page.old page.new (flat_map pair_fields (pairs_from (inner points.now) first count)) }
{
    for place in 0..count {
        print_pair(inner_point(points, first + place), page);
    }
}

// The point between a chain's ends of this place, where there is one.
fn inner_point(points: &[Point], place: usize) -> Option<Point>
    requires { place < 2 ^ 34 }
    ensures { result ≡ slice_get (inner points.now) place }
{
    if place + 2 < points.len() {
        Some(points[place + 1])
    } else {
        None
    }
}

/// Prints the line of a type I record.
pub fn print_sides_line<P: Page>(
    tlid: u64,
    left: Option<PolyKey>,
    right: Option<PolyKey>,
    page: &mut P,
)
    ensures { P.adds page.old page.new (line_of (sides_line tlid left right)) }
{
    page.add(b"IEDGE");
    print_number(10, tlid, page);
    print_blanks(25, page);
    print_side(left, page);
    print_side(right, page);
    page.add(b"\n");
}

/// Prints the line of a type P record.
pub fn print_point_line<P: Page>(key: PolyKey, point: Point, page: &mut P)
    ensures { P.adds page.old page.new (line_of (point_line key point)) }
{
    page.add(b"PEDGE");
    print_blanks(5, page);
    print_key(key, page);
    print_point(point, page);
    page.add(b"\n");
}
