//! Places of points in the list of active segments.
ghost use Rattle.std.specs.Prelude.{◌≡◌, IfOk};
ghost use Rattle.tl_check_active.specs.Blocks.Lined.{list_of};

use crate::blocks::{Line, Places, Seeks};
use crate::heights::is_lower;
use std::alloc::AllocError;
use tl_geom::{Point, Segment};
use tl_map_county::Map;

/// A point that is sought in a list of a map's segments.
#[derive(Clone, Copy)]
struct Sought<'a> {
    map: &'a Map,
    p: Point,
}

impl<'a> Seeks for Sought<'a> {
    fn is_east_of(&self, number: u32) -> bool {
        number < self.map.segments() && is_east_of(self.map.segment(number), self.p)
    }
}

/// Whether a point lies strictly east of a segment at its height: as a rule longitudes tell it, and else products of 64 bits, which
/// hold those of a map's points. Nothing rests on it, since whatever stands side by side is tested.
#[inline]
fn is_east_of(s: Segment, p: Point) -> bool {
    let (a, b) = (s.a(), s.b());
    if p.x <= a.x && p.x <= b.x {
        return false;
    }
    if p.x > a.x && p.x > b.x {
        return true;
    }
    is_east_by_products(s, p)
}

/// The same by products alone, where nothing is known of longitudes.
#[inline]
pub fn is_east_by_products(s: Segment, p: Point) -> bool {
    let (a, b) = (s.a(), s.b());
    let along = offset(a.x, b.x).wrapping_mul(offset(a.y, p.y));
    let aside = offset(a.y, b.y).wrapping_mul(offset(a.x, p.x));
    if is_lower(a, b) {
        along < aside
    } else {
        along > aside
    }
}

/// How far one number is above another.
#[inline]
fn offset(from: i32, to: i32) -> i64 {
    i64::from(to) - i64::from(from)
}

/// Goes to the place of a point in the list: before the first segment that the point isn't east of, as it is found in a list that
/// is in order. The error is that memory was refused.
pub fn go_to(map: &Map, line: &mut Line, p: Point) -> Result<(), AllocError>
    ensures { IfOk result (λ done. list_of line.new ≡ list_of line.old) }
{
    crate::blocks::go_to(line, &Sought { map, p })
}

/// Goes to the place of a point at which segments may end: before the first of these or, if none does or it isn't found, as
/// [`go_to`] does. The error is that memory was refused.
#[inline(always)]
pub fn go_to_first(
    map: &Map,
    p: Point,
    line: &mut Line,
    places: &Places,
    outs: &[u32],
) -> Result<(), AllocError>
    ensures { IfOk result (λ done. list_of line.new ≡ list_of line.old) }
{
    crate::blocks::go_to_first(line, &Sought { map, p }, places, outs)
}
