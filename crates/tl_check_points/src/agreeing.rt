//! The sides of segments by their heights, and whether those that end at a vertex have the same as those that begin there.
ghost use Rattle.std.specs.Prelude.{◌≡◌, ◌↔◌, IfSome, IsTrue, length};
ghost use Rattle.tl_check_inside.specs.Inside.{flanks_at};
ghost use Rattle.tl_check_inside.specs.Keeping.Tallies.{flanks_in};
ghost use Rattle.tl_check_gaps.specs.Keeping.Facing.{raised};
ghost use Rattle.tl_check_points.specs.Keeping.Balances.{AreAmong, HaveOneBalance, LeadsTo};

use tl_check_gaps::flanks_by_height;
use tl_check_inside::Flanks;
use tl_map_county::{Map, Side};

/// The sides of the segment with this number, if there is one: near to the west of it, and far to the east.
pub fn find_flanks(map: &Map, s: u32) -> Option<Flanks>
    ensures flanks { IfSome result (λ flanks. flanks ≡ flanks_at (raised map.now.chains) s) }
    ensures among { IfSome result (AreAmong (length map.now.polygons)) }
{
    if s >= map.segments() {
        return None;
    }
    map.names_its_polygons();
    Some(flanks_by_height(map, s))
}

/// Whether two sides are one.
fn are_same(one: Side, other: Side) -> bool
    ensures { IsTrue result ↔ (one ≡ other) }
{
    one == other
}

/// Whether there are both segments, and both have the same sides.
pub fn are_alike(map: &Map, one: u32, other: u32) -> bool
    ensures { IsTrue result → flanks_at (raised map.now.chains) one ≡ flanks_at (raised map.now.chains) other }
{
    match (find_flanks(map, one), find_flanks(map, other)) {
        (Some(sides), Some(others)) => have_same_sides(sides, others),
        (None, _) => false,
        (Some(_), None) => false,
    }
}

/// Whether both sides are the same.
fn have_same_sides(one: Flanks, other: Flanks) -> bool
    ensures { IsTrue result → one ≡ other }
{
    are_same(one.near, other.near) && are_same(one.far, other.far)
}

/// The side that is come to from another one over these segments, if each has the side before it on its near side.
fn walk(map: &Map, from: Side, list: &[u32]) -> Option<Side>
    ensures { IfSome result (LeadsTo (flanks_in (raised map.now.chains) list.now) from) }
{
    let mut side = from;
    for s in list {
        let flanks = find_flanks(map, *s)?;
        if !are_same(flanks.near, side) {
            return None;
        }
        side = flanks.far;
    }
    Some(side)
}

/// The near side of the first of these segments, if there is one.
fn first_near(map: &Map, list: &[u32]) -> Option<Side> {
    let s = list.first().copied()?;
    Some(find_flanks(map, s)?.near)
}

/// Whether two lists of segments lead from one side to the same other one. So it is of those that end at a vertex and those that begin
/// there where sides agree about it.
pub fn are_balanced(map: &Map, outs: &[u32], ins: &[u32]) -> bool
    ensures { IsTrue result → HaveOneBalance (flanks_in (raised map.now.chains) outs.now) (flanks_in (raised map.now.chains) ins.now) }
{
    let west = match first_near(map, outs) {
        Some(side) => side,
        None => first_near(map, ins).unwrap_or(Side::Outside),
    };
    match (walk(map, west, outs), walk(map, west, ins)) {
        (Some(one), Some(other)) => are_same(one, other),
        (None, _) => false,
        (Some(_), None) => false,
    }
}
