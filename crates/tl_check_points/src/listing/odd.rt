//! The other polygons that a point lies in, by the sides of what its ray crosses.

ghost use Rattle.std.specs.Prelude.{◌≡◌, ◌<◌, ◌↔◌, IsTrue, length, IfOk, OnOk};
ghost use Rattle.tl_geom.specs.declared.point.Point.{Point};
ghost use Rattle.tl_check_inside.specs.Inside.{IsInside};
ghost use Rattle.tl_check_inside.specs.Keeping.Tallies.{AreTallies, TellCounts, AreClear, IsOdd};
ghost use Rattle.tl_check_sides.specs.Listing.Keeping.Listed.{AreListed};
ghost use Rattle.tl_check_points.specs.Listing.Keeping.Odd.{IsKeptIfOdd};
ghost use Rattle.tl_check_points.specs.Listing.Keeping.Parts.{IsIn};

use tl_check_inside::{Flanks, take_back, tally};
use tl_check_sides::listing::sort_once;
use tl_map_county::{Map, Side};
use tl_tree_index::Memory;

/// Whether a point whose counts these flanks tell is outside polygon `p`, and the other polygons that it lies in, in the
/// place of those that were listed. Nothing is counted before it, and what it counts is taken back.
pub fn list_odd(
    map: &Map,
    p: u32,
    crossed: &[Flanks],
    near: &mut [u64],
    far: &mut [u64],
    odd: &mut Vec<u32>,
) -> Result<bool, Memory>
    requires known { p < length map.now.polygons }
    requires clear { AreClear (length map.now.polygons) near.old far.old }
    ensures outside { IfOk result (λ outside. (q : Point) → TellCounts map.now.chains q crossed.now →
        IsTrue outside ↔ (¬ IsInside map.now.chains q p)) }
    ensures odd { OnOk result ((q : Point) → TellCounts map.now.chains q crossed.now →
        AreListed (IsIn map.now q p) odd.new.items) }
    ensures clear { AreClear (length map.now.polygons) near.new far.new }
{
    tally(crossed, near, far);
    let own = p as usize;
    let outside = near[own] != far[own] + 1;
    let listed = list_odd_of(p, crossed, near, far, odd);
    take_back(crossed, near, far);
    match listed {
        Ok(()) => Ok(outside),
        Err(_) => Err(Memory),
    }
}

/// Lists the polygons beside `own` that are near and far not equally often, by rising number.
fn list_odd_of(
    own: u32,
    crossed: &[Flanks],
    near: &[u64],
    far: &[u64],
    odd: &mut Vec<u32>,
) -> Result<(), Memory>
    requires alike { length far.now ≡ length near.now }
    requires tallies { AreTallies crossed.now near.now far.now }
    ensures { OnOk result (AreListed (IsOdd near.now far.now own) odd.new.items) }
{
    odd.clear();
    for place in 0..crossed.len() {
        let flanks = crossed[place];
        keep_if_odd(own, flanks.near, near, far, odd)?;
        keep_if_odd(own, flanks.far, near, far, odd)?;
    }
    sort_once(odd);
    Ok(())
}

/// Appends the polygon on the side, if it is another than `own`, and near and far not equally often.
fn keep_if_odd(
    own: u32,
    side: Side,
    near: &[u64],
    far: &[u64],
    odd: &mut Vec<u32>,
) -> Result<(), Memory>
    requires alike { length far.now ≡ length near.now }
    ensures { OnOk result (IsKeptIfOdd near.now far.now own side odd.old.items odd.new.items) }
{
    let Side::Polygon(q) = side else {
        return Ok(());
    };
    let place = q as usize;
    if q != own && place < near.len() && near[place] != far[place] {
        if odd.push(q).is_err() {
            return Err(Memory);
        }
    }
    Ok(())
}
