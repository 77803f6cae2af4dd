//! What is wrong with the point of one polygon, as faults.

ghost use Rattle.std.specs.Prelude.{◌≡◌, ◌↔◌, IsTrue, Some, [], ◌∷◌, slice_get, All, OnOk, if◌then◌else◌};
ghost use Rattle.tl_check_inside.specs.Inside.{IsInside};
ghost use Rattle.tl_check_inside.specs.Places.{IsHeldBy};
ghost use Rattle.tl_check_points.specs.Listing.Hidden.{IsMarked};
ghost use Rattle.tl_check_sides.specs.Listing.Keeping.Listed.{AreListed};
ghost use Rattle.tl_check_points.specs.Listing.Keeping.Parts.{IsIn, IsOfPolygon, AndSettled, HasPart, HasRow};

use crate::listing::marks::{is_marked, list_unmarked};
use tl_check_inside::Misplaced;
use tl_map_county::{Map, Polygon};
use tl_tree_index::Memory;

/// Appends all that is wrong with the point of polygon `p`: the chains that hold it, that it is outside, and the other
/// polygons that it lies in. Of marked polygons it isn't told that it is outside of them or in them.
pub fn push_wrong(
    map: &Map,
    p: u32,
    polygon: Polygon,
    marks: &[bool],
    held: &[u32],
    outside: bool,
    odd: &[u32],
    others: &mut Vec<u32>,
    found: &mut Vec<Misplaced>,
) -> Result<(), Memory>
    requires is { slice_get map.now.polygons p ≡ Some polygon }
    requires held { AreListed (IsHeldBy map.now.chains polygon.point) held.now }
    requires outside { IsTrue outside ↔ (¬ IsInside map.now.chains polygon.point p) }
    requires odd { AreListed (IsIn map.now polygon.point p) odd.now }
    ensures { OnOk result (HasPart map.now (AndSettled (IsMarked marks.now) (IsOfPolygon p)) found.old.items found.new.items) }
{
    push_chains(map, p, polygon, held, found)?;
    push_outside(map, p, polygon, is_told(outside, marks, p), found)?;
    list_unmarked(marks, odd, others)?;
    push_others(map, p, polygon, others, found)
}

/// Whether it is told that a point is outside of its polygon.
fn is_told(outside: bool, marks: &[bool], p: u32) -> bool
    ensures { IsTrue result ↔ (IsTrue outside × (¬ IsMarked marks.now p)) }
{
    outside && !is_marked(marks, p)
}

/// Appends that the point lies on each of these chains.
fn push_chains(
    map: &Map,
    p: u32,
    polygon: Polygon,
    held: &[u32],
    found: &mut Vec<Misplaced>,
) -> Result<(), Memory>
    requires is { slice_get map.now.polygons p ≡ Some polygon }
    requires held { All (IsHeldBy map.now.chains polygon.point) held.now }
    ensures { OnOk result (HasRow map.now p 0 held.now found.old.items found.new.items) }
{
    for place in 0..held.len() {
        let fault = Misplaced::OnChain {
            polygon: polygon.key,
            tlid: map.chain(held[place]).tlid,
        };
        if found.push(fault).is_err() {
            return Err(Memory);
        }
    }
    Ok(())
}

/// Appends that the point is outside its polygon, if it is.
fn push_outside(
    map: &Map,
    p: u32,
    polygon: Polygon,
    outside: bool,
    found: &mut Vec<Misplaced>,
) -> Result<(), Memory>
    requires is { slice_get map.now.polygons p ≡ Some polygon }
    requires outside { IsTrue outside → ¬ IsInside map.now.chains polygon.point p }
    ensures { OnOk result (HasRow map.now p 1 (if outside then 0 ∷ [] else []) found.old.items found.new.items) }
{
    if outside {
        let fault = Misplaced::Outside {
            polygon: polygon.key,
        };
        if found.push(fault).is_err() {
            return Err(Memory);
        }
    }
    Ok(())
}

/// Appends that the point lies in each of these other polygons.
fn push_others(
    map: &Map,
    p: u32,
    polygon: Polygon,
    odd: &[u32],
    found: &mut Vec<Misplaced>,
) -> Result<(), Memory>
    requires is { slice_get map.now.polygons p ≡ Some polygon }
    requires odd { All (IsIn map.now polygon.point p) odd.now }
    ensures { OnOk result (HasRow map.now p 2 odd.now found.old.items found.new.items) }
{
    for place in 0..odd.len() {
        let fault = Misplaced::InOther {
            polygon: polygon.key,
            other: map.polygon(odd[place]).key,
        };
        if found.push(fault).is_err() {
            return Err(Memory);
        }
    }
    Ok(())
}
