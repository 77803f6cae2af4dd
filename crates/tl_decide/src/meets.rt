//! All faults of a map with segments that meet where they may not.

ghost use Rattle.std.specs.Prelude.{◌↔◌, ℕ, IfOk, IfSome, length, Contains};
ghost use Rattle.tl_map_county.specs.Segments.{segments_before};
ghost use Rattle.tl_map_county.specs.Remaining.{remaining};
ghost use Rattle.tl_check_planar.specs.Planar.{IsPlanar};
ghost use Rattle.tl_check_planar.specs.Rectangles.{segment_rect};
ghost use Rattle.tl_check_planar.specs.Searching.{IsTrueMeet};
ghost use Rattle.tl_check_planar.specs.Listing.Meets.{AreAllMeets};
ghost use Rattle.tl_check_sides.specs.Listing.Disagreements.{AreAllDisagreements};
ghost use Rattle.tl_check_sides.specs.Listing.Touched.{AreAllTouched};
ghost use Rattle.tl_check_points.specs.Listing.Hidden.{IsMarked, AreMapsAlikeBut};
ghost use Rattle.tl_decide.specs.Keeping.OfMap.{AreTold};

use crate::asked::Told;
use crate::met::{Differing, list_met};
use std::alloc::Global;
use tl_check_planar::listing::all_meets;
use tl_check_planar::{Meet, Segments};
use tl_check_points::listing::{hide_polygons, marks_of};
use tl_check_sides::listing::{all_disagreements, touched_polygons};
use tl_check_sweep::{PlanarPart, planar_part};
use tl_map_county::Map;
use tl_tree::{FlatTree, PlainList};
use tl_tree_index::{BoxIndex, Memory, TreeStop, pack};

/// So few segments are held against all others, each by itself: that is sooner done than a tree is made.
const FEW: u32 = 16;

/// All faults of a map, from two segments on that meet: all meets are searched for. It is kept out of where it is called, so that calls of it
/// can be counted.
#[inline(never)]
pub fn list_by_search(alloc: Global, map: &Map, meet: Meet) -> Result<Told, Memory>
    requires { IsTrueMeet map.now.chains meet }
    ensures { IfOk result (AreTold map.now) }
{
    let sides = all_disagreements(alloc, map)?;
    let touched = touched_polygons(alloc, map, &sides)?;
    let marks = marks_of(alloc, &touched)?;
    let differing = Differing {
        sides: &sides,
        touched: &touched,
        marks: &marks,
    };
    match hidden_if_any(alloc, map, &differing)? {
        Some(hidden) => list_by_part(alloc, map, &hidden, meet, &differing),
        None => list_by_part(alloc, map, map, meet, &differing),
    }
}

/// A map like this one in which no side names a touched polygon, where there are such.
fn hidden_if_any(alloc: Global, map: &Map, differing: &Differing) -> Result<Option<Map>, Memory>
    ensures { IfOk result (λ made. IfSome made (AreMapsAlikeBut (IsMarked differing.now.marks.now) map.now)) }
{
    if differing.touched.is_empty() {
        return Ok(None);
    }
    match hide_polygons(alloc, map, differing.marks) {
        Ok(hidden) => Ok(hidden),
        Err(_) => Err(Memory),
    }
}

/// The same. Of a map that is alike but for sides that name touched polygons chains are taken out until the others are planar, so that meets
/// have to be searched for beside those that are out alone.
fn list_by_part(
    alloc: Global,
    map: &Map,
    seen: &Map,
    meet: Meet,
    differing: &Differing,
) -> Result<Told, Memory>
    requires meet { IsTrueMeet map.now.chains meet }
    requires sides { AreAllDisagreements map.now.chains differing.now.sides.now }
    requires touched { AreAllTouched map.now.chains differing.now.touched.now }
    requires marks { (p : ℕ) → IsMarked differing.now.marks.now p ↔ Contains differing.now.touched.now p }
    requires alike { AreMapsAlikeBut (IsMarked differing.now.marks.now) map.now seen.now }
    ensures { IfOk result (AreTold map.now) }
{
    let Ok(part) = planar_part(alloc, seen, meet) else {
        return Err(Memory);
    };
    let meets = meets_beside(alloc, map, &part)?;
    list_met(alloc, map, seen, &part, meets, differing)
}

/// All meets of a map without whose marked chains the others are planar. Where few segments were taken out each is held against all, and else a
/// tree is made.
fn meets_beside(alloc: Global, map: &Map, part: &PlanarPart) -> Result<Vec<Meet>, Memory>
    requires { IsPlanar (remaining part.now.marks.items map.now.chains) }
    ensures { IfOk result (λ meets. AreAllMeets map.now.chains meets.items) }
{
    if map.segments().saturating_sub(part.map.segments()) <= FEW {
        return meets_by(alloc, &PlainList::new(map.segments()), map, part);
    }
    let Ok(nodes) = pack(alloc, &Segments::new(map)) else {
        return Err(Memory);
    };
    match FlatTree::from_nodes(alloc, &nodes) {
        Ok(tree) => meets_by(alloc, &tree, map, part),
        Err(TreeStop::Memory) => Err(Memory),
        // A tree that is packed is never so deep.
        Err(TreeStop::TooDeep) => unreachable!(),
    }
}

/// The same by an index that fits the map's segments.
fn meets_by<X: BoxIndex>(
    alloc: Global,
    index: &X,
    map: &Map,
    part: &PlanarPart,
) -> Result<Vec<Meet>, Memory>
    requires fits { X.fits index.now (segments_before map.now.chains (length map.now.chains))
        (segment_rect map.now.chains) }
    requires planar { IsPlanar (remaining part.now.marks.items map.now.chains) }
    ensures { IfOk result (λ meets. AreAllMeets map.now.chains meets.items) }
{
    all_meets(alloc, index, map, &part.marks)
}
