//! What is wrong with a map, found and told one kind behind the other.

ghost use Rattle.std.specs.Prelude.{IfOk, IfSome, OnOk, length, Contains};
ghost use Rattle.tl_map_county.specs.Segments.{segments_before};
ghost use Rattle.tl_check_planar.specs.Rectangles.{segment_rect};
ghost use Rattle.tl_check_inside.specs.Suspects.{AreSuspects};
ghost use Rattle.tl_check_sweep.specs.Parts.{IsPlanarPart};
ghost use Rattle.tl_check_points.specs.Listing.Hidden.{IsMarked};
ghost use Rattle.tl_decide.specs.Keeping.OfMap.{AddsAgreement, AddsCells, AddsPoints};

use crate::tell::{push_cells, push_points, push_sides};
use std::alloc::Global;
use tl_check_gaps::Gaps;
use tl_check_planar::Segments;
use tl_check_points::listing::{all_misplaced_among, hide_polygons, marks_of};
use tl_check_sides::listing::{all_cells_at_odds, all_disagreements, touched_polygons};
use tl_check_sweep::{PlanarPart, SweepReport, sweep};
use tl_check_verdict::MapFault;
use tl_map_county::Map;
use tl_tree::{FlatTree, PlainList};
use tl_tree_index::{BoxIndex, Memory, TreeStop, pack};

/// So few points are held against all segments, each by itself: that is sooner done than a tree is made.
const FEW: usize = 16;

/// Appends sides that disagree, and behind them zero-cell ids that are at odds. Gives the polygons that such sides name, by rising number.
pub fn push_disagreements(
    alloc: Global,
    map: &Map,
    faults: &mut Vec<MapFault>,
) -> Result<Vec<u32>, Memory>
    ensures { IfOk result (λ touched. AddsAgreement map.now touched.items faults.old.items faults.new.items) }
{
    let sides = all_disagreements(alloc, map)?;
    let touched = touched_polygons(alloc, map, &sides)?;
    push_sides(faults, map, &sides)?;
    drop(sides);
    push_all_cells(alloc, map, faults)?;
    Ok(touched)
}

/// Appends zero-cell ids that are at odds.
pub fn push_all_cells(alloc: Global, map: &Map, faults: &mut Vec<MapFault>) -> Result<(), Memory>
    ensures { OnOk result (AddsCells map.now faults.old.items faults.new.items) }
{
    let cells = all_cells_at_odds(alloc, map)?;
    push_cells(faults, &cells)
}

/// Appends what is wrong with where polygons' points lie in a map whose chains are planar, but what hangs on touched polygons. In the map
/// that is swept no side names one, so that sides agree there.
pub fn push_untouched(
    alloc: Global,
    map: &Map,
    touched: &[u32],
    faults: &mut Vec<MapFault>,
) -> Result<(), Memory>
    ensures { OnOk result (AddsPoints (Contains touched.now) map.now faults.old.items faults.new.items) }
{
    // that each chain has two points or more
    map.has_proper_chains();
    let marks = marks_of(alloc, touched)?;
    let Ok(hidden) = hide_polygons(alloc, map, &marks) else {
        return Err(Memory);
    };
    match hidden {
        Some(hidden) => push_swept(alloc, &hidden, &marks, faults),
        None => push_swept(alloc, map, &marks, faults),
    }
}

/// The same by a sweep over a map, but what hangs on marked polygons.
fn push_swept(
    alloc: Global,
    map: &Map,
    marks: &[bool],
    faults: &mut Vec<MapFault>,
) -> Result<(), Memory>
    ensures { OnOk result (AddsPoints (IsMarked marks.now) map.now faults.old.items faults.new.items) }
{
    let Ok(report) = sweep(alloc, map, Gaps::First) else {
        return Err(Memory);
    };
    let SweepReport { suspects, .. } = report;
    push_suspects(alloc, map, None, marks, suspects, faults)
}

/// Appends what is wrong with where polygons' points lie, but what hangs on marked polygons, by a part of the map that is planar where chains
/// meet, where the points of all polygons but these are known to lie where they have to. Where there is no such polygon nothing is done.
pub fn push_suspects(
    alloc: Global,
    map: &Map,
    part: Option<&PlanarPart>,
    marks: &[bool],
    suspects: Vec<u32>,
    faults: &mut Vec<MapFault>,
) -> Result<(), Memory>
    requires part { IfSome part (λ part. IsPlanarPart map.now part.now) }
    requires suspects { AreSuspects map.now suspects.items }
    ensures { OnOk result (AddsPoints (IsMarked marks.now) map.now faults.old.items faults.new.items) }
{
    if suspects.is_empty() {
        return Ok(());
    }
    if suspects.len() <= FEW {
        let list = PlainList::new(map.segments());
        return push_misplaced(alloc, &list, map, part, marks, suspects, faults);
    }
    push_by_new_tree(alloc, map, part, marks, suspects, faults)
}

/// The same by a tree that is made for it.
fn push_by_new_tree(
    alloc: Global,
    map: &Map,
    part: Option<&PlanarPart>,
    marks: &[bool],
    suspects: Vec<u32>,
    faults: &mut Vec<MapFault>,
) -> Result<(), Memory>
    requires part { IfSome part (λ part. IsPlanarPart map.now part.now) }
    requires suspects { AreSuspects map.now suspects.items }
    ensures { OnOk result (AddsPoints (IsMarked marks.now) map.now faults.old.items faults.new.items) }
{
    let Ok(nodes) = pack(alloc, &Segments::new(map)) else {
        return Err(Memory);
    };
    match FlatTree::from_nodes(alloc, &nodes) {
        Ok(tree) => push_misplaced(alloc, &tree, map, part, marks, suspects, faults),
        Err(TreeStop::Memory) => Err(Memory),
        // A tree that is packed is never so deep.
        Err(TreeStop::TooDeep) => unreachable!(),
    }
}

/// The same by an index that fits the map's segments.
fn push_misplaced<X: BoxIndex>(
    alloc: Global,
    index: &X,
    map: &Map,
    part: Option<&PlanarPart>,
    marks: &[bool],
    mut suspects: Vec<u32>,
    faults: &mut Vec<MapFault>,
) -> Result<(), Memory>
    requires fits { X.fits index.now (segments_before map.now.chains (length map.now.chains))
        (segment_rect map.now.chains) }
    requires part { IfSome part (λ part. IsPlanarPart map.now part.now) }
    requires suspects { AreSuspects map.now suspects.items }
    ensures { OnOk result (AddsPoints (IsMarked marks.now) map.now faults.old.items faults.new.items) }
{
    let points = all_misplaced_among(alloc, index, map, part, marks, &mut suspects)?;
    push_points(faults, &points)
}
