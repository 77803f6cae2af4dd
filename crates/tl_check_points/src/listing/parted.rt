//! The counts of polygons at points of a map of which a part has planar chains.

ghost use Rattle.std.specs.Prelude.{◌≡◌, ◌<◌, [], IfOk, OnOk, length};
ghost use Rattle.tl_map_county.specs.Segments.{segments_before};
ghost use Rattle.tl_map_county.specs.Remaining.{map_without};
ghost use Rattle.tl_check_planar.specs.Rectangles.{segment_rect};
ghost use Rattle.tl_check_inside.specs.Keeping.Probing.{ChainsAreInReach};
ghost use Rattle.tl_check_inside.specs.Places.{IsOffChains};
ghost use Rattle.tl_check_sweep.specs.Parts.{IsPlanarPart};
ghost use Rattle.tl_check_points.specs.Counts.{AreCountsAt};
ghost use Rattle.tl_check_points.specs.Listing.Keeping.Joined.{AreJoined, turned};

use crate::listing::misplaced::look_about;
use crate::listing::room::Room;
use crate::{PointCounts, count_at};
use std::alloc::Global;
use tl_check_inside::{Flanks, Site, has_points_in_reach};
use tl_check_planar::Segments;
use tl_check_sweep::PlanarPart;
use tl_map_county::Map;
use tl_tree::FlatTree;
use tl_tree_index::{BoxIndex, Memory, TreeStop, pack};

/// The counts of all polygons at these points: those of the planar part, which one sweep tells, and beside them what each point's ray
/// crosses of the chains that were taken out. An error says that memory was refused.
pub fn count_by_parts(
    alloc: Global,
    map: &Map,
    part: &PlanarPart,
    sites: &[Site],
) -> Result<PointCounts, Memory>
    requires part { IsPlanarPart map.now part.now }
    ensures long { IfOk result (λ counts. length counts ≡ length sites.now) }
    ensures counts { IfOk result (AreCountsAt map.now.chains sites.now) }
{
    let Ok(known) = count_at(alloc, &part.map, sites) else {
        return Err(Memory);
    };
    let taken = taken_out(alloc, map, &part.marks)?;
    let Ok(nodes) = pack(alloc, &Segments::new(&taken)) else {
        return Err(Memory);
    };
    match FlatTree::from_nodes(alloc, &nodes) {
        Ok(tree) => join_all(alloc, &tree, map, part, &taken, sites, &known),
        Err(TreeStop::Memory) => Err(Memory),
        // A tree that is packed is never so deep.
        Err(TreeStop::TooDeep) => unreachable!(),
    }
}

/// The map of the chains that are marked.
pub fn taken_out(alloc: Global, map: &Map, marks: &[bool]) -> Result<Map, Memory>
    ensures { IfOk result (λ taken. taken ≡ map_without (turned marks.now) map.now) }
{
    let others = others_of(alloc, marks)?;
    match map.without(alloc, &others) {
        Ok(taken) => Ok(taken),
        Err(_) => Err(Memory),
    }
}

/// Marks the other way round.
fn others_of(alloc: Global, marks: &[bool]) -> Result<Vec<bool>, Memory>
    ensures { IfOk result (λ others. others.items ≡ turned marks.now) }
{
    let mut others = Vec::new(alloc);
    for place in 0..marks.len() {
        if others.push(!marks[place]).is_err() {
            return Err(Memory);
        }
    }
    Ok(others)
}

/// The counts at each point of which those of the planar part are known, if no chain that was taken out holds it.
fn join_all<X: BoxIndex>(
    alloc: Global,
    index: &X,
    map: &Map,
    part: &PlanarPart,
    taken: &Map,
    sites: &[Site],
    known: &PointCounts,
) -> Result<PointCounts, Memory>
    requires fits { X.fits index.now (segments_before taken.now.chains (length taken.now.chains))
        (segment_rect taken.now.chains) }
    requires part { IsPlanarPart map.now part.now }
    requires taken { taken.now ≡ map_without (turned part.now.marks.items) map.now }
    requires long { length known.now ≡ length sites.now }
    requires known { AreCountsAt part.now.map.chains sites.now known.now }
    ensures long { IfOk result (λ counts. length counts ≡ length sites.now) }
    ensures counts { IfOk result (AreCountsAt map.now.chains sites.now) }
{
    has_points_in_reach(taken);
    let Ok(mut counts) = PointCounts::new(alloc, sites.len()) else {
        return Err(Memory);
    };
    let mut room = Room::new(alloc, 0)?;
    for place in 0..sites.len() {
        join_one(
            index,
            map,
            part,
            taken,
            sites,
            known,
            place,
            &mut room,
            &mut counts,
        )?;
    }
    Ok(counts)
}

/// Keeps the counts at the point at a place, if those of the planar part are known and no chain that was taken out holds it.
fn join_one<X: BoxIndex>(
    index: &X,
    map: &Map,
    part: &PlanarPart,
    taken: &Map,
    sites: &[Site],
    known: &PointCounts,
    place: usize,
    room: &mut Room,
    counts: &mut PointCounts,
) -> Result<(), Memory>
    requires fits { X.fits index.now (segments_before taken.now.chains (length taken.now.chains))
        (segment_rect taken.now.chains) }
    requires reach { ChainsAreInReach taken.now.chains }
    requires part { IsPlanarPart map.now part.now }
    requires taken { taken.now ≡ map_without (turned part.now.marks.items) map.now }
    requires known { AreCountsAt part.now.map.chains sites.now known.now }
    requires within { place < length sites.now }
    requires long { length known.now ≡ length sites.now }
    requires many { length counts.old ≡ length sites.now }
    requires counts { AreCountsAt map.now.chains sites.now counts.old }
    ensures many { OnOk result (length counts.new ≡ length sites.now) }
    ensures counts { OnOk result (AreCountsAt map.now.chains sites.now counts.new) }
{
    // that each chain has two points or more
    map.has_proper_chains();
    let Some(flanks) = known.at(place) else {
        return Ok(());
    };
    join_at(index, taken, sites[place], flanks, room)?;
    if !room.held.is_empty() {
        return Ok(());
    }
    match counts.keep(place, &room.crossed) {
        Ok(()) => Ok(()),
        Err(_) => Err(Memory),
    }
}

/// Lists the chains taken out that hold a point, and before known flanks those of the segments of such chains that its ray crosses.
fn join_at<X: BoxIndex>(
    index: &X,
    taken: &Map,
    site: Site,
    known: &[Flanks],
    room: &mut Room,
) -> Result<(), Memory>
    requires fits { X.fits index.now (segments_before taken.now.chains (length taken.now.chains))
        (segment_rect taken.now.chains) }
    requires reach { ChainsAreInReach taken.now.chains }
    ensures off { OnOk result (room.new.held.items ≡ [] → IsOffChains taken.now.chains site.point) }
    ensures joined { OnOk result (AreJoined taken.now.chains site.point known.now room.new.crossed.items) }
{
    look_about(
        index,
        taken,
        site,
        &mut room.hits,
        &mut room.held,
        &mut room.crossed,
    )?;
    if room.crossed.extend_from_slice(known).is_err() {
        return Err(Memory);
    }
    Ok(())
}
