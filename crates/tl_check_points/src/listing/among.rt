//! The same of some polygons.

ghost use Rattle.std.specs.Prelude.{◌≡◌, ◌<◌, length, All, IfOk, IfSome, OnOk};
ghost use Rattle.std.specs.List.Sorted.{IsStrictlyIncreasing};
ghost use Rattle.tl_map_county.specs.Segments.{segments_before};
ghost use Rattle.tl_check_planar.specs.Rectangles.{segment_rect};
ghost use Rattle.tl_check_inside.specs.Keeping.Probing.{ChainsAreInReach};
ghost use Rattle.tl_check_inside.specs.Keeping.Tallies.{AreClear};
ghost use Rattle.tl_check_points.specs.Counts.{AreCountsAt};
ghost use Rattle.tl_check_sweep.specs.Parts.{IsPlanarPart};
ghost use Rattle.tl_check_points.specs.Listing.AllMisplaced.{AreAllMisplaced};
ghost use Rattle.tl_check_points.specs.Listing.Hidden.{IsMarked};
ghost use Rattle.tl_check_points.specs.Listing.Keeping.Known.{TellAt};
ghost use Rattle.tl_check_points.specs.Listing.Keeping.Parts.{IsOfPolygon, IsOfAny, AndSettled, AreFaultsIn, HasPart};
ghost use Rattle.tl_check_inside.specs.Suspects.{AreSuspects};

use crate::listing::misplaced::list_at;
use crate::listing::odd::list_odd;
use crate::listing::parted::count_by_parts;
use crate::listing::room::Room;
use crate::listing::telling::push_wrong;
use crate::{PointCounts, count_at, sites_of};
use std::alloc::Global;
use tl_check_inside::{Flanks, Misplaced, Site, has_points_in_reach};
use tl_check_sides::listing::sort_once;
use tl_check_sweep::PlanarPart;
use tl_map_county::Map;
use tl_tree_index::{BoxIndex, Memory};

/// All faults of the points of a map's polygons, as [`crate::listing::all_misplaced`] lists them, but that a point is outside of a
/// marked polygon or in one, where the points of all polygons but these are known to lie where they have to. These are given in any
/// order, and are left sorted. The counts at most of them become known in one sweep over the map or, where its chains meet, over a
/// part of it that is planar; it takes a search for each of the others alone. An error says that memory was refused.
pub fn all_misplaced_among<X: BoxIndex>(
    alloc: Global,
    index: &X,
    map: &Map,
    part: Option<&PlanarPart>,
    marks: &[bool],
    suspects: &mut Vec<u32>,
) -> Result<Vec<Misplaced>, Memory>
    requires fits { X.fits index.now (segments_before map.now.chains (length map.now.chains))
        (segment_rect map.now.chains) }
    requires part { IfSome part (λ part. IsPlanarPart map.now part.now) }
    requires suspects { AreSuspects map.now suspects.old.items }
    ensures { IfOk result (λ found. AreAllMisplaced (IsMarked marks.now) map.now found.items) }
{
    has_points_in_reach(map);
    sort_once(suspects);
    list_each(alloc, index, map, part, marks, suspects)
}

/// The counts of all polygons at these points, in one sweep over the map or by such a part.
fn counts_of(
    alloc: Global,
    map: &Map,
    part: Option<&PlanarPart>,
    sites: &[Site],
) -> Result<PointCounts, Memory>
    requires { IfSome part (λ part. IsPlanarPart map.now part.now) }
    ensures long { IfOk result (λ counts. length counts ≡ length sites.now) }
    ensures counts { IfOk result (AreCountsAt map.now.chains sites.now) }
{
    if let Some(part) = part {
        return count_by_parts(alloc, map, part, sites);
    }
    match count_at(alloc, map, sites) {
        Ok(counts) => Ok(counts),
        Err(_) => Err(Memory),
    }
}

/// The faults of the points of these polygons, in their order.
fn list_each<X: BoxIndex>(
    alloc: Global,
    index: &X,
    map: &Map,
    part: Option<&PlanarPart>,
    marks: &[bool],
    polygons: &[u32],
) -> Result<Vec<Misplaced>, Memory>
    requires fits { X.fits index.now (segments_before map.now.chains (length map.now.chains))
        (segment_rect map.now.chains) }
    requires part { IfSome part (λ part. IsPlanarPart map.now part.now) }
    requires reach { ChainsAreInReach map.now.chains }
    requires known { All (λ p. p < length map.now.polygons) polygons.now }
    requires rising { IsStrictlyIncreasing polygons.now }
    ensures { IfOk result (λ found. AreFaultsIn map.now (AndSettled (IsMarked marks.now) (IsOfAny polygons.now)) found.items) }
{
    let sites = sites_of(alloc, map, polygons)?;
    let counts = counts_of(alloc, map, part, &sites)?;
    let mut room = Room::new(alloc, map.polygons() as usize)?;
    let mut found = Vec::new(alloc);
    for place in 0..polygons.len() {
        list_one(
            index,
            map,
            polygons[place],
            counts.at(place),
            marks,
            &mut room,
            &mut found,
        )?;
    }
    Ok(found)
}

/// Appends all that is wrong with the point of polygon `p`, by flanks that tell the counts there, if they are known.
fn list_one<X: BoxIndex>(
    index: &X,
    map: &Map,
    p: u32,
    known: Option<&[Flanks]>,
    marks: &[bool],
    room: &mut Room,
    found: &mut Vec<Misplaced>,
) -> Result<(), Memory>
    requires fits { X.fits index.now (segments_before map.now.chains (length map.now.chains))
        (segment_rect map.now.chains) }
    requires reach { ChainsAreInReach map.now.chains }
    requires polygon { p < length map.now.polygons }
    requires tell { IfSome known (λ flanks. TellAt map.now p flanks.now) }
    requires clear { AreClear (length map.now.polygons) room.old.near.items room.old.far.items }
    ensures part { OnOk result (HasPart map.now (AndSettled (IsMarked marks.now) (IsOfPolygon p)) found.old.items found.new.items) }
    ensures clear { OnOk result (AreClear (length map.now.polygons) room.new.near.items room.new.far.items) }
{
    match known {
        Some(flanks) => list_known(map, p, flanks, marks, room, found),
        None => list_at(index, map, p, marks, room, found),
    }
}

/// Does so by such flanks.
fn list_known(
    map: &Map,
    p: u32,
    flanks: &[Flanks],
    marks: &[bool],
    room: &mut Room,
    found: &mut Vec<Misplaced>,
) -> Result<(), Memory>
    requires known { p < length map.now.polygons }
    requires tell { TellAt map.now p flanks.now }
    requires clear { AreClear (length map.now.polygons) room.old.near.items room.old.far.items }
    ensures part { OnOk result (HasPart map.now (AndSettled (IsMarked marks.now) (IsOfPolygon p)) found.old.items found.new.items) }
    ensures clear { OnOk result (AreClear (length map.now.polygons) room.new.near.items room.new.far.items) }
{
    let polygon = map.polygon(p);
    room.held.clear();
    let outside = list_odd(map, p, flanks, &mut room.near, &mut room.far, &mut room.odd)?;
    push_wrong(
        map,
        p,
        polygon,
        marks,
        &room.held,
        outside,
        &room.odd,
        &mut room.others,
        found,
    )
}
