//! All polygons' points that don't lie where they have to.

ghost use Rattle.std.specs.Prelude.{◌<◌, length, IfOk, OnOk};
ghost use Rattle.tl_map_county.specs.Segments.{segments_before};
ghost use Rattle.tl_check_planar.specs.Rectangles.{segment_rect};
ghost use Rattle.tl_check_inside.specs.Places.{IsHeldBy};
ghost use Rattle.tl_check_inside.specs.Keeping.Probing.{ChainsAreInReach};
ghost use Rattle.tl_check_inside.specs.Keeping.Tallies.{TellCounts, AreClear};
ghost use Rattle.tl_check_points.specs.Listing.AllMisplaced.{AreAllMisplaced, NoneHidden};
ghost use Rattle.tl_check_points.specs.Listing.Hidden.{IsMarked};
ghost use Rattle.tl_check_sides.specs.Listing.Keeping.Listed.{AreListed};
ghost use Rattle.tl_check_points.specs.Listing.Keeping.Parts.{IsOfPolygon, AndSettled, HasPart};

use crate::listing::odd::list_odd;
use crate::listing::room::Room;
use crate::listing::telling::push_wrong;
use std::alloc::Global;
use tl_check_inside::{Flanks, Misplaced, Site, has_points_in_reach, list_in_strip, sift_all};
use tl_check_sides::listing::sort_once;
use tl_map_county::Map;
use tl_tree_index::{BoxIndex, Memory};

/// All faults of the points of a map's polygons, by an index that fits the map's segments: of each polygon by its number
/// each chain that holds its point, by the chains' numbers; that the polygon's count at its point isn't 1; and each other
/// polygon whose count there isn't 0, by the polygons' numbers. An error says that memory was refused.
///
/// Each point takes one search for what holds it and what its ray to the east crosses. Beside the faults that are listed
/// there are two counts of each polygon, and lists of what lies east of one point.
pub fn all_misplaced<X: BoxIndex>(
    alloc: Global,
    index: &X,
    map: &Map,
) -> Result<Vec<Misplaced>, Memory>
    requires { X.fits index.now (segments_before map.now.chains (length map.now.chains))
        (segment_rect map.now.chains) }
    ensures { IfOk result (λ found. AreAllMisplaced NoneHidden map.now found.items) }
{
    has_points_in_reach(map);
    let mut room = Room::new(alloc, map.polygons() as usize)?;
    let mut found = Vec::new(alloc);
    for p in 0..map.polygons() {
        list_at(index, map, p, &[], &mut room, &mut found)?;
    }
    Ok(found)
}

/// Appends all that is wrong with the point of polygon `p`, but what hangs on marked polygons.
pub fn list_at<X: BoxIndex>(
    index: &X,
    map: &Map,
    p: u32,
    marks: &[bool],
    room: &mut Room,
    found: &mut Vec<Misplaced>,
) -> Result<(), Memory>
    requires fits { X.fits index.now (segments_before map.now.chains (length map.now.chains))
        (segment_rect map.now.chains) }
    requires reach { ChainsAreInReach map.now.chains }
    requires known { p < length map.now.polygons }
    requires clear { AreClear (length map.now.polygons) room.old.near.items room.old.far.items }
    ensures part { OnOk result (HasPart map.now (AndSettled (IsMarked marks.now) (IsOfPolygon p)) found.old.items found.new.items) }
    ensures clear { OnOk result (AreClear (length map.now.polygons) room.new.near.items room.new.far.items) }
{
    let polygon = map.polygon(p);
    let site = Site {
        polygon: p,
        point: polygon.point,
    };
    look_about(
        index,
        map,
        site,
        &mut room.hits,
        &mut room.held,
        &mut room.crossed,
    )?;
    let outside = list_odd(
        map,
        p,
        &room.crossed,
        &mut room.near,
        &mut room.far,
        &mut room.odd,
    )?;
    push_wrong(
        map,
        p,
        polygon,
        marks,
        &room.held,
        outside,
        &room.odd,
        &mut room.others,
        found,
    )
}

/// Lists the chains that hold a point, by rising number, and the flanks of the segments that its ray crosses, in the place
/// of what was listed.
pub fn look_about<X: BoxIndex>(
    index: &X,
    map: &Map,
    site: Site,
    hits: &mut Vec<u32>,
    held: &mut Vec<u32>,
    crossed: &mut Vec<Flanks>,
) -> Result<(), Memory>
    requires fits { X.fits index.now (segments_before map.now.chains (length map.now.chains))
        (segment_rect map.now.chains) }
    requires reach { ChainsAreInReach map.now.chains }
    ensures held { OnOk result (AreListed (IsHeldBy map.now.chains site.point) held.new.items) }
    ensures tell { OnOk result (TellCounts map.now.chains site.point crossed.new.items) }
{
    list_in_strip(map, index, &[site], hits)?;
    sift_all(map, hits, site.point, held, crossed)?;
    sort_once(held);
    Ok(())
}
