//! Polygons whose points may lie where they don't have to in a map, by what is known of a part of it.

ghost use Rattle.std.specs.Prelude.{◌≡◌, true, IfOk, OnOk, length};
ghost use Rattle.tl_map_county.specs.Segments.{segments_before};
ghost use Rattle.tl_map_county.specs.Remaining.{map_without};
ghost use Rattle.tl_check_planar.specs.Rectangles.{segment_rect};
ghost use Rattle.tl_check_inside.specs.Keeping.Probing.{ChainsAreInReach};
ghost use Rattle.tl_check_inside.specs.Suspects.{AreSuspects};
ghost use Rattle.tl_check_sweep.specs.Parts.{IsPlanarPart};
ghost use Rattle.tl_check_points.specs.Listing.Keeping.Joined.{turned, IsApart, IsSifted};

use crate::listing::misplaced::look_about;
use crate::listing::parted::taken_out;
use crate::listing::room::Room;
use std::alloc::Global;
use tl_check_inside::{Site, has_points_in_reach};
use tl_check_planar::Segments;
use tl_check_sweep::PlanarPart;
use tl_geom::Point;
use tl_map_county::Map;
use tl_tree::FlatTree;
use tl_tree_index::{BoxIndex, Memory, TreeStop, pack};

/// The suspects of a map of which this part is planar: those of the part, and each polygon whose point lies on or west of a chain that
/// was taken out. A polygon may be listed twice. An error says that memory was refused.
pub fn suspects_by_part(alloc: Global, map: &Map, part: &PlanarPart) -> Result<Vec<u32>, Memory>
    requires { IsPlanarPart map.now part.now }
    ensures { IfOk result (λ suspects. AreSuspects map.now suspects.items) }
{
    let taken = taken_out(alloc, map, &part.marks)?;
    let Ok(nodes) = pack(alloc, &Segments::new(&taken)) else {
        return Err(Memory);
    };
    match FlatTree::from_nodes(alloc, &nodes) {
        Ok(tree) => suspects_beside(alloc, &tree, map, part, &taken),
        Err(TreeStop::Memory) => Err(Memory),
        // A tree that is packed is never so deep.
        Err(TreeStop::TooDeep) => unreachable!(),
    }
}

/// The same by an index that fits the segments of the chains that were taken out.
fn suspects_beside<X: BoxIndex>(
    alloc: Global,
    index: &X,
    map: &Map,
    part: &PlanarPart,
    taken: &Map,
) -> Result<Vec<u32>, Memory>
    requires fits { X.fits index.now (segments_before taken.now.chains (length taken.now.chains))
        (segment_rect taken.now.chains) }
    requires part { IsPlanarPart map.now part.now }
    requires taken { taken.now ≡ map_without (turned part.now.marks.items) map.now }
    ensures { IfOk result (λ suspects. AreSuspects map.now suspects.items) }
{
    has_points_in_reach(taken);
    // that each chain has two points or more
    map.has_proper_chains();
    let mut room = Room::new(alloc, 0)?;
    let mut suspects = copy_of(alloc, &part.suspects)?;
    for p in 0..map.polygons() {
        let point = map.polygon(p).point;
        sift(index, taken, p, point, &mut room, &mut suspects)?;
    }
    Ok(suspects)
}

/// Numbers in a list of their own.
fn copy_of(alloc: Global, numbers: &[u32]) -> Result<Vec<u32>, Memory>
    ensures { IfOk result (λ copied. copied.items ≡ numbers.now) }
{
    let mut copied = Vec::new(alloc);
    if copied.extend_from_slice(numbers).is_err() {
        return Err(Memory);
    }
    Ok(copied)
}

/// Appends polygon `p`, unless its point is apart from the chains that were taken out.
fn sift<X: BoxIndex>(
    index: &X,
    taken: &Map,
    p: u32,
    point: Point,
    room: &mut Room,
    suspects: &mut Vec<u32>,
) -> Result<(), Memory>
    requires fits { X.fits index.now (segments_before taken.now.chains (length taken.now.chains))
        (segment_rect taken.now.chains) }
    requires reach { ChainsAreInReach taken.now.chains }
    ensures { OnOk result (IsSifted taken.now.chains p point suspects.old.items suspects.new.items) }
{
    if is_apart(index, taken, Site { polygon: p, point }, room)? {
        return Ok(());
    }
    match suspects.push(p) {
        Ok(()) => Ok(()),
        Err(_) => Err(Memory),
    }
}

/// Whether no chain that was taken out holds a point, and none lies east of it.
fn is_apart<X: BoxIndex>(
    index: &X,
    taken: &Map,
    site: Site,
    room: &mut Room,
) -> Result<bool, Memory>
    requires fits { X.fits index.now (segments_before taken.now.chains (length taken.now.chains))
        (segment_rect taken.now.chains) }
    requires reach { ChainsAreInReach taken.now.chains }
    ensures { IfOk result (λ apart. apart ≡ true → IsApart taken.now.chains site.point) }
{
    look_about(
        index,
        taken,
        site,
        &mut room.hits,
        &mut room.held,
        &mut room.crossed,
    )?;
    Ok(room.held.is_empty() && room.crossed.is_empty())
}
