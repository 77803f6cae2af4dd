//! Faces that disagree, told of a gap in a slab's list.
ghost use Rattle.std.specs.Prelude.{◌≡◌, ◌<◌, length};
ghost use Rattle.tl_map_county.specs.Segments.{segments_before};
ghost use Rattle.tl_check_planar.specs.Planar.{IsPlanar};
ghost use Rattle.tl_check_planar.specs.ByHeight.Heights.{height, widest};
ghost use Rattle.tl_check_faces.specs.Odd.{IsLowestOddGap};
ghost use Rattle.tl_check_faces.specs.Faults.{side_key, IsTrueFaceFault, IsWestFace, IsEastFace, IsFaultBetween};
ghost use Rattle.tl_check_gaps.specs.FaceFaults.Keeping.Told.{IsFaceOf};

use crate::face_faults::midway::midway;
use crate::{flanks_by_height, has_near_points};
use tl_check_faces::{FaceFault, NamedFace, OddGap, Way};
use tl_geom::Point;
use tl_map_county::{Map, Side};
use tl_record_key::PolyKey;

/// The faces that disagree at a gap of a slab's list whose facing sides differ, the lowest between its segments: what those on both sides of
/// it name toward it.
pub fn face_fault(map: &Map, gap: OddGap) -> FaceFault
    requires planar { IsPlanar map.now.chains }
    requires odd { IsLowestOddGap widest map.now.chains gap }
    // What it says is true of the map.
    ensures true_one { IsTrueFaceFault map.now result }
    // It is of what stands on both sides of that gap.
    ensures between { IsFaultBetween map.now gap.west gap.east result }
{
    has_near_points(map);
    match (gap.west, gap.east) {
        (Some(west), Some(east)) => FaceFault::Facing {
            first: east_face(map, west, gap.at),
            last: west_face(map, east, gap.at),
        },
        (Some(west), None) => FaceFault::Outward {
            face: east_face(map, west, gap.at),
            way: Way::East,
        },
        (None, Some(east)) => FaceFault::Outward {
            face: west_face(map, east, gap.at),
            way: Way::West,
        },
        (None, None) => unreachable!(),
    }
}

/// What a segment names to the west, from its place midway above the height of a point.
fn west_face(map: &Map, s: u32, at: Point) -> NamedFace
    requires known { s < segments_before map.now.chains (length map.now.chains) }
    ensures { IsWestFace widest map.now (height widest at) s result }
{
    face_of(map, s, flanks_by_height(map, s).near, at)
}

/// What it names to the east, from there.
fn east_face(map: &Map, s: u32, at: Point) -> NamedFace
    requires known { s < segments_before map.now.chains (length map.now.chains) }
    ensures { IsEastFace widest map.now (height widest at) s result }
{
    face_of(map, s, flanks_by_height(map, s).far, at)
}

/// What it has on this side, from there.
fn face_of(map: &Map, s: u32, side: Side, at: Point) -> NamedFace
    requires known { s < segments_before map.now.chains (length map.now.chains) }
    ensures { IsFaceOf map.now (height widest at) s side result }
{
    let place = midway(map.segment(s), at);
    let lowest = place.lowest();
    NamedFace {
        tlid: map.chain(map.segment_chain(s)).tlid,
        polygon: key_of(map, side),
        at: lowest,
    }
}

/// The key of the polygon on a side, if one is there.
fn key_of(map: &Map, side: Side) -> Option<PolyKey>
    ensures { result ≡ side_key map.now.polygons side }
{
    match side {
        Side::Polygon(p) if p < map.polygons() => Some(map.polygon(p).key),
        _ => None,
    }
}
