//! The points of polygons that aren't known to lie where they have to.

ghost use Rattle.std.specs.Prelude.{IfOk, MatchOption};
ghost use Rattle.tl_check_inside.specs.Placed.{ArePlaced};
ghost use Rattle.tl_check_inside.specs.Suspects.{AreSuspects};
ghost use Rattle.tl_check_verdict.specs.Truth.{IsTrueOfMap};

use std::alloc::Global;
use tl_check_points::find_among_suspects;
use tl_check_verdict::MapFault;
use tl_map_county::Map;
use tl_tree_index::Memory;

/// A suspect whose point doesn't lie where it has to, if there is one. Where there are no suspects nothing is looked at.
pub fn misplaced_suspect(
    alloc: Global,
    map: &Map,
    suspects: &[u32],
) -> Result<Option<MapFault>, Memory>
    requires suspects { AreSuspects map.now suspects.now }
    ensures { IfOk result (λ found. MatchOption found (ArePlaced map.now) (IsTrueOfMap map.now)) }
{
    if suspects.is_empty() {
        return Ok(None);
    }
    match find_among_suspects(alloc, map, suspects)? {
        Some(fault) => Ok(Some(MapFault::PolygonPoint(fault))),
        None => Ok(None),
    }
}
