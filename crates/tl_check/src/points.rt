//! The points of polygons.

ghost use Rattle.std.specs.Prelude.{OnOk, IfErr};
ghost use Rattle.tl_check_inside.specs.Placed.{ArePlaced};
ghost use Rattle.tl_check_inside.specs.Suspects.{AreSuspects};
ghost use Rattle.tl_check.specs.Keeping.Parts.{MayEnd};

use crate::state::Halt;
use std::alloc::Global;
use tl_check_points::find_among_suspects;
use tl_check_verdict::MapFault;
use tl_map_county::Map;

/// Looks at the points of the polygons of which a sweep didn't find that they lie where they have to. Where there are none nothing is
/// looked at.
pub fn look_at_suspects(alloc: Global, map: &Map, suspects: &[u32]) -> Result<(), Halt>
    requires { AreSuspects map.now suspects.now }
    ensures placed { OnOk result (ArePlaced map.now) }
    ensures halts { IfErr result (MayEnd map.now) }
{
    if suspects.is_empty() {
        return Ok(());
    }
    match find_among_suspects(alloc, map, suspects)? {
        None => Ok(()),
        Some(fault) => Err(Halt::Fault(MapFault::PolygonPoint(fault))),
    }
}
