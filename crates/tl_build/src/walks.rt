//! The walks of maps.

ghost use Rattle.std.specs.Prelude.{◌<◌, ◌^◌, length, map as map_list, IfOk, IfErr, IfSome, MatchOption};
ghost use Rattle.tl_check_planar.specs.Planar.{IsPlanar};
ghost use Rattle.tl_check_sides.specs.Walks.{AreWalks};
ghost use Rattle.tl_check_verdict.specs.Sound.{IsSound};
ghost use Rattle.tl_build.specs.Auditing.{IsMemoryStop};

use std::alloc::Global;
use tl_build_propose::propose_walks;
use tl_cert_output::Stop;
use tl_decide::{Asked, Decided, Depth, decide};
use tl_map_county::Map;

/// The walks of a map that is sound, as they are traced for its decision; none of one that isn't. It stops where memory was refused, and nowhere else.
pub fn find_walks(alloc: Global, map: &Map) -> Result<Option<Vec<Vec<u32>>>, Stop>
    // Walks are given only where the map is sound, and none only where it isn't.
    ensures sound { IfOk result (λ found. MatchOption found (¬ IsSound map.now) (λ walks. IsSound map.now)) }
    // They are the map's: rings in which each dart stands once and nothing else does.
    ensures walks { IfOk result (λ found. IfSome found (λ walks. AreWalks map.now.chains (map_list (λ w. w.items) walks.items))) }
    ensures counted { IfOk result (λ found. IfSome found (λ walks. length walks.items < 2 ^ 32)) }
    // It stops for memory alone.
    ensures stops { IfErr result IsMemoryStop }
{
    let asked = Asked {
        depth: Depth::First,
        faces: false,
        walks: true,
    };
    let Decided { faults, walks, .. } = decide(alloc, map, asked)?;
    if faults.is_empty() {
        Ok(Some(walks))
    } else {
        Ok(None)
    }
}

/// The walks of a map whose chains are known to be planar, as those of a sound map are: nothing is decided once more. It stops where memory
/// was refused, and nowhere else.
pub fn planar_walks(alloc: Global, map: &Map) -> Result<Vec<Vec<u32>>, Stop>
    requires { IsPlanar map.now.chains }
    // They are the map's: rings in which each dart stands once and nothing else does.
    ensures walks { IfOk result (λ walks. AreWalks map.now.chains (map_list (λ w. w.items) walks.items)) }
    ensures counted { IfOk result (λ walks. length walks.items < 2 ^ 32) }
    // It stops for memory alone.
    ensures stops { IfErr result IsMemoryStop }
{
    map.has_proper_chains();
    let walks = propose_walks(alloc, map)?;
    Ok(walks)
}
