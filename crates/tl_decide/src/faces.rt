//! Faces of maps that are found to be sound.

ghost use Rattle.std.specs.Prelude.{◌≡◌, MatchOption, option_map};
ghost use Rattle.tl_check_gaps.specs.declared.watch.Gaps.TheVariants.{First};
ghost use Rattle.tl_check_sweep.specs.Searched.{AreToldGaps};
ghost use Rattle.tl_check_verdict.specs.declared.fault.MapFault.TheVariants.{Face};
ghost use Rattle.tl_check_verdict.specs.Sound.{IsSound, IsSoundFor};
ghost use Rattle.tl_check_verdict.specs.Truth.{IsTrueOfMapFor};

use tl_check_faces::{FaceFault, OddGap};
use tl_check_gaps::face_faults::face_fault_of;
use tl_check_verdict::MapFault;
use tl_map_county::Map;

/// Where faces are asked for, those of a sound map that disagree, if some do, by what a sweep has told of gaps.
pub fn find_face_fault(map: &Map, asked: bool, gaps: &[OddGap]) -> Option<MapFault>
    requires sound { IsSound map.now }
    requires told { AreToldGaps map.now.chains First gaps.now }
    ensures { MatchOption result (IsSoundFor asked map.now) (IsTrueOfMapFor asked map.now) }
{
    if !asked {
        return None;
    }
    // so that a fault of faces denies that they are true
    map.has_proper_chains();
    fault_of(face_fault_of(map, gaps))
}

/// Faces that disagree as a fault of a map.
fn fault_of(found: Option<FaceFault>) -> Option<MapFault>
    ensures { result ≡ option_map Face found }
{
    match found {
        Some(fault) => Some(MapFault::Face(fault)),
        None => None,
    }
}
