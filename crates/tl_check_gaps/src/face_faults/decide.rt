//! Whether faces agree, by what a sweep has told of gaps.
ghost use Rattle.std.specs.Prelude.{◌≡◌, [], None, Some, All};
ghost use Rattle.tl_check_planar.specs.Planar.{IsPlanar};
ghost use Rattle.tl_check_planar.specs.ByHeight.Heights.{widest};
ghost use Rattle.tl_check_faces.specs.Facing.{FacesAgree};
ghost use Rattle.tl_check_faces.specs.Odd.{IsLowestOddGap};
ghost use Rattle.tl_check_faces.specs.declared.fault.FaceFault.{FaceFault};
ghost use Rattle.tl_check_faces.specs.Faults.{IsTrueFaceFault};

use crate::face_faults::find::face_fault;
use tl_check_faces::{FaceFault, OddGap};
use tl_map_county::Map;

/// Faces of a map that disagree, where its chains are planar, by gaps that a sweep has told: what is told of the first of these, if
/// there is one. Which one it is of those that [`crate::face_faults::all_face_faults`] tells is left open.
pub fn face_fault_of(map: &Map, gaps: &[OddGap]) -> Option<FaceFault>
    requires planar { IsPlanar map.now.chains }
    requires odd { All (IsLowestOddGap widest map.now.chains) gaps.now }
    requires agree { gaps.now ≡ [] → FacesAgree map.now.chains }
    ensures agree { result ≡ None → FacesAgree map.now.chains }
    ensures fault { (fault : FaceFault) → result ≡ Some fault → IsTrueFaceFault map.now fault }
{
    if gaps.is_empty() {
        return None;
    }
    Some(face_fault(map, gaps[0]))
}
