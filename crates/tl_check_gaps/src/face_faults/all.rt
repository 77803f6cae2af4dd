//! All faces that disagree, as a user is told of them.
ghost use Rattle.std.specs.Prelude.{◌≡◌, ◌↔◌, [], All, IfOk};
ghost use Rattle.tl_check_planar.specs.Planar.{IsPlanar};
ghost use Rattle.tl_check_planar.specs.ByHeight.Heights.{widest};
ghost use Rattle.tl_check_faces.specs.Facing.{FacesAgree};
ghost use Rattle.tl_check_faces.specs.Odd.{IsLowestOddGap};
ghost use Rattle.tl_check_faces.specs.Faults.{IsTrueFaceFault};
ghost use Rattle.tl_check_faces.specs.AllFaults.{AreAllFaceFaults};
ghost use Rattle.tl_check_gaps.specs.Gaps.{AreAllOddGaps};
ghost use Rattle.tl_check_gaps.specs.FaceFaults.Keeping.Told.{AreFaultsOf};

use crate::face_faults::find::face_fault;
use crate::has_near_points;
use std::alloc::{AllocError, Global};
use tl_check_faces::{FaceFault, OddGap};
use tl_map_county::Map;

/// All faces of a map that disagree, where its chains are planar: one fault of each of the gaps that a sweep tells where all are asked for,
/// in their order. There is none exactly where faces agree. The error is that memory was refused.
pub fn all_face_faults(
    alloc: Global,
    map: &Map,
    gaps: &[OddGap],
) -> Result<Vec<FaceFault>, AllocError>
    requires planar { IsPlanar map.now.chains }
    requires told { AreAllOddGaps widest map.now.chains gaps.now }
    // Each fault is true of the map.
    ensures true_ones { IfOk result (λ faults. All (IsTrueFaceFault map.now) faults.items) }
    // They are all that there are: one of each two segments that name different sides along a line of one height.
    ensures all { IfOk result (λ faults. AreAllFaceFaults map.now faults.items) }
    // There is none exactly where faces agree.
    ensures agree { IfOk result (λ faults. (faults.items ≡ []) ↔ FacesAgree map.now.chains) }
{
    has_near_points(map);
    faults_of(alloc, map, gaps)
}

/// The faults of gaps, in their order.
fn faults_of(alloc: Global, map: &Map, gaps: &[OddGap]) -> Result<Vec<FaceFault>, AllocError>
    requires planar { IsPlanar map.now.chains }
    requires odd { All (IsLowestOddGap widest map.now.chains) gaps.now }
    ensures { IfOk result (λ faults. AreFaultsOf map.now gaps.now faults.items) }
{
    let mut faults = Vec::with_capacity(alloc, gaps.len())?;
    for k in 0..gaps.len() {
        faults.push(face_fault(map, gaps[k]))?;
    }
    Ok(faults)
}
