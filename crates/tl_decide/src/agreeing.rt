//! All faults of a map whose chains are planar and whose sides agree.

ghost use Rattle.std.specs.Prelude.{◌≡◌, ℕ, true, IfOk, IsTrue, OnOk};
ghost use Rattle.tl_check_planar.specs.Planar.{IsPlanar};
ghost use Rattle.tl_check_planar.specs.ByHeight.Heights.{widest};
ghost use Rattle.tl_check_gaps.specs.Gaps.{AreAllOddGaps};
ghost use Rattle.tl_check_inside.specs.Suspects.{AreSuspects};
ghost use Rattle.tl_check_sides.specs.Sides.{SidesAgree};
ghost use Rattle.tl_check_sweep.specs.Searched.{IsSearched};
ghost use Rattle.tl_decide.specs.Deciding.{AreDecided, HasRings};
ghost use Rattle.tl_decide.specs.declared.asked.Depth.TheVariants.{All as AllFaults};
ghost use Rattle.tl_decide.specs.Keeping.OfMap.{AddsFaces, AddsFacesFor, AreAgreeing};
ghost use Rattle.tl_decide.specs.Keeping.Gapped.{gaps_for};

use crate::asked::Told;
use crate::parts::{push_all_cells, push_suspects};
use crate::tell::push_faces;
use std::alloc::Global;
use tl_check_faces::OddGap;
use tl_check_gaps::face_faults::all_face_faults;
use tl_check_sweep::SweepReport;
use tl_check_verdict::MapFault;
use tl_map_county::Map;
use tl_tree_index::Memory;

/// All faults of such a map, of which a sweep has said this and which has so many rings: zero-cell ids that are at odds, what is wrong with points,
/// and behind these, where they are asked for, faces that disagree.
pub fn list_agreeing(
    alloc: Global,
    map: &Map,
    faces: bool,
    report: SweepReport,
) -> Result<Told, Memory>
    requires searched { IsSearched map.now (gaps_for AllFaults faces) report }
    requires planar { IsPlanar map.now.chains }
    requires rings { (rings : ℕ) × HasRings map.now rings }
    ensures { IfOk result (λ told. AreDecided AllFaults faces map.now told.faults.items told.touched) }
{
    let SweepReport { suspects, gaps, .. } = report;
    let mut faults = list_others(alloc, map, suspects)?;
    push_faces_for(alloc, map, faces, &gaps, &mut faults)?;
    Ok(Told { faults, touched: 0 })
}

/// All faults of such a map but those of faces.
fn list_others(alloc: Global, map: &Map, suspects: Vec<u32>) -> Result<Vec<MapFault>, Memory>
    requires planar { IsPlanar map.now.chains }
    requires agree { SidesAgree map.now.chains }
    requires suspects { AreSuspects map.now suspects.items }
    ensures { IfOk result (λ faults. AreAgreeing map.now faults.items) }
{
    let mut faults = Vec::new(alloc);
    push_all_cells(alloc, map, &mut faults)?;
    push_suspects(alloc, map, None, &[], suspects, &mut faults)?;
    Ok(faults)
}

/// Appends all faces that disagree of such a map, where they are asked for.
fn push_faces_for(
    alloc: Global,
    map: &Map,
    faces: bool,
    gaps: &[OddGap],
    faults: &mut Vec<MapFault>,
) -> Result<(), Memory>
    requires planar { IsPlanar map.now.chains }
    requires agree { SidesAgree map.now.chains }
    requires all { faces ≡ true → AreAllOddGaps widest map.now.chains gaps.now }
    ensures { OnOk result (AddsFacesFor faces map.now faults.old.items faults.new.items) }
{
    if !faces {
        return Ok(());
    }
    push_all_faces(alloc, map, gaps, faults)
}

/// Appends all faces that disagree of such a map.
fn push_all_faces(
    alloc: Global,
    map: &Map,
    gaps: &[OddGap],
    faults: &mut Vec<MapFault>,
) -> Result<(), Memory>
    requires planar { IsPlanar map.now.chains }
    requires agree { SidesAgree map.now.chains }
    requires all { AreAllOddGaps widest map.now.chains gaps.now }
    ensures { OnOk result (AddsFaces map.now faults.old.items faults.new.items) }
{
    let Ok(disagreeing) = all_face_faults(alloc, map, gaps) else {
        return Err(Memory);
    };
    // so that a fault of faces denies that they are true
    map.has_proper_chains();
    push_faces(faults, &disagreeing)
}
