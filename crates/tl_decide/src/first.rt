//! The first fault of a map whose chains are planar.

ghost use Rattle.std.specs.Prelude.{ℕ, IfOk, MatchOption, map as map_list};
ghost use Rattle.tl_check_planar.specs.Planar.{IsPlanar};
ghost use Rattle.tl_check_gaps.specs.declared.watch.Gaps.TheVariants.{First};
ghost use Rattle.tl_check_inside.specs.Suspects.{AreSuspects};
ghost use Rattle.tl_check_sides.specs.Walks.{AreWalks};
ghost use Rattle.tl_check_sweep.specs.Searched.{IsSearched};
ghost use Rattle.tl_check_verdict.specs.Sound.{IsSound, IsSoundFor};
ghost use Rattle.tl_check_verdict.specs.Truth.{IsTrueOfMap, IsTrueOfMapFor};
ghost use Rattle.tl_decide.specs.Deciding.{HasRings};

use crate::faces::find_face_fault;
use crate::points::misplaced_suspect;
use std::alloc::Global;
use tl_build_propose::find_sides_at_odds;
use tl_check_sides::cells::find_cells_at_odds;
use tl_check_sweep::SweepReport;
use tl_check_verdict::MapFault;
use tl_map_county::Map;
use tl_tree_index::Memory;

/// A fault of a map whose chains are planar, if it has one, by what a sweep has said of it and by its walks. Where sides and zero-cell ids are at
/// odds, it is one of these ids; a suspect whose point is misplaced comes behind both, and faces that disagree, where they are asked for,
/// come last.
pub fn first_fault(
    alloc: Global,
    map: &Map,
    faces: bool,
    report: &SweepReport,
    walks: &[Vec<u32>],
) -> Result<Option<MapFault>, Memory>
    requires searched { IsSearched map.now First report.now }
    requires planar { IsPlanar map.now.chains }
    requires walks { AreWalks map.now.chains (map_list (λ w. w.items) walks.now) }
    // None is told exactly where the map keeps what is asked of it, and each that is told is true.
    ensures { IfOk result (λ found. MatchOption found (IsSoundFor faces map.now) (IsTrueOfMapFor faces map.now)) }
{
    // that each chain has two points or more
    map.has_proper_chains();
    match find_sides_at_odds(map, walks) {
        Some(side) => Ok(Some(first_differing(alloc, map, side)?)),
        None => first_agreeing(alloc, map, faces, report),
    }
}

/// Zero-cell ids that are at odds, or else these sides.
fn first_differing(alloc: Global, map: &Map, side: MapFault) -> Result<MapFault, Memory>
    requires { IsTrueOfMap map.now side }
    ensures { IfOk result (IsTrueOfMap map.now) }
{
    match find_cells_at_odds(alloc, map)? {
        Some(odds) => Ok(MapFault::Cell(odds)),
        None => Ok(side),
    }
}

/// A fault of such a map whose sides agree.
pub fn first_agreeing(
    alloc: Global,
    map: &Map,
    faces: bool,
    report: &SweepReport,
) -> Result<Option<MapFault>, Memory>
    requires searched { IsSearched map.now First report.now }
    requires planar { IsPlanar map.now.chains }
    requires rings { (rings : ℕ) × HasRings map.now rings }
    ensures { IfOk result (λ found. MatchOption found (IsSoundFor faces map.now) (IsTrueOfMapFor faces map.now)) }
{
    match first_but_faces(alloc, map, &report.suspects)? {
        Some(fault) => Ok(Some(fault)),
        None => Ok(find_face_fault(map, faces, &report.gaps)),
    }
}

/// A fault of such a map that isn't of faces: zero-cell ids that are at odds, or a suspect whose point is misplaced.
fn first_but_faces(alloc: Global, map: &Map, suspects: &[u32]) -> Result<Option<MapFault>, Memory>
    requires planar { IsPlanar map.now.chains }
    requires rings { (rings : ℕ) × HasRings map.now rings }
    requires suspects { AreSuspects map.now suspects.now }
    ensures { IfOk result (λ found. MatchOption found (IsSound map.now) (IsTrueOfMap map.now)) }
{
    match find_cells_at_odds(alloc, map)? {
        Some(odds) => Ok(Some(MapFault::Cell(odds))),
        None => misplaced_suspect(alloc, map, suspects),
    }
}
