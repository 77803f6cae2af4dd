//! The decision of a map: its first fault, or all.

ghost use Rattle.std.specs.Prelude.{◌≡◌, ◌∷◌, [], ℕ, Bool, IfOk, MatchOption};
ghost use Rattle.tl_map_county.specs.TheMap.{TheMap};
ghost use Rattle.tl_check_planar.specs.Planar.{IsPlanar};
ghost use Rattle.tl_check_planar.specs.Searching.{IsTrueMeet};
ghost use Rattle.tl_check_sides.specs.Sides.{SidesAgree};
ghost use Rattle.tl_check_sweep.specs.Searched.{IsSearched};
ghost use Rattle.tl_check_verdict.specs.Sound.{IsSoundFor};
ghost use Rattle.tl_check_verdict.specs.Truth.{IsTrueOfMapFor};
ghost use Rattle.tl_decide.specs.Deciding.{AreDecided, HasRings, IsDecided};
ghost use Rattle.tl_decide.specs.Keeping.Gapped.{gaps_for};
ghost use Rattle.tl_decide.specs.Keeping.Tracing.{IsTraced};

use crate::agreeing::list_agreeing;
use crate::asked::{Asked, Decided, Depth, Told};
use crate::differing::list_differing;
use crate::first::{first_agreeing, first_fault};
use crate::meets::list_by_search;
use crate::traced::{Traced, trace};
use std::alloc::Global;
use tl_build_propose::propose_walks;
use tl_check_gaps::Gaps;
use tl_check_planar::Meet;
use tl_check_sweep::{SweepReport, Swept, sweep};
use tl_check_verdict::MapFault;
use tl_map_county::Map;
use tl_tree_index::Memory;

/// Decides a map: whether it keeps what is asked of it, and if it doesn't, what is wrong with it, a first fault or all. It is swept once. Which of
/// several faults is the first is open. An error says that memory was refused.
pub fn decide(alloc: Global, map: &Map, asked: Asked) -> Result<Decided, Memory>
    // No fault is told exactly where the map keeps what is asked of it. One that is told is true, or all are told, in order. Where chains are planar
    // and sides agree, so many rings are told as the boundaries have, and the walks along them, where these are asked for.
    ensures { IfOk result (IsDecided asked map.now) }
{
    let Ok(report) = sweep(alloc, map, gaps_for(asked.depth, asked.faces)) else {
        return Err(Memory);
    };
    match report.swept {
        Swept::Placed | Swept::Planar => decide_planar(alloc, map, asked, report),
        Swept::Meet(meet) => decide_met(alloc, map, asked, meet),
    }
}

/// Which gaps a sweep is asked for: all, where all faces that disagree are to be told.
fn gaps_for(depth: Depth, faces: bool) -> Gaps
    ensures { result ≡ gaps_for depth faces }
{
    match depth {
        Depth::First => Gaps::First,
        Depth::All => if faces { Gaps::All } else { Gaps::First },
    }
}

/// The same where two segments meet.
fn decide_met(alloc: Global, map: &Map, asked: Asked, meet: Meet) -> Result<Decided, Memory>
    requires { IsTrueMeet map.now.chains meet }
    ensures { IfOk result (IsDecided asked map.now) }
{
    let told = tell_met(alloc, map, asked.depth, asked.faces, meet)?;
    Ok(decided_without_rings(alloc, told))
}

/// That these two meet, or all faults.
fn tell_met(alloc: Global, map: &Map, depth: Depth, faces: bool, meet: Meet) -> Result<Told, Memory>
    requires { IsTrueMeet map.now.chains meet }
    ensures { IfOk result (λ told. AreDecided depth faces map.now told.faults.items told.touched) }
{
    match depth {
        Depth::First => one(alloc, MapFault::Meet(meet)),
        Depth::All => list_by_search(alloc, map, meet),
    }
}

/// The same where the chains are planar.
fn decide_planar(
    alloc: Global,
    map: &Map,
    asked: Asked,
    report: SweepReport,
) -> Result<Decided, Memory>
    requires searched { IsSearched map.now (gaps_for asked.depth asked.faces) report }
    requires planar { IsPlanar map.now.chains }
    ensures { IfOk result (IsDecided asked map.now) }
{
    match trace(alloc, map, asked.walks)? {
        Some(traced) => decide_agreeing(alloc, map, asked, report, traced),
        None => decide_differing(alloc, map, asked, report),
    }
}

/// The same where sides don't agree.
fn decide_differing(
    alloc: Global,
    map: &Map,
    asked: Asked,
    report: SweepReport,
) -> Result<Decided, Memory>
    requires searched { IsSearched map.now (gaps_for asked.depth asked.faces) report }
    requires planar { IsPlanar map.now.chains }
    requires differ { ¬ SidesAgree map.now.chains }
    ensures { IfOk result (IsDecided asked map.now) }
{
    let told = tell_differing(alloc, map, asked.depth, asked.faces, report)?;
    Ok(decided_without_rings(alloc, told))
}

/// The first fault of such a map, or all.
fn tell_differing(
    alloc: Global,
    map: &Map,
    depth: Depth,
    faces: bool,
    report: SweepReport,
) -> Result<Told, Memory>
    requires searched { IsSearched map.now (gaps_for depth faces) report }
    requires planar { IsPlanar map.now.chains }
    requires differ { ¬ SidesAgree map.now.chains }
    ensures { IfOk result (λ told. AreDecided depth faces map.now told.faults.items told.touched) }
{
    match depth {
        Depth::First => tell_first_by_walks(alloc, map, faces, &report),
        Depth::All => list_differing(alloc, map),
    }
}

/// The first fault of a map whose chains are planar, by its walks.
fn tell_first_by_walks(
    alloc: Global,
    map: &Map,
    faces: bool,
    report: &SweepReport,
) -> Result<Told, Memory>
    requires searched { IsSearched map.now Gaps.First report.now }
    requires planar { IsPlanar map.now.chains }
    ensures { IfOk result (λ told. AreDecided Depth.First faces map.now told.faults.items told.touched) }
{
    // that each chain has two points or more
    map.has_proper_chains();
    let Ok(walks) = propose_walks(alloc, map) else {
        return Err(Memory);
    };
    one_if_any(alloc, first_fault(alloc, map, faces, report, &walks)?)
}

/// The same where sides agree, by what was traced.
fn decide_agreeing(
    alloc: Global,
    map: &Map,
    asked: Asked,
    report: SweepReport,
    traced: Traced,
) -> Result<Decided, Memory>
    requires searched { IsSearched map.now (gaps_for asked.depth asked.faces) report }
    requires planar { IsPlanar map.now.chains }
    requires traced { IsTraced asked.walks map.now traced }
    ensures { IfOk result (IsDecided asked map.now) }
{
    let Told { faults, touched } = tell_agreeing(alloc, map, asked.depth, asked.faces, report)?;
    let Traced { rings, walks } = traced;
    Ok(Decided {
        faults,
        touched,
        rings,
        walks,
    })
}

/// The first fault of such a map, if it has one, or all.
fn tell_agreeing(
    alloc: Global,
    map: &Map,
    depth: Depth,
    faces: bool,
    report: SweepReport,
) -> Result<Told, Memory>
    requires searched { IsSearched map.now (gaps_for depth faces) report }
    requires planar { IsPlanar map.now.chains }
    requires rings { (rings : ℕ) × HasRings map.now rings }
    ensures { IfOk result (λ told. AreDecided depth faces map.now told.faults.items told.touched) }
{
    match depth {
        Depth::First => one_if_any(alloc, first_agreeing(alloc, map, faces, &report)?),
        Depth::All => list_agreeing(alloc, map, faces, report),
    }
}

/// What is decided of a map of which no rings are told.
fn decided_without_rings(alloc: Global, told: Told) -> Decided
    ensures faults { result.faults ≡ told.faults }
    ensures touched { result.touched ≡ told.touched }
{
    let Told { faults, touched } = told;
    Decided {
        faults,
        touched,
        rings: 0,
        walks: Vec::new(alloc),
    }
}

/// A fault alone, if there is one.
fn one_if_any(alloc: Global, found: Option<MapFault>) -> Result<Told, Memory>
    ensures { (faces : Bool) (m : TheMap) → MatchOption found (IsSoundFor faces m) (IsTrueOfMapFor faces m) →
        IfOk result (λ told. AreDecided Depth.First faces m told.faults.items told.touched) }
{
    match found {
        Some(fault) => one(alloc, fault),
        None => Ok(Told {
            faults: Vec::new(alloc),
            touched: 0,
        }),
    }
}

/// A fault alone.
fn one(alloc: Global, fault: MapFault) -> Result<Told, Memory>
    ensures { IfOk result (λ told. told.faults.items ≡ fault ∷ []) }
{
    let mut faults = Vec::new(alloc);
    match faults.push(fault) {
        Ok(()) => Ok(Told { faults, touched: 0 }),
        Err(_) => Err(Memory),
    }
}
