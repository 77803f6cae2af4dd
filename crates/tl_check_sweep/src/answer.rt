//! What a sweep says of a map.
ghost use Rattle.std.specs.Prelude.{◌≡◌, ◌⊎◌, ◌<◌, ℕ, None, Some, length, slice_get, All, Contains, IfOk, IfSome};
ghost use Rattle.tl_map_county.specs.declared.polygons.Polygon.{Polygon};
ghost use Rattle.tl_map_county.specs.TheMap.{TheMap};
ghost use Rattle.tl_check_planar.specs.Planar.{IsPlanar};
ghost use Rattle.tl_check_planar.specs.Searching.{IsTrueMeet};
ghost use Rattle.tl_check_inside.specs.Placed.{IsPlacedIn};
ghost use Rattle.tl_check_faces.specs.Crossings.Headings.{AreProper};
ghost use Rattle.tl_check_planar.specs.ByHeight.Heights.{widest};
ghost use Rattle.tl_check_planar.specs.ByHeight.Neighbours.{IsWide};
ghost use Rattle.tl_check_planar.specs.ByHeight.Slabs.{AreVerticesTested};
ghost use Rattle.tl_check_active.specs.Events.{joined, AreEvents, AreEventsRising, AreMet};
ghost use Rattle.tl_check_active.specs.Ranges.{AreInRange};
ghost use Rattle.tl_check_gaps.specs.Keeping.Spotted.{AreMarks, AreTrueMarks};
ghost use Rattle.tl_check_sweep.specs.Searched.{IsSearched, IsTrueAnswer};
ghost use Rattle.tl_check_sweep.specs.Keeping.Told.{IsTrueSweep};

use crate::meets::meet_at_vertex;
use crate::sweeping::{Care, Deciding, Findings};
use std::alloc::{AllocError, Global};
use tl_check_active::{Events, sweep_over};
use tl_check_faces::OddGap;
use tl_check_gaps::{Gaps, InnerPoints, list_unmarked};
use tl_check_planar::Meet;
use tl_map_county::Map;

/// What a sweep answers.
#[derive(Clone, Copy, PartialEq, Eq)]
pub enum Swept {
    /// The map's chains are planar, and the point of each polygon lies where it has to.
    Placed,
    /// The map's chains are planar. The points of some of its polygons may be misplaced: [`SweepReport::suspects`] has these.
    Planar,
    /// Two segments meet where they may not.
    Meet(Meet),
}

/// What a sweep tells of a map.
#[derive(Drop)]
pub struct SweepReport {
    pub swept: Swept,
    /// Polygons by their numbers: the point of each other one lies where it has to. Where a test of the sweep failed, these are all.
    pub suspects: Vec<u32>,
    /// Gaps whose facing sides differ, those that were asked for; none where segments meet.
    pub gaps: Vec<OddGap>,
}

/// The same on the way, with a mark for each polygon whose point was found to be placed.
#[derive(Drop)]
pub struct Told {
    pub swept: Swept,
    pub marks: Vec<bool>,
    pub gaps: Vec<OddGap>,
}

/// Sweeps over the chains of a map from south to north, and tells that they are planar, or two segments that meet. Of the gaps whose facing
/// sides differ those are told that are asked for: all that there are, each two segments once, at the lowest such gap between them, by
/// rising numbers of the western one and of one such by those of the eastern one, those with no segment on a side before the others; or
/// some of these, if there are any. The error is that memory was refused.
pub fn sweep(alloc: Global, map: &Map, gaps: Gaps) -> Result<SweepReport, AllocError>
    // What is answered is so: it says that the chains are planar exactly where they are, and elsewhere tells a meet of two segments, in order,
    // that conflict by its point. The point of each polygon that isn't listed lies where it has to. Where the chains are planar, each gap is
    // one whose facing sides differ, the lowest between its segments; where there is none, faces agree; and where all are asked for, they are all.
    ensures { IfOk result (IsSearched map.now gaps) }
{
    map.has_proper_chains();
    let Told { swept, marks, gaps } = sweep_ends(alloc, map, gaps)?;
    let suspects = suspects_of(alloc, map, swept, &marks)?;
    Ok(SweepReport {
        swept,
        suspects,
        gaps,
    })
}

/// The polygons whose points weren't found to be placed. Where all were, there are none, and none is looked for.
fn suspects_of(
    alloc: Global,
    map: &Map,
    swept: Swept,
    marks: &[bool],
) -> Result<Vec<u32>, AllocError>
    requires answer { IsTrueAnswer map.now swept }
    requires marks { AreTrueMarks map.now marks.now }
    ensures known { IfOk result (λ suspects. All (λ p. p < length map.now.polygons) suspects.items) }
    ensures others { IfOk result (λ suspects. (p : ℕ) (polygon : Polygon) → slice_get map.now.polygons p ≡ Some polygon →
        Contains suspects.items p ⊎ IsPlacedIn map.now polygon.point p) }
{
    if swept == Swept::Placed {
        return Ok(Vec::new(alloc));
    }
    list_unmarked(alloc, map, marks)
}

/// The same by the ends of all segments.
fn sweep_ends(alloc: Global, map: &Map, gaps: Gaps) -> Result<Told, AllocError>
    requires proper { AreProper map.now.chains }
    ensures { IfOk result (IsTrueSweep map.now gaps) }
{
    let mut events = Events::new(alloc, map)?;
    events.sort(alloc)?;
    sweep_events(alloc, map, &events, gaps)
}

/// The same by all ends, which are sorted.
fn sweep_events(alloc: Global, map: &Map, events: &Events, gaps: Gaps) -> Result<Told, AllocError>
    requires events { AreEvents map.now.chains (joined events.now) }
    requires rising { AreEventsRising (joined events.now) }
    requires met { All (AreMet map.now.chains) events.now }
    requires wide { IsWide widest map.now.chains }
    requires ranges { AreInRange map.now.chains }
    requires proper { AreProper map.now.chains }
    ensures { IfOk result (IsTrueSweep map.now gaps) }
{
    match meet_at_vertex(map, events) {
        Some(meet) => Ok(answer_by_meet(alloc, meet)),
        None => sweep_tested(alloc, map, events, gaps),
    }
}

/// The same where vertices are tested. Where a test of neighbours fails and no meet is found there, which no map is known to bring about, it is
/// swept once more by exact places: then a meet is found, or no test fails.
fn sweep_tested(alloc: Global, map: &Map, events: &Events, gaps: Gaps) -> Result<Told, AllocError>
    requires events { AreEvents map.now.chains (joined events.now) }
    requires rising { AreEventsRising (joined events.now) }
    requires wide { IsWide widest map.now.chains }
    requires ranges { AreInRange map.now.chains }
    requires vertices { AreVerticesTested map.now.chains }
    requires proper { AreProper map.now.chains }
    ensures { IfOk result (IsTrueSweep map.now gaps) }
{
    if let Some(told) = sweep_with(alloc, map, events, gaps, Care::Quick)? {
        return Ok(told);
    }
    match sweep_with(alloc, map, events, gaps, Care::Exact)? {
        Some(told) => Ok(told),
        None => unreachable!(),
    }
}

/// What one sweep tells, unless a test failed and no meet was found there.
fn sweep_with(
    alloc: Global,
    map: &Map,
    events: &Events,
    gaps: Gaps,
    care: Care,
) -> Result<Option<Told>, AllocError>
    requires events { AreEvents map.now.chains (joined events.now) }
    requires rising { AreEventsRising (joined events.now) }
    requires wide { IsWide widest map.now.chains }
    requires ranges { AreInRange map.now.chains }
    requires vertices { AreVerticesTested map.now.chains }
    requires proper { AreProper map.now.chains }
    ensures told { IfOk result (λ told. IfSome told (IsTrueSweep map.now gaps)) }
    ensures exact { care ≡ Care.Exact → IfOk result (λ told. ¬ (told ≡ None)) }
{
    let mut notes = Findings::new(alloc, map, gaps)?;
    let deciding = Deciding {
        alloc,
        care,
        asked: gaps,
    };
    if !sweep_over(alloc, map, events, &deciding, &mut notes)? {
        return Ok(stopped(alloc, notes.found));
    }
    let Findings { spots, watch, .. } = notes;
    let swept = planar(map, &spots);
    let gaps = watch.into_gaps(alloc, map)?;
    Ok(Some(Told {
        swept,
        marks: spots.into_marks(),
        gaps,
    }))
}

/// What is told where a vertex isn't passed, unless no meet was found there.
fn stopped(alloc: Global, found: Option<Meet>) -> Option<Told>
    ensures told { (m : TheMap) (gaps : _) → IfSome found (IsTrueMeet m.chains) → IfSome result (IsTrueSweep m gaps) }
    ensures exact { ¬ (found ≡ None) → ¬ (result ≡ None) }
{
    match found {
        Some(meet) => Some(answer_by_meet(alloc, meet)),
        None => None,
    }
}

/// What is told where two segments meet where they may not.
fn answer_by_meet(alloc: Global, meet: Meet) -> Told
    ensures { (m : TheMap) (gaps : _) → IsTrueMeet m.chains meet → IsTrueSweep m gaps result }
{
    Told {
        swept: Swept::Meet(meet),
        marks: Vec::new(alloc),
        gaps: Vec::new(alloc),
    }
}

/// What is answered where the chains are planar.
fn planar(map: &Map, spots: &InnerPoints) -> Swept
    requires planar { IsPlanar map.now.chains }
    requires marks { AreMarks map.now spots.now.marks.items }
    ensures { IsTrueAnswer map.now result }
{
    if spots.are_placed(map) {
        Swept::Placed
    } else {
        Swept::Planar
    }
}
