//! What the sweep does that decides: at each vertex it counts how often facing sides differ, tells of gaps and looks for a meet.
ghost use Rattle.std.specs.Prelude.{◌≡◌, None, Some, [], IfOk, IfSome};
ghost use Rattle.tl_check_planar.specs.Searching.{IsTrueMeet};
ghost use Rattle.tl_check_active.specs.Blocks.Lined.{list_of};
ghost use Rattle.tl_check_active.specs.Passed.{HasPassed};
ghost use Rattle.tl_check_gaps.specs.Keeping.Spotted.{AreMarks};
ghost use Rattle.tl_check_sweep.specs.Keeping.Exact.{IsBefore};

use crate::exact::pass_exactly;
use crate::noting::note;
use crate::suspects::{find_meet, list_suspects};
use std::alloc::{AllocError, Global};
use tl_check_active::blocks::{Line, Places};
use tl_check_active::{BothSides, Events, Watcher, pass};
use tl_check_gaps::{Gaps, InnerPoints, Watch};
use tl_check_planar::Meet;
use tl_geom::Point;
use tl_map_county::Map;

/// How a sweep passes vertices.
#[derive(Clone, Copy, PartialEq, Eq)]
pub enum Care {
    /// By places that nothing says to be right. Where a test fails, a meet may be found there.
    Quick,
    /// By places that are known by turns. Where a test fails, there is a meet.
    Exact,
}

/// A sweep that decides whether chains are planar.
#[derive(Clone, Copy)]
pub struct Deciding {
    pub alloc: Global,
    pub care: Care,
    /// The gaps that are asked for.
    pub asked: Gaps,
}

/// What it notes on its way.
#[derive(Drop)]
pub struct Findings {
    /// How often facing sides differ along the list, if that is counted.
    pub gaps: Option<u64>,
    pub spots: InnerPoints,
    pub watch: Watch,
    /// Two segments that meet where they may not.
    pub found: Option<Meet>,
}

impl Findings {
    /// Nothing is found yet. The error is that memory was refused.
    pub fn new(alloc: Global, map: &Map, asked: Gaps) -> Result<Findings, AllocError>
        ensures none { IfOk result (λ notes. notes.gaps ≡ Some 0) }
        ensures marks { IfOk result (λ notes. AreMarks map.now notes.spots.marks.items) }
        ensures asked { IfOk result (λ notes. notes.watch.asked ≡ asked) }
        ensures untold { IfOk result (λ notes. notes.watch.told.items ≡ []) }
    {
        Ok(Findings {
            gaps: Some(0),
            spots: InnerPoints::new(alloc, map)?,
            watch: Watch::new(alloc, asked),
            found: None,
        })
    }
}

impl Watcher for Deciding {
    ghost use Rattle.tl_check_sweep.specs.Keeping.UnderWay.{IsUnderWay, HasStopped};

    type Notes = Findings;

    ghost keeps = { λ deciding notes m events from list. IsUnderWay deciding.asked notes m events from list };

    ghost stops = { λ deciding notes m. HasStopped deciding.care notes.found m };

    /// Looks at the points of polygons.
    #[inline(always)]
    fn look(
        &self,
        notes: &mut Findings,
        map: &Map,
        line: &mut Line,
        events: &Events,
        from: usize,
    ) -> Result<(), AllocError> {
        notes.spots.mark_below(map, line, events, from, notes.gaps)
    }

    /// Where the vertex isn't passed, a meet is found, or a test failed and no meet was found there.
    #[inline(always)]
    fn pass(
        &self,
        notes: &mut Findings,
        map: &Map,
        events: &Events,
        from: usize,
        _to: usize,
        line: &mut Line,
        outs: &mut Vec<u32>,
        ins: &mut Vec<u32>,
        places: &mut Places,
    ) -> Result<bool, AllocError> {
        let p = events.point(from);
        let Some(both) = step(
            self.alloc,
            map,
            p,
            self.care,
            line,
            outs,
            ins,
            places,
            &mut notes.found,
        )?
        else {
            return Ok(false);
        };
        note(map, p, both, outs, ins, &mut notes.gaps, &mut notes.watch)?;
        Ok(true)
    }
}

/// Passes the vertex at a point, with the segments that end there and those that begin there in any order. Where it isn't passed, a meet is
/// found, or a test failed and no meet was found there.
#[inline(always)]
fn step(
    alloc: Global,
    map: &Map,
    p: Point,
    care: Care,
    line: &mut Line,
    outs: &mut Vec<u32>,
    ins: &mut Vec<u32>,
    places: &mut Places,
    found: &mut Option<Meet>,
) -> Result<Option<BothSides>, AllocError>
    requires before { IsBefore map.now.chains p (list_of line.old) outs.old.items ins.old.items }
    ensures passed { IfOk result (λ passed. IfSome passed (HasPassed map.now.chains (list_of line.old) line.new
        outs.old.items outs.new.items ins.old.items ins.new.items)) }
    ensures meet { IfOk result (λ passed. passed ≡ None → IfSome found.new (IsTrueMeet map.now.chains)) }
    ensures exact { care ≡ Care.Exact → IfOk result (λ passed. passed ≡ None → ¬ (found.new ≡ None)) }
{
    match care {
        Care::Quick => {
            let passed = pass(map, p, line, outs, ins, places)?;
            if passed.is_none() {
                *found = find_about(alloc, map, line, outs, ins)?;
            }
            Ok(passed)
        }
        Care::Exact => pass_exactly(alloc, map, p, line, outs, ins, found),
    }
}

/// A meet of two segments that stand about a vertex, if one is found.
fn find_about(
    alloc: Global,
    map: &Map,
    line: &Line,
    outs: &[u32],
    ins: &[u32],
) -> Result<Option<Meet>, AllocError>
    ensures { IfOk result (λ found. IfSome found (IsTrueMeet map.now.chains)) }
{
    let mut suspects = Vec::new(alloc);
    list_suspects(line, outs, ins, &mut suspects)?;
    Ok(find_meet(map, &suspects))
}
