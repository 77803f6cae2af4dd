//! The shapes of each TLID, and the faults that they tell.

ghost use Rattle.std.specs.Prelude.{◌≡◌, ℕ, ◌<◌, ◌≤◌, OnOk, length, slice_index_or};
ghost use Rattle.std.specs.List.Sorted.{IsPermutation};
ghost use Rattle.tl_map_rules.specs.declared.listing.shape.ShapeSummary.{ShapeSummary};
ghost use Rattle.tl_map_rules.specs.Listing.Keeping.Told.{Tells};
ghost use Rattle.tl_map_rules.specs.Listing.Keeping.Runs.{AreInOrder, run_of, join, join_traces, seen_in_run};
ghost use Rattle.tl_map_rules.specs.Listing.Keeping.Runs.{in_sequence, run_fault, IsRunFault};

use crate::RecordFault;
use crate::listing::shape::{NOTHING_SEEN, Seen, ShapeSummary, Trace};
use std::alloc::{AllocError, Global};
use tl_map_county::{presort_by_rank, run_end};

/// Sorts shapes by TLID, and those of one TLID by RTSQ.
pub fn sort_shapes(alloc: Global, shapes: &mut Vec<ShapeSummary>) -> Result<(), AllocError>
    ensures ordered { OnOk result (AreInOrder shapes.new.items) }
    ensures moved { OnOk result (IsPermutation shapes.old.items shapes.new.items) }
{
    presort_by_rank(alloc, shapes)?;
    shapes.sort_unstable_by_key(|shape| (shape.tlid, shape.rtsq));
    Ok(())
}

/// The shapes of a TLID, where those before a place are below it, and the one there is not.
pub fn run_at(shapes: &[ShapeSummary], place: usize, tlid: u64) -> &[ShapeSummary]
    requires order { AreInOrder shapes.now }
    requires within { place ≤ length shapes.now }
    requires below { (k : ℕ) (d : ShapeSummary) → k < place → (slice_index_or shapes.now k d).tlid < tlid }
    requires from { (d : ShapeSummary) → place < length shapes.now → tlid ≤ (slice_index_or shapes.now place d).tlid }
    ensures { result.now ≡ run_of shapes.now tlid }
{
    let end = run_end(shapes, place, tlid);
    &shapes[place..end]
}

/// Do the RTSQ count up from 1?
pub fn is_in_sequence(run: &[ShapeSummary]) -> bool
    ensures { result ≡ in_sequence run.now }
{
    for place in 0..run.len() {
        if usize::from(run[place].rtsq) != place + 1 {
            return false;
        }
    }
    true
}

/// What is seen of the pairs of shapes, one behind the other.
pub fn seen_of_run(run: &[ShapeSummary]) -> Seen
    ensures { result ≡ seen_in_run run.now }
{
    let mut seen = NOTHING_SEEN;
    for shape in run {
        seen = joined(seen, shape.seen);
    }
    seen
}

/// What is seen of both, one behind the other.
fn joined(seen: Seen, next: Seen) -> Seen
    ensures { result ≡ join seen next }
{
    Seen {
        trace: joined_traces(seen.trace, next.trace),
        gap: (seen.gap || next.gap) || (seen.unused && next.trace.is_some()),
        unused: seen.unused || next.unused,
    }
}

/// The used points of both, one behind the other.
pub fn joined_traces(trace: Option<Trace>, next: Option<Trace>) -> Option<Trace>
    ensures { result ≡ join_traces trace next }
{
    let Some(next) = next else {
        return trace;
    };
    let Some(trace) = trace else {
        return Some(next);
    };
    let between = if next.first == trace.last { 0 } else { 1 };
    Some(Trace {
        first: trace.first,
        last: next.last,
        steps: trace
            .steps
            .saturating_add(next.steps)
            .saturating_add(between),
    })
}

/// The fault that the shapes of a TLID have.
fn fault_of_run(tlid: u64, run: &[ShapeSummary]) -> Option<RecordFault>
    ensures { result ≡ run_fault tlid run.now }
{
    if !is_in_sequence(run) {
        Some(RecordFault::ShapeSequence { tlid })
    } else if seen_of_run(run).gap {
        Some(RecordFault::ShapeGap { tlid })
    } else {
        None
    }
}

/// Tells of each TLID of sorted shapes whether they are out of sequence, or have a gap.
pub fn push_shapes(faults: &mut Vec<RecordFault>, shapes: &[ShapeSummary]) -> Result<(), AllocError>
    requires { AreInOrder shapes.now }
    ensures { OnOk result (Tells (IsRunFault shapes.now (length shapes.now)) faults.old.items faults.new.items) }
{
    for place in 0..shapes.len() {
        let tlid = shapes[place].tlid;
        if place == 0 || shapes[place - 1].tlid != tlid {
            if let Some(fault) = fault_of_run(tlid, run_at(shapes, place, tlid)) {
                faults.push(fault)?;
            }
        }
    }
    Ok(())
}
