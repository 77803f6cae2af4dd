//! Chains with their shapes: which are one point, and how many segments all have.

ghost use Rattle.std.specs.Prelude.{◌≡◌, ◌^◌, ◌-◌, ◌<◌, OnOk, length, min, sum_by, slice_index_or};
ghost use Rattle.std.specs.List.Sorted.{IsNonDecreasingBy};
ghost use Rattle.tl_map_rules.specs.declared.entry.ChainEntry.{ChainEntry};
ghost use Rattle.tl_map_rules.specs.Listing.Keeping.Told.{Tells};
ghost use Rattle.tl_map_rules.specs.Listing.Keeping.Runs.{AreInOrder, chain_steps, is_one_point};
ghost use Rattle.tl_map_rules.specs.Listing.Keeping.Chains.{is_alone, IsOnePointFault, steps_with};

use crate::listing::runs::{is_in_sequence, joined_traces, run_at, seen_of_run};
use crate::listing::shape::{Seen, ShapeSummary, with_point};
use crate::{ChainEntry, RecordFault};
use std::alloc::AllocError;
use tl_map_county::first_not_below;

/// Has the chain at a place of sorted chains a TLID that no other has?
fn stands_alone(chains: &[ChainEntry], place: usize) -> bool
    requires within { place < length chains.now }
    requires order { IsNonDecreasingBy (λ (c : ChainEntry). c.tlid) chains.now }
    ensures { (d : ChainEntry) → result ≡ is_alone chains.now (slice_index_or chains.now place d).tlid }
{
    let tlid = chains[place].tlid;
    if place > 0 && chains[place - 1].tlid == tlid {
        return false;
    }
    place + 1 == chains.len() || chains[place + 1].tlid != tlid
}

/// How many segments a chain has with what is seen of its shapes.
fn steps_of(chain: ChainEntry, seen: Seen) -> u32
    ensures { result ≡ chain_steps chain seen }
{
    let first = with_point(None, chain.from);
    with_point(joined_traces(Some(first), seen.trace), chain.to).steps
}

/// Are the shapes in sequence and without a gap, and all points of the chain one point?
fn is_point(chain: ChainEntry, run: &[ShapeSummary]) -> bool
    ensures { result ≡ is_one_point chain run.now }
{
    let seen = seen_of_run(run);
    (is_in_sequence(run) && !seen.gap) && steps_of(chain, seen) == 0
}

/// Tells of sorted chains with sorted shapes which have a TLID of their own and are one point.
pub fn push_points(
    faults: &mut Vec<RecordFault>,
    chains: &[ChainEntry],
    shapes: &[ShapeSummary],
) -> Result<(), AllocError>
    requires chains { IsNonDecreasingBy (λ (c : ChainEntry). c.tlid) chains.now }
    requires shapes { AreInOrder shapes.now }
    ensures { OnOk result (Tells (IsOnePointFault chains.now shapes.now (length chains.now))
        faults.old.items faults.new.items) }
{
    let mut start = 0;
    for place in 0..chains.len() {
        let chain = chains[place];
        start = first_not_below(shapes, start, chain.tlid);
        if stands_alone(chains, place) && is_point(chain, run_at(shapes, start, chain.tlid)) {
            faults.push(RecordFault::DegenerateChain { tlid: chain.tlid })?;
        }
    }
    Ok(())
}

/// How many segments sorted chains have with sorted shapes. Where several chains have a TLID its shapes are looked at
/// for each, which may take long.
pub fn count_segments(chains: &[ChainEntry], shapes: &[ShapeSummary]) -> u64
    requires chains { IsNonDecreasingBy (λ (c : ChainEntry). c.tlid) chains.now }
    requires shapes { AreInOrder shapes.now }
    ensures { result ≡ min (sum_by (steps_with shapes.now) chains.now) (2 ^ 64 - 1) }
{
    let mut start = 0;
    let mut segments = 0u64;
    for chain in chains {
        start = first_not_below(shapes, start, chain.tlid);
        let steps = steps_of(*chain, seen_of_run(run_at(shapes, start, chain.tlid)));
        segments = segments.saturating_add(u64::from(steps));
    }
    segments
}
