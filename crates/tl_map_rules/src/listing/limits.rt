//! Faults of a county that has too much of something.

ghost use Rattle.std.specs.Prelude.{◌≡◌, ℕ, List, ◌∷◌, OnOk, length};
ghost use Rattle.std.specs.List.{dedup};
ghost use Rattle.std.specs.Prelude.{nat_eq};
ghost use Rattle.tl_record.specs.declared.record.Record.{Record};
ghost use Rattle.tl_map_rules.specs.Listing.Keeping.Told.{Tells, AreTold};
ghost use Rattle.tl_map_rules.specs.Listing.Keeping.Limits.{IsMore, IsMoreOfChains, AreCounts};

use crate::{Limited, RecordFault};
use std::alloc::AllocError;
use tl_map_county::{CHAIN_LIMIT, LANDMARK_LIMIT, POLYGON_LIMIT, SEGMENT_LIMIT};

/// How much a county has of each thing. Where its chains are not joined it has no segments.
#[derive(Clone, Copy)]
pub struct RecordCounts {
    pub chains: usize,
    pub segments: u64,
    pub polygons: usize,
    pub landmarks: usize,
}

/// How many different numbers there are in a sorted list. They are left in it once each.
pub fn count_distinct(numbers: &mut Vec<u64>) -> usize
    ensures { result ≡ length (dedup nat_eq numbers.old.items) }
{
    numbers.dedup();
    numbers.len()
}

/// Tells that there is too much of something, if there is.
fn push_if(faults: &mut Vec<RecordFault>, is_more: bool, what: Limited) -> Result<(), AllocError>
    ensures { OnOk result (Tells (IsMore is_more what) faults.old.items faults.new.items) }
{
    if is_more {
        faults.push(RecordFault::TooMany(what))?;
    }
    Ok(())
}

/// Tells whether there are too many chains or too many segments.
pub fn push_too_many_of_chains(
    faults: &mut Vec<RecordFault>,
    chains: usize,
    segments: u64,
) -> Result<(), AllocError>
    ensures { OnOk result (Tells (IsMoreOfChains chains segments) faults.old.items faults.new.items) }
{
    push_if(faults, chains > CHAIN_LIMIT as usize, Limited::Chains)?;
    push_if(faults, segments > SEGMENT_LIMIT as u64, Limited::Segments)
}

/// Tells what there is too much of.
pub fn push_too_many(faults: &mut Vec<RecordFault>, counts: RecordCounts) -> Result<(), AllocError>
    ensures { (rs : List Record) (codes : List ℕ) → AreCounts rs counts → AreTold rs codes faults.old.items →
        OnOk result (AreTold rs (13 ∷ codes) faults.new.items) }
{
    push_too_many_of_chains(faults, counts.chains, counts.segments)?;
    push_if(
        faults,
        counts.polygons > POLYGON_LIMIT as usize,
        Limited::Polygons,
    )?;
    push_if(
        faults,
        counts.landmarks > LANDMARK_LIMIT as usize,
        Limited::Landmarks,
    )
}
