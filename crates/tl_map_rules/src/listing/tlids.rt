//! Faults that the TLIDs of chains, shapes and sides tell.

ghost use Rattle.std.specs.Prelude.{◌≡◌, ℕ, List, [], OnOk, IfOk, map};
ghost use Rattle.std.specs.List.Sorted.{IsNonDecreasing, IsNonDecreasingBy, IsPermutation};
ghost use Rattle.tl_record.specs.declared.record.Record.{Record};
ghost use Rattle.tl_map_rules.specs.declared.entry.ChainEntry.{ChainEntry};
ghost use Rattle.tl_map_rules.specs.ChainsOf.{shape_count};
ghost use Rattle.tl_map_rules.specs.Listing.Keeping.Told.{AreTold, AreChainsTold};
ghost use Rattle.tl_map_rules.specs.Listing.Keeping.Numbers.{StandAsOften, chains_with, sides_with, with_sides};
ghost use Rattle.tl_map_rules.specs.Listing.Keeping.Runs.{AreInOrder, AreShapes};

use crate::listing::numbers::{Numbered, push_missing, push_repeats};
use crate::listing::runs::push_shapes;
use crate::listing::shape::ShapeSummary;
use crate::{ChainEntry, RecordFault};
use std::alloc::{AllocError, Global};
use tl_map_county::presort_by_rank;

/// Sorts chains by TLID.
pub fn sort_chains(alloc: Global, chains: &mut Vec<ChainEntry>) -> Result<(), AllocError>
    ensures ordered { OnOk result (IsNonDecreasingBy (λ (c : ChainEntry). c.tlid) chains.new.items) }
    ensures moved { OnOk result (IsPermutation chains.old.items chains.new.items) }
{
    presort_by_rank(alloc, chains)?;
    chains.sort_unstable_by_key(|chain| chain.tlid);
    Ok(())
}

/// The TLIDs of chains.
pub fn tlids_of_chains(alloc: Global, chains: &[ChainEntry]) -> Result<Vec<u64>, AllocError>
    ensures { IfOk result (λ tlids. tlids.items ≡ map (λ c. c.tlid) chains.now) }
{
    let mut tlids = Vec::with_capacity(alloc, chains.len())?;
    for chain in chains {
        tlids.push(chain.tlid)?;
    }
    Ok(tlids)
}

/// The TLIDs of sorted shapes.
pub fn tlids_of_shapes(alloc: Global, shapes: &[ShapeSummary]) -> Result<Vec<u64>, AllocError>
    ensures { IfOk result (λ tlids. tlids.items ≡ map (λ s. s.tlid) shapes.now) }
{
    let mut tlids = Vec::with_capacity(alloc, shapes.len())?;
    for shape in shapes {
        tlids.push(shape.tlid)?;
    }
    Ok(tlids)
}

/// Tells of chains and shapes, of which no fault is told yet, which TLIDs stand twice, have no chain, are out of
/// sequence or have a gap. Says whether none has such a fault.
pub fn push_chains(
    faults: &mut Vec<RecordFault>,
    chains: &[u64],
    tlids: &[u64],
    shapes: &[ShapeSummary],
) -> Result<bool, AllocError>
    requires none { faults.old.items ≡ [] }
    requires chains { IsNonDecreasing chains.now }
    requires tlids { IsNonDecreasing tlids.now }
    requires shapes { AreInOrder shapes.now }
    ensures { (rs : List Record) → StandAsOften (chains_with rs) chains.now → StandAsOften (shape_count rs) tlids.now →
        AreShapes rs shapes.now → IfOk result (λ joined. AreChainsTold rs joined faults.new.items) }
{
    push_repeats(faults, Numbered::DuplicateChain, chains)?;
    push_missing(faults, Numbered::ShapeWithoutChain, tlids, chains)?;
    push_shapes(faults, shapes)?;
    Ok(faults.is_empty())
}

/// Tells of sorted TLIDs which chains miss sides, which sides miss a chain, and which sides stand twice.
pub fn push_sides(
    faults: &mut Vec<RecordFault>,
    chains: &[u64],
    sides: &[u64],
) -> Result<(), AllocError>
    requires chains { IsNonDecreasing chains.now }
    requires sides { IsNonDecreasing sides.now }
    ensures { (rs : List Record) (codes : List ℕ) → StandAsOften (chains_with rs) chains.now →
        StandAsOften (sides_with rs) sides.now → AreTold rs codes faults.old.items →
        OnOk result (AreTold rs (with_sides codes) faults.new.items) }
{
    push_missing(faults, Numbered::ChainWithoutSides, chains, sides)?;
    push_missing(faults, Numbered::SidesWithoutChain, sides, chains)?;
    push_repeats(faults, Numbered::DuplicateSides, sides)
}
