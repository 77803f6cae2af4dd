//! All faults of records.

ghost use Rattle.std.specs.Prelude.{◌≡◌, ℕ, List, [], OnOk, IfOk, map};
ghost use Rattle.std.specs.List.Sorted.{IsNonDecreasing, IsNonDecreasingBy};
ghost use Rattle.tl_record.specs.declared.record.Record.{Record};
ghost use Rattle.tl_map_rules.specs.declared.entry.ChainEntry.{ChainEntry};
ghost use Rattle.tl_map_rules.specs.Faults.{HaveNoChainFault};
ghost use Rattle.tl_map_rules.specs.Listing.AllFaults.{AreAllFaults, AreAllChainFaults};
ghost use Rattle.tl_map_rules.specs.Listing.Kept.{HasChains, HasAreas, AreChainTlids};
ghost use Rattle.tl_map_rules.specs.Listing.Keeping.Told.{AreTold};
ghost use Rattle.tl_map_rules.specs.Listing.Keeping.Runs.{AreInOrder};
ghost use Rattle.tl_map_rules.specs.Listing.Keeping.Parts.{AreSegmentsTold, AreChainsListed, AreCountsTold};
ghost use Rattle.tl_map_rules.specs.Listing.Keeping.Parts.{KeepsAreas, AreAreaCounts, all_codes};

use crate::listing::areas::{lands_of_links, push_areas};
use crate::listing::chains::{count_segments, push_points};
use crate::listing::kept::{KeptAreas, NamedSide};
use crate::listing::keys::sort_keys;
use crate::listing::limits::{
    RecordCounts, count_distinct, push_too_many, push_too_many_of_chains,
};
use crate::listing::numbers::sort_numbers;
use crate::listing::order::order_faults;
use crate::listing::runs::sort_shapes;
use crate::listing::shape::ShapeSummary;
use crate::listing::tlids::{
    push_chains, push_sides, sort_chains, tlids_of_chains, tlids_of_shapes,
};
use crate::{ChainEntry, LinkEntry, RecordFault};
use std::alloc::{AllocError, Global};
use tl_record::PolyKey;

/// How many chains and segments records have. Of chains that are known to be few enough there are none.
#[derive(Clone, Copy)]
struct ChainCounts {
    chains: usize,
    segments: u64,
}

/// Tells what sorted lists of chains and shapes tell, where no fault is told yet. Gives how many segments there are, and none
/// where the chains are not joined.
fn push_sorted(
    faults: &mut Vec<RecordFault>,
    chains: &[ChainEntry],
    shapes: &[ShapeSummary],
    chain_tlids: &[u64],
    shape_tlids: &[u64],
) -> Result<u64, AllocError>
    requires none { faults.old.items ≡ [] }
    requires chains { IsNonDecreasingBy (λ (c : ChainEntry). c.tlid) chains.now }
    requires shapes { AreInOrder shapes.now }
    requires chain_tlids { chain_tlids.now ≡ map (λ c. c.tlid) chains.now }
    requires shape_tlids { shape_tlids.now ≡ map (λ s. s.tlid) shapes.now }
    ensures { (rs : List Record) → HasChains rs chains.now shapes.now →
        IfOk result (λ segments. AreSegmentsTold rs segments faults.new.items) }
{
    let joined = push_chains(faults, chain_tlids, shape_tlids, shapes)?;
    push_points(faults, chains, shapes)?;
    // Of chains that are not joined the segments are not asked for.
    Ok(if joined {
        count_segments(chains, shapes)
    } else {
        0
    })
}

/// The same with lists in any order. Gives the sorted TLIDs of the chains, too.
fn push_of_chains(
    alloc: Global,
    faults: &mut Vec<RecordFault>,
    mut chains: Vec<ChainEntry>,
    mut shapes: Vec<ShapeSummary>,
) -> Result<(Vec<u64>, u64), AllocError>
    requires { faults.old.items ≡ [] }
    ensures ordered { IfOk result (λ told. IsNonDecreasing told.0.items) }
    ensures told { (rs : List Record) → HasChains rs chains.items shapes.items →
        IfOk result (λ told. AreChainsListed rs told.0.items told.1 faults.new.items) }
{
    sort_chains(alloc, &mut chains)?;
    sort_shapes(alloc, &mut shapes)?;
    let tlids = tlids_of_chains(alloc, &chains)?;
    let shape_tlids = tlids_of_shapes(alloc, &shapes)?;
    let segments = push_sorted(faults, &chains, &shapes, &tlids, &shape_tlids)?;
    Ok((tlids, segments))
}

/// Tells what keys and LANDs tell. Gives how many landmarks there are.
fn push_of_areas(
    alloc: Global,
    faults: &mut Vec<RecordFault>,
    mut polygons: Vec<PolyKey>,
    names: &[NamedSide],
    mut landmarks: Vec<u64>,
    links: &[LinkEntry],
) -> Result<usize, AllocError>
    ensures { (rs : List Record) (codes : List ℕ) → KeepsAreas rs polygons.items names.now landmarks.items links.now →
        AreTold rs codes faults.old.items → IfOk result (λ count. AreAreaCounts rs codes count faults.new.items) }
{
    sort_keys(&mut polygons);
    sort_numbers(&mut landmarks);
    let lands = lands_of_links(alloc, links)?;
    push_areas(faults, &polygons, names, &landmarks, links, &lands)?;
    Ok(count_distinct(&mut landmarks))
}

/// Tells all faults but those of chains and shapes, by the sorted TLIDs of the chains.
fn push_behind_chains(
    alloc: Global,
    faults: &mut Vec<RecordFault>,
    tlids: &[u64],
    counts: ChainCounts,
    kept: KeptAreas,
) -> Result<(), AllocError>
    requires { IsNonDecreasing tlids.now }
    ensures { (rs : List Record) → AreChainTlids rs tlids.now → HasAreas rs kept →
        AreCountsTold rs counts.chains counts.segments faults.old.items → OnOk result (AreTold rs all_codes faults.new.items) }
{
    let KeptAreas {
        mut sides,
        names,
        polygons,
        landmarks,
        links,
    } = kept;
    let polygon_count = polygons.len();
    sort_numbers(&mut sides);
    push_sides(faults, tlids, &sides)?;
    let landmarks = push_of_areas(alloc, faults, polygons, &names, landmarks, &links)?;
    let counts = RecordCounts {
        chains: counts.chains,
        segments: counts.segments,
        polygons: polygon_count,
        landmarks,
    };
    push_too_many(faults, counts)
}

/// All faults that are true of the records whose chains and shapes these are, and whose others are kept, by their codes and then
/// by their numbers, none twice. An error says that memory was refused.
pub fn all_record_faults(
    alloc: Global,
    chains: Vec<ChainEntry>,
    shapes: Vec<ShapeSummary>,
    kept: KeptAreas,
) -> Result<Vec<RecordFault>, AllocError>
    ensures { (rs : List Record) → HasChains rs chains.items shapes.items → HasAreas rs kept →
        IfOk result (λ faults. AreAllFaults rs faults.items) }
{
    let mut faults = Vec::new(alloc);
    let count = chains.len();
    let (tlids, segments) = push_of_chains(alloc, &mut faults, chains, shapes)?;
    let counts = ChainCounts {
        chains: count,
        segments,
    };
    push_behind_chains(alloc, &mut faults, &tlids, counts, kept)?;
    order_faults(&mut faults);
    Ok(faults)
}

/// All faults of the chains alone, in the same order. An error says that memory was refused.
pub fn all_chain_faults(
    alloc: Global,
    chains: Vec<ChainEntry>,
    shapes: Vec<ShapeSummary>,
) -> Result<Vec<RecordFault>, AllocError>
    ensures { (rs : List Record) → HasChains rs chains.items shapes.items →
        IfOk result (λ faults. AreAllChainFaults rs faults.items) }
{
    let mut faults = Vec::new(alloc);
    let count = chains.len();
    let (tlids, segments) = push_of_chains(alloc, &mut faults, chains, shapes)?;
    drop(tlids);
    push_too_many_of_chains(&mut faults, count, segments)?;
    order_faults(&mut faults);
    Ok(faults)
}

/// All faults where the chains have none, by their TLIDs, which are sorted.
pub fn faults_behind_chains(
    alloc: Global,
    tlids: &[u64],
    kept: KeptAreas,
) -> Result<Vec<RecordFault>, AllocError>
    requires { IsNonDecreasing tlids.now }
    ensures { (rs : List Record) → HaveNoChainFault rs → AreChainTlids rs tlids.now → HasAreas rs kept →
        IfOk result (λ faults. AreAllFaults rs faults.items) }
{
    let mut faults = Vec::new(alloc);
    let counts = ChainCounts {
        chains: 0,
        segments: 0,
    };
    push_behind_chains(alloc, &mut faults, tlids, counts, kept)?;
    order_faults(&mut faults);
    Ok(faults)
}
