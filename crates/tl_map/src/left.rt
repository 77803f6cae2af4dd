//! All faults of records, from the lists that are left of them where they have no map.

ghost use Rattle.std.specs.Prelude.{◌≡◌, ℕ, IfOk, OnOk, List, ◌++◌, map};
ghost use Rattle.std.specs.List.{flat_map};
ghost use Rattle.std.specs.List.Sorted.{IsStrictlyIncreasing};
ghost use Rattle.tl_record.specs.declared.record.Record.{Record};
ghost use Rattle.tl_map_county.specs.Chains.{tlids};
ghost use Rattle.tl_map_rules.specs.MapOf.{keys};
ghost use Rattle.tl_map_rules.specs.Listing.AllFaults.{AreAllFaults, AreAllChainFaults};
ghost use Rattle.tl_map_rules.specs.Listing.Kept.{HasAreas, named, names_of};
ghost use Rattle.tl_map.specs.Keeping.Collected.{LeavesChains};
ghost use Rattle.tl_map.specs.Keeping.Areas.{LeavesAreas};
ghost use Rattle.tl_map.specs.Keeping.Built.{AreBuilt};
ghost use Rattle.tl_map.specs.Keeping.Sided.{sides_tlids};

use crate::areas::AreaRecords;
use crate::collect::Collected;
use crate::kept::KeptSides;
use std::alloc::{AllocError, Global};
use tl_map_county::{Chains, Polygon};
use tl_map_rules::listing::{
    KeptAreas, NamedSide, all_chain_faults, all_record_faults, faults_behind_chains, summaries_of,
};
use tl_map_rules::{LandmarkEntry, RecordFault};
use tl_record::PolyKey;

/// All faults of the records.
pub fn faults_of(
    alloc: Global,
    collected: Collected,
    areas: AreaRecords,
) -> Result<Vec<RecordFault>, AllocError>
    // It has collected some records.
    requires { (rs : List Record) × LeavesChains rs collected }
    ensures { (rs : List Record) → LeavesChains rs collected → LeavesAreas rs areas →
        IfOk result (λ faults. AreAllFaults rs faults.items) }
{
    let Collected {
        chains,
        shapes,
        pool,
    } = collected;
    let summaries = summaries_of(alloc, &shapes, &pool)?;
    let kept = keep_areas(alloc, areas)?;
    all_record_faults(alloc, chains, summaries, kept)
}

/// All faults of the chains of the records.
pub fn chain_faults_of(alloc: Global, collected: Collected) -> Result<Vec<RecordFault>, AllocError>
    // It has collected some records.
    requires { (rs : List Record) × LeavesChains rs collected }
    ensures { (rs : List Record) → LeavesChains rs collected → IfOk result (λ faults. AreAllChainFaults rs faults.items) }
{
    let Collected {
        chains,
        shapes,
        pool,
    } = collected;
    let summaries = summaries_of(alloc, &shapes, &pool)?;
    all_chain_faults(alloc, chains, summaries)
}

/// All faults of the records that have these chains.
pub fn faults_behind(
    alloc: Global,
    chains: &Chains,
    areas: AreaRecords,
) -> Result<Vec<RecordFault>, AllocError>
    requires { IsStrictlyIncreasing (tlids chains.now.chains) }
    ensures { (rs : List Record) (skipped : ℕ) → AreBuilt rs skipped chains.now → LeavesAreas rs areas →
        IfOk result (λ faults. AreAllFaults rs faults.items) }
{
    let tlids = tlids_of_chains(alloc, chains)?;
    let kept = keep_areas(alloc, areas)?;
    faults_behind_chains(alloc, &tlids, kept)
}

/// What tells faults of the records of the types I, P, 7 and 8.
fn keep_areas(alloc: Global, areas: AreaRecords) -> Result<KeptAreas, AllocError>
    ensures { (rs : List Record) → LeavesAreas rs areas → IfOk result (HasAreas rs) }
{
    let AreaRecords {
        sides,
        polygons,
        landmarks,
        links,
    } = areas;
    let tlids = tlids_of_sides(alloc, &sides)?;
    let names = names_of_sides(alloc, &sides)?;
    let polygons = keys_of(alloc, &polygons)?;
    let landmarks = lands_of(alloc, &landmarks)?;
    Ok(KeptAreas {
        sides: tlids,
        names,
        polygons,
        landmarks,
        links,
    })
}

/// The TLIDs of chains.
fn tlids_of_chains(alloc: Global, chains: &Chains) -> Result<Vec<u64>, AllocError>
    ensures { IfOk result (λ made. made.items ≡ tlids chains.now.chains) }
{
    let count = chains.len();
    let mut made = Vec::with_capacity(alloc, count as usize)?;
    for number in 0..count {
        made.push(chains.tlid(number))?;
    }
    Ok(made)
}

/// The TLIDs of type I records.
fn tlids_of_sides(alloc: Global, sides: &KeptSides) -> Result<Vec<u64>, AllocError>
    ensures { IfOk result (λ made. made.items ≡ sides_tlids sides.now) }
{
    let count = sides.len();
    let mut made = Vec::with_capacity(alloc, count)?;
    for place in 0..count {
        made.push(sides.get(place).tlid)?;
    }
    Ok(made)
}

/// The keys that the sides of type I records name.
fn names_of_sides(alloc: Global, sides: &KeptSides) -> Result<Vec<NamedSide>, AllocError>
    ensures { IfOk result (λ made. made.items ≡ flat_map names_of sides.now) }
{
    let mut made = Vec::new(alloc);
    let count = sides.len();
    for place in 0..count {
        let entry = sides.get(place);
        append_name(&mut made, entry.tlid, entry.left)?;
        append_name(&mut made, entry.tlid, entry.right)?;
    }
    Ok(made)
}

/// Appends the key of a side, if it names one.
fn append_name(
    names: &mut Vec<NamedSide>,
    tlid: u64,
    key: Option<PolyKey>,
) -> Result<(), AllocError>
    ensures { OnOk result (names.new.items ≡ names.old.items ++ named tlid key) }
{
    if let Some(key) = key {
        names.push(NamedSide { tlid, key })?;
    }
    Ok(())
}

/// The keys of polygons.
fn keys_of(alloc: Global, polygons: &[Polygon]) -> Result<Vec<PolyKey>, AllocError>
    ensures { IfOk result (λ made. made.items ≡ keys polygons.now) }
{
    let mut made = Vec::with_capacity(alloc, polygons.len())?;
    for polygon in polygons {
        made.push(polygon.key)?;
    }
    Ok(made)
}

/// The LANDs of landmarks.
fn lands_of(alloc: Global, landmarks: &[LandmarkEntry]) -> Result<Vec<u64>, AllocError>
    ensures { IfOk result (λ made. made.items ≡ map (λ e. e.land) landmarks.now) }
{
    let mut made = Vec::with_capacity(alloc, landmarks.len())?;
    for landmark in landmarks {
        made.push(landmark.land)?;
    }
    Ok(made)
}
