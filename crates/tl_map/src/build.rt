//! Chains from the collected records.

ghost use Rattle.std.specs.Prelude.{List, IfErr, MatchBool, MatchResult};
ghost use Rattle.std.specs.List.Sorted.{IsNonDecreasingBy};
ghost use Rattle.tl_geom.specs.declared.point.Point.{Point};
ghost use Rattle.tl_record.specs.declared.record.Record.{Record};
ghost use Rattle.tl_map_rules.specs.declared.entry.ChainEntry.{ChainEntry};
ghost use Rattle.tl_map_rules.specs.Faults.{HaveNoChainFault, IsFaultOfChains};
ghost use Rattle.tl_map_rules.specs.Reading.{IfFault};
ghost use Rattle.tl_map.specs.Keeping.Unbuilt.{StopsFor};
ghost use Rattle.tl_map.specs.Keeping.Entries.{AreChainEntries, AreShapeEntries, AreInOrder};
ghost use Rattle.tl_map.specs.Keeping.Collected.{Collects, LeavesChains};
ghost use Rattle.tl_map.specs.Keeping.Built.{AreSound, AreBuilt, StopsBuilding};

use crate::collect::Collected;
use crate::join::join;
use crate::left::chain_faults_of;
use crate::passes::{are_numbered, have_chains, have_no_gap, have_own_tlids};
use crate::sort::sort_shapes;
use crate::unbuilt::Unbuilt;
use std::alloc::Global;
use tl_map_county::{CHAIN_LIMIT, Chains};
use tl_map_rules::listing::sort_chains;
use tl_map_rules::{ChainEntry, MapStop, ShapeEntry};

/// Can sorted chains and shapes be joined?
fn are_sound(chains: &[ChainEntry], shapes: &[ShapeEntry]) -> bool
    requires chains { IsNonDecreasingBy (λ (c : ChainEntry). c.tlid) chains.now }
    requires shapes { AreInOrder shapes.now }
    ensures { (rs : List Record) (pool : List Point) → AreChainEntries rs chains.now → AreShapeEntries rs pool shapes.now →
        MatchBool result (AreSound rs chains.now shapes.now) (¬ HaveNoChainFault rs) }
{
    if !have_own_tlids(chains) {
        return false;
    }
    if !have_chains(chains, shapes) {
        return false;
    }
    if !are_numbered(shapes) {
        return false;
    }
    have_no_gap(shapes)
}

/// The chains of the records, which are sorted where they are kept.
pub fn build_chains(
    alloc: Global,
    collected: &mut Collected,
    skipped: u64,
) -> Result<Chains, Unbuilt>
    // It has collected some records.
    requires { (rs : List Record) × Collects rs collected.old }
    ensures built { (rs : List Record) → Collects rs collected.old →
        MatchResult result (AreBuilt rs skipped) (StopsFor (¬ HaveNoChainFault rs)) }
    ensures left { (rs : List Record) → Collects rs collected.old → IfErr result (StopsFor (LeavesChains rs collected.new)) }
{
    if collected.chains.len() > CHAIN_LIMIT as usize {
        return Err(Unbuilt::Faulty);
    }
    sort_chains(alloc, &mut collected.chains)?;
    sort_shapes(alloc, &mut collected.shapes)?;
    if !are_sound(&collected.chains, &collected.shapes) {
        return Err(Unbuilt::Faulty);
    }
    join(
        alloc,
        &collected.chains,
        &collected.shapes,
        &collected.pool,
        skipped,
    )
}

/// The chains of the records, or the first of the chains' faults.
pub fn chains_or_fault(alloc: Global, collected: Collected, skipped: u64) -> Result<Chains, MapStop>
    // It has collected some records.
    requires { (rs : List Record) × Collects rs collected }
    ensures built { (rs : List Record) → Collects rs collected → MatchResult result (AreBuilt rs skipped) (StopsBuilding rs) }
    ensures of_chains { IfErr result (IfFault IsFaultOfChains) }
{
    let mut collected = collected;
    match build_chains(alloc, &mut collected, skipped) {
        Ok(chains) => {
            collected.release();
            Ok(chains)
        }
        Err(Unbuilt::Memory) => Err(MapStop::Memory),
        Err(Unbuilt::Faulty) => {
            let faults = chain_faults_of(alloc, collected)?;
            Err(MapStop::Fault(faults[0]))
        }
    }
}
