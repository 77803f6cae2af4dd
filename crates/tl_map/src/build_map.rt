//! The map from the collected records, or all of their faults.

ghost use Rattle.std.specs.Prelude.{ℕ, ◌≤◌, List, MatchResult, length};
ghost use Rattle.tl_record.specs.declared.record.Record.{Record};
ghost use Rattle.tl_map_county.specs.Limits.{most_polygons};
ghost use Rattle.tl_map.specs.Collecting.{StopsOn};
ghost use Rattle.tl_map.specs.Keeping.Collected.{Collects};
ghost use Rattle.tl_map.specs.Keeping.Areas.{KeepsAreas, AreSameAreas};
ghost use Rattle.tl_map.specs.Keeping.Mapped.{AreMapped, AreLinkedAreas};
ghost use Rattle.tl_map_rules.specs.Faults.{HaveNoFault};
ghost use Rattle.tl_map.specs.Keeping.Unbuilt.{StopsFor};
ghost use Rattle.tl_map.specs.Keeping.Built.{AreBuilt};

use crate::areas::AreaRecords;
use crate::build::build_chains;
use crate::collect::Collected;
use crate::landmarks::build_landmarks;
use crate::left::{faults_behind, faults_of};
use crate::no_map::NoMap;
use crate::polygons::index_polygons;
use crate::sides::{pair_sides, resolve_sides};
use crate::unbuilt::Unbuilt;
use std::alloc::Global;
use std::hash::RandomState;
use tl_map_county::{Chains, LinkedLandmarks, Map, POLYGON_LIMIT, SidesOfChains, release};

/// The sides of the chains and the landmarks with their polygons. The type I records are sorted where they are kept.
fn link_areas(
    alloc: Global,
    hasher: RandomState,
    chains: &Chains,
    areas: &mut AreaRecords,
) -> Result<(SidesOfChains, LinkedLandmarks), Unbuilt>
    // The chains are those of some records, whose others are kept.
    requires kept { (rs : List Record) × (skipped : ℕ) × AreBuilt rs skipped chains.now × KeepsAreas rs areas.old }
    requires few { length areas.old.polygons.items ≤ most_polygons }
    ensures linked { (rs : List Record) (skipped : ℕ) → AreBuilt rs skipped chains.now → KeepsAreas rs areas.old →
        MatchResult result (λ made. AreLinkedAreas chains.now areas.old made.0 made.1) (StopsFor (¬ HaveNoFault rs)) }
    ensures same { AreSameAreas areas.old areas.new }
{
    pair_sides(alloc, chains, &mut areas.sides)?;
    let index = index_polygons(alloc, hasher, &areas.polygons)?;
    let sides = resolve_sides(alloc, &index, &areas.sides)?;
    let linked = build_landmarks(alloc, hasher, &index, &areas.landmarks, &areas.links)?;
    Ok((sides, linked))
}

/// The map of the records that have these chains.
fn build_on_chains(
    alloc: Global,
    hasher: RandomState,
    chains: Chains,
    areas: AreaRecords,
) -> Result<Map, NoMap>
    requires kept { (rs : List Record) × (skipped : ℕ) × AreBuilt rs skipped chains × KeepsAreas rs areas }
    requires few { length areas.polygons.items ≤ most_polygons }
    ensures { (rs : List Record) (skipped : ℕ) → AreBuilt rs skipped chains → KeepsAreas rs areas →
        MatchResult result (AreMapped rs skipped) (StopsOn rs) }
{
    let mut areas = areas;
    match link_areas(alloc, hasher, &chains, &mut areas) {
        Ok((sides, linked)) => {
            let AreaRecords {
                sides: paired,
                polygons,
                landmarks,
                links,
            } = areas;
            paired.release();
            release(landmarks);
            release(links);
            let map = Map::new(alloc, chains, sides, polygons, linked)?;
            Ok(map)
        }
        Err(Unbuilt::Faulty) => {
            let faults = faults_behind(alloc, &chains, areas)?;
            Err(NoMap::Faults(faults))
        }
        Err(Unbuilt::Memory) => Err(NoMap::Memory),
    }
}

/// The map of the records, or all of their faults.
pub fn build_map(
    alloc: Global,
    hasher: RandomState,
    collected: Collected,
    areas: AreaRecords,
    skipped: u64,
) -> Result<Map, NoMap>
    // It has collected some records.
    requires { (rs : List Record) × Collects rs collected × KeepsAreas rs areas }
    ensures { (rs : List Record) → Collects rs collected → KeepsAreas rs areas →
        MatchResult result (AreMapped rs skipped) (StopsOn rs) }
{
    let mut collected = collected;
    if areas.polygons.len() > POLYGON_LIMIT as usize {
        let faults = faults_of(alloc, collected, areas)?;
        return Err(NoMap::Faults(faults));
    }
    match build_chains(alloc, &mut collected, skipped) {
        Ok(chains) => {
            collected.release();
            build_on_chains(alloc, hasher, chains, areas)
        }
        Err(Unbuilt::Faulty) => {
            let faults = faults_of(alloc, collected, areas)?;
            Err(NoMap::Faults(faults))
        }
        Err(Unbuilt::Memory) => Err(NoMap::Memory),
    }
}
