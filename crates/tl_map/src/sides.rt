//! The sides of chains by the keys of type I records.

ghost use Rattle.std.specs.Prelude.{◌≡◌, ◌<◌, ◌≤◌, ◌^◌, ◌==◌, List, length, IfOk, OnOk, IfErr, MatchOption};
ghost use Rattle.std.specs.Prelude.{MatchResult, IfSome, All, map};
ghost use Rattle.std.specs.Bool.{Decides};
ghost use Rattle.std.specs.List.Sorted.{IsPermutation};
ghost use Rattle.tl_map_county.specs.Chains.{tlids};
ghost use Rattle.tl_map_county.specs.Kept.{HasNumber};
ghost use Rattle.tl_record_key.specs.declared.key.PolyKey.{PolyKey};
ghost use Rattle.tl_map.specs.Keeping.Index.{Indexes};
ghost use Rattle.tl_map.specs.Keeping.Unbuilt.{StopsFor};
ghost use Rattle.tl_map.specs.Keeping.Sided.{sided_by, IsSide, IsKeyUnknown, NamesKnown, AreNamesUnknown, sides_tlids};
ghost use Rattle.tl_map.specs.Keeping.Sided.{ArePaired, AreUnpaired};

use crate::guess::Guesses;
use crate::kept::KeptSides;
use crate::unbuilt::Unbuilt;
use indexmap::IndexMap;
use std::alloc::Global;
use std::hash::RandomState;
use tl_geom::Point;
use tl_map_county::{ChainSides, Chains, Side, SidesOfChains};
use tl_record::PolyKey;

/// What lies on a side of a chain whose record has this key there, if the key is one of the index.
#[inline(always)]
fn resolve_side(
    index: &IndexMap<PolyKey, Point, RandomState>,
    guesses: &mut Guesses,
    key: Option<PolyKey>,
) -> Option<Side>
    requires { length index.now.entries < 2 ^ 32 }
    ensures side { (ks : List PolyKey) → Indexes ks index.now → MatchOption result (IsKeyUnknown ks key) (IsSide ks key) }
    ensures number { IfSome result HasNumber }
{
    match key {
        None => Some(Side::Outside),
        Some(polygon) => match guesses.number_of(index, polygon) {
            Some(number) => Some(Side::Polygon(number as u32)),
            None => None,
        },
    }
}

/// The sides of these records, if the index has all of their keys.
pub fn resolve_sides(
    alloc: Global,
    index: &IndexMap<PolyKey, Point, RandomState>,
    entries: &KeptSides,
) -> Result<SidesOfChains, Unbuilt>
    requires { length index.now.entries < 2 ^ 32 }
    ensures sides { (ks : List PolyKey) → Indexes ks index.now →
        IfOk result (λ sides. sides ≡ map (sided_by ks) entries.now) }
    ensures known { (ks : List PolyKey) → Indexes ks index.now → OnOk result (All (NamesKnown ks) entries.now) }
    ensures stops { (ks : List PolyKey) → Indexes ks index.now → IfErr result (StopsFor (AreNamesUnknown ks entries.now)) }
{
    let mut guesses = Guesses::new(alloc, index)?;
    let mut sides = SidesOfChains::with_capacity(alloc, entries.len())?;
    let count = entries.len();
    for place in 0..count {
        let entry = entries.get(place);
        let Some(left) = resolve_side(index, &mut guesses, entry.left) else {
            return Err(Unbuilt::Faulty);
        };
        let Some(right) = resolve_side(index, &mut guesses, entry.right) else {
            return Err(Unbuilt::Faulty);
        };
        sides.push(ChainSides {
            left,
            right,
            start_cell: entry.start_cell,
            end_cell: entry.end_cell,
        })?;
    }
    guesses.release();
    Ok(sides)
}

/// Are the TLIDs of type I records those of the chains, in their order?
fn have_tlids(chains: &Chains, sides: &KeptSides) -> bool
    ensures { Decides result (sides_tlids sides.now ≡ tlids chains.now.chains) }
{
    let count = chains.len();
    if sides.len() != count as usize {
        return false;
    }
    for c in 0..count {
        if sides.tlid(c as usize) != chains.tlid(c) {
            return false;
        }
    }
    true
}

/// Sorts type I records by TLID. Says whether they are those of the chains, which rise by TLID, in their order.
pub fn pair_sides(alloc: Global, chains: &Chains, sides: &mut KeptSides) -> Result<(), Unbuilt>
    ensures paired { MatchResult result (λ done. ArePaired (tlids chains.now.chains) sides.old sides.new)
        (StopsFor (AreUnpaired (tlids chains.now.chains) sides.new)) }
    ensures moved { IsPermutation sides.old sides.new }
{
    sides.sort_by_tlid(alloc)?;
    if have_tlids(chains, sides) {
        Ok(())
    } else {
        Err(Unbuilt::Faulty)
    }
}
