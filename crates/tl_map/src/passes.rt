//! Looks whether sorted entries can be joined.

ghost use Rattle.std.specs.Prelude.{◌≡◌, ℕ, ◌≤◌, true, false, List, MatchBool, All};
ghost use Rattle.std.specs.List.Sorted.{IsNonDecreasingBy};
ghost use Rattle.tl_geom.specs.declared.point.Point.{Point};
ghost use Rattle.tl_record.specs.declared.record.Record.{Record};
ghost use Rattle.tl_map_rules.specs.ChainsOf.{has_gap, pairs_of};
ghost use Rattle.tl_map.specs.Keeping.Entries.{chains_with, AreEntriesRising, shapes_with, AreInOrder, ArePlaced};
ghost use Rattle.tl_map.specs.Keeping.Entries.{AreNumbered, AreShapeEntries, late_after, ended_after};

use tl_map_county::first_not_below;
use tl_map_rules::{ChainEntry, Fill, ShapeEntry};

/// Has each chain a TLID of its own, in chains sorted by TLID?
pub fn have_own_tlids(chains: &[ChainEntry]) -> bool
    requires { IsNonDecreasingBy (λ (c : ChainEntry). c.tlid) chains.now }
    ensures { MatchBool result (AreEntriesRising chains.now) ((t : ℕ) × (2 ≤ chains_with t chains.now)) }
{
    for place in 1..chains.len() {
        if chains[place - 1].tlid == chains[place].tlid {
            return false;
        }
    }
    true
}

/// Are the shapes of each TLID numbered from 1 on, in shapes sorted by TLID and RTSQ?
pub fn are_numbered(shapes: &[ShapeEntry]) -> bool
    requires { AreInOrder shapes.now }
    ensures { MatchBool result (ArePlaced shapes.now) ((t : ℕ) × ¬ AreNumbered shapes.now t) }
{
    let mut tlid = 0;
    let mut count = 0usize;
    for shape in shapes {
        if shape.tlid != tlid {
            tlid = shape.tlid;
            count = 0;
        }
        count += 1;
        if usize::from(shape.rtsq) != count {
            return false;
        }
    }
    true
}

/// Has each shape the TLID of a chain, in chains and shapes sorted by TLID?
pub fn have_chains(chains: &[ChainEntry], shapes: &[ShapeEntry]) -> bool
    requires rising { AreEntriesRising chains.now }
    requires ordered { AreInOrder shapes.now }
    ensures { MatchBool result (All (λ s. 1 ≤ chains_with s.tlid chains.now) shapes.now)
        ((t : ℕ) × (1 ≤ shapes_with t shapes.now) × (chains_with t chains.now ≡ 0)) }
{
    let mut below = 0;
    for shape in shapes {
        below = first_not_below(chains, below, shape.tlid);
        if below == chains.len() || chains[below].tlid != shape.tlid {
            return false;
        }
    }
    true
}

/// Are the pairs of each TLID without a gap, in shapes sorted by TLID and RTSQ that are numbered from 1 on?
pub fn have_no_gap(shapes: &[ShapeEntry]) -> bool
    requires ordered { AreInOrder shapes.now }
    requires placed { ArePlaced shapes.now }
    ensures { (rs : List Record) (pool : List Point) → AreShapeEntries rs pool shapes.now →
        MatchBool result ((t : ℕ) → has_gap (pairs_of rs t) ≡ false) ((t : ℕ) × (has_gap (pairs_of rs t) ≡ true)) }
{
    let mut tlid = 0;
    let mut ended = false;
    for shape in shapes {
        if shape.tlid != tlid {
            tlid = shape.tlid;
            ended = false;
        }
        if is_late(shape, ended) {
            return false;
        }
        ended = is_ended(shape, ended);
    }
    true
}

/// Does a used pair of the shape come after an unused one, of the shape itself or of those before it?
fn is_late(shape: &ShapeEntry, ended: bool) -> bool
    ensures { result ≡ late_after ended shape.now }
{
    match shape.fill {
        Fill::Gap => true,
        _ => ended && shape.used > 0,
    }
}

/// Is a pair unused, of the shape or of those before it?
fn is_ended(shape: &ShapeEntry, ended: bool) -> bool
    ensures { result ≡ ended_after ended shape.now }
{
    match shape.fill {
        Fill::Full => ended,
        _ => true,
    }
}
