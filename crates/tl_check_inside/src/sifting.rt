//! What holds a point, or is crossed by its ray, among what lies in its strip.

ghost use Rattle.std.specs.Prelude.{ℕ, ◌<◌, ◌↔◌, IsTrue, length, All, Contains, IfOk, OnOk, MatchOption, ⊤};
ghost use Rattle.tl_map_county.specs.Segments.{segments_before};
ghost use Rattle.tl_check_inside.specs.Inside.{IsCrossed};
ghost use Rattle.tl_check_inside.specs.Places.{IsHeldBy, IsOffChains};
ghost use Rattle.tl_check_inside.specs.Keeping.Probing.{IsHolding};
ghost use Rattle.tl_check_inside.specs.Keeping.Strips.{AreEnough};
ghost use Rattle.tl_check_inside.specs.Keeping.Sifted.{IsKept, IsKeptHolder};
ghost use Rattle.tl_check_inside.specs.Keeping.Tallies.{TellCounts};

use crate::flanks::{Flanks, flanks_of};
use tl_geom::{Point, crosses_ray, on};
use tl_map_county::Map;
use tl_tree_index::Memory;

/// A chain that holds the point, if one does; else the flanks of the segments that the ray crosses are listed, in the place
/// of those that were.
pub fn sift(
    map: &Map,
    hits: &[u32],
    point: Point,
    crossed: &mut Vec<Flanks>,
) -> Result<Option<u32>, Memory>
    requires enough { AreEnough map.now.chains point hits.now }
    ensures held { IfOk result (λ found.
        MatchOption found (IsOffChains map.now.chains point) (IsHeldBy map.now.chains point)) }
    ensures tell { IfOk result (λ found.
        MatchOption found (TellCounts map.now.chains point crossed.new.items) (λ c. ⊤)) }
{
    crossed.clear();
    for place in 0..hits.len() {
        if is_holding(map, hits[place], point) {
            return Ok(Some(map.segment_chain(hits[place])));
        }
        keep_if_crossed(map, hits[place], point, crossed)?;
    }
    Ok(None)
}

/// Lists all chains that hold the point, in any order, and the flanks of the segments that the ray crosses, in the place of
/// what was listed.
pub fn sift_all(
    map: &Map,
    hits: &[u32],
    point: Point,
    held: &mut Vec<u32>,
    crossed: &mut Vec<Flanks>,
) -> Result<(), Memory>
    requires enough { AreEnough map.now.chains point hits.now }
    ensures each { OnOk result (All (IsHeldBy map.now.chains point) held.new.items) }
    ensures all { OnOk result ((c : ℕ) → IsHeldBy map.now.chains point c → Contains held.new.items c) }
    ensures tell { OnOk result (TellCounts map.now.chains point crossed.new.items) }
{
    held.clear();
    crossed.clear();
    for place in 0..hits.len() {
        keep_if_holding(map, hits[place], point, held)?;
        keep_if_crossed(map, hits[place], point, crossed)?;
    }
    Ok(())
}

/// Appends the chain of the segment, if the segment holds the point.
fn keep_if_holding(map: &Map, s: u32, point: Point, held: &mut Vec<u32>) -> Result<(), Memory>
    requires { s < segments_before map.now.chains (length map.now.chains) }
    ensures { OnOk result (IsKeptHolder map.now.chains point s held.old.items held.new.items) }
{
    if !is_holding(map, s, point) {
        return Ok(());
    }
    match held.push(map.segment_chain(s)) {
        Ok(()) => Ok(()),
        Err(_) => Err(Memory),
    }
}

/// Whether the segment holds the point.
fn is_holding(map: &Map, s: u32, point: Point) -> bool
    requires { s < segments_before map.now.chains (length map.now.chains) }
    ensures { IsTrue result ↔ IsHolding map.now.chains point s }
{
    on(map.segment(s), point)
}

/// Whether the ray crosses the segment.
fn is_crossed(map: &Map, s: u32, point: Point) -> bool
    requires { s < segments_before map.now.chains (length map.now.chains) }
    ensures { IsTrue result ↔ IsCrossed map.now.chains point s }
{
    crosses_ray(map.segment(s), point)
}

/// Appends the flanks of the segment, if the ray crosses it.
fn keep_if_crossed(map: &Map, s: u32, point: Point, crossed: &mut Vec<Flanks>) -> Result<(), Memory>
    requires { s < segments_before map.now.chains (length map.now.chains) }
    ensures { OnOk result (IsKept map.now.chains point s crossed.old.items crossed.new.items) }
{
    if !is_crossed(map, s, point) {
        return Ok(());
    }
    match crossed.push(flanks_of(map, s)) {
        Ok(()) => Ok(()),
        Err(_) => Err(Memory),
    }
}
