//! How often each polygon is near and far, over the flanks of crossed segments.

ghost use Rattle.std.specs.Prelude.{◌≡◌, ℕ, ◌+◌, ◌<◌, ◌≤◌, ◌^◌, if◌then◌else◌, length, slice_index, IfOk};
ghost use Rattle.tl_check_inside.specs.Inside.{is_polygon};
ghost use Rattle.tl_check_inside.specs.Keeping.Tallies.{AreTallies, AreNone};

use crate::flanks::Flanks;
use std::alloc::Global;
use tl_map_county::Side;
use tl_tree_index::Memory;

/// So many counts of nothing.
pub fn no_counts(alloc: Global, polygons: usize) -> Result<Vec<u64>, Memory>
    ensures long { IfOk result (λ counts. length counts.items ≡ polygons) }
    ensures none { IfOk result (λ counts. AreNone counts.items) }
{
    match vec![in alloc; 0u64; polygons] {
        Ok(counts) => Ok(counts),
        Err(_) => Err(Memory),
    }
}

/// Counts of each polygon over how many of the flanks it is near, and over how many far; no count is there yet.
pub fn tally(crossed: &[Flanks], near: &mut [u64], far: &mut [u64])
    requires no_near { AreNone near.old }
    requires no_far { AreNone far.old }
    ensures nears { length near.new ≡ length near.old }
    ensures fars { length far.new ≡ length far.old }
    ensures tallies { AreTallies crossed.now near.new far.new }
{
    for place in 0..crossed.len() {
        let flanks = crossed[place];
        count(near, flanks.near);
        count(far, flanks.far);
    }
}

/// Takes back what was counted.
pub fn take_back(crossed: &[Flanks], near: &mut [u64], far: &mut [u64])
    requires tallies { AreTallies crossed.now near.old far.old }
    ensures nears { length near.new ≡ length near.old }
    ensures fars { length far.new ≡ length far.old }
    ensures no_near { AreNone near.new }
    ensures no_far { AreNone far.new }
{
    for place in 0..crossed.len() {
        let flanks = crossed[place];
        discount(near, flanks.near);
        discount(far, flanks.far);
    }
}

/// Counts a side, if it is a polygon that there is a count of.
fn count(counts: &mut [u64], side: Side)
    requires room { (p : ℕ) → p < length counts.old → slice_index counts.old p + 1 < 2 ^ 64 }
    ensures long { length counts.new ≡ length counts.old }
    ensures counted { (p : ℕ) → p < length counts.old → slice_index counts.new p
        ≡ slice_index counts.old p + (if is_polygon p side then 1 else 0) }
{
    if let Side::Polygon(polygon) = side {
        let polygon = polygon as usize;
        if polygon < counts.len() {
            counts[polygon] += 1;
        }
    }
}

/// Counts a side no more, if it is a polygon that there is a count of.
fn discount(counts: &mut [u64], side: Side)
    requires counted { (p : ℕ) → p < length counts.old → (if is_polygon p side then 1 else 0) ≤ slice_index counts.old p }
    ensures long { length counts.new ≡ length counts.old }
    ensures one_less { (p : ℕ) → p < length counts.old → slice_index counts.new p + (if is_polygon p side then 1 else 0)
        ≡ slice_index counts.old p }
{
    if let Side::Polygon(polygon) = side {
        let polygon = polygon as usize;
        if polygon < counts.len() {
            counts[polygon] -= 1;
        }
    }
}
