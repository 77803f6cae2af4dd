//! The landmarks whose counts aren't 0.

ghost use Rattle.std.specs.Prelude.{◌≡◌, ℕ, ◌<◌, Some, length, slice_get, All, IfOk, OnOk};
ghost use Rattle.tl_map_county.specs.TheMap.{MapLandmark};
ghost use Rattle.tl_map_county.specs.Landmarks.{ArePolygonsOf};
ghost use Rattle.tl_check_inside.specs.Keeping.Listed.{passing};
ghost use Rattle.tl_check_inside.specs.Keeping.Sums.{sum_at, sums_differ};

use std::alloc::Global;
use tl_map_county::Map;
use tl_tree_index::Memory;

/// The numbers of the landmarks whose polygons are near and far not equally often, by rising number.
pub fn unbalanced_landmarks(
    alloc: Global,
    map: &Map,
    near: &[u64],
    far: &[u64],
) -> Result<Vec<u32>, Memory>
    requires nears { length near.now ≡ length map.now.polygons }
    requires fars { length far.now ≡ length map.now.polygons }
    ensures listed { IfOk result (λ listed. listed.items ≡
        passing (sums_differ map.now.landmarks near.now far.now) (length map.now.landmarks)) }
    ensures polygons { OnOk result ((l : ℕ) (landmark : MapLandmark) → slice_get map.now.landmarks l ≡ Some landmark
        → ArePolygonsOf (length map.now.polygons) landmark.polygons) }
{
    let mut listed = Vec::new(alloc);
    for l in 0..map.landmarks() {
        let polygons = map.landmark(l).polygons;
        if sum_of(near, polygons) != sum_of(far, polygons) {
            if listed.push(l).is_err() {
                return Err(Memory);
            }
        }
    }
    Ok(listed)
}

/// The sum of the counts of these polygons.
fn sum_of(counts: &[u64], polygons: &[u32]) -> u128
    requires { All (λ p. p < length counts.now) polygons.now }
    ensures { result ≡ sum_at counts.now polygons.now }
{
    let mut sum = 0;
    for place in 0..polygons.len() {
        sum += u128::from(counts[polygons[place] as usize]);
    }
    sum
}
