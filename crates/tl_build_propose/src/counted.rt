//! The walks of a map, which are counted and not kept.

ghost use Rattle.std.specs.Prelude.{◌≡◌, ℕ, ◌<◌, ◌^◌, zero, length, All, IfOk, MatchOption, IsTrue, IsFalse, slice_index};
ghost use Rattle.tl_check_sides.specs.Sides.{dart_count};
ghost use Rattle.tl_build_propose.specs.Keeping.Lists.{AreUnmarked};
ghost use Rattle.tl_build_propose.specs.Keeping.Siding.{HasOneLeft};
ghost use Rattle.tl_build_propose.specs.Keeping.Counted.{AreTraced, ChangesSide, HasTwoLefts};

use crate::walks::trace_walk;
use std::alloc::{AllocError, Global};
use tl_map_county::Map;

/// How many walks there are in which each dart stands, by the dart that follows each, where each walk has one side on its left; none is
/// told where one has two.
pub fn count_traced(alloc: Global, map: &Map, following: &[u32]) -> Result<Option<u32>, AllocError>
    requires known { All (λ d. d < length following.now) following.now }
    requires darts { length following.now ≡ dart_count map.now.chains }
    requires counted { length following.now < 2 ^ 32 }
    ensures { IfOk result (λ told. MatchOption told (HasTwoLefts map.now.chains following.now)
        (AreTraced map.now.chains following.now)) }
{
    let mut taken = vec![in alloc; false; following.len()]?;
    count_all(alloc, map, following, &mut taken)
}

/// The same, with marks of the darts that are taken, none of which is yet.
fn count_all(
    alloc: Global,
    map: &Map,
    following: &[u32],
    taken: &mut [bool],
) -> Result<Option<u32>, AllocError>
    requires known { All (λ d. d < length following.now) following.now }
    requires darts { length following.now ≡ dart_count map.now.chains }
    requires counted { length following.now < 2 ^ 32 }
    requires long { length taken.old ≡ length following.now }
    requires free { AreUnmarked taken.old }
    ensures { IfOk result (λ told. MatchOption told (HasTwoLefts map.now.chains following.now)
        (AreTraced map.now.chains following.now)) }
{
    let mut walk = Vec::new(alloc);
    let mut count = 0u32;
    for first in 0..following.len() {
        if taken[first] {
            continue;
        }
        trace_walk(following, taken, first as u32, &mut walk)?;
        if !has_one_left(map, &walk) {
            return Ok(None);
        }
        count += 1;
    }
    Ok(Some(count))
}

/// Whether a walk has one side on the left of all its darts.
fn has_one_left(map: &Map, walk: &[u32]) -> bool
    requires some { zero < length walk.now }
    requires darts { (k : ℕ) → k < length walk.now → slice_index walk.now k < dart_count map.now.chains }
    ensures one { IsTrue result → HasOneLeft map.now.chains walk.now }
    ensures two { IsFalse result → ChangesSide map.now.chains walk.now }
{
    let left = map.dart_left(walk[0]);
    for place in 1..walk.len() {
        if !map.dart_left(walk[place]).is(left) {
            return false;
        }
    }
    true
}
