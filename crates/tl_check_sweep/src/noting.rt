//! What is noted at a vertex that is passed: how often facing sides differ along the list, and the gaps about the segments that begin there,
//! where sides differ.
ghost use Rattle.std.specs.Prelude.{◌≡◌, ℕ, List, IfOk, slice_get};
ghost use Rattle.tl_check_active.specs.Blocks.Lined.{last_of};
ghost use Rattle.tl_check_gaps.specs.Keeping.Passing.{IsRecounted};

use std::alloc::AllocError;
use tl_check_active::BothSides;
use tl_check_gaps::{Watch, are_alike, far_of, near_of, recount};
use tl_geom::Point;
use tl_map_county::Map;

/// Counts again how often facing sides differ, where between what stands on both sides those segments came in the stead of these, and tells
/// of the gaps about them, if any are to be told.
fn recount_about(
    map: &Map,
    p: Point,
    both: BothSides,
    outs: &[u32],
    ins: &[u32],
    gaps: &mut Option<u64>,
    watch: &mut Watch,
) -> Result<(), AllocError>
    ensures { IfOk result (λ done. (west east : List ℕ) → both.west ≡ last_of west → both.east ≡ slice_get east 0 →
        IsRecounted map.now.chains p west outs.now ins.now east gaps.old gaps.new watch.old watch.new) }
{
    let west = far_of(map, both.west);
    let east = near_of(map, both.east);
    let was = *gaps;
    *gaps = recount(map, west, outs, ins, east, was);
    watch.look_about(map, p, both.west, ins, both.east, *gaps)
}

/// Does so. At a bend of a chain, the commonest vertex, one segment stands in the stead of another of the same sides, and where no gaps
/// are to be told nothing changes.
#[inline]
pub fn note(
    map: &Map,
    p: Point,
    both: BothSides,
    outs: &[u32],
    ins: &[u32],
    gaps: &mut Option<u64>,
    watch: &mut Watch,
) -> Result<(), AllocError>
    ensures { IfOk result (λ done. (west east : List ℕ) → both.west ≡ last_of west → both.east ≡ slice_get east 0 →
        IsRecounted map.now.chains p west outs.now ins.now east gaps.old gaps.new watch.old watch.new) }
{
    if outs.len() == 1 && ins.len() == 1 && !watch.looks(*gaps) && are_alike(map, outs[0], ins[0]) {
        return Ok(());
    }
    recount_about(map, p, both, outs, ins, gaps, watch)
}
