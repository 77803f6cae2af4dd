//! Of gaps the lowest of each two segments, in order.
ghost use Rattle.std.specs.Prelude.{◌≡◌, ◌<◌, ◌↔◌, IfOk, OnOk, IsTrue, length};
ghost use Rattle.std.specs.List.Sorted.{IsPermutation};
ghost use Rattle.tl_check_planar.specs.ByHeight.Heights.{widest};
ghost use Rattle.tl_check_faces.specs.AllFaults.{order_of};
ghost use Rattle.tl_check_gaps.specs.Gaps.{AreLowestOfEach};
ghost use Rattle.tl_check_gaps.specs.Keeping.Kept.{AreSorted, IsGapRepeated, AreKept};

use std::alloc::{AllocError, Global};
use tl_check_active::height;
use tl_check_faces::OddGap;

/// Of gaps the lowest between each two segments, by rising numbers of the western one and of one such by those of the eastern one; where
/// no segment stands on a side it comes before all that may. The error is that memory was refused.
pub fn lowest_of_each(alloc: Global, gaps: Vec<OddGap>) -> Result<Vec<OddGap>, AllocError>
    ensures { IfOk result (λ kept. AreLowestOfEach widest gaps.items kept.items) }
{
    let mut sorted = gaps;
    sort_gaps(&mut sorted)?;
    keep_one_each(alloc, &sorted)
}

/// The place of a segment in the order of those on one side of a gap.
fn order(s: Option<u32>) -> u64
    ensures { result ≡ order_of s }
{
    match s {
        Some(s) => u64::from(s) + 1,
        None => 0,
    }
}

/// Sorts gaps by their western segments, those of one by their eastern ones, and those of the same two by their heights.
fn sort_gaps(gaps: &mut Vec<OddGap>) -> Result<(), AllocError>
    ensures moved { IsPermutation gaps.old.items gaps.new.items }
    ensures ordered { OnOk result (AreSorted gaps.new.items) }
{
    gaps.sort_by_key(|gap| ((order(gap.west), order(gap.east)), height(gap.at)))?;
    Ok(())
}

/// Whether two gaps are between the same two segments.
fn are_alike(one: OddGap, other: OddGap) -> bool
    ensures { IsTrue result ↔ ((one.west ≡ other.west) × (one.east ≡ other.east)) }
{
    one.west == other.west && one.east == other.east
}

/// Whether the gap at a place is between the same two segments as the one before it.
fn repeats(gaps: &[OddGap], k: usize) -> bool
    requires { k < length gaps.now }
    ensures { IsTrue result ↔ IsGapRepeated gaps.now k }
{
    k > 0 && are_alike(gaps[k - 1], gaps[k])
}

/// Of sorted gaps the lowest of each two segments.
fn keep_one_each(alloc: Global, gaps: &[OddGap]) -> Result<Vec<OddGap>, AllocError>
    requires { AreSorted gaps.now }
    ensures { IfOk result (λ kept. AreKept gaps.now kept.items) }
{
    let mut kept = Vec::new(alloc);
    for k in 0..gaps.len() {
        if !repeats(gaps, k) {
            kept.push(gaps[k])?;
        }
    }
    Ok(kept)
}
