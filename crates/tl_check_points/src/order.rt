//! An order of points in which their gaps are near one another in the tree of gaps.
ghost use Rattle.std.specs.Prelude.{OnOk};
ghost use Rattle.std.specs.List.Sorted.{IsPermutation};

use crate::labels::Gap;
use crate::visits::Visit;
use std::alloc::{AllocError, Global};

/// Sorts points by the places of their gaps on a walk round the tree of gaps. The error is that memory was refused.
pub fn sort_along(alloc: Global, gaps: &[Gap], visits: &mut Vec<Visit>) -> Result<(), AllocError>
    ensures { OnOk result (IsPermutation visits.old.items visits.new.items) }
{
    let sizes = sizes_of(alloc, gaps)?;
    let ranks = ranks_of(alloc, gaps, &sizes)?;
    visits.sort_unstable_by_key(|visit| number_at(&ranks, visit.gap as usize));
    Ok(())
}

/// How many gaps have their ways through each gap, with itself.
fn sizes_of(alloc: Global, gaps: &[Gap]) -> Result<Vec<u32>, AllocError> {
    let mut sizes = vec![in alloc; 1u32; gaps.len()]?;
    for gap in (1..gaps.len()).rev() {
        let size = number_at(&sizes, gap);
        add_at(&mut sizes, gaps[gap].parent as usize, size);
    }
    Ok(sizes)
}

/// The places of gaps on a walk that comes to each gap before those behind it, and to all behind one of these before the next one.
fn ranks_of(alloc: Global, gaps: &[Gap], sizes: &[u32]) -> Result<Vec<u32>, AllocError> {
    let mut ranks = vec![in alloc; 0u32; gaps.len()]?;
    // The places to be given next, of those behind each gap.
    let mut nexts = vec![in alloc; 1u32; gaps.len()]?;
    for gap in 1..gaps.len() {
        let parent = gaps[gap].parent as usize;
        let rank = number_at(&nexts, parent);
        add_at(&mut nexts, parent, number_at(sizes, gap));
        add_at(&mut ranks, gap, rank);
        add_at(&mut nexts, gap, rank);
    }
    Ok(ranks)
}

/// The number at a place, or 0 where there is none.
fn number_at(numbers: &[u32], place: usize) -> u32 {
    match numbers.get(place) {
        Some(number) => *number,
        None => 0,
    }
}

/// Adds to the number at a place, if there is one.
fn add_at(numbers: &mut [u32], place: usize, more: u32) {
    if let Some(number) = numbers.get_mut(place) {
        *number = number.wrapping_add(more);
    }
}
