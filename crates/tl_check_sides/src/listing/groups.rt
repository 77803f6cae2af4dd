//! The groups of darts that head in one direction about one node, and which group is the next one.

ghost use Rattle.std.specs.Prelude.{◌≡◌, ◌+◌, ◌<◌, ◌≤◌, ◌^◌, IfOk, length, map};
ghost use Rattle.tl_check_sides.specs.Sides.{dart_count};
ghost use Rattle.tl_check_sides.specs.Headed.{AreSorted};
ghost use Rattle.tl_check_sides.specs.Listing.Keeping.Around.{AreAround};
ghost use Rattle.tl_check_sides.specs.Listing.Keeping.Grouped.{IsEndOf, AreEnds, IsFirstOf, HaveBegun};
ghost use Rattle.tl_check_sides.specs.Listing.Keeping.Grouped.{IsNextPlace, AreNexts, AreGrouped, AreNextTo};

use crate::{HeadedDart, head_together, sort_darts};
use std::alloc::{AllocError, Global};
use tl_map_county::Map;

/// The darts of a map, those of each group together, with the place where the group of each place ends, and the first
/// place of the group that is next after that of each dart.
#[derive(Drop)]
pub struct Groups {
    darts: Vec<HeadedDart>,
    ends: Vec<u32>,
    nexts: Vec<u32>,
}

impl Groups {
    /// The groups of a map.
    pub fn new(alloc: Global, map: &Map) -> Result<Groups, AllocError>
        ensures { IfOk result (AreGrouped map.now.chains) }
    {
        let darts = sort_darts(alloc, map)?;
        let ends = group_ends(alloc, &darts)?;
        let nexts = next_groups(alloc, map, &darts, &ends)?;
        Ok(Groups { darts, ends, nexts })
    }

    /// The darts that are next after one about its node, by rising number.
    pub fn next_after(&self, map: &Map, dart: u32) -> &[HeadedDart]
        requires grouped { AreGrouped map.now.chains self.now }
        requires known { dart < dart_count map.now.chains }
        ensures { AreNextTo map.now.chains dart result.now }
    {
        let first = self.nexts[dart as usize] as usize;
        part_of(&self.darts, first, self.ends[first] as usize)
    }
}

ghost use Rattle.std.specs.Prelude.{◌-◌, take, drop};

/// The darts from one place up to another.
fn part_of(darts: &[HeadedDart], first: usize, end: usize) -> &[HeadedDart]
    requires ordered { first ≤ end }
    requires within { end ≤ length darts.now }
    ensures { result.now ≡ take (end - first) (drop first darts.now) }
{
    &darts[first..end]
}

/// Where the group of each place ends.
fn group_ends(alloc: Global, darts: &[HeadedDart]) -> Result<Vec<u32>, AllocError>
    requires { length darts.now < 2 ^ 32 }
    ensures { IfOk result (λ ends. AreEnds darts.now 0 ends.items) }
{
    let mut ends = vec![in alloc; 0u32; darts.len()]?;
    let mut end = darts.len();
    for behind in 0..darts.len() {
        let place = darts.len() - 1 - behind;
        end = end_at(darts, place, end);
        ends[place] = end as u32;
    }
    Ok(ends)
}

/// Where the group of a place ends, if that of the place behind it ends there.
fn end_at(darts: &[HeadedDart], place: usize, end: usize) -> usize
    requires within { place < length darts.now }
    requires behind { IsEndOf darts.now (place + 1) end }
    ensures { IsEndOf darts.now place result }
{
    if place + 1 < darts.len() && head_together(&darts[place], &darts[place + 1]) {
        end
    } else {
        place + 1
    }
}

/// The first place of the group that is next after that of each dart.
fn next_groups(
    alloc: Global,
    map: &Map,
    darts: &[HeadedDart],
    ends: &[u32],
) -> Result<Vec<u32>, AllocError>
    requires around { AreAround map.now.chains darts.now }
    requires ends { AreEnds darts.now 0 ends.now }
    ensures { IfOk result (λ nexts. AreNexts darts.now (length darts.now) nexts.items) }
{
    let mut nexts = vec![in alloc; 0u32; darts.len()]?;
    let mut first = 0;
    for place in 0..darts.len() {
        first = first_at(darts, place, first);
        let next = next_place(darts, place, ends[place] as usize, first);
        nexts[darts[place].dart as usize] = next as u32;
    }
    Ok(nexts)
}

/// Where the node of a place begins, if that of the place before it begins there.
fn first_at(darts: &[HeadedDart], place: usize, first: usize) -> usize
    requires within { place < length darts.now }
    requires sorted { AreSorted darts.now }
    requires before { HaveBegun darts.now place first }
    ensures { IsFirstOf darts.now place result }
{
    if place == 0 {
        first
    } else if darts[place - 1].node == darts[place].node {
        first
    } else {
        place
    }
}

/// The first place of the group that is next after that of a place: where that one ends, or where its node begins.
fn next_place(darts: &[HeadedDart], place: usize, end: usize, first: usize) -> usize
    requires within { place < length darts.now }
    requires sorted { AreSorted darts.now }
    requires end { IsEndOf darts.now place end }
    requires first { IsFirstOf darts.now place first }
    ensures { IsNextPlace darts.now place result }
{
    if end < darts.len() && darts[end].node == darts[place].node {
        end
    } else {
        first
    }
}
