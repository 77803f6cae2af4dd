//! The search for a place where chains meet that they may not.

ghost use Rattle.std.specs.Prelude.{◌≤◌, ◌↔◌, ℕ, length, IsTrue, IfOk, MatchOption};
ghost use Rattle.tl_tree_index.specs.Fits.{Fits};
ghost use Rattle.tl_tree_index.specs.Trees.{tree_of};
ghost use Rattle.tl_map_county.specs.Segments.{segments_before};
ghost use Rattle.tl_check_planar.specs.Rectangles.{segment_rect};
ghost use Rattle.tl_check_planar.specs.Searching.{meeting_segments};
ghost use Rattle.tl_check.specs.Keeping.Searching.{MayFind, pairs_of};

use std::alloc::Global;
use tl_check_faces::OddGap;
use tl_check_gaps::Gaps;
use tl_check_planar::{Meet, Meeting, first_meet};
use tl_check_sweep::{SweepReport, Swept, sweep};
use tl_map_county::Map;
use tl_tree::FlatTree;
use tl_tree_index::Memory;

/// What a sweep leaves open of a map whose chains are planar.
#[derive(Drop)]
pub struct LeftOpen {
    /// The polygons whose points may not lie where they have to.
    pub suspects: Vec<u32>,
    /// Gaps whose facing sides differ, if there are any.
    pub gaps: Vec<OddGap>,
}

/// What was found of a map's chains.
#[derive(Drop)]
pub enum Found {
    /// Two segments meet where they may not.
    Meet(Meet),
    /// The chains are planar.
    Planar(LeftOpen),
    /// More pairs of segments than the budget have rectangles that meet, and as many of these as the budget don't conflict.
    Budget,
}

/// Looks for two segments that meet where they may not: by one sweep, and before it, where the budget isn't enough for all pairs of
/// segments, in a tree that fits the map's segments. A sweep needs no tree, so it is freed before.
pub fn search(alloc: Global, map: &Map, tree: FlatTree, budget: u64) -> Result<Found, Memory>
    requires fits { Fits (tree_of tree) (segments_before map.now.chains (length map.now.chains)) (segment_rect map.now.chains) }
    ensures { IfOk result (MayFind map.now budget) }
{
    match search_tree(map, &tree, budget) {
        Some(found) => Ok(found),
        None => {
            drop(tree);
            search_by_sweep(alloc, map)
        }
    }
}

/// What a search by the tree finds within the budget, unless it comes to its end and finds nothing. None is made where the budget is enough
/// for all pairs of segments.
fn search_tree(map: &Map, tree: &FlatTree, budget: u64) -> Option<Found>
    requires fits { Fits (tree_of tree.now) (segments_before map.now.chains (length map.now.chains)) (segment_rect map.now.chains) }
    ensures { MatchOption result (meeting_segments map.now.chains ≤ budget) (MayFind map.now budget) }
{
    if is_enough(map, budget) {
        return None;
    }
    match first_meet(map, tree, budget) {
        Meeting::Found(meet) => Some(Found::Meet(meet)),
        Meeting::Clear => None,
        Meeting::Budget => Some(Found::Budget),
    }
}

/// What a sweep finds, whatever the budget, if no more pairs of segments have rectangles that meet.
fn search_by_sweep(alloc: Global, map: &Map) -> Result<Found, Memory>
    ensures { IfOk result (λ found. (budget : ℕ) → meeting_segments map.now.chains ≤ budget → MayFind map.now budget found) }
{
    let Ok(report) = sweep(alloc, map, Gaps::First) else {
        return Err(Memory);
    };
    let SweepReport {
        swept,
        suspects,
        gaps,
    } = report;
    match swept {
        Swept::Placed | Swept::Planar => Ok(Found::Planar(LeftOpen { suspects, gaps })),
        Swept::Meet(meet) => Ok(Found::Meet(meet)),
    }
}

/// Whether a budget is enough for all pairs of a map's segments, so that no search can spend it.
fn is_enough(map: &Map, budget: u64) -> bool
    ensures { IsTrue result ↔ (pairs_of (segments_before map.now.chains (length map.now.chains)) ≤ budget) }
{
    let segments = map.segments() as u64;
    segments * segments.saturating_sub(1) / 2 <= budget
}
