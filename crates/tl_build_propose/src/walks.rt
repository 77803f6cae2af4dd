//! The walks of a map: the rings of darts that follow one another.

ghost use Rattle.std.specs.Prelude.{◌≡◌, ℕ, ◌<◌, ◌≤◌, ◌%◌, ◌^◌, zero, Some, false};
ghost use Rattle.std.specs.Prelude.{length, map, All, IfOk, OnOk, slice_get, slice_index};
ghost use Rattle.std.specs.List.{concat};
ghost use Rattle.tl_map_county.specs.Darts.{reverse_dart as reverse_dart_of};
ghost use Rattle.tl_tree_index.specs.Keeping.Marked.{mark_at};
ghost use Rattle.tl_tree_index.specs.Hits.{times};
ghost use Rattle.tl_check_sides.specs.Lists.{HoldOnce};
ghost use Rattle.tl_check_sides.specs.Keeping.Marked.{AddMarks};
ghost use Rattle.tl_tree_index.specs.Lists.{HoldsAll};
ghost use Rattle.tl_build_propose.specs.Keeping.Following.{IsOneToOne, IsLinkedBy, IsLinkedIn, AreFollowed, GoesBy};
ghost use Rattle.tl_build_propose.specs.Keeping.Lists.{AreUnmarked, darts_in};

use crate::rounds::first_round;
use std::alloc::{AllocError, Global};
use tl_check_sides::HeadedDart;
use tl_map_county::reverse_dart;

/// Of each dart the one that follows it: about the node where the dart ends, the one before its reverse in the round. The darts
/// stand together by their nodes, and those of each are a round.
pub fn link_darts(alloc: Global, starts: &[HeadedDart]) -> Result<Vec<u32>, AllocError>
    requires all { HoldsAll (length starts.now) (darts_in starts.now) }
    requires paired { length starts.now % 2 ≡ 0 }
    ensures long { IfOk result (λ following. length following.items ≡ length starts.now) }
    ensures known { IfOk result (λ following. All (λ d. d < length starts.now) following.items) }
    ensures linked { IfOk result (λ following. IsLinkedBy starts.now following.items) }
{
    let mut following = vec![in alloc; 0u32; starts.len()]?;
    link_rounds(&mut following, starts);
    Ok(following)
}

/// Keeps of the reverse of each dart the dart before it in its round.
fn link_rounds(following: &mut [u32], starts: &[HeadedDart])
    requires all { HoldsAll (length following.old) (darts_in starts.now) }
    requires paired { length following.old % 2 ≡ 0 }
    requires kept { All (λ d. d < length following.old) following.old }
    ensures long { length following.new ≡ length following.old }
    ensures kept { All (λ d. d < length following.old) following.new }
    ensures linked { IsLinkedBy starts.now following.new }
{
    let mut rest = starts;
    while !rest.is_empty() {
        let (round, behind) = rest.split_at(first_round(rest));
        link_round(following, round);
        rest = behind;
    }
}

/// Keeps of the reverse of each dart of a round the dart before it, which is the last one before the first.
fn link_round(following: &mut [u32], round: &[HeadedDart])
    requires some { zero < length round.now }
    requires known { All (λ d. d < length following.old) (darts_in round.now) }
    requires once { (d : ℕ) → times d (darts_in round.now) ≤ 1 }
    requires paired { length following.old % 2 ≡ 0 }
    requires kept { All (λ d. d < length following.old) following.old }
    ensures long { length following.new ≡ length following.old }
    ensures kept { All (λ d. d < length following.old) following.new }
    ensures linked { IsLinkedIn following.new (darts_in round.now) }
    ensures others { (d : ℕ) → times (reverse_dart_of d) (darts_in round.now) ≡ 0 → slice_index following.new d ≡ slice_index following.old d }
{
    let mut before = round[round.len() - 1].dart;
    for start in round {
        following[reverse_dart(start.dart) as usize] = before;
        before = start.dart;
    }
}

/// The walks in which each dart stands, by the dart that follows each.
pub fn trace_walks(alloc: Global, following: &[u32]) -> Result<Vec<Vec<u32>>, AllocError>
    requires known { All (λ d. d < length following.now) following.now }
    requires counted { length following.now < 2 ^ 32 }
    ensures hold { IfOk result (λ walks. HoldOnce (length following.now) (map (λ w. w.items) walks.items)) }
    ensures some { IfOk result (λ walks. All (λ w. zero < length w.items) walks.items) }
    ensures counted { IfOk result (λ walks. length (concat (map (λ w. w.items) walks.items)) ≤ length following.now) }
    ensures goes { IfOk result (λ walks. IsOneToOne following.now →
        All (λ w. GoesBy following.now w.items) walks.items) }
{
    let mut taken = vec![in alloc; false; following.len()]?;
    trace_all(alloc, following, &mut taken)
}

/// The walks, with marks of the darts that are taken, none of which is yet.
fn trace_all(
    alloc: Global,
    following: &[u32],
    taken: &mut [bool],
) -> Result<Vec<Vec<u32>>, AllocError>
    requires known { All (λ d. d < length following.now) following.now }
    requires counted { length following.now < 2 ^ 32 }
    requires long { length taken.old ≡ length following.now }
    requires free { AreUnmarked taken.old }
    ensures hold { IfOk result (λ walks. HoldOnce (length following.now) (map (λ w. w.items) walks.items)) }
    ensures some { IfOk result (λ walks. All (λ w. zero < length w.items) walks.items) }
    ensures counted { IfOk result (λ walks. length (concat (map (λ w. w.items) walks.items)) ≤ length following.now) }
    ensures goes { IfOk result (λ walks. IsOneToOne following.now →
        All (λ w. GoesBy following.now w.items) walks.items) }
{
    let mut walks = Vec::new(alloc);
    let mut walk = Vec::new(alloc);
    for first in 0..following.len() {
        if taken[first] {
            continue;
        }
        trace_walk(following, taken, first as u32, &mut walk)?;
        walks.push(walk.to_vec(alloc)?)?;
    }
    Ok(walks)
}

/// Takes the darts that follow one another, from the first up to one that is taken.
pub fn trace_walk(
    following: &[u32],
    taken: &mut [bool],
    first: u32,
    walk: &mut Vec<u32>,
) -> Result<(), AllocError>
    requires known { All (λ d. d < length following.now) following.now }
    requires long { length taken.old ≡ length following.now }
    requires first { first < length following.now }
    requires free { slice_get taken.old first ≡ Some false }
    ensures taken { OnOk result (AddMarks taken.old walk.new.items taken.new) }
    ensures begun { OnOk result (mark_at taken.new first ≡ 1) }
    ensures goes { OnOk result (IsOneToOne following.now → AreFollowed following.now taken.old →
        GoesBy following.now walk.new.items) }
    ensures followed { OnOk result (IsOneToOne following.now → AreFollowed following.now taken.old →
        AreFollowed following.now taken.new) }
{
    walk.clear();
    let mut dart = first;
    while !taken[dart as usize] {
        taken[dart as usize] = true;
        walk.push(dart)?;
        dart = following[dart as usize];
    }
    Ok(())
}
