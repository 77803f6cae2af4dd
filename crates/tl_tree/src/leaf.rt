//! The search of a leaf, whose bounds are gathered once: its own pairs, and against the items below other trees.
ghost use Rattle.std.specs.Prelude.{◌≡◌, ◌≤◌, None, length};
ghost use Rattle.tl_tree_index.specs.Fits.{AreBelow, CoversAll};
ghost use Rattle.tl_tree.specs.Keeping.Listing.{listed_items, AllSound, sum_beside, AllBeside};
ghost use Rattle.tl_tree.specs.Keeping.Marking.{AreBoundsOf};
ghost use Rattle.tl_tree.specs.Keeping.Walking.{MayLeave};
ghost use Rattle.tl_tree_index.specs.Pairs.{cross_sum, pair_sum, AllCross, AllPairs, AreToldApart};

use crate::Items;
use crate::cells::cells_of;
use crate::lanes::bounds_of_eight;
use crate::near_items::{NEAR, list_near_items};
use crate::own_pairs::test_own_pairs;
use crate::search::{Progress, search_listed, test_all_pairs, test_cells};
use crate::walk::{Below, Tree, Trees};
use tl_geom::{Rect, Rect8};

/// Tests the items of a leaf, whose bounds are given, against each of some others: all pairs at once.
#[inline]
fn test_rows<I: Items>(
    items: &I,
    some: &[u32],
    bounds: &Rect8,
    others: &[u32],
    progress: &mut Progress<I::C>,
) -> bool
    requires some { AreBelow (I.count items.now) some.now }
    requires few { length some.now ≤ 8 }
    requires bounds { AreBoundsOf (I.bounds_of items.now) some.now bounds.now }
    requires others { AreBelow (I.count items.now) others.now }
    requires few_others { length others.now ≤ 8 }
    requires nothing_found { progress.old.found ≡ None }
    ensures { MayLeave (I.count items.now) (I.bounds_of items.now) (I.tells items.now)
        (λ f. cross_sum f some.now others.now)
        (AllCross (AreToldApart (I.tells items.now)) some.now others.now) progress.old progress.new result }
{
    test_cells(
        items,
        others,
        some,
        cells_of(items, others, bounds),
        progress,
    )
}

/// Tests the items of a leaf, whose bounds are given, against each of some others: of eight all pairs at once.
fn test_blocks<I: Items>(
    items: &I,
    some: &[u32],
    bounds: &Rect8,
    others: &[u32],
    progress: &mut Progress<I::C>,
) -> bool
    requires some { AreBelow (I.count items.now) some.now }
    requires few { length some.now ≤ 8 }
    requires bounds { AreBoundsOf (I.bounds_of items.now) some.now bounds.now }
    requires others { AreBelow (I.count items.now) others.now }
    requires nothing_found { progress.old.found ≡ None }
    ensures { MayLeave (I.count items.now) (I.bounds_of items.now) (I.tells items.now)
        (λ f. cross_sum f some.now others.now)
        (AllCross (AreToldApart (I.tells items.now)) some.now others.now) progress.old progress.new result }
{
    if others.len() <= 8 {
        return test_rows(items, some, bounds, others, progress);
    }
    let (first, rest) = others.split_at(8);
    if !test_rows(items, some, bounds, first, progress) {
        return false;
    }
    test_blocks(items, some, bounds, rest, progress)
}

/// Tests the pairs of the items of a leaf, whose bounds are given.
#[inline]
fn test_pairs<I: Items>(
    items: &I,
    some: &[u32],
    bounds: &Rect8,
    progress: &mut Progress<I::C>,
) -> bool
    requires some { AreBelow (I.count items.now) some.now }
    requires bounds { AreBoundsOf (I.bounds_of items.now) some.now bounds.now }
    requires nothing_found { progress.old.found ≡ None }
    ensures { MayLeave (I.count items.now) (I.bounds_of items.now) (I.tells items.now)
        (λ f. pair_sum f some.now)
        (AllPairs (AreToldApart (I.tells items.now)) some.now) progress.old progress.new result }
{
    if some.len() > 8 {
        return test_all_pairs(items, some, progress);
    }
    test_own_pairs(items, some, bounds.meeting_pairs(), progress)
}

/// Tests the items of a leaf against each item of the trees of a list, one tree after the other.
#[inline(never)]
fn test_unlisted<I: Items, W: Trees>(
    items: &I,
    some: &[u32],
    around: Rect,
    near: &[W],
    progress: &mut Progress<I::C>,
) -> bool
    requires some { AreBelow (I.count items.now) some.now }
    requires around { CoversAll (I.bounds_of items.now) around some.now }
    requires near { AllSound (I.count items.now) (I.bounds_of items.now) W.forest near.now }
    requires nothing_found { progress.old.found ≡ None }
    ensures { MayLeave (I.count items.now) (I.bounds_of items.now) (I.tells items.now)
        (λ f. cross_sum f some.now (listed_items W.forest near.now))
        (AllCross (AreToldApart (I.tells items.now)) some.now (listed_items W.forest near.now)) progress.old progress.new result }
{
    let tree = Tree {
        rect: around,
        below: Below::Items(some),
    };
    search_listed(items, &tree, near, progress)
}

/// Tests the items of a leaf, whose bounds are given, against each item of the trees of a list: those alone whose bounds
/// meet the rectangle around the leaf, and these at once.
#[inline]
fn test_listed<I: Items, W: Trees>(
    items: &I,
    some: &[u32],
    around: Rect,
    bounds: &Rect8,
    near: &[W],
    progress: &mut Progress<I::C>,
) -> bool
    requires some { AreBelow (I.count items.now) some.now }
    requires around { CoversAll (I.bounds_of items.now) around some.now }
    requires bounds { AreBoundsOf (I.bounds_of items.now) some.now bounds.now }
    requires near { AllSound (I.count items.now) (I.bounds_of items.now) W.forest near.now }
    requires nothing_found { progress.old.found ≡ None }
    ensures { MayLeave (I.count items.now) (I.bounds_of items.now) (I.tells items.now)
        (λ f. cross_sum f some.now (listed_items W.forest near.now))
        (AllCross (AreToldApart (I.tells items.now)) some.now (listed_items W.forest near.now)) progress.old progress.new result }
{
    if some.len() > 8 {
        return test_unlisted(items, some, around, near, progress);
    }
    let mut listed = [0u32; NEAR];
    match list_near_items(items, some, around, near, &mut listed, 0) {
        Some(len) => test_blocks(items, some, bounds, &listed[..len], progress),
        None => test_unlisted(items, some, around, near, progress),
    }
}

/// Tests the pairs of the items of a leaf, around which a rectangle is, and each of them against each item of the trees of
/// a list.
pub fn test_leaf<I: Items, W: Trees>(
    items: &I,
    some: &[u32],
    around: Rect,
    near: &[W],
    progress: &mut Progress<I::C>,
) -> bool
    requires some { AreBelow (I.count items.now) some.now }
    requires around { CoversAll (I.bounds_of items.now) around some.now }
    requires near { AllSound (I.count items.now) (I.bounds_of items.now) W.forest near.now }
    requires nothing_found { progress.old.found ≡ None }
    ensures { MayLeave (I.count items.now) (I.bounds_of items.now) (I.tells items.now)
        (λ f. sum_beside f some.now (listed_items W.forest near.now))
        (AllBeside (AreToldApart (I.tells items.now)) some.now (listed_items W.forest near.now))
        progress.old progress.new result }
{
    let bounds = bounds_of_eight(items, some);
    if !test_pairs(items, some, &bounds, progress) {
        return false;
    }
    test_listed(items, some, around, &bounds, near, progress)
}
