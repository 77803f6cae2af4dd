//! The search for two items that conflict.
ghost use Rattle.std.specs.Prelude.{◌≡◌, ◌<◌, ◌≤◌, ◌+◌, ◌++◌, ◌↔◌, length, get_or, drop, take, IsFalse, IsTrue};
ghost use Rattle.std.specs.Prelude.{◌≤ℤ◌};
ghost use Rattle.std.specs.Int.{int_max, int_min};
ghost use Rattle.tl_geom.specs.Rectangle.{AreMeeting};
ghost use Rattle.tl_tree_index.specs.Fits.{AreBelow, Fits};
ghost use Rattle.tl_tree.specs.Keeping.Cells.{AreCellsOf};
ghost use Rattle.tl_tree.specs.Keeping.Listing.{first_items, listed_items, AllSound, sum_beside, AllBeside};
ghost use Rattle.tl_tree.specs.Keeping.Marking.{Includes, RootMeets};
ghost use Rattle.tl_tree_index.specs.Pairs.{row_sum, cross_sum, pair_sum, AllRow, AllCross, AllPairs, AreToldApart};
ghost use Rattle.tl_tree_index.specs.Searches.{MayAnswer};
ghost use Rattle.tl_tree_index.specs.Trees.{leaf_items};
ghost use Rattle.tl_tree.specs.Keeping.Walking.{MayLeave, answer_of, items_below, IsSound, AreSound};

use crate::cells::cells_of;
use crate::lanes::{bounds_of_eight, is_first_marked, later_marks, meeting_roots};
use crate::leaf::test_leaf;
use crate::near::{LIST, do_meet, list_near};
use crate::walk::{Below, Tree, Trees};
use crate::{Items, Search};
use tl_tree_index::Conflict;

/// How far a search is. Each part of it tells whether it goes on; where it doesn't, a conflict was found or the budget
/// is spent.
pub struct Progress<C> {
    pub left: u64,
    pub found: Option<Conflict<C>>,
}

/// Keeps the conflict that ends a search.
#[inline]
fn keep_conflict<C>(progress: &mut Progress<C>, i: u32, j: u32, c: C)
    requires { progress.old.found ≡ None }
    ensures { progress.new.found ≡ Some (record { i = i; j = j; c = c }) }
{
    match progress.found.replace(Conflict { i, j, c }) {
        None => {}
        Some(_) => unreachable!(),
    }
}

/// Tests two items whose bounds meet, of which the same one is no pair.
#[inline(always)]
pub fn test_meeting<I: Items>(items: &I, i: u32, j: u32, progress: &mut Progress<I::C>) -> bool
    requires first { i < I.count items.now }
    requires second { j < I.count items.now }
    requires meeting { AreMeeting (I.bounds_of items.now j) (I.bounds_of items.now i) }
    requires nothing_found { progress.old.found ≡ None }
    ensures { MayLeave (I.count items.now) (I.bounds_of items.now) (I.tells items.now)
        (λ f. f i j) (AreToldApart (I.tells items.now) i j) progress.old progress.new result }
{
    let (low, high) = (i.min(j), i.max(j));
    if low == high {
        return true;
    }
    if progress.left == 0 {
        return false;
    }
    match items.conflict(low, high) {
        None => {
            progress.left -= 1;
            true
        }
        Some(c) => {
            keep_conflict(progress, low, high, c);
            false
        }
    }
}

/// Tests two items, of which the same one is no pair.
pub fn test_pair<I: Items>(items: &I, i: u32, j: u32, progress: &mut Progress<I::C>) -> bool
    requires first { i < I.count items.now }
    requires second { j < I.count items.now }
    requires nothing_found { progress.old.found ≡ None }
    ensures { MayLeave (I.count items.now) (I.bounds_of items.now) (I.tells items.now)
        (λ f. f i j) (AreToldApart (I.tells items.now) i j) progress.old progress.new result }
{
    if items.bounds(j).meets(items.bounds(i)) {
        test_meeting(items, i, j, progress)
    } else {
        true
    }
}

/// Tests an item against each of some items.
#[inline(never)]
fn test_each<I: Items>(items: &I, i: u32, others: &[u32], progress: &mut Progress<I::C>) -> bool
    requires item { i < I.count items.now }
    requires others { AreBelow (I.count items.now) others.now }
    requires nothing_found { progress.old.found ≡ None }
    ensures { MayLeave (I.count items.now) (I.bounds_of items.now) (I.tells items.now)
        (λ f. row_sum f i others.now)
        (AllRow (AreToldApart (I.tells items.now)) i others.now) progress.old progress.new result }
{
    for j in others {
        if !test_pair(items, i, *j, progress) {
            return false;
        }
    }
    true
}

/// Tests an item against the one of some others at a place, if there is one.
#[inline]
fn test_cell<I: Items>(
    items: &I,
    i: u32,
    others: &[u32],
    at: usize,
    progress: &mut Progress<I::C>,
) -> bool
    requires item { i < I.count items.now }
    requires others { AreBelow (I.count items.now) others.now }
    requires meeting { at < length others.now →
        AreMeeting (I.bounds_of items.now (get_or others.now at 0)) (I.bounds_of items.now i) }
    requires nothing_found { progress.old.found ≡ None }
    ensures { MayLeave (I.count items.now) (I.bounds_of items.now) (I.tells items.now)
        (λ f. row_sum f i (take 1 (drop at others.now)))
        (AllRow (AreToldApart (I.tells items.now)) i (take 1 (drop at others.now))) progress.old progress.new result }
{
    if others.len() <= at {
        return true;
    }
    test_meeting(items, i, others[at], progress)
}

/// Tests the pairs of some items and others whose cells are marked, which are those whose bounds meet.
#[inline(never)]
pub fn test_cells<I: Items>(
    items: &I,
    some: &[u32],
    others: &[u32],
    cells: u64,
    progress: &mut Progress<I::C>,
) -> bool
    requires some { AreBelow (I.count items.now) some.now }
    requires others { AreBelow (I.count items.now) others.now }
    requires few { length some.now ≤ 8 }
    requires few_others { length others.now ≤ 8 }
    requires cells { AreCellsOf (I.bounds_of items.now) some.now others.now cells }
    requires nothing_found { progress.old.found ≡ None }
    ensures { MayLeave (I.count items.now) (I.bounds_of items.now) (I.tells items.now)
        (λ f. cross_sum f some.now others.now)
        (AllCross (AreToldApart (I.tells items.now)) some.now others.now) progress.old progress.new result }
{
    let (mut later, mut place) = (cells, 0usize);
    while later != 0 {
        let empty = later.trailing_zeros();
        place += empty as usize;
        let (row, column) = (place / 8, place % 8);
        if some.len() <= row {
            return true;
        }
        if !test_cell(items, some[row], others, column, progress) {
            return false;
        }
        later = (later >> empty) / 2;
        place += 1;
    }
    true
}

/// Tests each of some items against each of some others, one by one.
#[inline(never)]
pub fn test_all<I: Items>(
    items: &I,
    some: &[u32],
    others: &[u32],
    progress: &mut Progress<I::C>,
) -> bool
    requires some { AreBelow (I.count items.now) some.now }
    requires others { AreBelow (I.count items.now) others.now }
    requires nothing_found { progress.old.found ≡ None }
    ensures { MayLeave (I.count items.now) (I.bounds_of items.now) (I.tells items.now)
        (λ f. cross_sum f some.now others.now)
        (AllCross (AreToldApart (I.tells items.now)) some.now others.now) progress.old progress.new result }
{
    for i in some {
        if !test_each(items, *i, others, progress) {
            return false;
        }
    }
    true
}

/// Tests each of some items against each of some others: of leaves all pairs at once.
pub fn test_cross<I: Items>(
    items: &I,
    some: &[u32],
    others: &[u32],
    progress: &mut Progress<I::C>,
) -> bool
    requires some { AreBelow (I.count items.now) some.now }
    requires others { AreBelow (I.count items.now) others.now }
    requires nothing_found { progress.old.found ≡ None }
    ensures { MayLeave (I.count items.now) (I.bounds_of items.now) (I.tells items.now)
        (λ f. cross_sum f some.now others.now)
        (AllCross (AreToldApart (I.tells items.now)) some.now others.now) progress.old progress.new result }
{
    if some.len() > 8 || others.len() > 8 {
        return test_all(items, some, others, progress);
    }
    let bounds = bounds_of_eight(items, others);
    test_cells(
        items,
        some,
        others,
        cells_of(items, some, &bounds),
        progress,
    )
}

/// Tests an item against those that stand behind it among some items.
fn test_behind<I: Items>(items: &I, some: &[u32], k: usize, progress: &mut Progress<I::C>) -> bool
    requires some { AreBelow (I.count items.now) some.now }
    requires within { k < length some.now }
    requires nothing_found { progress.old.found ≡ None }
    ensures { MayLeave (I.count items.now) (I.bounds_of items.now) (I.tells items.now)
        (λ f. row_sum f (get_or some.now k 0) (drop (k + 1) some.now))
        (AllRow (AreToldApart (I.tells items.now)) (get_or some.now k 0) (drop (k + 1) some.now))
        progress.old progress.new result }
{
    test_each(items, some[k], &some[k + 1..], progress)
}

/// Tests the pairs of some items, one by one.
#[inline(never)]
pub fn test_all_pairs<I: Items>(items: &I, some: &[u32], progress: &mut Progress<I::C>) -> bool
    requires some { AreBelow (I.count items.now) some.now }
    requires nothing_found { progress.old.found ≡ None }
    ensures { MayLeave (I.count items.now) (I.bounds_of items.now) (I.tells items.now)
        (λ f. pair_sum f some.now)
        (AllPairs (AreToldApart (I.tells items.now)) some.now) progress.old progress.new result }
{
    for k in 0..some.len() {
        if !test_behind(items, some, k, progress) {
            return false;
        }
    }
    true
}

/// Tests each item of a tree against each item of another. Where their rectangles don't meet, nothing is tested.
#[cycle(between)]
pub fn search_two<I: Items, W: Trees>(
    items: &I,
    tree: &Tree<'_, W>,
    other: &Tree<'_, W>,
    progress: &mut Progress<I::C>,
) -> bool
    requires tree { IsSound (I.count items.now) (I.bounds_of items.now) W.forest tree.now }
    requires other { IsSound (I.count items.now) (I.bounds_of items.now) W.forest other.now }
    requires nothing_found { progress.old.found ≡ None }
    ensures { MayLeave (I.count items.now) (I.bounds_of items.now) (I.tells items.now)
        (λ f. cross_sum f
        (items_below W.forest tree.now.below) (items_below W.forest other.now.below))
        (AllCross (AreToldApart (I.tells items.now))
        (items_below W.forest tree.now.below) (items_below W.forest other.now.below)) progress.old progress.new result }
{
    if !do_meet(tree.rect, other.rect) {
        return true;
    }
    match (&tree.below, &other.below) {
        (Below::Items(some), Below::Items(others)) => { test_cross(items, some, others, progress) }
        (Below::Children(children), _) => search_between(items, other, children, progress),
        (_, Below::Children(children)) => search_between(items, tree, children, progress),
    }
}

/// Tests each item of a tree against each item of some trees. Of the first eight those whose rectangles don't meet that
/// of the tree are passed over.
#[cycle(between)]
pub fn search_between<I: Items, W: Trees>(
    items: &I,
    tree: &Tree<'_, W>,
    others: &W,
    progress: &mut Progress<I::C>,
) -> bool
    requires tree { IsSound (I.count items.now) (I.bounds_of items.now) W.forest tree.now }
    requires others { AreSound (I.count items.now) (I.bounds_of items.now) (W.forest others.now) }
    requires nothing_found { progress.old.found ≡ None }
    ensures { MayLeave (I.count items.now) (I.bounds_of items.now) (I.tells items.now)
        (λ f. cross_sum f
        (items_below W.forest tree.now.below) (leaf_items (W.forest others.now)))
        (AllCross (AreToldApart (I.tells items.now))
        (items_below W.forest tree.now.below) (leaf_items (W.forest others.now))) progress.old progress.new result }
{
    search_marked(
        items,
        tree,
        others,
        meeting_roots(others, tree.rect),
        progress,
    )
}

/// Tests each item of a tree against each item of some trees, of which marks tell that the rectangles of others than
/// the marked ones don't meet that of the tree.
#[cycle(between)]
fn search_marked<I: Items, W: Trees>(
    items: &I,
    tree: &Tree<'_, W>,
    others: &W,
    marks: u8,
    progress: &mut Progress<I::C>,
) -> bool
    requires tree { IsSound (I.count items.now) (I.bounds_of items.now) W.forest tree.now }
    requires others { AreSound (I.count items.now) (I.bounds_of items.now) (W.forest others.now) }
    requires marks { Includes marks (RootMeets (W.forest others.now) tree.now.rect) }
    requires nothing_found { progress.old.found ≡ None }
    ensures { MayLeave (I.count items.now) (I.bounds_of items.now) (I.tells items.now)
        (λ f. cross_sum f
        (items_below W.forest tree.now.below) (leaf_items (W.forest others.now)))
        (AllCross (AreToldApart (I.tells items.now))
        (items_below W.forest tree.now.below) (leaf_items (W.forest others.now))) progress.old progress.new result }
{
    let Some((other, rest)) = others.split_first() else {
        return true;
    };
    if !search_if_marked(items, tree, &other, is_first_marked(marks), progress) {
        return false;
    }
    search_marked(items, tree, &rest, later_marks(marks), progress)
}

/// Tests each item of a tree against each item of another, unless it is known that their rectangles don't meet.
#[cycle(between)]
fn search_if_marked<I: Items, W: Trees>(
    items: &I,
    tree: &Tree<'_, W>,
    other: &Tree<'_, W>,
    marked: bool,
    progress: &mut Progress<I::C>,
) -> bool
    requires tree { IsSound (I.count items.now) (I.bounds_of items.now) W.forest tree.now }
    requires other { IsSound (I.count items.now) (I.bounds_of items.now) W.forest other.now }
    requires unmarked { IsFalse marked → ¬ AreMeeting other.now.rect tree.now.rect }
    requires nothing_found { progress.old.found ≡ None }
    ensures { MayLeave (I.count items.now) (I.bounds_of items.now) (I.tells items.now)
        (λ f. cross_sum f
        (items_below W.forest tree.now.below) (items_below W.forest other.now.below))
        (AllCross (AreToldApart (I.tells items.now))
        (items_below W.forest tree.now.below) (items_below W.forest other.now.below)) progress.old progress.new result }
{
    if marked {
        search_two(items, tree, other, progress)
    } else {
        true
    }
}

/// Tests each item of a tree against each item of the first of some trees.
fn search_first<I: Items, W: Trees>(
    items: &I,
    tree: &Tree<'_, W>,
    at: &W,
    progress: &mut Progress<I::C>,
) -> bool
    requires tree { IsSound (I.count items.now) (I.bounds_of items.now) W.forest tree.now }
    requires at { AreSound (I.count items.now) (I.bounds_of items.now) (W.forest at.now) }
    requires nothing_found { progress.old.found ≡ None }
    ensures { MayLeave (I.count items.now) (I.bounds_of items.now) (I.tells items.now)
        (λ f. cross_sum f
        (items_below W.forest tree.now.below) (first_items (W.forest at.now)))
        (AllCross (AreToldApart (I.tells items.now))
        (items_below W.forest tree.now.below) (first_items (W.forest at.now))) progress.old progress.new result }
{
    let Some((first, _)) = at.split_first() else {
        return true;
    };
    search_two(items, tree, &first, progress)
}

/// Tests each item of a tree against each item of the trees of a list.
pub fn search_listed<I: Items, W: Trees>(
    items: &I,
    tree: &Tree<'_, W>,
    near: &[W],
    progress: &mut Progress<I::C>,
) -> bool
    requires tree { IsSound (I.count items.now) (I.bounds_of items.now) W.forest tree.now }
    requires near { AllSound (I.count items.now) (I.bounds_of items.now) W.forest near.now }
    requires nothing_found { progress.old.found ≡ None }
    ensures { MayLeave (I.count items.now) (I.bounds_of items.now) (I.tells items.now)
        (λ f. cross_sum f
        (items_below W.forest tree.now.below) (listed_items W.forest near.now))
        (AllCross (AreToldApart (I.tells items.now))
        (items_below W.forest tree.now.below) (listed_items W.forest near.now)) progress.old progress.new result }
{
    let Some((at, rest)) = near.split_first() else {
        return true;
    };
    if !search_first(items, tree, at, progress) {
        return false;
    }
    search_listed(items, tree, rest, progress)
}

/// Tests the pairs of items of a tree, and each of them against each item of the trees of a list.
#[cycle(within)]
pub fn search_one<I: Items, W: Trees>(
    items: &I,
    tree: &Tree<'_, W>,
    near: &[W],
    room: &mut [W],
    progress: &mut Progress<I::C>,
) -> bool
    requires tree { IsSound (I.count items.now) (I.bounds_of items.now) W.forest tree.now }
    requires near { AllSound (I.count items.now) (I.bounds_of items.now) W.forest near.now }
    requires nothing_found { progress.old.found ≡ None }
    ensures { MayLeave (I.count items.now) (I.bounds_of items.now) (I.tells items.now)
        (λ f. sum_beside f
        (items_below W.forest tree.now.below) (listed_items W.forest near.now))
        (AllBeside (AreToldApart (I.tells items.now))
        (items_below W.forest tree.now.below) (listed_items W.forest near.now)) progress.old progress.new result }
{
    match &tree.below {
        Below::Items(some) => test_leaf(items, some, tree.rect, near, progress),
        Below::Children(children) => search_within(items, children, near, room, progress),
    }
}

/// The same, where those behind the tree and those of another list are still to be listed.
#[cycle(within)]
fn search_among<I: Items, W: Trees>(
    items: &I,
    tree: &Tree<'_, W>,
    rest: &W,
    others: &[W],
    room: &mut [W],
    progress: &mut Progress<I::C>,
) -> bool
    requires tree { IsSound (I.count items.now) (I.bounds_of items.now) W.forest tree.now }
    requires rest { AreSound (I.count items.now) (I.bounds_of items.now) (W.forest rest.now) }
    requires others { AllSound (I.count items.now) (I.bounds_of items.now) W.forest others.now }
    requires nothing_found { progress.old.found ≡ None }
    ensures { MayLeave (I.count items.now) (I.bounds_of items.now) (I.tells items.now)
        (λ f. sum_beside f (items_below W.forest tree.now.below)
        (leaf_items (W.forest rest.now) ++ listed_items W.forest others.now))
        (AllBeside (AreToldApart (I.tells items.now)) (items_below W.forest tree.now.below)
        (leaf_items (W.forest rest.now) ++ listed_items W.forest others.now)) progress.old progress.new result }
{
    if room.len() < LIST {
        return search_unlisted(items, tree, rest, others, room, progress);
    }
    let (near, deeper) = room.split_at_mut(LIST);
    match list_near(items, tree, rest, others, near) {
        Some(len) => search_one(items, tree, &near[..len], deeper, progress),
        None => search_unlisted(items, tree, rest, others, deeper, progress),
    }
}

/// The same, where a list has no room for them.
#[cycle(within)]
#[inline(never)]
fn search_unlisted<I: Items, W: Trees>(
    items: &I,
    tree: &Tree<'_, W>,
    rest: &W,
    others: &[W],
    room: &mut [W],
    progress: &mut Progress<I::C>,
) -> bool
    requires tree { IsSound (I.count items.now) (I.bounds_of items.now) W.forest tree.now }
    requires rest { AreSound (I.count items.now) (I.bounds_of items.now) (W.forest rest.now) }
    requires others { AllSound (I.count items.now) (I.bounds_of items.now) W.forest others.now }
    requires nothing_found { progress.old.found ≡ None }
    ensures { MayLeave (I.count items.now) (I.bounds_of items.now) (I.tells items.now)
        (λ f. sum_beside f (items_below W.forest tree.now.below)
        (leaf_items (W.forest rest.now) ++ listed_items W.forest others.now))
        (AllBeside (AreToldApart (I.tells items.now)) (items_below W.forest tree.now.below)
        (leaf_items (W.forest rest.now) ++ listed_items W.forest others.now)) progress.old progress.new result }
{
    if !search_between(items, tree, rest, progress) {
        return false;
    }
    if !search_listed(items, tree, others, progress) {
        return false;
    }
    search_one(items, tree, &[], room, progress)
}

/// Tests the pairs of items of some trees, and each of them against each item of the trees of a list.
#[cycle(within)]
pub fn search_within<I: Items, W: Trees>(
    items: &I,
    trees: &W,
    others: &[W],
    room: &mut [W],
    progress: &mut Progress<I::C>,
) -> bool
    requires trees { AreSound (I.count items.now) (I.bounds_of items.now) (W.forest trees.now) }
    requires others { AllSound (I.count items.now) (I.bounds_of items.now) W.forest others.now }
    requires nothing_found { progress.old.found ≡ None }
    ensures { MayLeave (I.count items.now) (I.bounds_of items.now) (I.tells items.now)
        (λ f. sum_beside f
        (leaf_items (W.forest trees.now)) (listed_items W.forest others.now))
        (AllBeside (AreToldApart (I.tells items.now))
        (leaf_items (W.forest trees.now)) (listed_items W.forest others.now)) progress.old progress.new result }
{
    let Some((tree, rest)) = trees.split_first() else {
        return true;
    };
    if !search_among(items, &tree, &rest, others, room, progress) {
        return false;
    }
    search_within(items, &rest, others, room, progress)
}

/// The answer of a search, from whether it goes on at its end and how far it is.
pub fn answer<C>(goes_on: bool, progress: Progress<C>) -> Search<C>
    ensures { result ≡ answer_of goes_on progress.found }
{
    let Progress { left: _, found } = progress;
    match found {
        Some(Conflict { i, j, c }) => Search::Found { i, j, c },
        None => {
            if goes_on {
                Search::Clear
            } else {
                Search::Budget
            }
        }
    }
}

/// Looks for two items that conflict, by trees that fit the items, with room for its lists.
pub fn search_trees<I: Items, W: Trees>(
    items: &I,
    trees: &W,
    room: &mut [W],
    budget: u64,
) -> Search<I::C>
    requires { Fits (W.forest trees.now) (I.count items.now) (I.bounds_of items.now) }
    ensures { MayAnswer (I.count items.now) (I.bounds_of items.now) (I.tells items.now) budget result }
{
    let mut progress = Progress {
        left: budget,
        found: None,
    };
    let goes_on = search_within(items, trees, &[], room, &mut progress);
    answer(goes_on, progress)
}
