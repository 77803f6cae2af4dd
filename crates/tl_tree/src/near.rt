//! Lists of the trees that a tree is searched against: of those that come behind it, those whose rectangles meet its own.
ghost use Rattle.std.specs.Prelude.{◌≡◌, ◌≤◌, ◌<◌, ◌+◌, ◌↔◌, ◌≤ℤ◌, ◌++◌, [], ◌^◌, length, take};
ghost use Rattle.std.specs.Prelude.{IsTrue, IsFalse};
ghost use Rattle.std.specs.Int.{int_max, int_min};
ghost use Rattle.tl_geom.specs.Rectangle.{AreMeeting};
ghost use Rattle.tl_tree_index.specs.Trees.{leaf_items};
ghost use Rattle.tl_tree.specs.Keeping.Listing.{first_items, listed_items, AllSound, IsFirst, StandsFor, MayList};
ghost use Rattle.tl_tree.specs.Keeping.Walking.{items_below, IsSound, AreSound};

use crate::Items;
use crate::walk::{Below, Tree, Trees};
use tl_geom::Rect;

/// How many trees a list has room for. Over 2,750,000 segments in a tree that was made by halving no list has over eight.
pub const LIST: usize = 12;

/// How much room a search lends to its lists: one for each depth that a tree may have.
pub const ROOM: usize = 768;

/// Whether some point is in both rectangles, told without a branch: in a walk no one foresees whether it is so.
#[inline]
pub fn do_meet(r: Rect, q: Rect) -> bool
    ensures { IsTrue result ↔ AreMeeting r q }
{
    !are_apart(r, q)
}

/// Whether no point is in both rectangles, told without a branch.
#[inline]
pub fn are_apart(r: Rect, q: Rect) -> bool
    ensures { IsFalse result ↔ AreMeeting r q }
{
    is_either(
        is_gap(r.xmin, r.xmax, q.xmin, q.xmax),
        is_gap(r.ymin, r.ymax, q.ymin, q.ymax),
    )
}

/// Whether one of both is so.
#[inline]
fn is_either(first: bool, second: bool) -> bool
    ensures { IsFalse result ↔ (IsFalse first × IsFalse second) }
{
    first | second
}

/// Whether no number lies from `low` to `high` and from `low2` to `high2`.
#[inline]
fn is_gap(low: i32, high: i32, low2: i32, high2: i32) -> bool
    ensures { IsFalse result ↔ (int_max low low2 ≤ℤ int_min high high2) }
{
    low.max(low2) > high.min(high2)
}

/// The next place of a list, or the same where what stands there is written over.
#[inline]
pub fn next_place(place: usize, again: bool) -> usize
    requires { place + 1 < 2 ^ 64 }
    ensures next { IsFalse again → result ≡ place + 1 }
    ensures same { IsTrue again → result ≡ place }
{
    place + 1 - usize::from(again)
}

/// Lists a tree, the first of those at `at`, behind the first `len` of a list, where its rectangle meets that of the
/// searched tree, and tells how many are listed then. It is written in any case, since a branch would be foreseen wrong.
#[inline]
fn list_one<I: Items, W: Trees>(
    items: &I,
    tree: &Tree<'_, W>,
    at: &W,
    first: &Tree<'_, W>,
    near: &mut [W],
    len: usize,
) -> usize
    requires tree { IsSound (I.count items.now) (I.bounds_of items.now) W.forest tree.now }
    requires at { AreSound (I.count items.now) (I.bounds_of items.now) (W.forest at.now) }
    requires first { IsFirst W.forest first.now (W.forest at.now) }
    requires room { len < length near.old }
    ensures complete { length near.new ≡ length near.old }
    ensures fits { result ≤ len + 1 }
    ensures listed { StandsFor (I.count items.now) (I.bounds_of items.now) (I.tells items.now) W.forest
        (items_below W.forest tree.now.below) (take len near.old)
        (items_below W.forest first.now.below) (take result near.new) }
{
    near[len] = *at;
    next_place(len, are_apart(first.rect, tree.rect))
}

/// Lists some trees in the same way. There is no answer where the list has no room for them.
fn list_trees<I: Items, W: Trees>(
    items: &I,
    tree: &Tree<'_, W>,
    others: &W,
    near: &mut [W],
    len: usize,
) -> Option<usize>
    requires tree { IsSound (I.count items.now) (I.bounds_of items.now) W.forest tree.now }
    requires others { AreSound (I.count items.now) (I.bounds_of items.now) (W.forest others.now) }
    requires fits { len ≤ length near.old }
    ensures { MayList (I.count items.now) (I.bounds_of items.now) (I.tells items.now) W.forest
        (items_below W.forest tree.now.below) (take len near.old) near.old
        (leaf_items (W.forest others.now)) near.new result }
{
    let (mut left, mut more) = (*others, len);
    while let Some((first, rest)) = left.split_first() {
        if near.len() <= more {
            return None;
        }
        more = list_one(items, tree, &left, &first, near, more);
        left = rest;
    }
    Some(more)
}

/// Lists a tree, the first of those at `at`, or, where it is an inner one whose rectangle meets that of the searched
/// tree, its children.
#[inline]
fn list_below<I: Items, W: Trees>(
    items: &I,
    tree: &Tree<'_, W>,
    at: &W,
    near: &mut [W],
    len: usize,
) -> Option<usize>
    requires tree { IsSound (I.count items.now) (I.bounds_of items.now) W.forest tree.now }
    requires at { AreSound (I.count items.now) (I.bounds_of items.now) (W.forest at.now) }
    requires fits { len ≤ length near.old }
    ensures { MayList (I.count items.now) (I.bounds_of items.now) (I.tells items.now) W.forest
        (items_below W.forest tree.now.below) (take len near.old) near.old
        (first_items (W.forest at.now)) near.new result }
{
    let Some((first, _)) = at.split_first() else {
        return Some(len);
    };
    match &first.below {
        Below::Items(_) => {
            if near.len() <= len {
                return None;
            }
            Some(list_one(items, tree, at, &first, near, len))
        }
        Below::Children(children) => {
            if do_meet(first.rect, tree.rect) {
                list_trees(items, tree, children, near, len)
            } else {
                Some(len)
            }
        }
    }
}

/// Lists the trees of another list, or their children.
fn list_all<I: Items, W: Trees>(
    items: &I,
    tree: &Tree<'_, W>,
    others: &[W],
    near: &mut [W],
    len: usize,
) -> Option<usize>
    requires tree { IsSound (I.count items.now) (I.bounds_of items.now) W.forest tree.now }
    requires others { AllSound (I.count items.now) (I.bounds_of items.now) W.forest others.now }
    requires fits { len ≤ length near.old }
    ensures { MayList (I.count items.now) (I.bounds_of items.now) (I.tells items.now) W.forest
        (items_below W.forest tree.now.below) (take len near.old) near.old
        (listed_items W.forest others.now) near.new result }
{
    let Some((first, rest)) = others.split_first() else {
        return Some(len);
    };
    match list_below(items, tree, first, near, len) {
        Some(more) => list_all(items, tree, rest, near, more),
        None => None,
    }
}

/// Lists what a tree is searched against: of the trees behind it and of those of another list.
pub fn list_near<I: Items, W: Trees>(
    items: &I,
    tree: &Tree<'_, W>,
    rest: &W,
    others: &[W],
    near: &mut [W],
) -> Option<usize>
    requires tree { IsSound (I.count items.now) (I.bounds_of items.now) W.forest tree.now }
    requires rest { AreSound (I.count items.now) (I.bounds_of items.now) (W.forest rest.now) }
    requires others { AllSound (I.count items.now) (I.bounds_of items.now) W.forest others.now }
    ensures { MayList (I.count items.now) (I.bounds_of items.now) (I.tells items.now) W.forest
        (items_below W.forest tree.now.below) [] near.old
        (leaf_items (W.forest rest.now) ++ listed_items W.forest others.now) near.new result }
{
    match list_trees(items, tree, rest, near, 0) {
        Some(len) => list_all(items, tree, others, near, len),
        None => None,
    }
}
