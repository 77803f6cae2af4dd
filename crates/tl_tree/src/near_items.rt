//! Lists of the items that those of a leaf are tested against: of the items below other trees, those whose bounds meet the
//! rectangle around the leaf.
ghost use Rattle.std.specs.Prelude.{◌≡◌, ◌≤◌, ◌+◌, length, take};
ghost use Rattle.tl_tree_index.specs.Fits.{AreBelow, CoversAll};
ghost use Rattle.tl_tree.specs.Keeping.Listing.{first_items, listed_items, AllSound, StandsForItems, MayListItems};
ghost use Rattle.tl_tree.specs.Keeping.Walking.{items_below, IsSound, AreSound};
ghost use Rattle.tl_tree_index.specs.Trees.{leaf_items};

use crate::Items;
use crate::near::{are_apart, do_meet, next_place};
use crate::walk::{Below, Tree, Trees};
use tl_geom::Rect;

/// How many items such a list has room for. Over 2,750,000 segments in a tree that was made by halving it holds six of
/// them, on an average.
pub const NEAR: usize = 64;

/// Lists some others behind the first `len` of a list, and tells how many are listed then. Each is written in any case,
/// since a branch would be foreseen wrong.
#[inline]
fn list_items<I: Items>(
    items: &I,
    some: &[u32],
    around: Rect,
    others: &[u32],
    near: &mut [u32],
    len: usize,
) -> usize
    requires some { AreBelow (I.count items.now) some.now }
    requires around { CoversAll (I.bounds_of items.now) around some.now }
    requires others { AreBelow (I.count items.now) others.now }
    requires room { len + length others.now ≤ length near.old }
    ensures complete { length near.new ≡ length near.old }
    ensures fits { result ≤ len + length others.now }
    ensures listed { StandsForItems (I.count items.now) (I.bounds_of items.now) (I.tells items.now)
        some.now (take len near.old) others.now (take result near.new) }
{
    let mut more = len;
    for other in others {
        near[more] = *other;
        more = next_place(more, are_apart(items.bounds(*other), around));
    }
    more
}

/// Lists the items of a leaf in the same way. There is no answer where the list may have no room for them.
#[inline]
fn list_leaf<I: Items>(
    items: &I,
    some: &[u32],
    around: Rect,
    others: &[u32],
    near: &mut [u32],
    len: usize,
) -> Option<usize>
    requires some { AreBelow (I.count items.now) some.now }
    requires around { CoversAll (I.bounds_of items.now) around some.now }
    requires others { AreBelow (I.count items.now) others.now }
    requires fits { len ≤ length near.old }
    ensures { MayListItems (I.count items.now) (I.bounds_of items.now) (I.tells items.now)
        some.now (take len near.old) near.old others.now near.new result }
{
    if near.len() - len < others.len() {
        return None;
    }
    Some(list_items(items, some, around, others, near, len))
}

/// Lists the items below a tree, unless its rectangle doesn't meet the one around the leaf.
#[cycle(listing)]
fn list_tree<I: Items, W: Trees>(
    items: &I,
    some: &[u32],
    around: Rect,
    tree: &Tree<'_, W>,
    near: &mut [u32],
    len: usize,
) -> Option<usize>
    requires some { AreBelow (I.count items.now) some.now }
    requires around { CoversAll (I.bounds_of items.now) around some.now }
    requires tree { IsSound (I.count items.now) (I.bounds_of items.now) W.forest tree.now }
    requires fits { len ≤ length near.old }
    ensures { MayListItems (I.count items.now) (I.bounds_of items.now) (I.tells items.now)
        some.now (take len near.old) near.old (items_below W.forest tree.now.below) near.new result }
{
    if !do_meet(around, tree.rect) {
        return Some(len);
    }
    match &tree.below {
        Below::Items(others) => list_leaf(items, some, around, others, near, len),
        Below::Children(children) => list_children(items, some, around, children, near, len),
    }
}

/// Lists the items of some trees.
#[cycle(listing)]
fn list_children<I: Items, W: Trees>(
    items: &I,
    some: &[u32],
    around: Rect,
    trees: &W,
    near: &mut [u32],
    len: usize,
) -> Option<usize>
    requires some { AreBelow (I.count items.now) some.now }
    requires around { CoversAll (I.bounds_of items.now) around some.now }
    requires trees { AreSound (I.count items.now) (I.bounds_of items.now) (W.forest trees.now) }
    requires fits { len ≤ length near.old }
    ensures { MayListItems (I.count items.now) (I.bounds_of items.now) (I.tells items.now)
        some.now (take len near.old) near.old (leaf_items (W.forest trees.now)) near.new result }
{
    let Some((tree, rest)) = trees.split_first() else {
        return Some(len);
    };
    match list_tree(items, some, around, &tree, near, len) {
        Some(more) => list_children(items, some, around, &rest, near, more),
        None => None,
    }
}

/// Lists the items of the first of some trees.
#[inline]
fn list_first<I: Items, W: Trees>(
    items: &I,
    some: &[u32],
    around: Rect,
    at: &W,
    near: &mut [u32],
    len: usize,
) -> Option<usize>
    requires some { AreBelow (I.count items.now) some.now }
    requires around { CoversAll (I.bounds_of items.now) around some.now }
    requires at { AreSound (I.count items.now) (I.bounds_of items.now) (W.forest at.now) }
    requires fits { len ≤ length near.old }
    ensures { MayListItems (I.count items.now) (I.bounds_of items.now) (I.tells items.now)
        some.now (take len near.old) near.old (first_items (W.forest at.now)) near.new result }
{
    let Some((first, _)) = at.split_first() else {
        return Some(len);
    };
    match &first.below {
        Below::Items(others) => list_leaf(items, some, around, others, near, len),
        Below::Children(children) => list_children(items, some, around, children, near, len),
    }
}

/// Lists the items of the trees of a list.
pub fn list_near_items<I: Items, W: Trees>(
    items: &I,
    some: &[u32],
    around: Rect,
    trees: &[W],
    near: &mut [u32],
    len: usize,
) -> Option<usize>
    requires some { AreBelow (I.count items.now) some.now }
    requires around { CoversAll (I.bounds_of items.now) around some.now }
    requires trees { AllSound (I.count items.now) (I.bounds_of items.now) W.forest trees.now }
    requires fits { len ≤ length near.old }
    ensures { MayListItems (I.count items.now) (I.bounds_of items.now) (I.tells items.now)
        some.now (take len near.old) near.old (listed_items W.forest trees.now) near.new result }
{
    let Some((at, rest)) = trees.split_first() else {
        return Some(len);
    };
    match list_first(items, some, around, at, near, len) {
        Some(more) => list_near_items(items, some, around, rest, near, more),
        None => None,
    }
}
