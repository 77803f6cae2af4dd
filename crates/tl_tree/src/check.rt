//! The check of a tree against items.
ghost use Rattle.std.specs.Prelude.{◌≡◌, ℕ, ◌<◌, ◌+◌, ◌^◌, ◌↔◌, length, None, OnOk, IfOk, IfErr};
ghost use Rattle.tl_tree_index.specs.Keeping.Marked.{mark_at, AreMarked};
ghost use Rattle.tl_tree.specs.Keeping.Checking.{IsMarkFault, AreChecked, IsChecked, IsFaultAt, IsAnsweredBy};
ghost use Rattle.tl_tree.specs.Keeping.Checking.{IsFaultBelow};
ghost use Rattle.tl_tree_index.specs.Fits.{Fits, MayFind};
ghost use Rattle.tl_tree_index.specs.Trees.{node_count};
ghost use Rattle.tl_tree.specs.Keeping.Walking.{size_of};

use crate::hull::{NOTHING, covers, hull_of, hull_of_items};
use crate::walk::{Below, Tree, Trees};
use crate::{Items, Memory, TreeFault};
use std::alloc::Global;
use tl_geom::Rect;

/// Marks some items, none of which may be marked already.
fn mark_items(marks: &mut [bool], some: &[u32]) -> Result<(), TreeFault>
    ensures marked { OnOk result (AreMarked marks.old some.now marks.new) }
    ensures fault { IfErr result (IsMarkFault marks.old some.now) }
{
    for i in some {
        let place = *i as usize;
        if place >= marks.len() {
            return Err(TreeFault::UnknownIndex(*i));
        }
        if marks[place] {
            return Err(TreeFault::IndexTwice(*i));
        }
        marks[place] = true;
    }
    Ok(())
}

/// Checks what is below the root of a tree, and gives the least rectangle around the items there.
#[cycle(check)]
fn check_below<I: Items, W: Trees>(
    items: &I,
    tree: &Tree<'_, W>,
    marks: &mut [bool],
    number: &mut u32,
) -> Result<Rect, TreeFault>
    requires marks { length marks.old ≡ I.count items.now }
    requires numbers { number.old + size_of W.forest tree.now.below < 2 ^ 32 + 1 }
    ensures { IsAnsweredBy (IsChecked (I.bounds_of items.now) W.forest tree.now.below marks.old marks.new)
        (number.new + 1 ≡ number.old + size_of W.forest tree.now.below)
        (IsFaultBelow (I.bounds_of items.now) marks.old number.old W.forest tree.now.below) result }
{
    match &tree.below {
        Below::Items(some) => match mark_items(marks, some) {
            Ok(()) => Ok(hull_of_items(items, some)),
            Err(fault) => Err(fault),
        },
        Below::Children(children) => check_trees(items, children, marks, number),
    }
}

/// Checks some trees, whose first node has this number, and gives the least rectangle around their items.
#[cycle(check)]
fn check_trees<I: Items, W: Trees>(
    items: &I,
    trees: &W,
    marks: &mut [bool],
    number: &mut u32,
) -> Result<Rect, TreeFault>
    requires marks { length marks.old ≡ I.count items.now }
    requires numbers { number.old + node_count (W.forest trees.now) < 2 ^ 32 }
    ensures { IsAnsweredBy (AreChecked (I.bounds_of items.now) (W.forest trees.now) marks.old marks.new)
        (number.new ≡ number.old + node_count (W.forest trees.now))
        (IsFaultAt (I.bounds_of items.now) marks.old number.old (W.forest trees.now)) result }
{
    let Some((tree, rest)) = trees.split_first() else {
        return Ok(NOTHING);
    };
    let root = *number;
    *number += 1;
    let hull = match check_below(items, &tree, marks, number) {
        Ok(hull) => hull,
        Err(fault) => return Err(fault),
    };
    if !covers(tree.rect, hull) {
        return Err(TreeFault::RectTooSmall(root));
    }
    match check_trees(items, &rest, marks, number) {
        Ok(others) => Ok(hull_of(hull, others)),
        Err(fault) => Err(fault),
    }
}

/// Checks trees, with marks of which none is set: nothing exactly where they fit the items, or a fault that is true.
fn check_marked<I: Items, W: Trees>(items: &I, trees: &W, marks: &mut [bool]) -> Option<TreeFault>
    requires marks { length marks.old ≡ I.count items.now }
    requires unmarked { (i : ℕ) → mark_at marks.old i ≡ 0 }
    requires numbers { node_count (W.forest trees.now) < 2 ^ 32 }
    ensures { MayFind (W.forest trees.now) (I.count items.now) (I.bounds_of items.now) result }
{
    let mut number = 0;
    match check_trees(items, trees, marks, &mut number) {
        Ok(_) => {}
        Err(fault) => return Some(fault),
    }
    for i in 0..items.len() {
        if !marks[i as usize] {
            return Some(TreeFault::IndexMissing(i));
        }
    }
    None
}

/// Checks trees: nothing exactly where they fit the items, or a fault that is true.
pub fn check_all<I: Items, W: Trees>(
    alloc: Global,
    items: &I,
    trees: &W,
) -> Result<Option<TreeFault>, Memory>
    requires { node_count (W.forest trees.now) < 2 ^ 32 }
    ensures found { IfOk result
        (MayFind (W.forest trees.now) (I.count items.now) (I.bounds_of items.now)) }
    ensures exact { IfOk result (λ found.
        found ≡ None ↔ Fits (W.forest trees.now) (I.count items.now) (I.bounds_of items.now)) }
{
    let Ok(mut marks) = vec![in alloc; false; items.len() as usize] else {
        return Err(Memory);
    };
    Ok(check_marked(items, trees, marks.as_mut_slice()))
}
