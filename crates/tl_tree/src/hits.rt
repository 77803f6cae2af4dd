//! The search for the items that a probe hits.
ghost use Rattle.std.specs.Prelude.{◌≡◌, OnOk, OnErr};
ghost use Rattle.tl_tree_index.specs.Fits.{AreBelow, Fits};
ghost use Rattle.tl_tree_index.specs.Hits.{Adds};
ghost use Rattle.tl_tree_index.specs.Trees.{leaf_items};
ghost use Rattle.tl_tree.specs.Keeping.Walking.{AreSound, IsSound, Grows, Collects, items_below};

use crate::lanes::{bounds_of_eight, is_first_marked, later_marks, meeting_roots};
use crate::walk::{Below, Tree, Trees};
use crate::{Items, Memory, Probe};
use tl_geom::Rect;

/// Appends those of some items that are hit.
fn push_hits<I: Items, P: Probe<I>>(
    items: &I,
    probe: &P,
    region: Rect,
    some: &[u32],
    out: &mut Vec<u32>,
) -> Result<(), Memory>
    requires known { AreBelow (I.count items.now) some.now }
    requires region { region ≡ P.region_of probe.now }
    ensures hits { OnOk result
        (Collects (P.hit probe.now items.now) some.now out.old.items out.new.items) }
    ensures grows { Grows out.old.items out.new.items }
{
    let mut marks = bounds_of_eight(items, some).meets8(region);
    for i in some {
        if is_first_marked(marks) && probe.hits(items, *i) && out.push(*i).is_err() {
            return Err(Memory);
        }
        marks = later_marks(marks);
    }
    Ok(())
}

/// Appends the items of a tree that are hit. Where its rectangle doesn't meet the region, no item below it is asked.
#[cycle(collect)]
fn collect_one<I: Items, P: Probe<I>, W: Trees>(
    items: &I,
    probe: &P,
    region: Rect,
    tree: &Tree<'_, W>,
    out: &mut Vec<u32>,
) -> Result<(), Memory>
    requires tree { IsSound (I.count items.now) (I.bounds_of items.now) W.forest tree.now }
    requires region { region ≡ P.region_of probe.now }
    ensures hits { OnOk result
        (Collects (P.hit probe.now items.now)
        (items_below W.forest tree.now.below) out.old.items out.new.items) }
    ensures grows { Grows out.old.items out.new.items }
{
    if !tree.rect.meets(region) {
        return Ok(());
    }
    match &tree.below {
        Below::Items(some) => push_hits(items, probe, region, some, out),
        Below::Children(children) => collect_trees(items, probe, region, children, out),
    }
}

/// Appends the items of some trees that are hit. Of the first eight those whose rectangles don't meet the region are
/// passed over.
#[cycle(collect)]
fn collect_trees<I: Items, P: Probe<I>, W: Trees>(
    items: &I,
    probe: &P,
    region: Rect,
    trees: &W,
    out: &mut Vec<u32>,
) -> Result<(), Memory>
    requires trees { AreSound (I.count items.now) (I.bounds_of items.now) (W.forest trees.now) }
    requires region { region ≡ P.region_of probe.now }
    ensures hits { OnOk result
        (Collects (P.hit probe.now items.now)
        (leaf_items (W.forest trees.now)) out.old.items out.new.items) }
    ensures grows { Grows out.old.items out.new.items }
{
    let (mut left, mut marks) = (*trees, meeting_roots(trees, region));
    while let Some((tree, rest)) = left.split_first() {
        if is_first_marked(marks) && collect_one(items, probe, region, &tree, out).is_err() {
            return Err(Memory);
        }
        left = rest;
        marks = later_marks(marks);
    }
    Ok(())
}

/// Appends the items that are hit, by trees that fit them. Behind a refused growth `out` is as before.
pub fn collect_all<I: Items, P: Probe<I>, W: Trees>(
    items: &I,
    probe: &P,
    trees: &W,
    out: &mut Vec<u32>,
) -> Result<(), Memory>
    requires { Fits (W.forest trees.now) (I.count items.now) (I.bounds_of items.now) }
    ensures hits { OnOk result
        (Adds (I.count items.now) (P.hit probe.now items.now) out.old.items out.new.items) }
    ensures refused { OnErr result (out.new.items ≡ out.old.items) }
{
    let before = out.len();
    let collected = collect_trees(items, probe, probe.region(), trees, out);
    if collected.is_err() {
        out.truncate(before);
    }
    collected
}
