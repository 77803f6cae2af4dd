//! Pairs of items that conflict, found from those that are marked.
ghost use Rattle.std.specs.Prelude.{◌≡◌, ◌<◌, ◌++◌, map, IfOk, OnOk};
ghost use Rattle.std.specs.List.Sorted.{IsPermutation};
ghost use Rattle.tl_check_planar.specs.Listing.Conflicts.{IsOneMarked};
ghost use Rattle.tl_check_planar.specs.Listing.Keeping.Pairing.{pair_of, AreAllPairs, AreInOrder};

use crate::listing::ConsistentItems;
use crate::listing::beside::list_beside;
use crate::listing::marks::is_marked;
use std::alloc::Global;
use tl_tree_index::{BoxIndex, Items, Memory};

/// Two items, `i` below `j`.
#[derive(Clone, Copy, PartialEq, Eq, PartialOrd, Ord)]
pub struct Pair {
    pub i: u32,
    pub j: u32,
}

/// The pair of two items.
fn make_pair(i: u32, j: u32) -> Pair
    ensures { result ≡ pair_of i j }
{
    if i < j {
        Pair { i, j }
    } else {
        Pair { i: j, j: i }
    }
}

/// All pairs of items that conflict, where of each such pair one item is marked, in order and each once. Of an item that isn't marked
/// no search is made.
pub fn all_pairs<I: ConsistentItems, X: BoxIndex>(
    alloc: Global,
    index: &X,
    items: &I,
    marks: &[bool],
) -> Result<Vec<Pair>, Memory>
where
    I::C: Drop,
    requires fits { X.fits index.now (I.count items.now) (I.bounds_of items.now) }
    requires marked { IsOneMarked (I.count items.now) (I.tells items.now) marks.now }
    ensures pairs { IfOk result (λ pairs. AreAllPairs (I.count items.now) (I.tells items.now) pairs.items) }
    ensures ordered { IfOk result (λ pairs. AreInOrder pairs.items) }
{
    let mut pairs = list_pairs(alloc, index, items, marks)?;
    pairs.sort_unstable();
    pairs.dedup();
    Ok(pairs)
}

/// All pairs of items that conflict, in any order.
fn list_pairs<I: ConsistentItems, X: BoxIndex>(
    alloc: Global,
    index: &X,
    items: &I,
    marks: &[bool],
) -> Result<Vec<Pair>, Memory>
where
    I::C: Drop,
    requires fits { X.fits index.now (I.count items.now) (I.bounds_of items.now) }
    requires marked { IsOneMarked (I.count items.now) (I.tells items.now) marks.now }
    ensures { IfOk result (λ pairs. AreAllPairs (I.count items.now) (I.tells items.now) pairs.items) }
{
    let mut pairs = Vec::new(alloc);
    let mut hits = Vec::new(alloc);
    for i in 0..items.len() {
        if !is_marked(marks, i) {
            continue;
        }
        list_beside(index, items, marks, i, &mut hits)?;
        push_pairs(i, &hits, &mut pairs)?;
    }
    Ok(pairs)
}

/// Appends the pairs of an item with each of these.
fn push_pairs(i: u32, hits: &[u32], pairs: &mut Vec<Pair>) -> Result<(), Memory>
    ensures { OnOk result (pairs.new.items ≡ pairs.old.items ++ map (pair_of i) hits.now) }
{
    for j in hits {
        if pairs.push(make_pair(i, *j)).is_err() {
            return Err(Memory);
        }
    }
    Ok(())
}
