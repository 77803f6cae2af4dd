//! All conflicts of items.
ghost use Rattle.std.specs.Prelude.{IfOk};
ghost use Rattle.tl_check_planar.specs.Listing.Conflicts.{AreAllConflicts, IsOneMarked};
ghost use Rattle.tl_check_planar.specs.Listing.Keeping.Listing.{IsListed};
ghost use Rattle.tl_check_planar.specs.Listing.Keeping.Pairing.{AreAllPairs, AreInOrder, IsConflictOf};

use crate::listing::ConsistentItems;
use crate::listing::pairs::{Pair, all_pairs};
use std::alloc::Global;
use tl_tree_index::{BoxIndex, Conflict, Items, Memory};

/// All conflicts of items, by an index that fits them, by rising `i` and of one `i` by rising `j`, where of each two that conflict one is
/// marked. For each item that is marked one search is made, and none for the others. An error says that memory was refused.
pub fn all_conflicts<I: ConsistentItems, X: BoxIndex>(
    alloc: Global,
    index: &X,
    items: &I,
    marks: &[bool],
) -> Result<Vec<Conflict<I::C>>, Memory>
where
    I::C: Drop,
    requires fits { X.fits index.now (I.count items.now) (I.bounds_of items.now) }
    requires marked { IsOneMarked (I.count items.now) (I.tells items.now) marks.now }
    ensures { IfOk result (λ found. AreAllConflicts (I.count items.now) (I.tells items.now) found.items) }
{
    let pairs = all_pairs(alloc, index, items, marks)?;
    conflicts_of(alloc, items, &pairs)
}

/// The conflicts of pairs, in their order.
fn conflicts_of<I: ConsistentItems>(
    alloc: Global,
    items: &I,
    pairs: &[Pair],
) -> Result<Vec<Conflict<I::C>>, Memory>
where
    I::C: Drop,
    requires pairs { AreAllPairs (I.count items.now) (I.tells items.now) pairs.now }
    requires ordered { AreInOrder pairs.now }
    ensures { IfOk result (λ found. AreAllConflicts (I.count items.now) (I.tells items.now) found.items) }
{
    let Ok(mut found) = Vec::with_capacity(alloc, pairs.len()) else {
        return Err(Memory);
    };
    for place in 0..pairs.len() {
        if found.push(conflict_of(items, pairs[place])).is_err() {
            return Err(Memory);
        }
    }
    Ok(found)
}

/// The conflict of two items that conflict.
fn conflict_of<I: ConsistentItems>(items: &I, pair: Pair) -> Conflict<I::C>
where
    I::C: Drop,
    requires { IsListed (I.count items.now) (I.tells items.now) pair.i pair.j }
    ensures { IsConflictOf (I.count items.now) (I.tells items.now) pair result }
{
    match items.conflict(pair.i, pair.j) {
        Some(c) => Conflict {
            i: pair.i,
            j: pair.j,
            c,
        },
        None => unreachable!(),
    }
}
