//! The items that conflict with one that is marked.
ghost use Rattle.std.specs.Prelude.{◌≡◌, ◌↔◌, ◌<◌, IsTrue, None, OnOk};
ghost use Rattle.tl_tree_index.specs.Hits.{AreHits};
ghost use Rattle.tl_check_planar.specs.Listing.Keeping.Pairing.{IsFoundFrom, IsHitFrom};

use crate::listing::ConsistentItems;
use crate::listing::marks::is_marked;
use tl_geom::Rect;
use tl_tree_index::{BoxIndex, Items, Memory, Probe};

/// The items that conflict with this one, which is marked, by its number and its rectangle: those with higher numbers, and of those
/// with lower numbers all that aren't marked. So two items that are marked both are found from the lower number alone.
#[derive(Clone, Copy)]
struct Beside<'a> {
    item: u32,
    bounds: Rect,
    marks: &'a [bool],
}

impl<'a, I: ConsistentItems> Probe<I> for Beside<'a>
where
    I::C: Drop,
{
    ghost region_of = { λ beside. beside.bounds };

    ghost hit = { λ beside items. IsHitFrom (I.count items) (I.bounds_of items) (I.tells items) beside.marks.now beside.item beside.bounds };

    ghost hits_meet = { λ beside items j known hit. hit.meet };

    fn region(&self) -> Rect
        ensures { result ≡ self.now.bounds }
    {
        self.bounds
    }

    fn hits(&self, items: &I, j: u32) -> bool {
        self.bounds.meets(items.bounds(j)) && is_found_from(items, self.marks, self.item, j)
    }
}

/// Whether two items conflict and the pair of both is found from item `i`. It isn't so of the number of no item.
fn is_found_from<I: ConsistentItems>(items: &I, marks: &[bool], i: u32, j: u32) -> bool
where
    I::C: Drop,
    requires { j < I.count items.now }
    ensures { IsTrue result ↔ IsFoundFrom (I.count items.now) (I.tells items.now) marks.now i j }
{
    if i < j {
        return conflicts(items, i, j);
    }
    j < i && i < items.len() && !is_marked(marks, j) && conflicts(items, j, i)
}

/// Whether two items conflict.
pub fn conflicts<I: ConsistentItems>(items: &I, i: u32, j: u32) -> bool
where
    I::C: Drop,
    requires ordered { i < j }
    requires known { j < I.count items.now }
    ensures { IsTrue result ↔ (¬ I.tells items.now i j None) }
{
    match items.conflict(i, j) {
        Some(_) => true,
        None => false,
    }
}

/// Lists the items that are found from item `i`, in the place of those that were listed.
pub fn list_beside<I: ConsistentItems, X: BoxIndex>(
    index: &X,
    items: &I,
    marks: &[bool],
    i: u32,
    hits: &mut Vec<u32>,
) -> Result<(), Memory>
where
    I::C: Drop,
    requires fits { X.fits index.now (I.count items.now) (I.bounds_of items.now) }
    requires known { i < I.count items.now }
    ensures { OnOk result (AreHits (I.count items.now)
        (IsHitFrom (I.count items.now) (I.bounds_of items.now) (I.tells items.now) marks.now i (I.bounds_of items.now i)) hits.new.items) }
{
    hits.clear();
    let beside = Beside {
        item: i,
        bounds: items.bounds(i),
        marks,
    };
    index.collect_hits(items, &beside, hits)
}
