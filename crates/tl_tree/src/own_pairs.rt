//! The pairs of the items of a leaf: the eight rectangles are turned against themselves, which tells all pairs at once.
ghost use Rattle.std.specs.Prelude.{◌≡◌, ◌<◌, ◌≤◌, ◌^◌, ◌%◌, None, length, get_or};
ghost use Rattle.tl_geom.specs.Rectangle.{AreMeeting};
ghost use Rattle.tl_tree_index.specs.Fits.{AreBelow};
ghost use Rattle.tl_tree.specs.Keeping.OwnPairs.{partner, own_sum, AllOwn, AreThere, AreOwnCells};
ghost use Rattle.tl_tree.specs.Keeping.Walking.{MayLeave};
ghost use Rattle.tl_tree_index.specs.Pairs.{pair_sum, AllPairs, AreToldApart};

use crate::Items;
use crate::search::{Progress, test_meeting};

/// Tests the two items of a cell, if both are there: the one at its column, and another further on by one more than its
/// row, in a circle of eight.
#[inline]
fn test_own_cell<I: Items>(
    items: &I,
    some: &[u32],
    place: usize,
    progress: &mut Progress<I::C>,
) -> bool
    requires some { AreBelow (I.count items.now) some.now }
    requires meeting { AreThere some.now place → AreMeeting
        (I.bounds_of items.now (get_or some.now (place % 8) 0))
        (I.bounds_of items.now (get_or some.now (partner place) 0)) }
    requires nothing_found { progress.old.found ≡ None }
    ensures { MayLeave (I.count items.now) (I.bounds_of items.now) (I.tells items.now)
        (λ f. own_sum f some.now place)
        (AllOwn (AreToldApart (I.tells items.now)) some.now place) progress.old progress.new result }
{
    let first = place % 8;
    let second = (first + place / 8 + 1) % 8;
    if some.len() <= first || some.len() <= second {
        return true;
    }
    test_meeting(items, some[second], some[first], progress)
}

/// Tests the pairs of at most eight items whose cells are marked, which are those whose bounds meet.
#[inline(never)]
pub fn test_own_pairs<I: Items>(
    items: &I,
    some: &[u32],
    cells: u32,
    progress: &mut Progress<I::C>,
) -> bool
    requires some { AreBelow (I.count items.now) some.now }
    requires few { length some.now ≤ 8 }
    requires cells { AreOwnCells (I.bounds_of items.now) some.now cells }
    requires no_others { cells < 2 ^ 28 }
    requires nothing_found { progress.old.found ≡ None }
    ensures { MayLeave (I.count items.now) (I.bounds_of items.now) (I.tells items.now)
        (λ f. pair_sum f some.now)
        (AllPairs (AreToldApart (I.tells items.now)) some.now) progress.old progress.new result }
{
    let (mut later, mut place) = (cells, 0usize);
    while later != 0 {
        let empty = later.trailing_zeros();
        place += empty as usize;
        if !test_own_cell(items, some, place, progress) {
            return false;
        }
        later = (later >> empty) / 2;
        place += 1;
    }
    true
}
