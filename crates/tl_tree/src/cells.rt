//! Pairs of the items of two leaves, told all at once: eight cells for each item of the first one, of which those are
//! marked whose pair has bounds that meet.
ghost use Rattle.std.specs.Prelude.{◌≡◌, ℕ, ◌<◌, ◌≤◌, ◌↔◌, length};
ghost use Rattle.std.specs.Int.{bit_at};
ghost use Rattle.tl_geom.specs.EightRectangles.{lane};
ghost use Rattle.tl_geom.specs.Rectangle.{AreMeeting};
ghost use Rattle.tl_tree_index.specs.Fits.{AreBelow};
ghost use Rattle.tl_tree.specs.Keeping.Cells.{AreLaneCells};

use crate::Items;
use tl_geom::Rect8;

/// The cells of a row: which lanes meet the bounds of an item.
#[inline]
fn row_of<I: Items>(items: &I, i: u32, bounds: &Rect8) -> u64
    requires { i < I.count items.now }
    ensures marks { (j : ℕ) → j < 8 →
        (bit_at result j ≡ 1) ↔ AreMeeting (lane bounds.now j) (I.bounds_of items.now i) }
    ensures eight { result < 256 }
{
    u64::from(bounds.meets8(items.bounds(i)))
}

/// The cells of some items, at most eight, and others whose bounds are given.
#[inline]
pub fn cells_of<I: Items>(items: &I, some: &[u32], bounds: &Rect8) -> u64
    requires some { AreBelow (I.count items.now) some.now }
    requires few { length some.now ≤ 8 }
    ensures { AreLaneCells (I.bounds_of items.now) some.now bounds.now 0 result }
{
    let mut cells = 0;
    for k in (0..some.len()).rev() {
        cells = cells * 256 + row_of(items, some[k], bounds);
    }
    cells
}
