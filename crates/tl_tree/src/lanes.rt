//! Eight at once: which of the first eight items or trees a rectangle may meet.
ghost use Rattle.std.specs.Prelude.{◌≡◌, ℕ, ◌<◌, ◌≤◌, ◌+◌, ◌↔◌, length, get_or, IsTrue};
ghost use Rattle.std.specs.Int.{bit_at};
ghost use Rattle.tl_geom.specs.Rectangle.{nothing};
ghost use Rattle.tl_tree_index.specs.Fits.{AreBelow};
ghost use Rattle.tl_tree.specs.Keeping.Marking.{AreBoundsOf, Includes, RootMeets, roots};

use crate::Items;
use crate::hull::NOTHING;
use crate::walk::Trees;
use tl_geom::{Rect, Rect8};

/// The bounds of the first eight of some items.
pub fn bounds_of_eight<I: Items>(items: &I, some: &[u32]) -> Rect8
    requires { AreBelow (I.count items.now) some.now }
    ensures { AreBoundsOf (I.bounds_of items.now) some.now result }
{
    if some.len() == 8 {
        return bounds_of_whole(items, some);
    }
    let mut rects = [NOTHING; 8];
    for k in 0..some.len().min(8) {
        rects[k] = items.bounds(some[k]);
    }
    Rect8::gather(&rects)
}

/// The bounds of eight items, as a full leaf has them.
#[inline]
fn bounds_of_whole<I: Items>(items: &I, some: &[u32]) -> Rect8
    requires some { AreBelow (I.count items.now) some.now }
    requires eight { length some.now ≡ 8 }
    ensures { AreBoundsOf (I.bounds_of items.now) some.now result }
{
    Rect8::gather(&[
        items.bounds(some[0]),
        items.bounds(some[1]),
        items.bounds(some[2]),
        items.bounds(some[3]),
        items.bounds(some[4]),
        items.bounds(some[5]),
        items.bounds(some[6]),
        items.bounds(some[7]),
    ])
}

/// Whether the first one is marked.
pub fn is_first_marked(marks: u8) -> bool
    ensures { IsTrue result ↔ (bit_at marks 0 ≡ 1) }
{
    marks % 2 == 1
}

/// The marks without the first one. Behind the eighth all are marked.
pub fn later_marks(marks: u8) -> u8
    ensures moved { (k : ℕ) → k < 7 → bit_at result k ≡ bit_at marks (k + 1) }
    ensures last { bit_at result 7 ≡ 1 }
{
    marks / 2 + 128
}

/// Puts the rectangles of the first eight of some trees into an array.
fn fill_roots<W: Trees>(trees: &W, rects: &mut [Rect])
    requires eight { length rects.old ≡ 8 }
    ensures eight { length rects.new ≡ 8 }
    ensures found { (k : ℕ) → k < 8 → k < length (roots (W.forest trees.now)) →
        get_or rects.new k nothing ≡ get_or (roots (W.forest trees.now)) k nothing }
{
    let mut left = *trees;
    for k in 0..8 {
        let Some((tree, rest)) = left.split_first() else {
            return;
        };
        rects[k] = tree.rect;
        left = rest;
    }
}

/// Which of the first eight trees may have rectangles that meet a rectangle: those that aren't marked have not. Of few
/// trees all are marked, since to gather their rectangles takes longer than to test each.
#[inline]
pub fn meeting_roots<W: Trees>(trees: &W, rect: Rect) -> u8
    ensures { Includes result (RootMeets (W.forest trees.now) rect) }
{
    if trees.are_few() {
        return u8::MAX;
    }
    eight_meeting_roots(trees, rect)
}

/// The same, with the rectangles gathered.
#[inline(never)]
fn eight_meeting_roots<W: Trees>(trees: &W, rect: Rect) -> u8
    ensures { Includes result (RootMeets (W.forest trees.now) rect) }
{
    let mut rects = [NOTHING; 8];
    fill_roots(trees, &mut rects);
    Rect8::gather(&rects).meets8(rect)
}
