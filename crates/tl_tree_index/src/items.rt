//! Items that a search goes over, and what it answers.
ghost use Rattle.std.specs.Prelude.{◌≡◌, ◌<◌, ℕ, Option, None};
ghost use Rattle.tl_geom.specs.declared.rect.Rect.{Rect};
ghost use Rattle.tl_geom.specs.Rectangle.{AreMeeting};

use tl_geom::Rect;

/// Items numbered from 0, each with a rectangle, any two of which may conflict. No call takes memory.
pub trait Items {
    /// What is told of two items that conflict.
    type C;

    // How many items there are.
    ghost count: { Self → ℕ };

    // The rectangle of an item.
    ghost bounds_of: { Self → ℕ → Rect };

    // What may be told of two items, the lower number first: how they conflict, or that they don't.
    ghost tells: { Self → ℕ → ℕ → Option Self.C → Type 0 };

    /// How many items there are.
    fn len(&self) -> u32
        ensures { result ≡ count self.now };

    /// The rectangle of item `i`.
    fn bounds(&self, i: u32) -> Rect
        requires { i < count self.now }
        ensures { result ≡ bounds_of self.now i };

    /// Whether items `i` and `j` conflict, and how. It is asked with `i` below `j`.
    fn conflict(&self, i: u32, j: u32) -> Option<Self::C>
        requires ordered { i < j }
        requires known { j < count self.now }
        ensures { tells self.now i j result };

    // The law that each implementation proves: items that conflict have rectangles that meet, so of those whose
    // rectangles don't meet it is told that they don't conflict.
    ghost apart: { (items : Self) (i j : ℕ) → i < j → j < count items →
        ¬ AreMeeting (bounds_of items i) (bounds_of items j) → tells items i j None };
}

/// Items `i` and `j` conflict, `i` below `j`, and `c` is what [`Items::conflict`] tells of them.
#[derive(Clone, Copy, Debug, PartialEq, Eq)]
pub struct Conflict<C> {
    pub i: u32,
    pub j: u32,
    pub c: C,
}

/// What a search for a conflict answers.
#[derive(Clone, Debug, PartialEq, Eq, Drop)]
pub enum Search<C> {
    /// Items `i` and `j` conflict, `i` below `j`, and `c` is what [`Items::conflict`] tells of them.
    Found { i: u32, j: u32, c: C },
    /// No two items conflict.
    Clear,
    /// More pairs of items than the budget have rectangles that meet, and as many of these as the budget don't conflict.
    Budget,
}
