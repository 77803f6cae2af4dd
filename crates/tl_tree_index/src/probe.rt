//! Probes: what items are asked for.
ghost use Rattle.std.specs.Prelude.{◌≡◌, ◌<◌, ◌↔◌, ℕ, IsTrue};
ghost use Rattle.tl_geom.specs.declared.rect.Rect.{Rect};
ghost use Rattle.tl_geom.specs.Rectangle.{AreMeeting};

use crate::Items;
use tl_geom::Rect;

/// A question that each item answers with yes, a hit, or no. No call takes memory.
pub trait Probe<I: Items> {
    // The rectangle that each hit item's rectangle meets.
    ghost region_of: { Self → Rect };

    // Whether an item is hit.
    ghost hit: { Self → I → ℕ → Type 0 };

    /// A rectangle that the rectangle of each hit item meets.
    fn region(&self) -> Rect
        ensures { result ≡ region_of self.now };

    /// Whether item `i` is hit.
    fn hits(&self, items: &I, i: u32) -> bool
        requires { i < I.count items.now }
        ensures { IsTrue result ↔ hit self.now items.now i };

    // The law that each implementation proves: an item that is hit has a rectangle that meets the region.
    ghost hits_meet: { (probe : Self) (items : I) (i : ℕ) → i < I.count items →
        hit probe items i → AreMeeting (region_of probe) (I.bounds_of items i) };
}
