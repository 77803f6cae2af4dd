//! Indexes: what finds conflicts and hits among items.
ghost use Rattle.std.specs.Prelude.{◌≡◌, ℕ, OnOk, OnErr};
ghost use Rattle.tl_geom.specs.declared.rect.Rect.{Rect};
ghost use Rattle.tl_tree_index.specs.Searches.{MayAnswer};
ghost use Rattle.tl_tree_index.specs.Hits.{Adds};

use crate::{Items, Probe, Search};

/// Memory was refused.
#[derive(Clone, Copy, Debug, PartialEq, Eq)]
pub struct Memory;

/// An index over items, which fits items of a number and with rectangles.
pub trait BoxIndex {
    // Whether the index fits items of this number and with these rectangles.
    ghost fits: { Self → ℕ → (ℕ → Rect) → Type 0 };

    /// Looks for two items that conflict. Of several conflicts it may answer any; `Budget` comes only where more than
    /// `budget` pairs have rectangles that meet and `budget` of them don't conflict, and `Clear` only where at most `budget`
    /// have. It takes no memory.
    fn first_conflict<I: Items>(&self, items: &I, budget: u64) -> Search<I::C>
        requires { fits self.now (I.count items.now) (I.bounds_of items.now) }
        ensures { MayAnswer (I.count items.now) (I.bounds_of items.now) (I.tells items.now) budget result };

    /// Appends the number of each item that is hit, in an order that is left open. Behind a refused growth `out` is as
    /// before.
    fn collect_hits<I: Items, P: Probe<I>>(
        &self,
        items: &I,
        probe: &P,
        out: &mut Vec<u32>,
    ) -> Result<(), Memory>
        requires { fits self.now (I.count items.now) (I.bounds_of items.now) }
        ensures hits { OnOk result
            (Adds (I.count items.now) (P.hit probe.now items.now) out.old.items out.new.items) }
        ensures refused { OnErr result (out.new.items ≡ out.old.items) };
}
