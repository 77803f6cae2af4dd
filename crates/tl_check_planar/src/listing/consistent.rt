//! Items of which what is told doesn't contradict itself.
ghost use Rattle.std.specs.Prelude.{ℕ, None, Some};

use crate::Segments;
use tl_tree_index::Items;

/// Items of no two of which both may be told, that they conflict and that they don't.
pub trait ConsistentItems: Items {
    // The law that each implementation proves.
    ghost exclusive: { (items : Self) (i j : ℕ) (c : Self.C) →
        Self.tells items i j None → ¬ Self.tells items i j (Some c) };
}

impl<'a> ConsistentItems for Segments<'a> {
    ghost exclusive = { λ chains i j r free told. told.meet.refused (free r told.meet.shared) };
}
