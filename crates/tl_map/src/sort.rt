//! Sorts the entries.

ghost use Rattle.std.specs.Prelude.{OnOk};
ghost use Rattle.std.specs.List.Sorted.{IsPermutation};
ghost use Rattle.tl_map.specs.Keeping.Entries.{AreInOrder};

use std::alloc::{AllocError, Global};
use tl_map_county::presort_by_rank;
use tl_map_rules::ShapeEntry;

/// Sorts shapes by TLID, and within one TLID by RTSQ.
pub fn sort_shapes(alloc: Global, shapes: &mut Vec<ShapeEntry>) -> Result<(), AllocError>
    ensures ordered { OnOk result (AreInOrder shapes.new.items) }
    ensures moved { OnOk result (IsPermutation shapes.old.items shapes.new.items) }
{
    presort_by_rank(alloc, shapes)?;
    shapes.sort_unstable_by_key(|shape| (shape.tlid, shape.rtsq));
    Ok(())
}
