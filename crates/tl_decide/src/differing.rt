//! All faults of a map whose chains are planar and whose sides don't agree.

ghost use Rattle.std.specs.Prelude.{IfOk};
ghost use Rattle.tl_check_planar.specs.Planar.{IsPlanar};
ghost use Rattle.tl_check_sides.specs.Sides.{SidesAgree};
ghost use Rattle.tl_decide.specs.Keeping.OfMap.{AreTold};

use crate::asked::Told;
use crate::parts::{push_disagreements, push_untouched};
use std::alloc::Global;
use tl_map_county::Map;
use tl_tree_index::Memory;

/// All faults of such a map: sides that disagree, zero-cell ids that are at odds, and what is wrong with points, but what hangs on touched
/// polygons.
pub fn list_differing(alloc: Global, map: &Map) -> Result<Told, Memory>
    requires planar { IsPlanar map.now.chains }
    requires differ { ¬ SidesAgree map.now.chains }
    ensures { IfOk result (AreTold map.now) }
{
    let mut faults = Vec::new(alloc);
    let touched = push_disagreements(alloc, map, &mut faults)?;
    push_untouched(alloc, map, &touched, &mut faults)?;
    Ok(Told {
        faults,
        touched: touched.len() as u64,
    })
}
