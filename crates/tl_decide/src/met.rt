//! All faults of a map with chains that meet where they may not.

ghost use Rattle.std.specs.Prelude.{◌↔◌, ℕ, IfOk, OnOk, Contains};
ghost use Rattle.tl_check_planar.specs.Listing.Meets.{AreAllMeets};
ghost use Rattle.tl_check_sweep.specs.Parts.{IsPlanarPart};
ghost use Rattle.tl_check_sides.specs.Listing.Disagreements.{AreAllDisagreements};
ghost use Rattle.tl_check_sides.specs.Listing.Touched.{AreAllTouched};
ghost use Rattle.tl_check_points.specs.Listing.Hidden.{IsMarked, AreMapsAlikeBut};
ghost use Rattle.tl_decide.specs.Keeping.OfMap.{AreTold, IsFaulty, AddsRest};

use crate::asked::Told;
use crate::parts::{push_all_cells, push_suspects};
use crate::tell::{push_meets, push_sides};
use std::alloc::Global;
use tl_check_planar::Meet;
use tl_check_points::listing::suspects_by_part;
use tl_check_sides::Disagreement;
use tl_check_sweep::PlanarPart;
use tl_check_verdict::MapFault;
use tl_map_county::Map;
use tl_tree_index::Memory;

/// What is known of sides that disagree.
#[derive(Clone, Copy)]
pub struct Differing<'a> {
    /// All of them.
    pub sides: &'a [Disagreement],
    /// The polygons that they name, by rising number.
    pub touched: &'a [u32],
    /// A mark for each of these.
    pub marks: &'a [bool],
}

/// All faults of a map with these meets. What is looked at is alike but for sides that name touched polygons, and this part of it is planar.
pub fn list_met(
    alloc: Global,
    map: &Map,
    seen: &Map,
    part: &PlanarPart,
    meets: Vec<Meet>,
    differing: &Differing,
) -> Result<Told, Memory>
    requires faulty { IsFaulty map.now }
    requires part { IsPlanarPart seen.now part.now }
    requires all { AreAllMeets map.now.chains meets.items }
    requires sides { AreAllDisagreements map.now.chains differing.now.sides.now }
    requires touched { AreAllTouched map.now.chains differing.now.touched.now }
    requires marks { (p : ℕ) → IsMarked differing.now.marks.now p ↔ Contains differing.now.touched.now p }
    requires alike { AreMapsAlikeBut (IsMarked differing.now.marks.now) map.now seen.now }
    ensures { IfOk result (AreTold map.now) }
{
    let mut faults = Vec::new(alloc);
    push_meets(&mut faults, &meets)?;
    drop(meets);
    push_rest(alloc, map, seen, part, differing, &mut faults)?;
    Ok(Told {
        faults,
        touched: differing.touched.len() as u64,
    })
}

/// Appends what else is wrong.
fn push_rest(
    alloc: Global,
    map: &Map,
    seen: &Map,
    part: &PlanarPart,
    differing: &Differing,
    faults: &mut Vec<MapFault>,
) -> Result<(), Memory>
    requires part { IsPlanarPart seen.now part.now }
    requires sides { AreAllDisagreements map.now.chains differing.now.sides.now }
    requires touched { AreAllTouched map.now.chains differing.now.touched.now }
    requires marks { (p : ℕ) → IsMarked differing.now.marks.now p ↔ Contains differing.now.touched.now p }
    requires alike { AreMapsAlikeBut (IsMarked differing.now.marks.now) map.now seen.now }
    ensures { OnOk result (AddsRest map.now differing.now.touched.now faults.old.items faults.new.items) }
{
    push_sides(faults, map, differing.sides)?;
    push_all_cells(alloc, map, faults)?;
    // that each chain has two points or more
    map.has_proper_chains();
    let suspects = suspects_by_part(alloc, seen, part)?;
    push_suspects(alloc, seen, Some(part), differing.marks, suspects, faults)
}
