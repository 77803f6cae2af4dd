//! Faults of a map, told one kind behind the other.

ghost use Rattle.std.specs.Prelude.{◌≡◌, ◌∷◌, [], ◌++◌, OnOk, map};
ghost use Rattle.tl_check_sides.specs.Listing.Disagreements.{AreAllDisagreements};
ghost use Rattle.tl_decide.specs.MapFaults.{side_fault};

use tl_check_faces::FaceFault;
use tl_check_inside::Misplaced;
use tl_check_planar::Meet;
use tl_check_sides::Disagreement;
use tl_check_sides::cells::CellsAtOdds;
use tl_check_verdict::MapFault;
use tl_map_county::Map;
use tl_tree_index::Memory;

/// Appends a fault.
fn append(faults: &mut Vec<MapFault>, fault: MapFault) -> Result<(), Memory>
    ensures { OnOk result (faults.new.items ≡ faults.old.items ++ fault ∷ []) }
{
    match faults.push(fault) {
        Ok(()) => Ok(()),
        Err(_) => Err(Memory),
    }
}

/// Appends meets.
pub fn push_meets(faults: &mut Vec<MapFault>, meets: &[Meet]) -> Result<(), Memory>
    ensures { OnOk result (faults.new.items ≡ faults.old.items ++ map MapFault.Meet meets.now) }
{
    for meet in meets {
        append(faults, MapFault::Meet(*meet))?;
    }
    Ok(())
}

/// Appends sides that disagree, each with its node.
pub fn push_sides(
    faults: &mut Vec<MapFault>,
    county: &Map,
    sides: &[Disagreement],
) -> Result<(), Memory>
    requires { AreAllDisagreements county.now.chains sides.now }
    ensures { OnOk result (faults.new.items ≡ faults.old.items ++ map (side_fault county.now.chains) sides.now) }
{
    for side in sides {
        append(
            faults,
            MapFault::Side {
                node: county.dart_start(side.first),
                first: side.first,
                next: side.next,
            },
        )?;
    }
    Ok(())
}

/// Appends zero-cell ids that are at odds.
pub fn push_cells(faults: &mut Vec<MapFault>, cells: &[CellsAtOdds]) -> Result<(), Memory>
    ensures { OnOk result (faults.new.items ≡ faults.old.items ++ map MapFault.Cell cells.now) }
{
    for odds in cells {
        append(faults, MapFault::Cell(*odds))?;
    }
    Ok(())
}

/// Appends what is wrong with where polygons' points lie.
pub fn push_points(faults: &mut Vec<MapFault>, points: &[Misplaced]) -> Result<(), Memory>
    ensures { OnOk result (faults.new.items ≡ faults.old.items ++ map MapFault.PolygonPoint points.now) }
{
    for misplaced in points {
        append(faults, MapFault::PolygonPoint(*misplaced))?;
    }
    Ok(())
}

/// Appends faces that disagree.
pub fn push_faces(faults: &mut Vec<MapFault>, faces: &[FaceFault]) -> Result<(), Memory>
    ensures { OnOk result (faults.new.items ≡ faults.old.items ++ map MapFault.Face faces.now) }
{
    for fault in faces {
        append(faults, MapFault::Face(*fault))?;
    }
    Ok(())
}
