//! Faults of records, told one behind the other.

ghost use Rattle.std.specs.Prelude.{◌≡◌, ◌∷◌, [], ◌++◌, OnOk};
ghost use Rattle.tl_list.specs.Listings.{told_with};

use tl_check_verdict::MapFault;
use tl_map_rules::{Lacking, RecordFault};
use tl_tree_index::Memory;

/// Appends faults of records, as they are told where there are no records of these types.
pub fn push_records(
    faults: &mut Vec<MapFault>,
    told: &[RecordFault],
    lacking: Lacking,
) -> Result<(), Memory>
    ensures { OnOk result (faults.new.items ≡ faults.old.items ++ told_with lacking told.now) }
{
    for fault in told {
        if !lacking.explains(fault) {
            push(faults, MapFault::Records(*fault))?;
        }
    }
    if lacking.is_some() {
        push(faults, MapFault::NoRecords(lacking))?;
    }
    Ok(())
}

// Appends a fault.
fn push(faults: &mut Vec<MapFault>, fault: MapFault) -> Result<(), Memory>
    ensures { OnOk result (faults.new.items ≡ faults.old.items ++ fault ∷ []) }
{
    match faults.push(fault) {
        Ok(()) => Ok(()),
        Err(_) => Err(Memory),
    }
}
