//! The order of faults.

ghost use Rattle.std.specs.Prelude.{◌≡◌};
ghost use Rattle.tl_map_rules.specs.Listing.AllFaults.{limited_number, fault_place};
ghost use Rattle.tl_map_rules.specs.Listing.Keeping.Told.{AreOrdered};

use crate::{Limited, RecordFault};

/// The code of a fault, and behind it its TLID, CENID, POLYID and LAND, each zero where it has none.
type SortKey = (u8, u64, [u8; 5], u64, u64);

/// The CENID of a fault that has none.
const NO_CENID: [u8; 5] = [0; 5];

/// Sorts faults by their places, and keeps each once.
pub fn order_faults(faults: &mut Vec<RecordFault>)
    ensures { AreOrdered faults.old.items faults.new.items }
{
    faults.sort_unstable_by_key(|fault| place_of(fault));
    faults.dedup_by_key(|fault| place_of(fault));
}

/// What a fault is ordered by.
fn place_of(fault: &RecordFault) -> SortKey
    ensures { result ≡ fault_place fault.now }
{
    match fault {
        RecordFault::DuplicateChain { tlid } => (1, *tlid, NO_CENID, 0, 0),
        RecordFault::ShapeWithoutChain { tlid } => (2, *tlid, NO_CENID, 0, 0),
        RecordFault::ShapeSequence { tlid } => (3, *tlid, NO_CENID, 0, 0),
        RecordFault::ShapeGap { tlid } => (4, *tlid, NO_CENID, 0, 0),
        RecordFault::ChainWithoutSides { tlid } => (5, *tlid, NO_CENID, 0, 0),
        RecordFault::SidesWithoutChain { tlid } => (6, *tlid, NO_CENID, 0, 0),
        RecordFault::DuplicateSides { tlid } => (7, *tlid, NO_CENID, 0, 0),
        RecordFault::DuplicatePolygon { polygon } => (8, 0, polygon.cenid, polygon.polyid, 0),
        RecordFault::SideWithoutPolygon { tlid, polygon } => {
            (9, *tlid, polygon.cenid, polygon.polyid, 0)
        }
        RecordFault::LinkWithoutLandmark { land } => (10, 0, NO_CENID, 0, *land),
        RecordFault::LinkWithoutPolygon { polygon, land } => {
            (11, 0, polygon.cenid, polygon.polyid, *land)
        }
        RecordFault::DegenerateChain { tlid } => (12, *tlid, NO_CENID, 0, 0),
        RecordFault::TooMany(what) => (13, number_of(*what), NO_CENID, 0, 0),
    }
}

/// The place of what there can be too many of: chains, segments, polygons, landmarks.
fn number_of(what: Limited) -> u64
    ensures { result ≡ limited_number what }
{
    match what {
        Limited::Chains => 0,
        Limited::Segments => 1,
        Limited::Polygons => 2,
        Limited::Landmarks => 3,
    }
}
