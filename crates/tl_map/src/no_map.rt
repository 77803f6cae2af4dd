//! Why records have no map.

ghost use Rattle.std.specs.Prelude.{◌≡◌, ℕ, List, MatchResult};
ghost use Rattle.tl_record.specs.declared.record.Record.{Record};
ghost use Rattle.tl_map.specs.declared.no_map.NoMap.TheVariants.{Memory};
ghost use Rattle.tl_map.specs.Collecting.{StopsOn};
ghost use Rattle.tl_map.specs.Keeping.Built.{StopsBuilding};
ghost use Rattle.tl_map.specs.Keeping.Mapped.{AreMapped};

use std::alloc::AllocError;
use tl_map_county::Map;
use tl_map_rules::{MapStop, RecordFault};

/// Why there is no map of records.
#[derive(Drop)]
pub enum NoMap {
    /// Memory was refused.
    Memory,
    /// The records have faults: these, and no other.
    Faults(Vec<RecordFault>),
}

impl From<AllocError> for NoMap {
    ghost from_gives = { λ _ why. why ≡ Memory };

    fn from(_error: AllocError) -> NoMap {
        NoMap::Memory
    }
}

/// What was built, or why there is no map, by the first of the faults.
pub(crate) fn first_told(built: Result<Map, NoMap>) -> Result<Map, MapStop>
    // It was built of some records.
    requires { (rs : List Record) × (skipped : ℕ) × MatchResult built (AreMapped rs skipped) (StopsOn rs) }
    ensures { (rs : List Record) (skipped : ℕ) → MatchResult built (AreMapped rs skipped) (StopsOn rs) →
        MatchResult result (AreMapped rs skipped) (StopsBuilding rs) }
{
    match built {
        Ok(map) => Ok(map),
        Err(NoMap::Memory) => Err(MapStop::Memory),
        Err(NoMap::Faults(faults)) => Err(MapStop::Fault(faults[0])),
    }
}
