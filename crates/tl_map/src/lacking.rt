//! Which types of records there are none of among those that are collected.

ghost use Rattle.std.specs.Prelude.{◌≡◌, ◌==◌, List};
ghost use Rattle.tl_record.specs.declared.record.Record.{Record};
ghost use Rattle.tl_map_rules.specs.ChainsOf.{chain_count};
ghost use Rattle.tl_map_rules.specs.Lacking.{lacking_where};
ghost use Rattle.tl_map.specs.Keeping.Collected.{Collects};
ghost use Rattle.tl_map.specs.Keeping.Areas.{KeepsAreas};

use crate::areas::AreaRecords;
use crate::collect::Collected;
use tl_map_rules::{Lacking, NOTHING_LACKING};

/// Of which of the types 1, I and P there is no record, where some of each is asked for.
pub fn lacking_where(asked: bool, collected: &Collected, areas: &AreaRecords) -> Lacking
    ensures { (rs : List Record) → Collects rs collected.now → KeepsAreas rs areas.now → result ≡ lacking_where asked rs }
{
    if !asked {
        return NOTHING_LACKING;
    }
    Lacking {
        chains: has_no_chain(collected),
        sides: areas.sides.len() == 0,
        polygons: areas.polygons.len() == 0,
    }
}

/// Whether there is no type 1 record.
fn has_no_chain(collected: &Collected) -> bool
    ensures { (rs : List Record) → Collects rs collected.now → result ≡ (chain_count rs == 0) }
{
    collected.chains.len() == 0
}
