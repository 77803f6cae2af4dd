//! Polygons by their keys.

ghost use Rattle.std.specs.Prelude.{◌≡◌, IfOk, IfErr, map};
ghost use Rattle.indexmap.specs.IndexMap.{IsUnique};
ghost use Rattle.tl_map_rules.specs.MapOf.{keys, same_key};
ghost use Rattle.tl_record_key.specs.declared.key.PolyKey.{PolyKey};
ghost use Rattle.tl_map_rules.specs.Faults.{StandsTwice};
ghost use Rattle.tl_map.specs.Keeping.Unbuilt.{StopsFor};
ghost use Rattle.tl_map.specs.Keeping.Index.{entry_of};

use crate::unbuilt::Unbuilt;
use indexmap::IndexMap;
use std::alloc::Global;
use std::hash::RandomState;
use tl_geom::Point;
use tl_map_county::Polygon;
use tl_record::PolyKey;

/// Polygons by their keys, in the order of their records.
pub fn index_polygons(
    alloc: Global,
    hasher: RandomState,
    polygons: &[Polygon],
) -> Result<IndexMap<PolyKey, Point, RandomState>, Unbuilt>
    ensures entries { IfOk result (λ index. index.entries ≡ map entry_of polygons.now) }
    ensures unique { IfOk result (IsUnique same_key) }
    ensures stops { IfErr result (StopsFor ((k : PolyKey) × StandsTwice (keys polygons.now) k)) }
{
    let mut index = IndexMap::with_capacity_and_hasher(alloc, polygons.len(), hasher)?;
    for polygon in polygons {
        if index.insert(polygon.key, polygon.point)?.is_some() {
            return Err(Unbuilt::Faulty);
        }
    }
    Ok(index)
}
