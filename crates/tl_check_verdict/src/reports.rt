//! Reports of sound maps.

ghost use Rattle.tl_check_verdict.specs.Verdicts.{AreNumbers};

use crate::verdict::Report;
use tl_map_county::Map;

/// The report of a sound map whose sides' boundaries have so many rings together: as many as a valid certificate of it has
/// walks.
pub fn report(map: &Map, rings: u32) -> Report
    ensures { AreNumbers map.now rings result }
{
    Report {
        chains: map.chains(),
        segments: map.segments(),
        nodes: map.nodes(),
        polygons: map.polygons(),
        landmarks: map.landmarks(),
        rings,
    }
}
