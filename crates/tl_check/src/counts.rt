//! The counts of a certificate.

ghost use Rattle.std.specs.Prelude.{◌≡◌, ◌≢◌, ◌↔◌, List, IsTrue, IsFalse};
ghost use Rattle.tl_geom.specs.declared.point.Point.{Point};
ghost use Rattle.tl_map_county.specs.Nodes.{AreNodes};
ghost use Rattle.tl_check_verdict.specs.Valid.{AreCounts};

use tl_cert::Counts;
use tl_map_county::Map;

/// Whether the counts are the map's.
pub fn are_counts(map: &Map, counts: Counts) -> bool
    ensures { IsTrue result ↔ AreCounts map.now counts }
{
    are_same(counts, counts_of(map))
}

/// The map's counts.
fn counts_of(map: &Map) -> Counts
    ensures counts { AreCounts map.now result }
    ensures nodes { (points : List Point) × AreNodes map.now.chains points }
{
    Counts {
        chains: map.chains(),
        segments: map.segments(),
        nodes: map.nodes(),
        polygons: map.polygons(),
    }
}

/// Whether two counts are one.
fn are_same(a: Counts, b: Counts) -> bool
    ensures same { IsTrue result → a ≡ b }
    ensures other { IsFalse result → a ≢ b }
{
    a == b
}
