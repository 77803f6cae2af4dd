//! The chain that holds a point.

ghost use Rattle.std.specs.Prelude.{◌≡◌, length, IfOk, MatchOption};
ghost use Rattle.tl_map_county.specs.Segments.{segments_before};
ghost use Rattle.tl_check_planar.specs.Rectangles.{segment_rect};
ghost use Rattle.tl_check_inside.specs.Places.{IsLowestOn, IsOffChains};
ghost use Rattle.tl_tree_index.specs.Hits.{AreHits};
ghost use Rattle.tl_check_inside.specs.Keeping.Listed.{IsLeastOf};
ghost use Rattle.tl_check_inside.specs.Keeping.Probing.{IsHolding};

use crate::probes::HoldingPoint;
use tl_check_planar::Segments;
use tl_geom::{Point, on};
use tl_map_county::Map;
use tl_tree_index::{BoxIndex, Memory};

/// The lowest chain that holds a point, if one does. The hits on the way take the place of those that stood there.
pub fn chain_at<X: BoxIndex>(
    map: &Map,
    index: &X,
    point: Point,
    hits: &mut Vec<u32>,
) -> Result<Option<u32>, Memory>
    requires fits { X.fits index.now (segments_before map.now.chains (length map.now.chains)) (segment_rect map.now.chains) }
    ensures { IfOk result (λ found. MatchOption found (IsOffChains map.now.chains point) (IsLowestOn map.now.chains point)) }
{
    hits.clear();
    index.collect_hits(&Segments::new(map), &HoldingPoint(point), hits)?;
    Ok(lowest_of(map, hits, point))
}

/// The same by the segments that hold the point.
fn lowest_of(map: &Map, hits: &[u32], point: Point) -> Option<u32>
    requires { AreHits (segments_before map.now.chains (length map.now.chains)) (IsHolding map.now.chains point) hits.now }
    ensures { MatchOption result (IsOffChains map.now.chains point) (IsLowestOn map.now.chains point) }
{
    match least(hits) {
        // It is hit, as all that are listed are.
        Some(s) if on(map.segment(s), point) => Some(map.segment_chain(s)),
        Some(_) => unreachable!(),
        None => None,
    }
}

/// The least of some numbers, if there is one.
fn least(numbers: &[u32]) -> Option<u32>
    ensures { MatchOption result (length numbers.now ≡ 0) (IsLeastOf numbers.now (length numbers.now)) }
{
    let mut least = None;
    for number in numbers {
        match least {
            Some(before) if before <= *number => {}
            _ => least = Some(*number),
        }
    }
    least
}
