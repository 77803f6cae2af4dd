//! That the points of a map's chains are near one another.
ghost use Rattle.tl_check_planar.specs.ByHeight.Heights.{widest};
ghost use Rattle.tl_check_faces.specs.Lists.{AreAllNear};
ghost use Rattle.tl_check_active.specs.Ranges.{IsInRange};
ghost use Rattle.tl_check_gaps.specs.Keeping.Ranges.{ArePointsInRange};

use tl_geom::Point;
use tl_map_county::Map;

/// Looks at each point of a map's chains once, so that it is known of all of them that their coordinates are signed numbers of
/// 32 bits.
pub fn has_near_points(map: &Map)
    ensures { AreAllNear widest map.now.chains }
{
    for c in 0..map.chains() {
        look_along(map.chain(c).points);
    }
}

/// The same of a chain's points.
fn look_along(points: &[Point])
    ensures { ArePointsInRange points.now }
{
    for k in 0..points.len() {
        look_at(points[k]);
    }
}

/// The same of a point.
fn look_at(_point: Point)
    ensures { IsInRange _point }
{}
