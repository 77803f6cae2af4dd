//! How far east points can lie.

ghost use Rattle.tl_check_inside.specs.Keeping.Probing.{AreInReach, ChainsAreInReach};

use tl_geom::Point;
use tl_map_county::Map;

/// Looks at each point of a map once, so that it is known of all of them that none lies east of the greatest `i32`, where
/// the rectangles of rays end.
pub fn has_points_in_reach(map: &Map)
    ensures { ChainsAreInReach map.now.chains }
{
    for c in 0..map.chains() {
        look_at_each(map.chain(c).points);
    }
}

fn look_at_each(points: &[Point])
    ensures { AreInReach points.now }
{
    for point in points {
        let _east = point.x;
    }
}
