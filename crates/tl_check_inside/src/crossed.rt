//! The segments that a ray crosses.

ghost use Rattle.std.specs.Prelude.{◌<◌, length, All, OnOk};
ghost use Rattle.tl_map_county.specs.Segments.{segments_before};
ghost use Rattle.tl_check_planar.specs.Rectangles.{segment_rect};
ghost use Rattle.tl_check_inside.specs.Inside.{AreCrossed};
ghost use Rattle.tl_check_inside.specs.Keeping.Probing.{ChainsAreInReach};

use crate::probes::Ray;
use tl_check_planar::Segments;
use tl_geom::Point;
use tl_map_county::Map;
use tl_tree_index::{BoxIndex, Memory};

/// Lists the segments that the ray from a point to the east crosses, in the place of those that were listed.
pub fn list_crossed<X: BoxIndex>(
    map: &Map,
    index: &X,
    point: Point,
    crossed: &mut Vec<u32>,
) -> Result<(), Memory>
    requires fits { X.fits index.now (segments_before map.now.chains (length map.now.chains)) (segment_rect map.now.chains) }
    requires reach { ChainsAreInReach map.now.chains }
    ensures are { OnOk result (AreCrossed map.now.chains point crossed.new.items) }
    ensures known { OnOk result
        (All (λ s. s < segments_before map.now.chains (length map.now.chains)) crossed.new.items) }
{
    crossed.clear();
    index.collect_hits(&Segments::new(map), &Ray(point), crossed)
}
