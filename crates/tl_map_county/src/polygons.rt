//! Polygons.

use tl_geom::Point;
use tl_record_key::PolyKey;

/// A GT-polygon: its key, and its internal point in millionths of a degree.
#[derive(Clone, Copy, Debug, PartialEq, Eq)]
pub struct Polygon {
    pub key: PolyKey,
    pub point: Point,
}
