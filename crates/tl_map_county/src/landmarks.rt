//! Landmarks as a map keeps them.

use tl_geom::Point;

/// Where the polygons of a landmark stand among those of all landmarks.
#[derive(Clone, Copy)]
pub struct LandmarkRow {
    pub first: usize,
    pub count: usize,
}

/// The LANDs of landmarks with their points, and beside each, in `rows`, which polygons of one list are linked to it.
#[derive(Drop)]
pub struct LinkedLandmarks {
    pub points: Vec<(u64, Option<Point>)>,
    pub rows: Vec<LandmarkRow>,
    pub linked: Vec<u32>,
}
