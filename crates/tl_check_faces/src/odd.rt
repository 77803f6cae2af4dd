//! Where facing sides differ along the lines of one height.

use tl_geom::Point;

/// A gap between two neighbours of a slab's list whose facing sides differ: the height of a point, in whose slab it is, and the
/// segments on both sides of it, by their numbers. Before the first segment and behind the last there is none, and the outside.
#[derive(Clone, Copy, Debug, PartialEq, Eq)]
pub struct OddGap {
    pub at: Point,
    pub west: Option<u32>,
    pub east: Option<u32>,
}
