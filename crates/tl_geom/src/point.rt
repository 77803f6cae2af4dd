//! Points of the plane.

/// A point with whole coordinates: `x` to the east, `y` to the north.
///
/// The records of a county give longitude and latitude in millionths of a degree; this type takes any `i32`.
#[derive(Clone, Copy, Debug, PartialEq, Eq, PartialOrd, Ord)]
pub struct Point {
    pub x: i32,
    pub y: i32,
}
