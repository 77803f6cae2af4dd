//! What all segments that cross a height have on their sides: where sides agree, each side as often near as far. So the
//! ray to the west counts as the ray to the east does, and a polygon counts nothing outside of the box of its boundary.
//! And where sides agree, a count at a point is what those rings add whose rectangles hold the point.
//!
//! [`laws`] states it of the definitions of `tl_check_inside` and of those in `specs`, of any chains that are proper, as those
//! of a map are (`Map::has_proper_chains` of `tl_map_county`).

pub mod laws;
