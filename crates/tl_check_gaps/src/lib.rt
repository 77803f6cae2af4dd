//! What lies in the gaps between neighbours of a sweep's list: the sides that face one another there, and the points of polygons.
//!
//! Near and far sides of a segment are those to its west and to its east at each height ([`flanks_by_height`]). A sweep counts along its list the
//! places where facing sides differ ([`recount`]). Where there are none, a point between two neighbours lies in the polygon that the side of its
//! eastern neighbour names, as [`laws`] say; [`InnerPoints`] marks the polygons whose points are found so. Of the gaps whose facing sides differ
//! ([`tl_check_faces::OddGap`]) a [`Watch`] tells the first or all, as it is asked ([`Gaps`]): `specs/Gaps` says which list is of all. It looks, at
//! each vertex, at the gaps before, between and behind the segments that begin there: each other gap of the new list stood in the list before.
#![tactic(auto)]

pub mod face_faults;
mod facing;
mod kept;
pub mod laws;
mod near;
mod placing;
mod rising;
mod spots;
mod telling;
mod watch;

pub use facing::{are_alike, far_of, flanks_by_height, near_of, recount};
pub use near::has_near_points;
pub use placing::{is_between, is_east_of, is_west_of};
pub use rising::RisingPoints;
pub use spots::{InnerPoints, list_unmarked};
pub use watch::{Gaps, Watch};
