//! All polygons' points that don't lie where they have to.
//!
//! Where a search for one fault of a point ends at the first, [`all_misplaced`] lists them all, each once and in order: of
//! each polygon the chains that hold its point, whether it lies outside, and the other polygons that it lies in
//! (`specs/AllMisplaced`).
//!
//! A side that names a wrong polygon shifts the counts of that polygon, and of the one that it should name, at all points west of it. So of
//! some polygons nothing may be known; these are marked. [`all_misplaced_among`] tells what doesn't hang on them, and [`hide_polygons`]
//! makes a map that is like another one but for their sides, which costs no more to look at than one whose sides agree.

mod among;
mod beside;
mod hiding;
pub mod laws;
mod marks;
mod misplaced;
mod odd;
mod parted;
mod room;
mod telling;

pub use among::all_misplaced_among;
pub use beside::suspects_by_part;
pub use hiding::hide_polygons;
pub use marks::marks_of;
pub use misplaced::all_misplaced;
