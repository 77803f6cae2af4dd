//! Which maps are planar: no two chains share a point but an end of both, and no chain meets itself but at its ends.
//!
//! The segments of a map are items of a search that conflict exactly where they share a point that they may not share. So a
//! search that finds no conflict says that the map's chains are planar, and one that finds a conflict names a point where
//! they aren't.
//!
//! Nothing here takes memory but the lists of [`listing`].
#![tactic(auto)]

mod allowed;
pub mod by_height;
pub mod laws;
pub mod listing;
mod meet;
mod pair;
mod segments;

pub use meet::{Meet, Meeting, first_meet};
pub use segments::Segments;
