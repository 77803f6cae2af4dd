//! Where points lie in a map: on a chain, or in polygons and landmarks, by how often a ray to the east comes out of each
//! and goes in.
//!
//! What that is stands in `specs/Inside` and `specs/Places`, over all segments of all chains. [`locate`] answers for any
//! point, [`find_misplaced`] looks at the points of all polygons: each has to be on no chain, inside its own polygon and
//! clear of every other (`specs/Placed`). Both go by any index that fits the map's segments.
#![tactic(auto)]

mod crossed;
mod flanks;
mod held;
mod landmarks;
pub mod laws;
mod listing;
mod locating;
mod misplaced;
mod place;
mod probes;
mod reach;
mod sifting;
mod strips;
mod tallies;

pub use flanks::Flanks;
pub use held::chain_at;
pub use locating::locate;
pub use misplaced::{Misplaced, find_among, find_misplaced, misplaced_by, on_chain};
pub use place::Place;
pub use reach::has_points_in_reach;
pub use sifting::sift_all;
pub use strips::{Site, list_in_strip, push_site, sites_of};
pub use tallies::{no_counts, take_back, tally};
