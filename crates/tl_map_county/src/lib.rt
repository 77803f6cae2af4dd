//! A county's map in memory.
//!
//! [`Map`] has the chains of a county with what lies on both sides, its polygons, and its landmarks with their polygons,
//! each by its number; segments, darts and nodes are numbered from them. [`Chains`] are the chains alone. `tl_map` makes
//! both from records, and is where to begin; who makes maps of other files makes them here, by [`Map::new`].
//!
//! The look-ups of [`Chains`] and of [`Map`] take no memory.
#![tactic(auto)]

mod chains;
mod darts;
mod freeing;
mod kept;
mod landmarks;
pub mod laws;
mod limits;
mod map;
mod nodes;
mod polygons;
mod presort;
mod runs;
mod segments;
mod sides;
mod without;

pub use chains::{ChainRow, Chains};
pub use darts::reverse_dart;
pub use freeing::release;
pub use kept::SidesOfChains;
pub use landmarks::{LandmarkRow, LinkedLandmarks};
pub use limits::{CHAIN_LIMIT, LANDMARK_LIMIT, POLYGON_LIMIT, SEGMENT_LIMIT};
pub use map::{Chain, Landmark, Map};
pub use polygons::Polygon;
pub use presort::{Ranked, presort_by_rank};
pub use runs::{Keyed, first_not_below, run_end};
pub use sides::{ChainSides, Side};
