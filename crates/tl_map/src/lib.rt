//! The map that the records of a county draw.
//!
//! [`read_map`] reads the records of a text and makes the county's [`Map`]: complete chains with their points and the
//! polygons on both sides, polygons, and landmarks with their polygons; [`read_chains`] makes the chains alone. The
//! answer is that of the whole text, its first refused line, or a fault that is true of its records. Records are
//! gathered as they come, sorted once and joined by merging; the points of all chains lie in one list. Polygons and
//! landmarks are kept in `indexmap` maps, whose hasher's keys come from the caller, so that no file can be made against it.
//!
//! Which of several true faults is answered is left open. Where a call stops it hands out nothing: a [`MapStop`] holds
//! no chain.
#![tactic(auto)]

mod areas;
mod build;
mod build_map;
mod collect;
mod collected;
mod guess;
mod join;
pub mod joined;
mod kept;
mod lacking;
mod landmarks;
mod left;
mod no_map;
mod passes;
mod polygons;
mod read;
mod sides;
mod sort;
mod unbuilt;

pub use collected::CollectedRecords;
pub use no_map::NoMap;
pub use read::{read_chains, read_chains_with, read_map, read_map_with};
pub use tl_map_county::{
    CHAIN_LIMIT, Chain, Chains, LANDMARK_LIMIT, Landmark, Map, POLYGON_LIMIT, Polygon,
    SEGMENT_LIMIT, Side,
};
pub use tl_map_rules::{Lacking, Limited, MapStop, RecordFault};
