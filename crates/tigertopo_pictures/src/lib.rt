//! Maps as files for other programs: a county as GeoJSON ([`geojson`]), and a picture for a browser ([`svg`]).
//!
//! Both write the walks of a map as rings of its polygons, each with a pen of its own (`rings`), and words with a spelling of its own
//! (`spelling`).
#![tactic(auto)]

mod faults;
pub mod geojson;
mod groups;
mod items;
mod rings;
mod spelling;
pub mod svg;
mod walks;

pub use faults::FaultWords;
pub use spelling::Words;
