//! The map that the records of a county draw, and the faults that they can have.
//!
//! Its definitions say what chains, polygons and landmarks a list of records draws, when each fault is true of it, and what
//! reading them may answer. `tl_map` reads by them; verdicts are about them.
#![tactic(auto)]

mod entry;
mod fault;
mod lacking;
pub mod laws;
pub mod listing;
mod rows;

pub use entry::{ChainEntry, Fill, LandmarkEntry, LinkEntry, ShapeEntry, SidesEntry};
pub use fault::{Limited, MapStop, RecordFault};
pub use lacking::{Lacking, NOTHING_LACKING};
pub use rows::{AboutRecords, FaultRow, Which, lacking_row, record_row};
