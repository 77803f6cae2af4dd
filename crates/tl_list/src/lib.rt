//! All that is wrong with a county.
//!
//! Where `tl_build` names one fault of a county, [`list_faults`] lists them all: every line that is refused; where none is,
//! every fault of the records; and where they have none, every fault of their map. Where refused lines are skipped, it lists what is left
//! without them, too. The text is read once, and where that is asked, [`NotedLines`] says on which lines its records stand, and how its refused lines begin. Records
//! are kept once, by `tl_map`, which gives their map or all of their faults; those of the map `tl_decide` tells. What is listed of a map tells
//! whether it is sound ([`has_sound_map`]), so that it needn't be decided once more.
#![tactic(auto)]

pub mod laws;
mod left;
mod noted;
mod of_map;
mod of_records;
mod reading;
mod sound;
mod tell;

pub use left::{Found, LeftFaults};
pub use noted::NotedLines;
pub use of_records::{Findings, list_faults, list_with_map};
pub use sound::has_sound_map;
