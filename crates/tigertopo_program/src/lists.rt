//! What is wrong with a county, told otherwise than by the first fault's line: all of it, with the records that faults speak of,
//! or as a file of GeoJSON.
//!
//! [`list`] reads a county's files, lists all that is wrong (`tl_list`), tells which records faults speak of where these are asked for
//! (`tigertopo_faults::lines`), makes the file (`tigertopo_faults::geojson`), and answers what was found, as lines or as objects of JSON
//! (`tigertopo_faults::objects`). The files are read once, and where lines are asked for, these are noted in the same reading.
//!
//! Where one fault is asked for as a line, a refused line is a stop. Else all refused lines are answered, or
//! so many from the front, with where they stand if that is asked for (`tigertopo_faults::hint`), and the file is made of them. Where they
//! are skipped, what is left without them is listed in the same reading, and its faults stand behind them.

mod collection;
mod found;
mod listing;
mod prepared;
mod refused;
mod skipping;
mod speaking;

pub use listing::{Wanted, list};
pub(crate) use refused::first_stop;
