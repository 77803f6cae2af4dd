//! The faults of a county as GeoJSON, to be laid over the map that they speak of.
//!
//! A [`FaultsText`] is one FeatureCollection of RFC 7946: a point for each fault, with all that the fault names and the
//! records that it speaks of, behind them the line of each chain that a fault names, and last each refused line.

mod chains;
mod ends;
mod fault;
mod named;
mod place;
mod record;
mod text;
mod words;

pub(crate) use fault::{print_names, print_spoken};
pub(crate) use place::{print_position, print_signed};
pub use text::FaultsText;
pub(crate) use words::print_words;
