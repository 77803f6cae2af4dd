//! The border of a map as records.
//!
//! [`BorderText`] is the text of the records of a map's border, in the columns of the files of 2006, for whoever prints it or makes a file
//! of it. How a record is spelt is said in `specs/Spelling`, field by field, and which records a border has in `specs/Border`.
//! [`chain_count`] and [`segment_count`] are its numbers.
//!
//! [`laws`] say that this text is read again as the border, and that the map which the records of several counties draw, joined, is joined
//! from the map of each (`specs/Parts`). So counties and the texts of their borders decide the map of all (`specs/InParts`).
#![tactic(auto)]

mod border;
mod chain;
mod counts;
mod fields;
pub mod laws;
mod lines;
mod text;
pub mod whole;

pub use counts::{chain_count, segment_count};
pub use text::BorderText;
