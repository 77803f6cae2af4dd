//! What is told of faults and of refused lines: in which files and lines they stand, where they lie, and what they are about.
//!
//! [`places`] gives the file and the line of a line of all files as one text, and [`hint`] says what helps where one is refused.
//! [`records`] finds the records that faults speak of. [`lines`] says of faults where they lie and which records they are about, and gives
//! both as lines; [`geojson`] gives them as GeoJSON, with the chains that they name, and [`objects`] as objects of JSON. [`told`] is the text of
//! faults in each form.
#![tactic(auto)]

pub mod geojson;
pub mod hint;
pub mod laws;
pub mod lines;
pub mod objects;
pub mod places;
pub mod records;
mod shown;
pub mod told;
