//! Pictures of counties, made over a file system.
//!
//! [`draw`] reads a county's files, draws its map (`tigertopo_pictures`) into a new file, which takes its name when it is whole, and
//! answers how much the picture shows.

mod drawing;
mod subject;

pub use drawing::draw;
