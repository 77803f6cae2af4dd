//! The lines that are printed of a map: its chains, its landmarks, and where a point lies. They take no memory.

pub mod chains;
pub mod landmarks;
pub mod places;

pub use chains::print_chains;
pub use landmarks::print_landmarks;
pub use places::PlaceText;
