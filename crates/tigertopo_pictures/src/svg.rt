//! Pictures of maps for a browser.
//!
//! [`picture_of`] says how a map is drawn by a [`Frame`], which is fitted to the map and to the faults that are shown or set
//! about a point, and [`print_picture`] prints the picture with the faults that it's given, each at its place: exactly which
//! bytes. [`Fills`] are what the polygons of a sound map are filled by,
//! neighbours with different colours ([`laws`]). Nothing else is allocated.

mod bounds;
mod chains;
mod colours;
mod filled;
mod fills;
mod frame;
mod key;
pub mod laws;
mod lean;
mod marks;
mod pairs;
mod picture;
mod places;
mod print;
mod quotients;
mod scale;
mod text;
mod walk;

pub use fills::Fills;
pub use frame::{Frame, Position, Spot};
pub use picture::{Picture, chain_count, fault_count, picture_of};
pub use print::print_picture;
