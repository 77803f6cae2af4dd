//! Faults with the records that they speak of: each in its file and line, and where it lies on the map.
//!
//! [`speak_of`] says where faults lie on the map, which [`fault_places`] tells alone, and finds the records that they speak of among a county's,
//! of which it gives the lines behind each fault.

mod ends;
mod line;
mod places;
mod speaking;
mod spoken;
mod text;

pub use places::{fault_places, place_at};
pub use speaking::{Spoken, speak_of};
pub use spoken::{lines_for, segment_spoken};
pub(crate) use text::{chosen, print_behind, print_placed_faults};
