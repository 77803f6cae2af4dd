//! Faults as objects of JSON, each on a line of its own, and a last object that says how many there are.
//!
//! A [`SoundObject`] is that of a sound map, and [`print_refusals_end`] prints the last object of
//! lines that are refused.

mod about;
mod end;
mod fault;
mod place;
mod text;

pub use end::{SoundObject, print_refusals_end, print_skipped_end, print_sound_object};
pub(crate) use text::print_fault_objects;
