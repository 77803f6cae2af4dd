//! What names a polygon in all record types: a [`PolyKey`]. It is a crate of its own, so that what keeps and searches maps
//! needs no record layouts.
#![tactic(auto)]

mod key;
mod text;

pub use key::PolyKey;
