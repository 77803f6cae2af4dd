//! A list of numbers in blocks, parted at a place, for lists that change at many places.
//!
//! [`Line`] has the numbers from west to east. What is put in and what is taken off at its place moves few of them, and the blocks' first
//! numbers lead to any place in few steps: [`go_to`] asks of some of them whether what is sought lies east ([`Seeks`]). The list stays the same
//! wherever it is gone to, and no contract says where that is: who needs a place to be right looks at what stands before and behind it.
//! Where many places are known that are sought next, [`Places`] seeks their blocks together ([`SeeksMany`]).

mod ahead;
mod block;
mod finding;
mod line;
mod places;
mod search;

pub use ahead::{AHEAD, SeeksMany};
pub use finding::{Seeks, go_to, go_to_first};
pub use line::Line;
pub use places::Places;
