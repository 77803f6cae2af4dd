//! Sides that agree: the darts about each node, and the rings that they make.
//!
//! A stranger lists the darts that start at each node in their order round it ([`Rounds`]), and rings of darts
//! ([`Walks`]). Both are taken list by list, against a map, and the answer is exactly whether each is right as a whole,
//! and if not, why. Rounds that are right give the next dart about its node of each dart ([`Next`]), which decides
//! whether sides agree. What sides, rings and boundaries are is defined in `specs/Sides`, without any list of a
//! stranger's.
//!
//! Who lists rounds, or looks at the darts of each node, begins with the darts that [`sort_darts`] gives.
//!
//! Only [`Rounds::new`], [`Walks::new`] and [`sort_darts`] take memory.
#![tactic(auto)]

pub mod cells;
mod fault;
mod headed;
pub mod laws;
pub mod listing;
mod marks;
mod next;
mod rounds;
mod walks;

pub use fault::{Disagreement, RoundFault, WalkFault};
pub use headed::{HeadedDart, head_together, sort_darts};
pub use next::Next;
pub use rounds::Rounds;
pub use walks::Walks;
