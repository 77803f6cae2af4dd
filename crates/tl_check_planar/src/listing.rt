//! All conflicts of items, and all places where a map's chains meet that they may not.
//!
//! Where a search for one conflict ends at the first, [`all_conflicts`] lists them all, each once and in order: of items with a mark for
//! one of each two that conflict, it searches for those that are marked, and for no others. [`all_meets`] lists so all conflicts of a
//! map's segments, where the chains without a mark are planar.

mod beside;
mod conflicts;
mod consistent;
pub mod laws;
mod marks;
mod meets;
mod pairs;

pub use conflicts::all_conflicts;
pub use consistent::ConsistentItems;
pub use meets::all_meets;
