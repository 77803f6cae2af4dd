//! Zero-cell ids that agree.
//!
//! A type I record can give an id to the start and to the end of its chain. The ids of a map agree if any two darts
//! that have ids have one id exactly where they start at one point. [`find_cells_at_odds`] decides this, and names two
//! darts whose ids are at odds where they don't agree. What that is stands in `specs/Cells`, which speaks of darts,
//! ids and points alone.

mod at_odds;
mod find;
mod kept;
pub mod laws;

pub use at_odds::CellsAtOdds;
pub use find::find_cells_at_odds;
