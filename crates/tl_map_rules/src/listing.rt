//! Every fault of a county's records at once.
//!
//! All are named that are true of the records, in the order of their codes and then of their numbers, none twice:
//! [`all_record_faults`]. Where the chains are known to have no fault, [`faults_behind_chains`] names the others, and
//! [`all_chain_faults`] names those of the chains alone. All take lists of what the records say: these are sorted once, and
//! gone through side by side; of what each tells the faults are put in order in the end.

mod all;
mod areas;
mod chains;
mod kept;
mod keys;
pub mod laws;
mod limits;
mod numbers;
mod order;
pub mod refusals;
mod runs;
mod shape;
mod tlids;

pub use all::{all_chain_faults, all_record_faults, faults_behind_chains};
pub use kept::{KeptAreas, NamedSide};
pub use shape::{ShapeSummary, summaries_of};
pub use tlids::sort_chains;
