//! What is decided of a map, and what each answer says: a verdict, a fault of the map or of a certificate, or why there is none.
//!
//! A map is sound where its chains are planar, its sides agree, the boundary of each polygon and that of the outside is closed
//! rings, and the points of polygons lie inside their own rings alone (`specs/Sound`). Each fault has one meaning
//! (`specs/Truth`). `tl_check` and `tl_build` answer so.
#![tactic(auto)]

mod fault;
pub mod laws;
mod reports;
mod rows;
mod stop;
mod verdict;

pub use fault::{CertFault, MapFault};
pub use reports::report;
pub use rows::{About, row};
pub use stop::{fault_of_records, fault_of_text};
pub use verdict::{Report, Verdict};
