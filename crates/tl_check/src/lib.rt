//! The checker: whether a map is sound, by a certificate that nobody need trust.
//!
//! [`check_map`] answers that a map is sound only where it is: its chains are planar, its sides agree, the boundary of each
//! polygon and that of the outside is closed rings, and the points of polygons lie inside their own rings alone
//! (`tl_check_verdict/specs/Sound`). Each fault that it names is true (`tl_check_verdict/specs/Truth`), of the map or of the certificate.
//! [`check_map_with`] asks for faces too, where they are wanted, of a map that is sound otherwise.
//!
//! The parts of the certificate are taken in their order, and none is kept. Behind a tree that fits, one sweep (`tl_check_sweep`) says
//! whether two segments meet where they may not; it tells too which polygons' points are still to be looked at, and of gaps at which
//! faces disagree, so that no second sweep need be made for them. Where the budget isn't enough for all pairs of segments, the
//! certificate's tree is searched first, until the budget is spent.
#![tactic(auto)]

mod answer;
mod as_read;
mod counts;
mod faces;
mod in_memory;
mod of_records;
mod points;
mod rounds;
mod search;
mod state;
mod tree;
mod walks;

pub use as_read::check_cert;
pub use in_memory::{check_map, check_map_with};
pub use of_records::{check, check_with};
pub use tl_cert_output::Stop;
pub use tl_check_verdict::{CertFault, MapFault, Report, Verdict, laws, report};
