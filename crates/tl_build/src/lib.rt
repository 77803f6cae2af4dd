//! The builder: whether a map is sound with no certificate given, and a certificate of a map that is.
//!
//! [`audit`] decides records, and [`build`] makes a certificate. What is wrong with a map `tl_decide` tells, of one sweep over it: here it is asked
//! for the first fault. Each certificate that is made has the tree that `tl_tree_index` makes over the segments, and the darts and walks by which
//! the map is decided (`tl_build_propose`). Who wants the walks of a sound map alone takes [`find_walks`], or [`planar_walks`] where the map is known
//! to be sound, and [`audit_map`] decides a map in memory. Where faces are asked for ([`audit_with`], [`build_with`]), those of a sound map have to
//! agree.
#![tactic(auto)]

mod answer;
mod of_map;
mod of_records;
mod walks;

pub use answer::{Audit, Built};
pub use of_map::{build, build_with};
pub use of_records::{audit, audit_map, audit_with};
pub use walks::{find_walks, planar_walks};
