//! The counts of all polygons at many points, in n log n for n segments and points; and polygons whose points don't lie where they have
//! to, by these counts and along rays.
//!
//! A sweep from south to north (`tl_check_active`) keeps the list of the segments that are active at the height that it has reached, and
//! each of them has a label: the gap on the west of it. A gap is kept as a pair, the segment on the east of it and the gap behind that
//! segment. So the gaps are a tree with the outside east of all as its root, and the way from a gap to the root has as many near and
//! far sides of each polygon as all that stands east of the gap, or differs from it by as many of both. Where the sides of the segments
//! that end at a vertex differ from those of the segments that begin there no more than that, labels west of the vertex stay as they are.
//!
//! A point that lies strictly between two neighbours at its height lies on no chain, and the ray that runs from it to the east crosses
//! what stands east of its gap. [`count_at`] goes from point to point in an order in which their gaps are near in the tree, and writes
//! down the flanks that are left where near sides and far ones of one polygon cancel.
//!
//! Nothing is asked of the chains or their sides. Where a test of the sweep fails nothing is known of the points above.
//! [`find_among_suspects`] looks at such points, and at those that the sweep can't tell, along their rays.
#![tactic(auto)]

mod agreeing;
mod by_counts;
mod counts;
mod labels;
pub mod listing;
mod misplaced;
mod order;
mod rays;
mod rising;
mod short;
mod sites;
mod sweeping;
mod vertex;
mod visits;
mod ways;

pub use counts::{PointCounts, count_at};
pub use misplaced::find_among_suspects;
pub use sites::sites_of;
