//! How one sweep from south to north decides that chains are planar, and tells of gaps whose facing sides differ.
//!
//! The sweep keeps a list of the segments that are active at the height that it has reached, from west to east, and tests
//! each two that are neighbours for the first time (`tl_check_active`). Neither the order of the list nor the way in which a place in it
//! was found is trusted: `tl_check_planar::by_height` says what follows from the tests alone. So [`sweep`] answers [`Swept::Planar`] only where the
//! chains are planar. Where points of chains are at one vertex and may not be, it names two segments there that meet where they may not. Where
//! a test of neighbours fails it looks for two such segments there; and where none do, which no map is known to bring about, it sweeps once
//! more with places that turns tell, of which it is proved that a test fails only where a meet is found.
//!
//! On its way it looks at polygons' points, and at the gaps whose facing sides differ (`tl_check_gaps`): it counts the places along the list
//! where sides differ, and only where there are such does it look at the gaps about a vertex.
#![tactic(auto)]

mod answer;
mod exact;
mod meets;
mod noting;
mod remaining;
mod suspects;
mod sweeping;
mod taking;

pub use answer::{SweepReport, Swept, sweep};
pub use meets::may_meet;
pub use remaining::{PlanarPart, planar_part};
