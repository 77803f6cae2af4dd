//! What a sweep from south to north goes by: the events at which it stops, and the list of the segments that are active there.
//!
//! [`Events`] are the ends of all segments by their heights. [`sweep_over`] goes from vertex to vertex with a [`Watcher`], who does there what the
//! sweep is for, and looks at what lies below each. The list of active segments from west to east is a [`tl_check_active::blocks::Line`]; [`pass`]
//! takes what ends at a vertex off it and puts in what begins, and tests each two that are neighbours for the first time. The place in the list
//! that is gone to isn't claimed to be right: the tests of neighbours tell whether it was. A sweep looks at the events that come next, so that
//! their places are found together.
#![tactic(auto)]

mod ahead;
pub mod blocks;
mod events;
mod finding;
mod heights;
mod neighbours;
mod passing;
mod shifting;
mod vertices;
mod watching;

pub use events::{Event, Events};
pub use finding::{go_to, go_to_first};
pub use heights::{ends, height, is_lower};
pub use neighbours::are_tested;
pub use passing::{BothSides, pass};
pub use shifting::bend;
pub use vertices::{are_one, order};
pub use watching::{Watcher, sweep_over};
