//! What follows from a map's darts, and is proposed of it: the rounds about its nodes, the walks along its boundaries and the tree
//! over its segments, which make a certificate, and by the walks whether sides agree. Of planar chains all of it is right.
#![tactic(auto)]

mod counted;
mod proposal;
mod rounds;
mod sides;
mod walks;

pub use proposal::{count_walks, propose, propose_walks};
pub use sides::find_sides_at_odds;
