//! What is wrong with a map: its first fault, or all of them.
//!
//! A sweep over the map tells whether chains meet (`tl_check_sweep`). Where they don't, the walks that follow from the darts sorted about their
//! nodes tell whether sides agree (`tl_build_propose`), and these walks are counted, or handed out. Where polygons' points lie is looked at of those
//! alone that the sweep doesn't know to be placed (`tl_check_points`), and the same sweep tells of faces (`tl_check_gaps::face_faults`).
//!
//! [`decide`] goes this way at two depths. At the first it stops at the first fault. At the other it lists all: where chains meet, some are taken out
//! until the others are planar, and all meets are searched for (`tl_check_planar::listing`); where sides differ, all that do are listed
//! (`tl_check_sides::listing`), and points are looked at in a map in which no side names what these touch.
#![tactic(auto)]

mod agreeing;
mod asked;
mod deciding;
mod differing;
mod faces;
mod first;
mod meets;
mod met;
mod parts;
mod points;
mod tell;
mod traced;

pub use asked::{Asked, Decided, Depth};
pub use deciding::decide;
pub use first::first_fault;
