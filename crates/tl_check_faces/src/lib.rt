//! Theorems, and next to no code: the law of faces. Where chains are planar and the sides that face one another agree, each place that is
//! on no chain lies in one polygon or outside of all, and each side of each chain names what lies there.
//!
//! [`laws`] states it of the definitions in `specs`, which speak of rational points: which segments face one another and when their sides
//! agree (`specs/Facing`), what lies at a place, and when a side is true (`specs/Truth`). Where sides agree about nodes, true sides show in
//! turn that faces agree: a count stays along a straight line that meets no boundary (`specs/Clear`).
//!
//! A sweep can look at lists of the segments that are active at a height, along which facing sides agree (`specs/Lists`): they serve as
//! well, and there are such lists exactly where faces agree. Two neighbours of such a list face one another, and what faces one another
//! along a line of one height are neighbours. Where two neighbours don't agree, or the first or last segment doesn't face the outside,
//! those are faces that disagree, from places that can be told (`specs/Disagreements`). [`OddGap`] says where there is such a gap in a
//! list (`specs/Odd`). [`FaceFault`] tells of faces that disagree along a line of one height (`specs/Level`), with chains, keys of polygons
//! and places; `specs/Faults` says when it is true of a map, and `specs/AllFaults` which faults are all. And a look-up of a point lists what
//! lies there (`specs/Located`).
#![tactic(auto)]

pub mod crossings;
mod fault;
pub mod laws;
mod odd;

pub use fault::{FaceFault, NamedFace, Way};
pub use odd::OddGap;
