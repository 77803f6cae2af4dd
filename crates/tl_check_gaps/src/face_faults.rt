//! Faces that disagree: two segments that face one another and name different sides there, or one that faces the outside and names a
//! polygon.
//!
//! A gap of a slab's list whose facing sides differ, as `tl_check_faces` has it ([`tl_check_faces::OddGap`]), stands between numbers of segments.
//! [`face_fault`] tells of it what can be looked up on the map: chains by their TLID, polygons by their keys, and from each segment
//! a place at which it faces the other. `tl_check_faces/specs/Faults` says when that is true of a map.
//!
//! Both [`face_fault_of`], which decides, and [`all_face_faults`] take what a sweep told of gaps (`tl_check_gaps`): `specs/AllFaults` says of
//! which gaps all faults are.

mod all;
mod decide;
mod find;
pub mod laws;
mod midway;

pub use all::all_face_faults;
pub use decide::face_fault_of;
pub use find::face_fault;
