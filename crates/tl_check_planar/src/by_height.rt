//! Theorems, and no code: what follows where the segments that are active between two heights stand in a list of which each two
//! neighbours are tested, for all heights, and the vertices are tested. Then chains are planar.
//!
//! [`laws`] states it of the definitions in `specs`: heights, by which no segment is level; which of two segments is west of the
//! other; and the lists of all slabs. `tl_check_active` keeps such a list, with which `tl_check_sweep` goes from slab to slab.

pub mod laws;
