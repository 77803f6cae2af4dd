//! The records that faults speak of, with the lines where they stand.
//!
//! [`subjects_of`] says what a fault speaks of: the records of a TLID and of some types, of a polygon's key, of a LAND. A
//! county's records are gone through once for all faults: of each that [`wanted_subjects`] name its line's number is kept with it,
//! and [`RecordLines`] gives them. Nothing is kept but what the faults speak of, and which of these records hold the ends of a
//! chain's segments, of each county that tells it: [`RecordLines::ends_of`] gives those of one.

mod kept;
mod line;
mod lines;
mod segment;
mod subject;
mod telling;
mod walk;
mod wanted;

pub(crate) use kept::KeptLines;
pub use line::{Part, RecordLine, SegmentEnds};
pub use lines::RecordLines;
pub use segment::segment_within;
pub(crate) use subject::subjects_about;
pub use subject::{Subject, Subjects, subjects_of, tlid_of};
pub use wanted::wanted_subjects;
