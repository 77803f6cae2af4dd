//! Whether a county is sound, or all that is wrong with it.

use tl_check_verdict::{MapFault, Report};
use tl_record::Refusal;

/// What is told of a county where all that is wrong with it is asked for.
#[derive(Drop)]
pub enum Listing {
    /// The map is sound, and its faces agree where they are asked for. These are its numbers.
    Sound(Report),
    /// The lines that are refused. Nothing further was looked at.
    Refused(Vec<Refusal>),
    /// All faults of the records, where they have some, or else of their map; those of faces where they are asked for, and nothing
    /// else is wrong. So many polygons are touched: sides that disagree name them. Of these it isn't looked whether their points are outside
    /// of them, or other points in them.
    Faults { faults: Vec<MapFault>, touched: u64 },
}
