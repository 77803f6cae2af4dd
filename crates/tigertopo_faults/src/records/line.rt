//! A record's line.

use tl_record::{NO_RECORD, Record};

/// Which of its chain's points a record holds.
#[derive(Clone, Copy, Debug, PartialEq, Eq)]
pub enum Part {
    /// Where the chain starts, of type 1.
    Start,
    /// A shape pair by its number from 1, of type 2.
    Pair(u8),
    /// Where the chain ends, of type 1.
    End,
}

/// Which ends of a segment a record holds: one, or both.
#[derive(Clone, Copy, Debug, PartialEq, Eq)]
pub struct SegmentEnds {
    /// The segment's number within its chain, counted from 0.
    pub segment: u32,
    pub part: Part,
    /// The other end, where the same record holds it.
    pub other: Option<Part>,
}

/// A record with the line where it stands.
#[derive(Clone, Copy, Debug)]
pub struct RecordLine {
    /// The line's number in the text of all files, counted from 1.
    pub line: u64,
    /// What it holds.
    pub holds: Record,
    /// The ends that it holds of the segment that is spoken of, where one is.
    pub ends: Option<SegmentEnds>,
}

impl Default for RecordLine {
    /// What may stand in a place before a record's line is put there.
    fn default() -> RecordLine {
        RecordLine {
            line: 0,
            holds: NO_RECORD,
            ends: None,
        }
    }
}
