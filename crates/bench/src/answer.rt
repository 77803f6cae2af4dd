//! What was found, and how it is printed.

use std::fmt;

/// What was found.
#[derive(Clone, Copy)]
pub enum Answer {
    /// How many records files have, and how many lines of theirs are passed over.
    Records {
        records: u64,
        skipped: u64,
    },
    /// How many segments were searched, and how many pairs of them were tested with a flat tree and with boxes.
    Searched {
        segments: usize,
        flat: u64,
        boxes: u64,
    },
    /// How many nodes, rounds and walks a certificate has.
    Certificate {
        nodes: usize,
        rounds: usize,
        walks: usize,
    },
}

impl fmt::Display for Answer {
    fn fmt<W: fmt::Write>(&self, f: &mut fmt::Formatter<W>) -> fmt::Result {
        match self {
            Answer::Records { records, skipped } => {
                write!(f, "records={records} skipped={skipped}")
            }
            Answer::Searched {
                segments,
                flat,
                boxes,
            } => write!(
                f,
                "segments={segments} flat_tests={flat} boxes_tests={boxes}"
            ),
            Answer::Certificate {
                nodes,
                rounds,
                walks,
            } => write!(f, "nodes={nodes} rounds={rounds} walks={walks}"),
        }
    }
}
