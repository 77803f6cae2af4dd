//! The records of a chain, by the county that tells them.

ghost use Rattle.std.specs.Prelude.{◌≡◌};
ghost use Rattle.tigertopo_faults.specs.Records.Ends.{is_at, told};

use crate::records::line::RecordLine;
use tl_record::Record;

/// The record of a chain that a county tells: with this RTSQ of type 2, or where there is none, of type 1. It comes with its place.
pub(crate) fn told(
    lines: &[RecordLine],
    telling: usize,
    rtsq: Option<usize>,
) -> Option<(usize, Record)>
    ensures { result ≡ told telling rtsq lines.now }
{
    let mut before = telling;
    for place in 0..lines.len() {
        let holds = lines[place].holds;
        if is_at(rtsq, &holds) {
            if before == 0 {
                return Some((place, holds));
            }
            before -= 1;
        }
    }
    None
}

// Whether a record is of type 2 with this RTSQ, or where there is none, of type 1.
fn is_at(rtsq: Option<usize>, record: &Record) -> bool
    ensures { result ≡ is_at rtsq record.now }
{
    match (rtsq, record) {
        (None, Record::Chain { .. }) => true,
        (Some(number), Record::Shape { rtsq, .. }) => usize::from(*rtsq) == number,
        _ => false,
    }
}
