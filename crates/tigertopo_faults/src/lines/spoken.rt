//! The records that a fault speaks of.

ghost use Rattle.std.specs.Prelude.{◌≡◌, option_copied};
ghost use Rattle.tigertopo_faults.specs.Records.SpokenOf.{chains_of};
ghost use Rattle.tigertopo_faults.specs.Records.Keeping.{held};
ghost use Rattle.tigertopo_faults.specs.Lines.Texts.{lines_for, segment_spoken};

use crate::records::{RecordLine, RecordLines, Subject, segment_within};
use arrayvec::ArrayVec;
use tl_map_county::Map;

/// The records that hold the ends of this segment of the chain with this TLID, of each county that tells it, in the order of their
/// lines.
pub fn segment_spoken(
    drawn: Option<&Map>,
    lines: &RecordLines,
    tlid: u64,
    segment: u32,
) -> ArrayVec<RecordLine, 4>
    ensures { result.items ≡ segment_spoken (chains_of (option_copied drawn.entry)) (held lines.now) tlid segment }
{
    lines.ends_of(tlid, segment_within(drawn, segment))
}

/// The lines about a subject, where there is one.
pub fn lines_for<'a>(lines: &'a RecordLines, subject: &Option<Subject>) -> &'a [RecordLine]
    ensures { result.now ≡ lines_for (held lines.now) subject.now }
{
    match subject {
        Some(subject) => lines.about(subject),
        None => &[],
    }
}
