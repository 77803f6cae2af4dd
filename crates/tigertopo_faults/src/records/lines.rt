//! The lines of the records that faults speak of.

ghost use Rattle.std.specs.Prelude.{◌≡◌, IfOk};
ghost use Rattle.tigertopo_faults.specs.Records.Kept.{walked, all_walked, in_lists, segment_of};

use crate::records::kept::KeptLines;
use crate::records::line::RecordLine;
use crate::records::segment::add_ends;
use crate::records::subject::Subject;
use crate::records::walk::{HeldSegment, held_segments};
use arrayvec::ArrayVec;
use indexmap::IndexSet;
use std::alloc::{AllocError, Global};
use std::hash::RandomState;

/// The records that some faults speak of, with their lines, each under all subjects that name it.
#[derive(Drop)]
pub struct RecordLines {
    kept: KeptLines,
    // The segments of the chain that each subject draws, in the order of the subjects: as the first county tells it, and as the second
    // does, where two tell it.
    first: Vec<Vec<HeldSegment>>,
    second: Vec<Vec<HeldSegment>>,
    ghost first_walked: { in_lists first.items ≡ all_walked 0 kept.subjects.keys kept.lines.items },
    ghost second_walked: { in_lists second.items ≡ all_walked 1 kept.subjects.keys kept.lines.items },
}

impl RecordLines {
    ghost use Rattle.std.specs.Prelude.{◌≡◌, [], IfOk};
    ghost use Rattle.tigertopo_faults.specs.declared.records.subject.Subject.{Subject as SubjectOf};
    ghost use Rattle.tigertopo_faults.specs.declared.records.subject.Subject.TheVariants.{Drawn as DrawnOf};
    ghost use Rattle.tigertopo_faults.specs.Records.Ends.{segment_lines};
    ghost use Rattle.tigertopo_faults.specs.Records.Keeping.{held};

    /// The lines that were kept, and the segments of the chains that they draw.
    pub fn of(alloc: Global, kept: KeptLines) -> Result<RecordLines, AllocError>
        ensures { IfOk result (λ lines. lines.kept ≡ kept) }
    {
        let first = all_segments(alloc, &kept, 0)?;
        let second = all_segments(alloc, &kept, 1)?;
        Ok(RecordLines {
            kept,
            first,
            second,
        })
    }

    /// No line of any subject.
    pub fn none(alloc: Global, hasher: RandomState) -> Result<RecordLines, AllocError>
        ensures { IfOk result (λ lines. (s : SubjectOf) → held lines s ≡ []) }
    {
        let kept = KeptLines::new(alloc, IndexSet::with_hasher(alloc, hasher))?;
        RecordLines::of(alloc, kept)
    }

    /// The records that a subject names, in the order of the text. Of a subject that no fault speaks of there are none.
    pub fn about(&self, subject: &Subject) -> &[RecordLine]
        ensures { result.now ≡ held self.now subject.now }
    {
        self.kept.about(subject)
    }

    /// The records that hold the ends of a segment of the chain with this TLID, of each county that tells it, in the order of their
    /// lines, where there is one. The segment's number counts from 0 within the chain.
    pub fn ends_of(&self, tlid: u64, segment: Option<u32>) -> ArrayVec<RecordLine, 4>
        ensures { result.items ≡ segment_lines (held self.now (DrawnOf tlid)) segment }
    {
        let mut found = ArrayVec::new();
        let Some(segment) = segment else {
            return found;
        };
        let Some(number) = self.kept.number_of(&Subject::Drawn(tlid)) else {
            return found;
        };
        let lines = self.kept.at(number);
        let first = segment_of(self.first.as_slice(), number, segment);
        let second = segment_of(self.second.as_slice(), number, segment);
        add_ends(&mut found, lines, segment, first);
        add_ends(&mut found, lines, segment, second);
        found
    }
}

// The segments of the chain that each subject draws, as one county tells it.
fn all_segments(
    alloc: Global,
    kept: &KeptLines,
    telling: usize,
) -> Result<Vec<Vec<HeldSegment>>, AllocError>
    ensures { IfOk result (λ segments. in_lists segments.items ≡ all_walked telling kept.now.subjects.keys kept.now.lines.items) }
{
    let mut segments = Vec::with_capacity(alloc, kept.len())?;
    for number in 0..kept.len() {
        let its = drawn_segments(alloc, kept.subject(number), kept.at(number), telling)?;
        segments.push(its)?;
    }
    Ok(segments)
}

// The segments of the chain that a subject draws, if it is one that does, as one county tells it; these are its lines.
fn drawn_segments(
    alloc: Global,
    subject: Subject,
    lines: &[RecordLine],
    telling: usize,
) -> Result<Vec<HeldSegment>, AllocError>
    ensures { IfOk result (λ segments. segments.items ≡ walked telling subject lines.now) }
{
    match subject {
        Subject::Drawn(_) => held_segments(alloc, lines, telling),
        _ => Ok(Vec::new(alloc)),
    }
}

// The segment with this number of the subject with this number, where there is one.
fn segment_of(segments: &[Vec<HeldSegment>], number: usize, segment: u32) -> Option<HeldSegment>
    ensures { result ≡ segment_of (in_lists segments.now) number segment }
{
    let its = segments.get(number)?;
    let found = its.as_slice().get(segment as usize)?;
    Some(*found)
}
