//! The records that hold the ends of a segment.

ghost use Rattle.std.specs.Prelude.{◌≡◌, ◌<◌, ◌≤◌, ◌+◌, ℕ, option_copied, length};
ghost use Rattle.arrayvec.specs.ArrayVec.{array_vec_len};
ghost use Rattle.tl_map_county.specs.Segments.{segments_before};
ghost use Rattle.tigertopo_faults.specs.Records.SpokenOf.{chains_of};
ghost use Rattle.tigertopo_faults.specs.Records.Ends.{segment_within, holding, with_line, with_ends};

use crate::records::line::{Part, RecordLine, SegmentEnds};
use crate::records::walk::{HeldPoint, HeldSegment};
use arrayvec::ArrayVec;
use tl_map_county::Map;

/// Adds the records of a segment's ends, where there is one, to others in the order of their lines: of the records of types 1 and 2
/// of its chain. The segment's number counts from 0 within the chain.
pub(crate) fn add_ends(
    found: &mut ArrayVec<RecordLine, 4>,
    lines: &[RecordLine],
    number: u32,
    segment: Option<HeldSegment>,
)
    requires room { array_vec_len found.old ≤ 2 }
    ensures lines { found.new.items ≡ with_ends found.old.items lines.now number segment }
    ensures few { array_vec_len found.new ≤ array_vec_len found.old + 2 }
{
    let Some(HeldSegment { from, to }) = segment else {
        return;
    };
    if from.place == to.place {
        add_line(found, holding(lines, number, from, Some(to.part)));
        return;
    }
    add_line(found, holding(lines, number, from, None));
    add_line(found, holding(lines, number, to, None));
}

// Adds a line, where there is one, before those with greater numbers.
fn add_line(found: &mut ArrayVec<RecordLine, 4>, line: Option<RecordLine>)
    requires room { array_vec_len found.old < 4 }
    ensures lines { found.new.items ≡ with_line found.old.items line }
    ensures few { array_vec_len found.new ≤ array_vec_len found.old + 1 }
{
    let Some(line) = line else {
        return;
    };
    let mut place = 0;
    while place < found.len() && found[place].line <= line.line {
        place += 1;
    }
    found.insert(place, line);
}

// The record that holds one end of a segment, as one that does; or both, where the other end is given.
fn holding(
    lines: &[RecordLine],
    number: u32,
    point: HeldPoint,
    other: Option<Part>,
) -> Option<RecordLine>
    ensures { result ≡ holding lines.now number point other }
{
    let line = lines.get(point.place)?;
    Some(RecordLine {
        ends: Some(SegmentEnds {
            segment: number,
            part: point.part,
            other,
        }),
        ..*line
    })
}

/// The number of a segment within its chain, counted from 0; its own number counts from 0 through all chains of the map.
pub fn segment_within(map: Option<&Map>, segment: u32) -> Option<u32>
    ensures { result ≡ segment_within (chains_of (option_copied map.entry)) segment }
{
    match map {
        Some(map) if segment < map.segments() => Some(number_within(map, segment)),
        _ => None,
    }
}

// The same of a segment that the map has: how many before it are of its chain, which are those that lie next before it.
fn number_within(map: &Map, segment: u32) -> u32
    requires { segment < segments_before map.now.chains (length map.now.chains) }
    ensures { segment_within map.now.chains segment ≡ Some result }
{
    let chain = map.segment_chain(segment);
    let mut fewest = 0;
    let mut most = segment;
    while fewest < most {
        let many = most - (most - fewest) / 2;
        if map.segment_chain(segment - many) == chain {
            fewest = many;
        } else {
            most = many - 1;
        }
    }
    fewest
}
