//! Segments that may meet where they may not, of which it is asked where a test failed.
ghost use Rattle.std.specs.Prelude.{◌≡◌, ◌≢◌, ◌<◌, ◌≤◌, ℕ, None, IfSome, length};
ghost use Rattle.tl_geom.specs.declared.segment.Segment.{Segment};
ghost use Rattle.tl_map_county.specs.Segments.{IsSegmentOf, segments_before};
ghost use Rattle.tl_check_faces.specs.Crossings.Headings.{AreProper};
ghost use Rattle.tl_check_planar.specs.ByHeight.Neighbours.{IsNumbered, AreApartOrAtEnds};
ghost use Rattle.tl_check_planar.specs.Meets.{AreFree};
ghost use Rattle.tl_check_planar.specs.Searching.{IsTrueMeet};
ghost use Rattle.tl_check_sweep.specs.Keeping.Pairs.{AreFreeBothWays, IsFreeOfEnds};

use std::alloc::AllocError;
use tl_check_active::blocks::Line;
use tl_check_planar::{Meet, Segments};
use tl_geom::{Contact, contact};
use tl_map_county::Map;
use tl_tree_index::Items;

/// The meet of two segments, if they meet where they may not and the first has the lower number.
fn meet_in_order(map: &Map, s: u32, t: u32) -> Option<Meet>
    ensures meet { IfSome result (IsTrueMeet map.now.chains) }
    ensures none { result ≡ None → s < t → AreFree map.now.chains s t }
{
    if s >= t || t >= map.segments() {
        return None;
    }
    let at = Segments::new(map).conflict(s, t)?;
    Some(Meet {
        tlid: map.chain(map.segment_chain(s)).tlid,
        s,
        other: map.chain(map.segment_chain(t)).tlid,
        t,
        at,
    })
}

/// The meet of two segments, if they meet where they may not.
pub fn meet_of(map: &Map, s: u32, t: u32) -> Option<Meet>
    ensures meet { IfSome result (IsTrueMeet map.now.chains) }
    ensures none { result ≡ None → AreFreeBothWays map.now.chains s t }
{
    if s < t {
        meet_in_order(map, s, t)
    } else {
        meet_in_order(map, t, s)
    }
}

/// A meet of the segment at a place of a list with the first one, the second one or the next one of the list, if there is one.
fn find_beside(map: &Map, suspects: &[u32], place: usize) -> Option<Meet>
    ensures { IfSome result (IsTrueMeet map.now.chains) }
{
    let s = *suspects.get(place)?;
    for other in [0, 1, place.saturating_add(1)] {
        if let Some(t) = suspects.get(other) {
            if let Some(meet) = meet_of(map, s, *t) {
                return Some(meet);
            }
        }
    }
    None
}

/// How many segments have chains with lower numbers than this one.
fn begin_of_chain(map: &Map, c: u32) -> u32
    ensures within { result ≤ segments_before map.now.chains (length map.now.chains) }
    ensures below { (x d k : ℕ) → x < result → IsSegmentOf map.now.chains x d k → d < c }
    ensures above { (x d k : ℕ) → result ≤ x → IsSegmentOf map.now.chains x d k → c ≤ d }
{
    let mut low = 0;
    let mut high = map.segments();
    while low < high {
        let middle = low + (high - low) / 2;
        if middle < map.segments() && map.segment_chain(middle) < c {
            low = middle + 1;
        } else {
            high = middle;
        }
    }
    low
}

/// A meet of a segment with the first or the last one of its own chain, if there is one. Where a chain runs through its own end, and
/// another chain ends there too, its segment may meet that of the other chain, and not its own.
fn meet_in_chain(map: &Map, s: u32) -> Option<Meet>
    ensures meet { IfSome result (IsTrueMeet map.now.chains) }
    ensures none { result ≡ None → IsFreeOfEnds map.now.chains s }
{
    if s >= map.segments() {
        return None;
    }
    // that each chain has two points or more, and that a number of 32 bits holds how many there are
    map.has_proper_chains();
    let _chains = map.chains();
    let own = map.segment_chain(s);
    let behind = begin_of_chain(map, own.saturating_add(1));
    match meet_of(map, s, begin_of_chain(map, own)) {
        Some(meet) => Some(meet),
        None => meet_of(map, s, behind.saturating_sub(1)),
    }
}

/// A meet of two segments, or of one of them with the first or the last one of its own chain, if there is one.
pub fn meet_about(map: &Map, s: u32, t: u32) -> Option<Meet>
    ensures meet { IfSome result (IsTrueMeet map.now.chains) }
    ensures pair { result ≡ None → AreFreeBothWays map.now.chains s t }
    ensures first { result ≡ None → IsFreeOfEnds map.now.chains s }
    ensures second { result ≡ None → IsFreeOfEnds map.now.chains t }
{
    if let Some(meet) = meet_of(map, s, t) {
        return Some(meet);
    }
    match meet_in_chain(map, s) {
        Some(meet) => Some(meet),
        None => meet_in_chain(map, t),
    }
}

/// A meet of two segments, or of one of them and an end of its own chain, where they are neither apart nor share an end of both alone.
pub fn meet_beside(map: &Map, s: u32, t: u32) -> Option<Meet>
    requires proper { AreProper map.now.chains }
    requires two { s ≢ t }
    ensures meet { IfSome result (IsTrueMeet map.now.chains) }
    ensures none { result ≡ None
        → (u w : Segment) → IsNumbered map.now.chains s u → IsNumbered map.now.chains t w → AreApartOrAtEnds u w }
{
    let count = map.segments();
    if s >= count || t >= count {
        return None;
    }
    match contact(map.segment(s), map.segment(t)) {
        Contact::Apart | Contact::AtEnds(_) => None,
        Contact::Crossing(_) => meet_about(map, s, t),
    }
}

/// A meet of two of these segments, where there is one of the first, of the second or of two that follow one another.
fn find_between(map: &Map, suspects: &[u32]) -> Option<Meet>
    ensures { IfSome result (IsTrueMeet map.now.chains) }
{
    for place in 0..suspects.len() {
        if let Some(meet) = find_beside(map, suspects, place) {
            return Some(meet);
        }
    }
    None
}

/// A meet of one of these segments with the first or the last one of its own chain, if there is one.
fn find_in_chains(map: &Map, suspects: &[u32]) -> Option<Meet>
    ensures { IfSome result (IsTrueMeet map.now.chains) }
{
    for place in 0..suspects.len() {
        if let Some(meet) = meet_in_chain(map, suspects[place]) {
            return Some(meet);
        }
    }
    None
}

/// A meet of two of these segments, where there is one of the first, of the second or of two that follow one another, and else one of
/// such a segment with an end of its own chain.
pub fn find_meet(map: &Map, suspects: &[u32]) -> Option<Meet>
    ensures { IfSome result (IsTrueMeet map.now.chains) }
{
    if let Some(meet) = find_between(map, suspects) {
        return Some(meet);
    }
    find_in_chains(map, suspects)
}

/// Lists what stands before and behind the place, and the segments that end or begin there.
pub fn list_suspects(
    line: &Line,
    outs: &[u32],
    ins: &[u32],
    suspects: &mut Vec<u32>,
) -> Result<(), AllocError> {
    for s in [line.previous(), line.next()] {
        if let Some(s) = s {
            suspects.push(s)?;
        }
    }
    suspects.extend_from_slice(outs)?;
    suspects.extend_from_slice(ins)
}
