//! How often facing sides differ along the list of active segments.
ghost use Rattle.std.specs.Prelude.{◌≡◌, ◌↔◌, ◌+◌, ◌<◌, ◌∷◌, [], ℕ, Option, Some, List, IsTrue, MatchOption, length, slice_get};
ghost use Rattle.tl_geom.specs.declared.segment.Segment.{Segment};
ghost use Rattle.tl_map_county.specs.declared.sides.Side.{Side};
ghost use Rattle.tl_map_county.specs.declared.sides.Side.TheVariants.{Outside};
ghost use Rattle.tl_map_county.specs.Segments.{segments_before};
ghost use Rattle.tl_check_inside.specs.declared.flanks.Flanks.{Flanks};
ghost use Rattle.tl_check_inside.specs.Inside.{flanks_at};
ghost use Rattle.tl_check_active.specs.Blocks.Lined.{last_of};
ghost use Rattle.tl_check_planar.specs.ByHeight.Heights.{widest};
ghost use Rattle.tl_check_planar.specs.ByHeight.Neighbours.{IsNumbered};
ghost use Rattle.tl_check_faces.specs.Odd.{NamesWest, NamesEast, IsNamedWest, IsNamedEast};
ghost use Rattle.tl_check_gaps.specs.Beside.{seen_side};
ghost use Rattle.tl_check_gaps.specs.Keeping.Facing.{gap as gap_of, gaps_between, last_far, raised};

use tl_check_active::blocks::Line;
use tl_check_active::is_lower;
use tl_check_inside::Flanks;
use tl_map_county::{Map, Side};

/// What a segment names on both sides of it along the lines of one height: near to the west, and far to the east.
pub fn flanks_by_height(map: &Map, s: u32) -> Flanks
    requires known { s < segments_before map.now.chains (length map.now.chains) }
    ensures west { NamesWest widest map.now.chains s result.near }
    ensures east { NamesEast widest map.now.chains s result.far }
{
    let segment = map.segment(s);
    let chain = map.chain(map.segment_chain(s));
    if is_lower(segment.a(), segment.b()) {
        Flanks {
            near: chain.left,
            far: chain.right,
        }
    } else {
        Flanks {
            near: chain.right,
            far: chain.left,
        }
    }
}

/// The sides of the segment with this number, if there is one.
fn find_flanks(map: &Map, s: u32) -> Option<Flanks>
    ensures flanks { (flanks : Flanks) → result ≡ Some flanks → flanks ≡ flanks_at (raised map.now.chains) s }
    ensures named { MatchOption result ((segment : Segment) → ¬ IsNumbered map.now.chains s segment)
        (λ flanks. NamesWest widest map.now.chains s flanks.near × NamesEast widest map.now.chains s flanks.far) }
{
    if s >= map.segments() {
        return None;
    }
    Some(flanks_by_height(map, s))
}

/// Whether two sides are one.
pub fn are_same(one: Side, other: Side) -> bool
    ensures { IsTrue result ↔ (one ≡ other) }
{
    one == other
}

/// 1 where sides that face each other differ, else 0.
pub fn gap(west: Side, east: Side) -> u64
    ensures { result ≡ gap_of west east }
{
    if west == east { 0 } else { 1 }
}

/// What lies east of a segment, or of none.
pub fn far_of(map: &Map, s: Option<u32>) -> Option<Side>
    ensures side { (side : Side) (front : List ℕ) → result ≡ Some side → s ≡ last_of front → side ≡ last_far (raised map.now.chains) Outside front }
    ensures named { MatchOption result ((side : Side) → ¬ IsNamedWest widest map.now.chains s side) (IsNamedWest widest map.now.chains s) }
{
    match s {
        Some(s) => Some(find_flanks(map, s)?.far),
        None => Some(Side::Outside),
    }
}

/// What lies west of a segment, or of none.
pub fn near_of(map: &Map, s: Option<u32>) -> Option<Side>
    ensures side { (side : Side) (back : List ℕ) → result ≡ Some side → s ≡ slice_get back 0 → side ≡ seen_side (raised map.now.chains) back }
    ensures named { MatchOption result ((side : Side) → ¬ IsNamedEast widest map.now.chains s side) (IsNamedEast widest map.now.chains s) }
{
    match s {
        Some(s) => Some(find_flanks(map, s)?.near),
        None => Some(Side::Outside),
    }
}

/// What lies west of the segment behind the place, or of none.
pub fn near_side(map: &Map, line: &Line) -> Option<Side>
    ensures { (side : Side) → result ≡ Some side → side ≡ seen_side (raised map.now.chains) line.now.back }
{
    near_of(map, line.next())
}

/// How often facing sides differ along these segments between one side and another.
fn count_gaps(map: &Map, west: Side, list: &[u32], east: Side) -> Option<u64>
    ensures { (n : ℕ) → result ≡ Some n → n ≡ gaps_between (raised map.now.chains) west list.now east }
{
    let mut before = west;
    let mut count = 0u64;
    for s in list {
        let flanks = find_flanks(map, *s)?;
        count = count.checked_add(gap(before, flanks.near))?;
        before = flanks.far;
    }
    count.checked_add(gap(before, east))
}

/// Whether two segments are of one chain and go up both, or neither does.
#[inline]
fn go_one_way(map: &Map, s: u32, t: u32) -> bool
    requires known { s < segments_before map.now.chains (length map.now.chains) }
    requires known_other { t < segments_before map.now.chains (length map.now.chains) }
    ensures { IsTrue result → flanks_at (raised map.now.chains) s ≡ flanks_at (raised map.now.chains) t }
{
    let c = map.segment_chain(s);
    if map.segment_chain(t) != c {
        return false;
    }
    // that the chain has sides
    let _chain = map.chain(c);
    let (one, other) = (map.segment(s), map.segment(t));
    if is_lower(one.a(), one.b()) {
        is_lower(other.a(), other.b())
    } else {
        !is_lower(other.a(), other.b())
    }
}

/// Whether two segments have the same sides.
pub fn are_alike(map: &Map, out: u32, s: u32) -> bool
    ensures { IsTrue result → (west east : Side) →
        gaps_between (raised map.now.chains) west (out ∷ []) east ≡ gaps_between (raised map.now.chains) west (s ∷ []) east }
{
    let count = map.segments();
    if out < count && s < count && go_one_way(map, out, s) {
        return true;
    }
    match (find_flanks(map, out), find_flanks(map, s)) {
        (Some(one), Some(other)) => one == other,
        (None, _) => false,
        (Some(_), None) => false,
    }
}

/// How often facing sides differ where they did so often, and between a side in the west and one in the east those segments stand
/// in the stead of these.
pub fn recount(
    map: &Map,
    west: Option<Side>,
    outs: &[u32],
    ins: &[u32],
    east: Option<Side>,
    count: Option<u64>,
) -> Option<u64>
    ensures { (n : ℕ) → result ≡ Some n → (old : ℕ) × (w : Side) × (e : Side) × (count ≡ Some old) × (west ≡ Some w) × (east ≡ Some e) ×
        (n + gaps_between (raised map.now.chains) w outs.now e ≡ old + gaps_between (raised map.now.chains) w ins.now e) }
{
    let (Some(west), Some(east), Some(count)) = (west, east, count) else {
        return None;
    };
    let gone = count_gaps(map, west, outs, east)?;
    let come = count_gaps(map, west, ins, east)?;
    count.checked_sub(gone)?.checked_add(come)
}
