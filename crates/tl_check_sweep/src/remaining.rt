//! The part of a map whose chains are planar among themselves, where all of them aren't.
ghost use Rattle.std.specs.Prelude.{◌≡◌, ◌<◌, IfOk, length};
ghost use Rattle.tl_check_sweep.specs.Parts.{IsPlanarPart};

use crate::taking::take_out;
use crate::{SweepReport, Swept, sweep};
use std::alloc::{AllocError, Global};
use tl_check_gaps::{Gaps, list_unmarked};
use tl_check_planar::Meet;
use tl_geom::Point;
use tl_map_county::Map;

/// How often chains that remain are swept at most, where some of them meet after all.
const TRIES: usize = 64;

/// Which chains are taken out of a map, and the map of those that remain, which are planar.
#[derive(Drop)]
pub struct PlanarPart {
    /// A mark for each chain that is taken out.
    pub marks: Vec<bool>,
    /// The map without them, with all polygons and without landmarks.
    pub map: Map,
    /// Polygons by their numbers: in that map the point of each other one lies where it has to.
    pub suspects: Vec<u32>,
}

/// Takes chains out of a map until those that remain are planar. At first it is one of two that meet, which are given.
/// Where others meet, a sweep on which nothing rests finds which ones have to go too. Another one over those that remain says that they
/// are planar, or which of them meet, and these are taken out too. Where some meet time after time, all chains are taken out; no map is
/// known of which that is so. The error is that memory was refused.
pub fn planar_part(alloc: Global, map: &Map, meet: Meet) -> Result<PlanarPart, AllocError>
    ensures { IfOk result (IsPlanarPart map.now) }
{
    let mut marks = mark_one(alloc, map, meet)?;
    for attempt in 0..TRIES {
        let rest = map.without(alloc, &marks)?;
        let SweepReport {
            swept,
            suspects,
            ..
        } = sweep(alloc, &rest, Gaps::First)?;
        match swept {
            Swept::Placed | Swept::Planar => {
                return Ok(PlanarPart {
                    marks,
                    map: rest,
                    suspects,
                });
            }
            Swept::Meet(_) if attempt == 0 => marks = mark_taken(alloc, map)?,
            Swept::Meet(meet) => mark_meet(&rest, meet, &mut marks),
        }
    }
    part_of_none(alloc, map)
}

/// The part of a map that has no chain.
fn part_of_none(alloc: Global, map: &Map) -> Result<PlanarPart, AllocError>
    ensures { IfOk result (IsPlanarPart map.now) }
{
    let marks = vec![in alloc; true; map.chains() as usize]?;
    let rest = map.without(alloc, &marks)?;
    let suspects = list_unmarked(alloc, &rest, &[])?;
    Ok(PlanarPart {
        marks,
        map: rest,
        suspects,
    })
}

/// A mark for each chain of a map, which one of the two chains of a meet has.
fn mark_one(alloc: Global, map: &Map, meet: Meet) -> Result<Vec<bool>, AllocError>
    ensures { IfOk result (λ marks. length marks.items ≡ length map.now.chains) }
{
    let mut marks = vec![in alloc; false; map.chains() as usize]?;
    if meet.s >= map.segments() || meet.t >= map.segments() {
        return Ok(marks);
    }
    let (c, d) = (map.segment_chain(meet.s), map.segment_chain(meet.t));
    mark_remaining(&mut marks, if goes_first(map, c, d) { c } else { d });
    Ok(marks)
}

/// Whether the first of two chains is rather taken out than the second. Sides that face each other agree without a chain of which both sides
/// name the same, so it's that one; and else the one of fewer segments, or of as many the one whose ends are closer, as that meets fewer others.
fn goes_first(map: &Map, c: u32, d: u32) -> bool
    requires first { c < length map.now.chains }
    requires second { d < length map.now.chains }
{
    let (one, other) = (map.chain(c), map.chain(d));
    let is_alike = one.left == one.right;
    if is_alike != (other.left == other.right) {
        return is_alike;
    }
    if one.points.len() != other.points.len() {
        return one.points.len() < other.points.len();
    }
    width(one.points) <= width(other.points)
}

/// How far the first and the last of some points are apart, to the east and to the north together.
fn width(points: &[Point]) -> u64 {
    match (points.first(), points.last()) {
        (Some(p), Some(q)) => u64::from(p.x.abs_diff(q.x)) + u64::from(p.y.abs_diff(q.y)),
        _ => 0,
    }
}

/// A mark for each chain of a map, which those have that a sweep takes out on its way.
fn mark_taken(alloc: Global, map: &Map) -> Result<Vec<bool>, AllocError>
    ensures { IfOk result (λ marks. length marks.items ≡ length map.now.chains) }
{
    let mut marks = take_out(alloc, map)?;
    marks.resize(map.chains() as usize, false)?;
    Ok(marks)
}

/// Marks the chains of a meet among those that remain.
fn mark_meet(rest: &Map, meet: Meet, marks: &mut [bool])
    ensures { length marks.new ≡ length marks.old }
{
    if meet.s >= rest.segments() || meet.t >= rest.segments() {
        return;
    }
    let (c, d) = (rest.segment_chain(meet.s), rest.segment_chain(meet.t));
    // The one of the higher number is marked first, so that as many remain before the other.
    mark_remaining(marks, c.max(d));
    if c != d {
        mark_remaining(marks, c.min(d));
    }
}

/// Marks the chain that has this number among those that aren't marked.
fn mark_remaining(marks: &mut [bool], number: u32)
    ensures { length marks.new ≡ length marks.old }
{
    let mut before = 0u32;
    for place in 0..marks.len() {
        if marks[place] {
            continue;
        }
        if before == number {
            marks[place] = true;
            return;
        }
        before = before.wrapping_add(1);
    }
}
