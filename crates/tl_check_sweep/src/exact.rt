//! A step of the sweep at a vertex where nothing is left to chance: its place in the list is known by turns, all segments that end there
//! are taken off, those that begin there are put in by their directions, and each two that become neighbours are asked for a meet.
//! So the step is done, or a meet is told.
ghost use Rattle.std.specs.Prelude.{◌≡◌, ◌++◌, ◌≤◌, ℕ, false, None, Some, All, IfOk, IfSome, IsTrue, length, slice_get, take, drop};
ghost use Rattle.std.specs.List.{insert};
ghost use Rattle.tl_tree_index.specs.Hits.{times};
ghost use Rattle.tl_check_planar.specs.ByHeight.Heights.{widest};
ghost use Rattle.tl_check_planar.specs.ByHeight.Neighbours.{AreTested, EachTwo};
ghost use Rattle.tl_check_planar.specs.Searching.{IsTrueMeet};
ghost use Rattle.tl_check_faces.specs.Crossings.Headings.{AreProper};
ghost use Rattle.tl_check_active.specs.Blocks.Lined.{list_of, last_of};
ghost use Rattle.tl_check_active.specs.Passed.{HasPassed};
ghost use Rattle.tl_check_gaps.specs.Beside.{IsEastOf};
ghost use Rattle.tl_check_sweep.specs.Keeping.Exact.{IsNotEastOf, EndsAt, EndsElsewhere, BeginsAt, StandsAt, IsWestOfOther, MayFollow, IsBefore};

use crate::suspects::meet_beside;
use std::alloc::{AllocError, Global};
use tl_check_active::blocks::Line;
use tl_check_active::{BothSides, are_one, ends, go_to};
use tl_check_planar::Meet;
use tl_geom::{Point, turn};
use tl_map_county::Map;

/// Whether a point lies strictly east of a segment.
fn lies_east(map: &Map, s: u32, p: Point) -> bool
    ensures east { IsTrue result → IsEastOf widest map.now.chains p s }
    ensures other { result ≡ false → IsNotEastOf map.now.chains p s }
{
    if s >= map.segments() {
        return false;
    }
    let (a, b) = ends(map.segment(s));
    turn(a, b, p).is_lt()
}

/// Whether a segment ends at a point, as its higher end.
fn ends_at(map: &Map, s: u32, p: Point) -> bool
    ensures here { IsTrue result → EndsAt map.now.chains p s }
    ensures elsewhere { result ≡ false → EndsElsewhere map.now.chains p s }
{
    if s >= map.segments() {
        return false;
    }
    are_one(ends(map.segment(s)).1, p)
}

/// Whether the place of a list is that of a point: the point lies east of the segment before it, and not east of the one behind it.
fn stands_at(map: &Map, line: &Line, p: Point) -> bool
    ensures { IsTrue result → StandsAt map.now.chains p line.now }
{
    if let Some(s) = line.previous() {
        if !lies_east(map, s, p) {
            return false;
        }
    }
    match line.next() {
        Some(s) => !lies_east(map, s, p),
        None => true,
    }
}

/// The place of the first of these segments that a point doesn't lie east of, or how many they are.
fn place_of(map: &Map, numbers: &[u32], p: Point) -> usize
    ensures within { result ≤ length numbers.now }
    ensures east { (t : ℕ) → last_of (take result numbers.now) ≡ Some t → IsEastOf widest map.now.chains p t }
    ensures west { (t : ℕ) → slice_get (drop result numbers.now) 0 ≡ Some t → IsNotEastOf map.now.chains p t }
{
    for k in 0..numbers.len() {
        if !lies_east(map, numbers[k], p) {
            return k;
        }
    }
    numbers.len()
}

/// Takes all numbers off a list, from west to east.
fn take_all(alloc: Global, line: &mut Line) -> Result<Vec<u32>, AllocError>
    ensures { IfOk result (λ numbers. numbers.items ≡ list_of line.old) }
{
    let mut numbers = Vec::new(alloc);
    line.list_front(&mut numbers)?;
    while let Some(s) = line.next() {
        numbers.push(s)?;
        line.take();
    }
    Ok(numbers)
}

/// Goes to the place of a point in the list. Where it isn't found by the list's blocks, which no list is known to bring about, all of the
/// list is gone along. The error is that memory was refused.
fn go_exactly(alloc: Global, map: &Map, p: Point, line: &mut Line) -> Result<(), AllocError>
    ensures list { IfOk result (λ done. list_of line.new ≡ list_of line.old) }
    ensures stands { IfOk result (λ done. StandsAt map.now.chains p line.new) }
{
    go_to(map, line, p)?;
    if stands_at(map, line, p) {
        return Ok(());
    }
    let numbers = take_all(alloc, line)?;
    let place = place_of(map, &numbers, p);
    *line = Line::parted(alloc, numbers, place);
    Ok(())
}

/// Takes the segments behind the place off the list that end at a point, and lists them in the place of those that were listed.
fn take_ended(map: &Map, p: Point, line: &mut Line, outs: &mut Vec<u32>) -> Result<(), AllocError>
    ensures front { IfOk result (λ done. line.new.front ≡ line.old.front) }
    ensures back { IfOk result (λ done. line.old.back ≡ outs.new.items ++ line.new.back) }
    ensures ended { IfOk result (λ done. All (EndsAt map.now.chains p) outs.new.items) }
    ensures others { IfOk result (λ done. (t : ℕ) → slice_get line.new.back 0 ≡ Some t → EndsElsewhere map.now.chains p t) }
{
    outs.clear();
    while let Some(s) = line.next() {
        if !ends_at(map, s, p) {
            return Ok(());
        }
        outs.push(s)?;
        line.take();
    }
    Ok(())
}

/// The place of a segment among others that begin where it does, and stand from west to east: before the first that its higher end doesn't
/// lie east of.
fn place_among(map: &Map, s: u32, p: Point, list: &[u32]) -> usize
    requires begins { BeginsAt map.now.chains p s }
    requires begin { All (BeginsAt map.now.chains p) list.now }
    requires west { EachTwo (IsWestOfOther map.now.chains) list.now }
    ensures within { result ≤ length list.now }
    ensures west { EachTwo (IsWestOfOther map.now.chains) (insert list.now result s) }
{
    if s >= map.segments() {
        return 0;
    }
    let (_low, high) = ends(map.segment(s));
    for k in 0..list.len() {
        if !lies_east(map, list[k], high) {
            return k;
        }
    }
    list.len()
}

/// Lists segments that begin at a point from west to east, in the place of those that were listed.
fn list_by_direction(
    map: &Map,
    p: Point,
    ins: &[u32],
    list: &mut Vec<u32>,
) -> Result<(), AllocError>
    requires begin { All (BeginsAt map.now.chains p) ins.now }
    ensures begin { IfOk result (λ done. All (BeginsAt map.now.chains p) list.new.items) }
    ensures west { IfOk result (λ done. EachTwo (IsWestOfOther map.now.chains) list.new.items) }
    ensures same { IfOk result (λ done. (s : ℕ) → times s list.new.items ≡ times s ins.now) }
{
    list.clear();
    for k in 0..ins.len() {
        let place = place_among(map, ins[k], p, list);
        list.insert(place, ins[k])?;
    }
    Ok(())
}

/// A meet of two segments that stand at the place, if there are two, or of one of them and an end of its own chain; else they are tested.
fn meet_between(map: &Map, before: Option<u32>, behind: Option<u32>) -> Option<Meet>
    requires proper { AreProper map.now.chains }
    requires follow { (s t : ℕ) → before ≡ Some s → behind ≡ Some t → MayFollow map.now.chains s t }
    ensures meet { IfSome result (IsTrueMeet map.now.chains) }
    ensures none { result ≡ None → (s t : ℕ) → before ≡ Some s → behind ≡ Some t → AreTested widest map.now.chains s t }
{
    match (before, behind) {
        (Some(s), Some(t)) => meet_beside(map, s, t),
        (None, _) => None,
        (Some(_), None) => None,
    }
}

/// Puts these segments in at the place, if none of them meets the one before it.
fn enter_exactly(map: &Map, line: &mut Line, ins: &[u32]) -> Result<Option<Meet>, AllocError>
    requires proper { AreProper map.now.chains }
    requires first { (s t : ℕ) → last_of line.old.front ≡ Some s → slice_get ins.now 0 ≡ Some t → MayFollow map.now.chains s t }
    requires among { EachTwo (MayFollow map.now.chains) ins.now }
    ensures meet { IfOk result (λ found. IfSome found (IsTrueMeet map.now.chains)) }
    ensures back { IfOk result (λ found. found ≡ None → line.new.back ≡ line.old.back) }
    ensures front { IfOk result (λ found. found ≡ None → line.new.front ≡ line.old.front ++ ins.now) }
    ensures tested { IfOk result (λ found. found ≡ None → EachTwo (AreTested widest map.now.chains) line.old.front →
        EachTwo (AreTested widest map.now.chains) line.new.front) }
{
    for k in 0..ins.len() {
        if let Some(meet) = meet_between(map, line.previous(), Some(ins[k])) {
            return Ok(Some(meet));
        }
        line.put(ins[k])?;
    }
    Ok(None)
}

/// Passes the vertex at a point, with the segments that end there and those that begin there in any order, or finds a meet. The error is that
/// memory was refused. It is kept out of where it is called, so that calls of it can be counted.
#[inline(never)]
pub fn pass_exactly(
    alloc: Global,
    map: &Map,
    p: Point,
    line: &mut Line,
    outs: &mut Vec<u32>,
    ins: &mut Vec<u32>,
    found: &mut Option<Meet>,
) -> Result<Option<BothSides>, AllocError>
    requires before { IsBefore map.now.chains p (list_of line.old) outs.old.items ins.old.items }
    ensures passed { IfOk result (λ passed. IfSome passed (HasPassed map.now.chains (list_of line.old) line.new
        outs.old.items outs.new.items ins.old.items ins.new.items)) }
    ensures meet { IfOk result (λ passed. passed ≡ None → IfSome found.new (IsTrueMeet map.now.chains)) }
    ensures found { IfOk result (λ passed. passed ≡ None → ¬ (found.new ≡ None)) }
{
    go_exactly(alloc, map, p, line)?;
    let west = line.previous();
    take_ended(map, p, line, outs)?;
    let mut entering = Vec::new(alloc);
    list_by_direction(map, p, ins, &mut entering)?;
    *ins = entering;
    *found = enter_exactly(map, line, ins)?;
    if found.is_some() {
        return Ok(None);
    }
    let east = line.next();
    *found = meet_between(map, line.previous(), east);
    if found.is_some() {
        return Ok(None);
    }
    Ok(Some(BothSides { west, east }))
}
