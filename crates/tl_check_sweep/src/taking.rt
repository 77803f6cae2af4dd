//! Chains that are taken out of a map, so that those that remain are planar among themselves.
//!
//! A sweep goes on where a test fails: of the chains of both segments at least one is taken out, its segments leave the list where they are met,
//! and those that become neighbours so are tested in their turn. Nothing rests on what is found: whether the others are planar a sweep over
//! these alone has to say.

use crate::may_meet;
use std::alloc::{AllocError, Global};
use tl_check_active::blocks::{Line, Places};
use tl_check_active::{
    Event, Events, Watcher, are_one, are_tested, bend, ends, go_to_first, order, sweep_over,
};
use tl_geom::Point;
use tl_map_county::Map;

/// A sweep that takes chains out on its way.
#[derive(Clone, Copy)]
struct TakingOut;

/// What it notes on its way.
#[derive(Drop)]
struct Taken {
    charges: Charges,
    /// The events at a vertex that are kept.
    kept: Vec<Event>,
}

/// What chains are charged with.
#[derive(Drop)]
struct Charges {
    /// How many segments each chain may be charged with yet: at first as many as it has, and none where it is taken out.
    left: Vec<u32>,
}

/// A mark for each chain of a map: those that aren't marked are planar among themselves, as a sweep finds it that nothing rests on. The
/// error is that memory was refused.
pub fn take_out(alloc: Global, map: &Map) -> Result<Vec<bool>, AllocError> {
    let mut events = Events::new(alloc, map)?;
    events.sort(alloc)?;
    let mut taken = Taken {
        charges: Charges {
            left: lengths(alloc, map)?,
        },
        kept: Vec::new(alloc),
    };
    sweep_over(alloc, map, &events, &TakingOut, &mut taken)?;
    taken.charges.into_marks(alloc)
}

/// Whether a segment ends at a point, as its higher end.
fn ends_at(map: &Map, s: u32, p: Point) -> bool {
    s < map.segments() && are_one(ends(map.segment(s)).1, p)
}

/// How many segments each chain has.
fn lengths(alloc: Global, map: &Map) -> Result<Vec<u32>, AllocError> {
    let count = map.chains();
    let mut lengths = Vec::with_capacity(alloc, count as usize)?;
    for c in 0..count {
        let points = map.chain(c).points.len();
        lengths.push(u32::try_from(points).unwrap_or(u32::MAX).saturating_sub(1))?;
    }
    Ok(lengths)
}

impl Watcher for TakingOut {
    type Notes = Taken;

    ghost keeps = { λ taking taken m events from list. Unit {0} };

    ghost stops = { λ taking taken m. Unit {0} };

    /// There is nothing to look at.
    fn look(
        &self,
        _taken: &mut Taken,
        _map: &Map,
        _line: &mut Line,
        _events: &Events,
        _from: usize,
    ) -> Result<(), AllocError> {
        Ok(())
    }

    /// Each vertex is passed.
    fn pass(
        &self,
        taken: &mut Taken,
        map: &Map,
        events: &Events,
        from: usize,
        to: usize,
        line: &mut Line,
        outs: &mut Vec<u32>,
        ins: &mut Vec<u32>,
        places: &mut Places,
    ) -> Result<bool, AllocError> {
        let Taken { charges, kept } = taken;
        charges.test_vertex(map, events, from, to, kept)?;
        charges.pass(map, events.point(from), line, outs, ins, places)?;
        Ok(true)
    }
}

/// The chain of a segment, if there is such a segment.
fn chain_of(map: &Map, s: u32) -> Option<usize> {
    if s < map.segments() {
        Some(map.segment_chain(s) as usize)
    } else {
        None
    }
}

/// Puts a segment in the stead of another one, where one ends and one begins and that can be: so it is at most vertices.
fn is_bent(map: &Map, line: &mut Line, outs: &[u32], ins: &[u32]) -> Result<bool, AllocError> {
    if outs.len() != 1 || ins.len() != 1 {
        return Ok(false);
    }
    // Where the test with the one behind fails, it stands there nevertheless.
    Ok(bend(map, line, outs[0], ins[0])? || line.previous() == Some(ins[0]))
}

/// Takes the segment before the place off the list, if it is this one.
fn take_before(line: &mut Line, s: u32) -> Result<(), AllocError> {
    line.go_back()?;
    if line.next() == Some(s) {
        line.take();
    }
    Ok(())
}

impl Charges {
    ghost use Rattle.std.specs.Prelude.{◌<◌, ◌≤◌, length};

    /// A mark for each chain that is taken out.
    fn into_marks(self, alloc: Global) -> Result<Vec<bool>, AllocError> {
        let Charges { left } = self;
        let mut marks = Vec::with_capacity(alloc, left.len())?;
        for rest in &left {
            marks.push(*rest == 0)?;
        }
        Ok(marks)
    }

    /// How many segments the chain of a segment may be charged with yet.
    fn left_of(&self, map: &Map, s: u32) -> u32 {
        match chain_of(map, s) {
            Some(c) => self.left.get(c).copied().unwrap_or(0),
            None => 0,
        }
    }

    /// Whether the chain of a segment is taken out.
    fn is_taken(&self, map: &Map, s: u32) -> bool {
        self.left_of(map, s) == 0
    }

    /// Charges the chain of a segment with so many.
    fn lower(&mut self, map: &Map, s: u32, charge: u32) {
        let Some(c) = chain_of(map, s) else {
            return;
        };
        if let Some(left) = self.left.get_mut(c) {
            *left = left.saturating_sub(charge);
        }
    }

    /// Charges the chains of two segments, which may not meet as they do, each with as many segments as the one of them that has fewer left.
    /// So one of both is taken out, and all that are have no more than twice as many segments as have to be.
    fn charge(&mut self, map: &Map, s: u32, t: u32) {
        let least = self.left_of(map, s).min(self.left_of(map, t));
        self.lower(map, s, least);
        self.lower(map, t, least);
    }

    /// Charges the chains whose vertices may not be at one point: those of the events from one place up to another.
    fn test_vertex(
        &mut self,
        map: &Map,
        events: &Events,
        from: usize,
        to: usize,
        kept: &mut Vec<Event>,
    ) -> Result<(), AllocError>
        requires ordered { from < to }
        requires within { to ≤ length events.now }
    {
        if to - from < 2 {
            return Ok(());
        }
        kept.clear();
        for place in from..to {
            let (event, next) = events.at(place);
            self.test_event(map, event, kept)?;
            if let Some(next) = next {
                self.test_event(map, next, kept)?;
            }
        }
        Ok(())
    }

    /// Tests an event with the last one that was kept at its point, and keeps it if it remains.
    fn test_event(
        &mut self,
        map: &Map,
        event: Event,
        kept: &mut Vec<Event>,
    ) -> Result<(), AllocError> {
        while let Some(last) = kept.last().copied() {
            if !self.is_taken(map, last.segment) {
                if may_meet(map, last, event) {
                    break;
                }
                self.charge(map, last.segment, event.segment);
            }
            if self.is_taken(map, event.segment) {
                return Ok(());
            }
            // So that of the last one is.
            kept.pop();
        }
        if !self.is_taken(map, event.segment) {
            kept.push(event)?;
        }
        Ok(())
    }

    /// Passes the vertex at a point, with the segments that end there and those that begin there.
    fn pass(
        &mut self,
        map: &Map,
        p: Point,
        line: &mut Line,
        outs: &mut Vec<u32>,
        ins: &mut Vec<u32>,
        places: &mut Places,
    ) -> Result<(), AllocError> {
        outs.retain(|s| !self.is_taken(map, *s));
        ins.retain(|s| !self.is_taken(map, *s));
        order(map, outs);
        order(map, ins);
        go_to_first(map, p, line, places, outs)?;
        if !is_bent(map, line, outs, ins)? {
            self.leave(map, line, p);
            for s in &*ins {
                self.enter(map, line, *s)?;
            }
        }
        self.close(map, line)?;
        places.keep(line, ins);
        Ok(())
    }

    /// Takes segments off the list behind the place that end at a point, and those of chains that are taken out.
    fn leave(&self, map: &Map, line: &mut Line, p: Point) {
        for _ in 0..map.segments() {
            match line.next() {
                Some(s) if self.is_taken(map, s) || ends_at(map, s, p) => line.take(),
                _ => return,
            }
        }
    }

    /// Puts a segment in at the place behind one that it may follow, unless it is taken out. Those before it that are go.
    fn enter(&mut self, map: &Map, line: &mut Line, s: u32) -> Result<(), AllocError> {
        for _ in 0..map.segments() {
            if self.is_taken(map, s) {
                return Ok(());
            }
            let Some(before) = line.previous() else {
                break;
            };
            if self.is_taken(map, before) {
                take_before(line, before)?;
            } else if are_tested(map, before, s) {
                break;
            } else {
                self.charge(map, before, s);
            }
        }
        line.put(s)
    }

    /// Tests what stands before and behind the place, and takes off what is taken out there.
    fn close(&mut self, map: &Map, line: &mut Line) -> Result<(), AllocError> {
        for _ in 0..map.segments() {
            let Some(before) = line.previous() else {
                return Ok(());
            };
            let Some(behind) = line.next() else {
                return Ok(());
            };
            if self.is_taken(map, before) {
                take_before(line, before)?;
            } else if self.is_taken(map, behind) {
                line.take();
            } else if are_tested(map, before, behind) {
                return Ok(());
            } else {
                self.charge(map, before, behind);
            }
        }
        Ok(())
    }
}
